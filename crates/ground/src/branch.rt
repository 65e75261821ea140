// The alternatives of a split that are entered: those that are not equal to an earlier one.
ghost use Rattle.std.specs.Prelude.{cond, ◌≡◌, ◌≤◌, length, take};
ghost use Rattle.lists.specs.Key.{nat_key};
ghost use Rattle.lists.specs.Member.{has};
ghost use Rattle.search.specs.Relevancy.{branches};
ghost use Rattle.ground.specs.terms.Heading.{Headed};
ghost use Rattle.ground.specs.terms.Branching.{SlotsNumbered, slot_numbers, NextOf};

use crate::atom::number_in;

// 1 if a is not among the first n numbers of `seen`, else 0.
fn fresh(seen: &[usize], n: usize, a: usize) -> usize
    requires { (length seen.now ≡ 4) × (n ≤ 4) }
    ensures { result ≡ cond (has nat_key (take n seen.now) a) 0 1 }
{
    for j in 0..n {
        if seen[j] == a {
            return 0;
        }
    }
    1
}

// The alternative that is entered after n others, by the number of its atom, of a split whose `count` alternatives stand from place `first` on, `stride` bytes apart, in bytes that begin as a
// table does. One that is equal to an earlier one is passed over and does not count.
pub fn branch_after(
    bs: &[u8],
    first: usize,
    stride: usize,
    count: usize,
    values: &[u8],
    n: usize,
) -> Option<usize>
    requires headed { Headed bs.now }
    requires slots_numbered { SlotsNumbered bs.now first stride count values.now }
    ensures { NextOf (branches (slot_numbers bs.now first stride values.now count)) n result }
{
    if n >= count {
        return None;
    }
    let mut seen = [0usize; 4];
    let mut found: usize = 0;
    for i in 0..count {
        let a = number_in(bs, first + stride * i, values);
        let more = fresh(&seen, found, a);
        if found + more > n {
            return Some(a);
        }
        seen[found] = a;
        found += more;
    }
    None
}
