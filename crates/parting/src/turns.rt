// The parts of a table run in order, by either engine: what the runs say, their sum, and the joined model.
ghost use Rattle.std.specs.Prelude.{◌∷◌, [], ◌≡◌, ◌+◌, ◌*◌, ◌<◌, ◌≤◌, length, get_or, replicate};
ghost use Rattle.search.specs.Machine.{Outcome};
ghost use Rattle.problem.specs.Table.{Lawful};
ghost use Rattle.problem.specs.Layout.{problem_in};
ghost use Rattle.lists.specs.Tabulate.{tabulate};
ghost use Rattle.ground.specs.Verdict.{verdict_of, answer_of};
ghost use Rattle.parting.specs.Runs.{run_by};
ghost use Rattle.parting.specs.terms.Labels.{labels_in};
ghost use Rattle.parting.specs.terms.Gathered.{gathered};
ghost use Rattle.parting.specs.terms.Tally.{name_at, Tallied, Counting, Marked, joined_as, Running, Turned, Ran};

use crate::labels::label;
use crate::part::{gather, join, mark};
use ground::verdict::Verdict;

// What the runs made say (0 none, 1 fits, 2 spent), and the sum of their counts.
#[derive(Clone, Copy, Debug, PartialEq, Eq)]
pub struct Tally {
    pub verdict: u8,
    pub count: u64,
}

// The name of the part of a turn, 255 where it has none: clauses without atoms come first, then the lowest predicates.
fn name_at(table: &[u8], labels: &[u8], i: u8) -> u8
    requires lawful { Lawful table.now }
    requires labels_value { (labels.now ≡ labels_in table.now) × (i < get_or table.now 2 0 + get_or table.now 1 0) }
    ensures { result ≡ name_at table.now i }
{
    let count = table[2];
    if i < count {
        let at = 144 + 56 * (i as usize);
        if table[at] + table[at + 1] == 0 {
            return 32 + i;
        }
        return 255;
    }
    let p = i - count;
    if labels[p as usize] == p {
        return p;
    }
    255
}

// The run of a table by either engine; the magic engine writes the rules in memory of its own.
fn run(table: &[u8], magic: bool, answer: &mut [u8], work: &mut [u8]) -> Verdict
    requires lawful { Lawful table.now }
    requires answer_len { (length answer.old ≡ 1024) × (length work.old ≡ 65536) }
    ensures { (result ≡ verdict_of (run_by magic (problem_in table.now))) × (answer.new ≡ answer_of (run_by magic (problem_in table.now)) answer.old) × (work.new ≡ replicate 65536 0) }
{
    if magic {
        let mut rules = [0u8; 16384];
        let reply = magic::alone::run(table, &mut rules, answer, work);
        let verdict = reply.verdict;
        return verdict;
    }
    let reply = relevancy::alone::run(table, answer, work);
    let verdict = reply.verdict;
    verdict
}

// The run of part x, whose bits are joined to those that are there.
fn run_part(
    table: &[u8],
    labels: &[u8],
    marks: &[u8],
    x: u8,
    magic: bool,
    joined: &mut [u8],
    work: &mut [u8],
) -> Verdict
    requires lawful { Lawful table.now }
    requires labels_value { (labels.now ≡ labels_in table.now) × (length marks.now ≡ 1024) }
    requires joined_len { (length joined.old ≡ 1024) × (length work.old ≡ 65536) }
    ensures { (result ≡ verdict_of (run_by magic (gathered table.now x))) × (joined.new ≡ tabulate (joined_as marks.now x (answer_of (run_by magic (gathered table.now x)) (replicate 1024 0)) joined.old) 1024) × (work.new ≡ replicate 65536 0) }
{
    let mut own = [0u8; 4096];
    gather(&mut own, table, labels, x);
    let mut bits = [0u8; 1024];
    let verdict = run(&own, magic, &mut bits, work);
    join(marks, x, &bits, joined);
    verdict
}

// One run more.
fn counted(tally: Tally, verdict: Verdict) -> Tally
    requires { tally.count ≤ 95 * 4294967295 }
    ensures { Counting tally.verdict tally.count verdict result.verdict result.count }
{
    match verdict {
        Verdict::Satisfied(n) => {
            return Tally {
                verdict: tally.verdict,
                count: tally.count + (n as u64),
            };
        }
        Verdict::Refuted(n) => {
            return Tally {
                verdict: 0,
                count: tally.count + (n as u64),
            };
        }
        Verdict::Exhausted(n) => {
            return Tally {
                verdict: 2,
                count: tally.count + (n as u64),
            };
        }
        _ => {}
    }
    tally
}

// Turn i: the run of its part, if it has one.
fn turn(
    table: &[u8],
    labels: &[u8],
    marks: &[u8],
    i: u8,
    magic: bool,
    joined: &mut [u8],
    work: &mut [u8],
    tally: Tally,
) -> Tally
    requires lawful { Lawful table.now }
    requires labels_value { (labels.now ≡ labels_in table.now) × (i < get_or table.now 2 0 + get_or table.now 1 0) }
    requires marked { Marked table.now marks.now × (work.old ≡ replicate 65536 0) }
    requires running { Running magic table.now joined.old i tally.verdict tally.count }
    ensures { Turned magic table.now joined.new (i + 1) result.verdict result.count × (work.new ≡ replicate 65536 0) }
{
    let x = name_at(table, labels, i);
    if x == 255 {
        return tally;
    }
    let verdict = run_part(table, labels, marks, x, magic, joined, work);
    counted(tally, verdict)
}

// All turns, or those up to the first none.
fn run_turns(
    table: &[u8],
    labels: &[u8],
    marks: &[u8],
    magic: bool,
    joined: &mut [u8],
    work: &mut [u8],
) -> Tally
    requires lawful { Lawful table.now }
    requires labels_value { (labels.now ≡ labels_in table.now) × Marked table.now marks.now }
    requires joined_len { (length joined.old ≡ 1024) × (work.old ≡ replicate 65536 0) }
    ensures { Ran magic (problem_in table.now) joined.new result.verdict result.count × (work.new ≡ replicate 65536 0) }
{
    let turns = table[2] + table[1];
    let mut tally = Tally {
        verdict: 1,
        count: 0,
    };
    for i in 0..turns {
        tally = turn(table, labels, marks, i, magic, joined, work, tally);
        if tally.verdict == 0 {
            return tally;
        }
    }
    tally
}

// The runs of a table's parts.
pub fn run_parts(table: &[u8], magic: bool, joined: &mut [u8], work: &mut [u8]) -> Tally
    requires lawful { Lawful table.now }
    requires joined_len { (length joined.old ≡ 1024) × (length work.old ≡ 65536) }
    ensures { Ran magic (problem_in table.now) joined.new result.verdict result.count × (work.new ≡ replicate 65536 0) }
{
    let mut labels = [0u8; 33];
    label(table, &mut labels);
    let mut marks = [0u8; 1024];
    mark(table, &labels, &mut marks);
    lists::zero(work);
    run_turns(table, &labels, &marks, magic, joined, work)
}
