// Offering a rule, and setting one that was offered.
ghost use Rattle.std.specs.Prelude.{◌≡◌, ◌≤◌, length};
ghost use Rattle.problem.specs.Table.{Lawful};
ghost use Rattle.offering.specs.terms.Next.{Added};
ghost use Rattle.offering.specs.Offer.{slip_over, offer_result, offer_leaves, set_result, set_leaves};

use crate::next::judge_next;
use adding::append::append;
use problem::fault::Fault;
use writing::lent::taken;

// Fills a slip: the number of clauses seen, how many bytes the frame has, and its bytes, with zeros where it has fewer than 35.
fn fill(slip: &mut [u8], count: u8, frame: &[u8])
    requires { (37 ≤ length slip.old) × (length frame.now ≤ 35) }
    ensures { slip.new ≡ slip_over count frame.now slip.old }
{
    lists::zero(&mut slip[..37]);
    slip[0] = count;
    slip[1] = frame.len() as u8;
    lists::copy(&mut slip[2..37], frame);
}

// Offers the bytes of a clause frame. The table is only looked at; a refusal leaves the slip as it was.
pub fn offer(table: &[u8], frame: &[u8], slip: &mut [u8]) -> Result<(), Fault>
    ensures { (result ≡ offer_result table.now frame.now slip.old) × (slip.new ≡ offer_leaves table.now frame.now slip.old) }
{
    taken(table, slip.len() < 37)?;
    let own = &table[..4096];
    let mut rec = [0u8; 56];
    judge_next(own, frame, &mut rec)?;
    fill(slip, own[2], frame);
    Ok(())
}

// Adds the clause of a frame to a table.
fn add(table: &mut [u8], frame: &[u8]) -> Result<(), Fault>
    requires { Lawful table.old }
    ensures { Added table.old frame.now result table.new }
{
    let mut rec = [0u8; 56];
    judge_next(table, frame, &mut rec)?;
    append(table, &rec);
    Ok(())
}

// Sets the frame that a slip holds. A refusal leaves the table as it was.
pub fn set(table: &mut [u8], slip: &[u8]) -> Result<(), Fault>
    ensures { (result ≡ set_result table.old slip.now) × (table.new ≡ set_leaves table.old slip.now) }
{
    taken(table, slip.len() < 37)?;
    if slip[0] != table[2] {
        return Err(Fault::StaleSlip);
    }
    if 35 < slip[1] {
        return Err(Fault::BadLength);
    }
    let end = 2 + (slip[1] as usize);
    add(&mut table[..4096], &slip[2..end])
}
