// Fitting by the staged engine, for a host in C: one number comes back, without a deepest figure.
ghost use Rattle.std.specs.Prelude.{◌≡◌};
ghost use Rattle.relevancy.specs.Engine.{fit_work};
ghost use Rattle.staged.specs.Engine.{staged_result, staged_answer};
ghost use Rattle.lutsamik.specs.Pack.{pack_staged};

use crate::pack_verdict;
use ground::verdict::Verdict;

fn pack_staged(v: Verdict) -> u64
    ensures { result ≡ pack_staged v }
{
    pack_verdict(v, 0)
}

// Fits a table by the staged engine, with 1,024 answer bytes and 65,536 to work in.
#[unsafe(no_mangle)]
pub extern "C" fn lutsamik_fit_staged(table: &[u8], answer: &mut [u8], work: &mut [u8]) -> u64
    ensures { (result ≡ pack_staged (staged_result table.now answer.old work.old)) × (answer.new ≡ staged_answer table.now answer.old work.old) × (work.new ≡ fit_work table.now answer.old work.old) }
{
    pack_staged(staged::fit::fit(table, answer, work))
}
