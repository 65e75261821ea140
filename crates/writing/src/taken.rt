// A lent table that is taken.
ghost use Rattle.std.specs.Prelude.{◌≡◌, ◌<◌, IfOk, IfErr, take};
ghost use Rattle.writing.specs.terms.Lent.{refusal_of};

use crate::lent::refusal;
use problem::table::Table;

// The table in the first 4,096 of the lent bytes, or the number of the refusal.
pub fn taken<'a>(table: &'a [u8], short: bool) -> Result<Table<'a>, u8>
    ensures taken { IfOk result (λ t. (t ≡ take 4096 table.now) × (refusal_of table.now short ≡ 0)) }
    ensures refused { IfErr result (λ e. (e ≡ refusal_of table.now short) × (0 < e)) }
{
    let e = refusal(table, short);
    if 0 < e {
        return Err(e);
    }
    Ok(Table {
        bytes: &table[..4096],
    })
}
