// A lawful table, lent: what a function past the checks reads.
use std::marker::Model;

// The 4,096 bytes of a table that keeps every bound. A contract sees the bytes alone.
#[derive(Drop)]
pub struct Table<'a> {
    pub bytes: &'a [u8],
}

impl<'a> Model for Table<'a> {
    ghost use Rattle.std.specs.Prelude.{List, ℕ};
    ghost use Rattle.problem.specs.Table.{Lawful};

    ghost Value = { List ℕ };

    ghost view = { λ t. t.bytes.now };

    ghost invariant = { λ t. Lawful t.bytes.now };
}
