// The table that a clause line is read against.
ghost use Rattle.clause_line.specs.terms.Record.{Indexed};

// A table that has its constants and its predicates, each with the number of its first atom.
#[derive(Clone, Copy, Debug)]
pub struct Predicates<'a> {
    pub table: &'a [u8],
    pub ghost indexed: { Indexed table.now },
}
