// What a text's first line says.

// How many constants and predicates there are.
#[derive(Clone, Copy, Debug, PartialEq, Eq)]
pub struct Sizes {
    pub constants: u8,
    pub predicates: u8,
}
