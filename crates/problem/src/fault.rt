// Why an operation refuses, and at which line of a text.
ghost use Rattle.std.specs.Prelude.{◌≡◌};
ghost use Rattle.problem.specs.Faults.{fault_number};

// Every refusal, with the number that the papers give it.
#[derive(Clone, Copy, Debug, PartialEq, Eq)]
pub enum Fault {
    // A line with no digits, an odd number or more than 70 of them, a foreign byte, or no end.
    BadLine = 1,
    // A kind of line that is unknown or out of place, or no last line.
    BadKind = 2,
    // A byte that is missing, or bytes left over.
    BadLength = 3,
    BadVersion = 4,
    // A count or an arity outside its range, or a wrong number of clause lines.
    BadCount = 5,
    // A predicate, a constant or an argument that there is none of.
    Unknown = 6,
    // A variable out of the order of first appearance.
    BadNumbering = 7,
    // An alternative's variable that stands in no condition.
    FreeVariable = 8,
    TooManyAtoms = 9,
    // The weights of the clauses, conditions times instances, pass their limit.
    TooManyMarks = 10,
    ShortBuffer = 11,
    // The bytes are no table that some accepted text reads to.
    NoTable = 31,
    // An answer byte that is neither 0 nor 1.
    BadAnswer = 32,
    // The count and the further limit together pass the largest count.
    TooManyEntries = 41,
    // The session is none of the ticket's walk.
    NoSession = 42,
    // The ticket's number of clauses is not the slip's.
    StaleSlip = 43,
    // A clause or a value that the ticket lacks.
    NoInstance = 44,
    // Too many open facts, one that is no atom, or one repeated.
    BadFacts = 45,
}

impl Fault {
    // The number for C, and for the printed line.
    pub fn number(self) -> u8
        ensures { result ≡ fault_number self }
    {
        self as u8
    }

    pub fn at(self, line: u16) -> Refusal
        ensures { result ≡ record { fault = self; line = line } }
    {
        Refusal { fault: self, line }
    }
}

// A refused text: why, and the number of the line, or 0 where no line is at fault.
#[derive(Clone, Copy, Debug, PartialEq, Eq)]
pub struct Refusal {
    pub fault: Fault,
    pub line: u16,
}
