// An engine's verdict, and the model that it gives.
ghost use Rattle.std.specs.Prelude.{◌≡◌, [], ◌∷◌, ◌++◌, map, ◌+◌, ◌≤◌, length, take, drop};
ghost use Rattle.search.specs.Relevancy.{model_bits};
ghost use Rattle.lists.specs.Bytes.{is_set, bit};
ghost use Rattle.lists.specs.Digits.{horner};
ghost use Rattle.problem.specs.Problem.{limit_of};
ghost use Rattle.ground.specs.terms.Chosen.{chosen_bit};

use store::holds;

// What an engine says: a refusal's number, or fits, none or spent with the count of entries.
#[derive(Clone, Copy)]
pub enum Verdict {
    Refused(u8),
    Satisfied(u32),
    Refuted(u32),
    Exhausted(u32),
}

// A number of four bytes, the high byte first.
pub fn number_of(a: u8, b: u8, c: u8, d: u8) -> u32
    ensures { result ≡ horner 256 (a ∷ b ∷ c ∷ d ∷ []) }
{
    u32::from_be_bytes([a, b, c, d])
}

// The limit in a table.
pub fn limit_in(table: &[u8]) -> u32
    requires { length table.now ≡ 4096 }
    ensures { result ≡ limit_of (take 4 (drop 4 table.now)) }
{
    number_of(table[4], table[5], table[6], table[7])
}

// Whether atom a is in the model given: it is true, or not relevant.
fn in_model(work: &[u8], a: usize) -> u8
    requires a_bound { 1025 + a ≤ 6149 }
    requires in_bounds { 6150 ≤ length work.now }
    ensures { result ≡ bit (chosen_bit work.now a) }
{
    u8::from(holds(work, a) || !holds(work, 1025 + a))
}

// Puts the model's bits into the answer.
pub fn give(work: &[u8], answer: &mut [u8], atoms: usize)
    requires { (atoms ≤ 1024) × (atoms ≤ length answer.old) × (6150 ≤ length work.now) }
    ensures { answer.new ≡ map bit (model_bits atoms (is_set work.now) (λ a. is_set work.now (1025 + a))) ++ drop atoms answer.old }
{
    for a in 0..atoms {
        answer[a] = in_model(work, a);
    }
}
