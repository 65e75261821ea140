// What the walks of all engines share: the path in a buffer of its own, the alternatives of a split node, the answers about a place and about a part of the
// walk, and where a session may stand. The walk's contracts are said in specs/terms/ over a record of what differs between engines.
#![tactic(auto)]

pub mod alternatives;
pub mod answer;
pub mod node;
pub mod standing;
