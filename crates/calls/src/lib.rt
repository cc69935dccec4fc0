// The peripheral's state and calls on words, for the comparison with the Rust, each call by a number. `compare/words/src/iic.rs` has
// the numbers and says where what lies. A call returns the number of its refusal, 0 for none, and an answer starts with it.
#![tactic(auto)]

pub mod peripheral;
pub mod states;
