// Formulas over locations: tokens, their value against a set, and the formulas that are an or of locations.
#![tactic(auto)]

pub mod evaluate;
pub mod set;
mod stack;
pub mod token;
pub mod union;
