// What a sheet says, in words.
#![tactic(auto)]

pub mod fault;
pub mod infix;
pub mod set;
