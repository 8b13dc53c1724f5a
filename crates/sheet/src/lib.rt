// Rules and models: read from sheets and written as sheets.
#![tactic(auto)]

pub mod automaton;
mod cells;
pub mod error;
mod faultless;
mod filling;
mod headed;
mod loading;
pub mod model;
pub mod models;
pub mod numbers;
pub mod rule;
pub mod rules;
mod sets;
mod span;
mod strings;
mod table;
#[cfg(test)]
mod tests;
