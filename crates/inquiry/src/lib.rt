// The inquiry: whether a graph has an accepting loop, found by sweeps over lent tables.
#![tactic(auto)]

mod brought;
pub mod record;
pub mod refusal;
pub mod report;
pub mod standing;
mod sweep;
