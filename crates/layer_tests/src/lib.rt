// Layers on examples: what an inquiry finds, and which models are refused.
#![tactic(auto)]

#[cfg(test)]
mod sheets;
#[cfg(test)]
mod tests;
