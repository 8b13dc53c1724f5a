// Tries inquiries over small models and rules, in a few places and as the bench asks them.
#![tactic(auto)]

mod models;
mod rules;
mod search;
mod sheets;

use models::try_models;
use rules::try_rules;

fn probe(rt: &HostRuntime) -> anyhow::Result<()> {
    try_models(rt)?;
    try_rules(rt)
}

fn main(rt: HostRuntime) -> anyhow::Result<()> {
    probe(&rt)
}
