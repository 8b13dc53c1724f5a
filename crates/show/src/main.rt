// Shows what a sheet says: reads one from standard input and prints what it holds, or why it is refused.
#![tactic(auto)]

mod report;

use anyhow::anyhow;
use inspect::block::BLOCK;
use report::{round_trip, show};
use sheet::automaton::load;
use sheet::error::LoadError;
use stream::read_sheet;

fn show_sheet(rt: &HostRuntime) -> anyhow::Result<()> {
    let sheet = read_sheet(rt)?;
    let blocks = sheet.len() / BLOCK;
    match load(rt.alloc(), sheet.as_slice()) {
        Ok(automaton) => {
            println!(rt; "blocks read, each with its check: {blocks}")?;
            show(rt, &automaton)?;
            round_trip(rt, &automaton)
        }
        Err(LoadError::Refused(fault)) => {
            let refusal = fault.refusal();
            println!(rt; "{refusal}: {fault}")?;
            Ok(())
        }
        Err(LoadError::Memory) => Err(anyhow!("no memory for the sheet")),
    }
}

fn main(rt: HostRuntime) -> anyhow::Result<()> {
    show_sheet(&rt)
}
