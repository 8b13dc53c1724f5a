// Drills the loader: makes sheets, most of them with one fault, and prints what becomes of each.
#![tactic(auto)]

mod blocks;
mod draft;
mod entries;
mod example;
mod heads;
mod pairs;
mod report;
mod tokens;

use blocks::{CHECKS, KINDS, drill_empty, drill_lengths, drill_low};
use entries::{ENTRIES, ORDER, drill_ends};
use example::drill_example;
use heads::drill_heads;
use pairs::{TWO_IN_BLOCKS, TWO_IN_ENTRIES, drill_two_in_crowds};
use report::{tell_changes, tell_sheets};
use tokens::{CROWDS, TOKENS, VALUES, drill_piles, tell_crowds};

fn drill(rt: &HostRuntime) -> anyhow::Result<()> {
    drill_lengths(rt)?;
    drill_empty(rt)?;
    tell_changes(rt, &CHECKS)?;
    drill_low(rt)?;
    tell_changes(rt, &KINDS)?;
    drill_heads(rt)?;
    tell_sheets(rt, &ENTRIES)?;
    drill_ends(rt)?;
    tell_sheets(rt, &ORDER)?;
    tell_sheets(rt, &TOKENS)?;
    tell_sheets(rt, &VALUES)?;
    drill_piles(rt)?;
    tell_crowds(rt, &CROWDS)?;
    tell_changes(rt, &TWO_IN_BLOCKS)?;
    tell_sheets(rt, &TWO_IN_ENTRIES)?;
    drill_two_in_crowds(rt)?;
    drill_example(rt)
}

fn main(rt: HostRuntime) -> anyhow::Result<()> {
    drill(&rt)
}
