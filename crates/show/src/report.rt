// What a rule or a model holds, line by line, and whether its sheet written and read again is the same.
use anyhow::anyhow;
use formula::token::Token;
use inspect::MOST_BLOCKS;
use inspect::block::BLOCK;
use inspect::head::Head;
use layout::source::Source;
use layout::write::write;
use sheet::automaton::{Automaton, load};
use sheet::numbers::cell_number;
use std::alloc::{AllocError, Global};
use words::infix::infix;
use words::set::members;

fn show_head(rt: &HostRuntime, head: Head) -> anyhow::Result<()> {
    let Head {
        sort,
        locations,
        letters,
        initial,
        accepting,
    } = head;
    let accepting = members(rt.alloc(), locations, accepting)?;
    println!(rt;
        "sort {sort}, locations {locations}, letters {letters}, initial {initial}, accepting {accepting}"
    )?;
    Ok(())
}

// The tokens that are written for a cell.
fn tokens<S: Source>(heap: Global, source: &S, cell: usize) -> Result<Vec<Token>, AllocError> {
    (0..source.length(cell))
        .map(|i| source.token(cell, i))
        .collect(heap)
}

fn show_entries<S: Source>(rt: &HostRuntime, source: &S) -> anyhow::Result<()> {
    let head = source.head();
    for location in 0..head.locations {
        for letter in 0..head.letters {
            let cell = cell_number(head.letters, location, letter);
            let tokens = tokens(rt.alloc(), source, cell)?;
            if let Some(formula) = infix(rt.alloc(), tokens.as_slice())? {
                println!(rt; "{location} under {letter}: {formula}")?;
            }
        }
    }
    Ok(())
}

pub(crate) fn show<S: Source>(rt: &HostRuntime, source: &S) -> anyhow::Result<()> {
    show_head(rt, source.head())?;
    show_entries(rt, source)
}

pub(crate) fn round_trip(rt: &HostRuntime, automaton: &Automaton) -> anyhow::Result<()> {
    let mut out = vec![in rt.alloc(); 0u8; MOST_BLOCKS * BLOCK]?;
    let Ok(length) = write(automaton, &mut out) else {
        return Err(anyhow!("a sheet is longer than any sheet can be"));
    };
    out.truncate(length);
    let Ok(again) = load(rt.alloc(), out.as_slice()) else {
        return Err(anyhow!("what was written is not read again"));
    };
    let verdict = if again == *automaton {
        "the same"
    } else {
        "another"
    };
    println!(rt; "bytes written: {length}; read again: {verdict}")?;
    Ok(())
}
