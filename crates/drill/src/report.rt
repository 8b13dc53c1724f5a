// What becomes of a sheet: a line for each.
use crate::draft::{Draft, at};
use crate::example::example;
use anyhow::anyhow;
use inspect::head::Head;
use layout::source::Source;
use sheet::automaton::load;
use sheet::error::LoadError;

// A label, a head, and the blocks of entries behind it.
pub type Sheet<'a> = (&'a str, Head, &'a [&'a [u8]]);

// A label, the block and the byte of each change to the example with what is put there, and the blocks that are sealed
// again after that.
pub type Changes<'a> = (&'a str, &'a [(u8, u16, u8)], &'a [u8]);

// Loads the sheet, and tells what came of it.
pub(crate) fn tell(rt: &HostRuntime, label: &str, draft: &Draft) -> anyhow::Result<()> {
    match load(rt.alloc(), draft.bytes.as_slice()) {
        Ok(automaton) => {
            let sort = automaton.head().sort;
            println!(rt; "{label}: read as a {sort}")?;
        }
        Err(LoadError::Refused(fault)) => {
            let refusal = fault.refusal();
            println!(rt; "{label}: {refusal}")?;
        }
        Err(LoadError::Memory) => return Err(anyhow!("no memory for a sheet")),
    }
    Ok(())
}

pub(crate) fn tell_sheet(rt: &HostRuntime, sheet: Sheet<'_>) -> anyhow::Result<()> {
    let (label, head, bodies) = sheet;
    let mut draft = Draft::begin(rt.alloc(), head)?;
    for body in bodies {
        draft.add(body)?;
    }
    tell(rt, label, &draft)
}

pub(crate) fn tell_sheets(rt: &HostRuntime, sheets: &[Sheet<'_>]) -> anyhow::Result<()> {
    for sheet in sheets {
        tell_sheet(rt, *sheet)?;
    }
    Ok(())
}

pub(crate) fn tell_changes(rt: &HostRuntime, all: &[Changes<'_>]) -> anyhow::Result<()> {
    for (label, changes, sealed) in all {
        let mut draft = example(rt.alloc())?;
        for (block, byte, new) in *changes {
            draft.put(at(*block, *byte), &[*new]);
        }
        for block in *sealed {
            draft.seal(*block);
        }
        tell(rt, label, &draft)?;
    }
    Ok(())
}
