// Reads one sheet from standard input and prints how an inquiry over it ends, or why the sheet is refused.
#![tactic(auto)]

use anyhow::anyhow;
use bench::ask;
use sheet::error::LoadError;
use stream::read_sheet;

fn inquire(rt: &HostRuntime) -> anyhow::Result<()> {
    let sheet = read_sheet(rt)?;
    match ask(rt.alloc(), sheet.as_slice()) {
        Ok(answer) => println!(rt; "{answer}")?,
        Err(LoadError::Refused(fault)) => println!(rt; "{}", fault.refusal())?,
        Err(LoadError::Memory) => return Err(anyhow!("no memory for the inquiry")),
    }
    Ok(())
}

fn main(rt: HostRuntime) -> anyhow::Result<()> {
    inquire(&rt)
}
