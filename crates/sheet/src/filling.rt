// A table filled with the entries of a sheet.
ghost use Rattle.std.specs.Prelude.{◌≡◌, true, List, ◌++◌, map, IfOk, OnOk};
ghost use Rattle.std.specs.List.{AllByRecursion};
ghost use Rattle.inspect.specs.Contents.{contents, entry_of};
ghost use Rattle.inspect.specs.Denotes.{laid};
ghost use Rattle.inspect.specs.Entries.{Placed, entries};
ghost use Rattle.inspect.specs.Format.{body};
ghost use Rattle.sheet.specs.Tables.{formulas};

use crate::faultless::Faultless;
use crate::numbers::cell_number;
use crate::strings::{blank, put};
use crate::table::Table;
use inspect::block::{BLOCK, Block};
use std::alloc::{AllocError, Global};

// The entries of a block, which all fit, each in its cell.
fn fill_block(table: &mut Table, letters: u8, block: Block) -> Result<(), AllocError>
    requires { AllByRecursion (λ e. e.fits ≡ true) (entries block.number 2 (body block.bytes.now)) }
    ensures { OnOk result ((fs : List Placed) → laid letters (formulas table.old) (map entry_of (entries block.entry.number 2 (body block.entry.bytes.now) ++ fs)) ≡ laid letters (formulas table.new) (map entry_of fs)) }
{
    for entry in block.entries() {
        let Ok(entry) = entry else { unreachable!() };
        let cell = cell_number(letters, entry.location, entry.letter);
        put(table, cell, entry.tokens)?;
    }
    Ok(())
}

// The formulas of a sheet, each in its cell.
pub(crate) fn read_table(heap: Global, sheet: Faultless) -> Result<Table, AllocError>
    ensures { IfOk result (λ t. formulas t ≡ (contents sheet.entry.bytes.now).formulas) }
{
    let mut table = blank(heap, sheet.head.cells())?;
    let (blocks, _) = sheet.bytes.as_chunks::<BLOCK>();
    let Some((_, entries)) = blocks.split_first() else {
        unreachable!()
    };
    for (i, bytes) in entries.iter().enumerate() {
        let number = i as u8 + 1;
        fill_block(&mut table, sheet.head.letters, Block { number, bytes })?;
    }
    Ok(table)
}
