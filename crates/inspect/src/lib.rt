// Sheets as bytes: blocks, head and entries, and the first fault of a sheet, if it has one.
#![tactic(auto)]

ghost use Rattle.inspect.specs.Denotes.{OneVerdict};
ghost use Rattle.inspect.specs.Inspected.{Inspected};

pub mod block;
mod blocks;
pub mod entries;
mod entry;
pub mod fault;
mod formulas;
pub mod head;
mod heading;
pub mod item;
pub mod items;
pub mod placed;
pub mod words;

use blocks::Blocks;
use entry::check_entries;
use fault::BlockFault;
use formulas::check_formulas;
use head::{Asked, Head};
use heading::read_head;

// The most blocks that a sheet has.
pub const MOST_BLOCKS: usize = 64;

// The head of a sheet without a fault, of a sort that is asked for, or the sheet's first fault: its length, then its
// blocks one by one, then the fields of its head, then its entries one by one, then the tokens of each.
pub fn inspect(asked: Asked, sheet: &[u8]) -> Result<Head, BlockFault>
    ensures answers { Inspected asked sheet.now result }
    ensures one { OneVerdict asked sheet.now }
{
    let blocks = Blocks::of(sheet)?;
    blocks.check()?;
    let head = read_head(asked, blocks.head)?;
    check_entries(&head, &blocks)?;
    check_formulas(&head, &blocks)?;
    Ok(head)
}
