// The item at any place of a sheet.
ghost use Rattle.inspect.specs.Items.{ItemIn};

use crate::block::{BLOCK, block_at};
use crate::fault::{BlockFault, Place};
use crate::head::Asked;
use crate::heading::read_head;
use crate::item::{Item, entry_at};

// The item that begins at a place: the head anywhere in block 0, an entry or the end of the entries in any other.
pub fn item_at<'a>(asked: Asked, sheet: &'a [u8], place: Place) -> Result<Item<'a>, BlockFault>
    ensures { ItemIn asked sheet.now place result }
{
    if place.block > 0 {
        return Ok(match entry_at(block_at(sheet, place.block), place)? {
            Some(entry) => Item::Entry {
                location: entry.location,
                letter: entry.letter,
                tokens: entry.tokens,
            },
            None => Item::End,
        });
    }
    let Some(block) = sheet.first_chunk::<BLOCK>() else {
        return Err(BlockFault::Length);
    };
    Ok(Item::Head(read_head(asked, block)?))
}
