// The items of a sheet: its head, one entry, or the end of a block's entries. An entry's tokens are lent from the sheet.
ghost use Rattle.std.specs.Prelude.{◌+◌, ◌≤◌, length, take, drop};
ghost use Rattle.inspect.specs.Items.{EntryAt};

use crate::block::before_check;
use crate::fault::{EntryFault, Place};
use crate::head::Head;
use crate::placed::PlacedEntry;

#[derive(Clone, Copy, PartialEq, Eq, Debug)]
pub enum Item<'a> {
    Head(Head),
    Entry {
        location: u8,
        letter: u8,
        tokens: &'a [u8],
    },
    End,
}

// The entry that begins at the first of these bytes, which end with byte 509 of their block; none where they end.
fn opened<'a>(rest: &'a [u8], place: Place) -> Result<Option<PlacedEntry<'a>>, EntryFault>
    requires { place.byte + length rest.now ≤ 510 }
    ensures { EntryAt rest.now place result }
{
    match rest {
        [] | [0xff, ..] => Ok(None),
        [location, letter, length, tokens @ ..] if usize::from(*length) <= tokens.len() => Ok(
            Some(PlacedEntry {
                place,
                location: *location,
                letter: *letter,
                tokens: &tokens[..usize::from(*length)],
            }),
        ),
        _ => Err(EntryFault::Entry(place)),
    }
}

// The entry that begins at this place of its block; none where the entries end.
pub(crate) fn entry_at<'a>(
    block: &'a [u8],
    place: Place,
) -> Result<Option<PlacedEntry<'a>>, EntryFault>
    ensures { EntryAt (drop place.byte (take 510 block.now)) place result }
{
    match before_check(block).get(usize::from(place.byte)..) {
        Some(rest) => opened(rest, place),
        None => Ok(None),
    }
}
