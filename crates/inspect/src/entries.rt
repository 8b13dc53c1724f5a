// The entries of a block, one by one, up to their end or to one that would pass byte 509.
ghost use Rattle.std.specs.Prelude.{◌≡◌};
ghost use Rattle.std.specs.Iterator.{item_count};
ghost use Rattle.inspect.specs.Entries.{entries};
ghost use Rattle.inspect.specs.Format.{body};
ghost use Rattle.inspect.specs.Yielded.{NextEntry};

use crate::block::CHECK;
use crate::fault::{EntryFault, Place};
use crate::item::entry_at;
use crate::placed::PlacedEntry;
use std::marker::Model;

// Seen as the entries that are left.
#[derive(Drop)]
pub struct Entries<'a> {
    block: &'a [u8],
    place: Place,
}

impl<'a> Model for Entries<'a> {
    ghost use Rattle.std.specs.Prelude.{◌≤◌, List, take, drop};
    ghost use Rattle.inspect.specs.Entries.{Placed, entries};

    ghost Value = { List Placed };

    ghost view = { λ s. entries s.place.block s.place.byte (drop s.place.byte (take 510 s.block.now)) };

    ghost invariant = { λ s. s.place.byte ≤ 510 };
}

impl<'a> Entries<'a> {
    // All the entries of block k. It takes any bytes, as item_at does, and so no Block, whose bytes are 512.
    pub fn of(k: u8, block: &'a [u8]) -> Entries<'a>
        ensures { result ≡ entries k 2 (body block.now) }
    {
        Entries {
            block,
            place: Place { block: k, byte: 2 },
        }
    }
}

impl<'a> Iterator for Entries<'a> {
    type Item = Result<PlacedEntry<'a>, EntryFault>;

    ghost next_gives = { NextEntry };

    ghost remaining = { item_count (λ es. es) };

    fn next(&mut self) -> Option<Result<PlacedEntry<'a>, EntryFault>> {
        match entry_at(self.block, self.place) {
            Ok(Some(entry)) => {
                self.place.byte += 3 + entry.tokens.len() as u16;
                Some(Ok(entry))
            }
            Ok(None) => None,
            Err(fault) => {
                self.place.byte = CHECK as u16;
                Some(Err(fault))
            }
        }
    }
}
