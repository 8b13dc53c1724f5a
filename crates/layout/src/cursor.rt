// Where the next entry goes: into the block that is open, behind what its body holds so far.
ghost use Rattle.std.specs.Prelude.{◌≡◌, ◌+◌, ◌<◌, ◌≤◌, nat_le};
ghost use Rattle.layout.specs.Cursors.{Spot, position, advanced};

use inspect::block::BLOCK;
use std::marker::Model;

// How many bytes lie in a block between its number and its check.
pub(crate) const BODY: usize = 508;

#[derive(Clone, Copy)]
pub(crate) struct Cursor {
    pub(crate) block: u8,
    pub(crate) used: usize,
}

// Clauses see a record of the same fields, so that a definition can make one without a proof that it is within a body.
impl Model for Cursor {
    ghost Value = { Spot };

    ghost view = { λ c. record { block = c.block; used = c.used } };

    ghost invariant = { λ c. c.used ≤ 508 };

    ghost inverse = { λ s. record { block = s.block; used = s.used } };
}

// The head leaves no room in its block: an entry opens the next, and a sheet without entries ends here.
pub(crate) const BEHIND_HEAD: Cursor = Cursor {
    block: 0,
    used: BODY,
};

impl Cursor {
    // Where the body's next byte lies in the sheet.
    pub(crate) fn at(self) -> usize
        ensures { result ≡ position self }
    {
        usize::from(self.block) * BLOCK + (2 + self.used)
    }

    // Whether an entry of this many bytes ends before the block's check.
    pub(crate) fn fits(self, entry: usize) -> bool
        ensures { result ≡ nat_le (self.used + entry) 508 }
    {
        entry <= BODY - self.used
    }

    // The cursor behind such an entry, which opens a block where it does not fit.
    pub(crate) fn after(self, entry: usize) -> Cursor
        requires short { entry ≤ 508 }
        requires few { self.block < 255 }
        ensures { result ≡ advanced self entry }
    {
        if self.fits(entry) {
            Cursor {
                block: self.block,
                used: self.used + entry,
            }
        } else {
            Cursor {
                block: self.block + 1,
                used: entry,
            }
        }
    }
}
