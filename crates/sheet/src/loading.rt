// Rules and models made fresh, loaded from a sheet, and written as a sheet.
ghost use Rattle.std.specs.Prelude.{◌≡◌, IfOk};
ghost use Rattle.inspect.specs.Contents.{contents};
ghost use Rattle.inspect.specs.Format.{asked_for};
ghost use Rattle.layout.specs.Writes.{Writes, ReadsBack};
ghost use Rattle.layout.proofs.Valids.{test_valid};
ghost use Rattle.sheet.specs.Automata.{fresh, with_formulas};
ghost use Rattle.sheet.specs.Loads.{Loaded, ReadAs};

use crate::cells::Cells;
use crate::error::LoadError;
use crate::faultless::Faultless;
use crate::headed::Headed;
use formula::token::Token;
use inspect::head::{Asked, Head};
use layout::source::Source;
use layout::write::{WriteFault, write};
use std::alloc::{AllocError, Global};

impl<C: Cells> Headed<C> {
    // What a sheet of its sort denotes.
    pub(crate) fn read(heap: Global, sheet: Faultless) -> Result<Headed<C>, AllocError>
        requires { sheet.head.sort ≡ C.sort }
        ensures { IfOk result (λ x. C.Holds x.head x.cells (contents sheet.entry.bytes.now)) }
    {
        let cells = C::read(heap, sheet)?;
        Ok(Headed {
            head: sheet.head,
            cells,
        })
    }

    // One location, one letter, initial 0 and nothing else.
    pub fn fresh(heap: Global) -> Result<Headed<C>, AllocError>
        ensures { IfOk result (λ x. C.Holds x.head x.cells (fresh C.sort)) }
    {
        let cells = C::blank(heap)?;
        let head = Head {
            sort: C::sort(),
            locations: 1,
            letters: 1,
            initial: 0,
            accepting: 0,
        };
        Ok(Headed { head, cells })
    }

    // What a sheet denotes, for a reader that asks for this sort alone.
    pub fn from_sheet(heap: Global, sheet: &[u8]) -> Result<Headed<C>, LoadError>
        ensures { ReadAs (asked_for C.sort) sheet.now (λ x c. C.Holds x.head x.cells c) result }
    {
        let sheet = Faultless::of(Asked::from(C::sort()), sheet)?;
        Ok(Headed::read(heap, sheet)?)
    }

    // Becomes what the sheet denotes; where the sheet is refused, or memory is wanting, it stays as it was.
    pub fn load(&mut self, heap: Global, sheet: &[u8]) -> Result<(), LoadError>
        ensures { Loaded (asked_for C.sort) sheet.now (λ x c. C.Holds x.head x.cells c) self.old self.new result }
    {
        *self = Headed::from_sheet(heap, sheet)?;
        Ok(())
    }

    // Writes its sheet, which read again gives this very rule or model, to the front of `out`, and says how long it
    // is; where `out` is too short, no byte of it changes.
    pub fn write(&self, out: &mut [u8]) -> Result<usize, WriteFault>
        ensures writes { Writes (with_formulas self.now.head (C.formulas self.now.head self.now.cells)) out.old out.new result }
        ensures reads_back { ReadsBack (with_formulas self.now.head (C.formulas self.now.head self.now.cells)) }
        ensures same { C.Holds self.now.head self.now.cells (with_formulas self.now.head (C.formulas self.now.head self.now.cells)) }
    {
        write(self, out)
    }
}

impl<C: Cells> Source for Headed<C> {
    ghost content = { λ x. with_formulas x.head (C.formulas x.head x.cells) };

    ghost valid = { λ x. test_valid (with_formulas x.head (C.formulas x.head x.cells)) x.valid };

    fn head(&self) -> Head {
        self.head
    }

    fn length(&self, cell: usize) -> usize {
        self.cells.length(self.head, cell)
    }

    fn token(&self, cell: usize, i: usize) -> Token {
        self.cells.token(self.head, cell, i)
    }

    // A search asks these four at every slot, so each reads its field where it lies, and no head is copied.
    fn locations(&self) -> u8 {
        self.head.locations
    }

    fn letters(&self) -> u8 {
        self.head.letters
    }

    fn initial(&self) -> u8 {
        self.head.initial
    }

    fn accepting(&self) -> u32 {
        self.head.accepting
    }
}
