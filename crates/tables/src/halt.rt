// Why a search is not opened, or does not go on in longer tables.
ghost use Rattle.std.specs.Prelude.{◌≡◌, Some};
ghost use Rattle.tables.specs.Halts.{halt_words};
ghost use Rattle.tables.specs.declared.halt.Halt.TheVariants.{Refused as RefusedBy, Memory as NoMemory};

use inquiry::refusal::Refusal;
use std::alloc::AllocError;
use std::error::Error;
use std::fmt;

// An enum of its own beside the reasons why a sheet is not loaded: one type for both would have to stand in a crate below
// inspect and inquiry, which know nothing of each other, for two cases.
#[derive(Clone, Copy, PartialEq, Eq, Debug)]
pub enum Halt {
    // the inquiry turned the call down
    Refused(Refusal),
    // no memory for the tables
    Memory,
}

// Both by hand, since a clause names the error that a `?` makes, and a derived `From` says nothing of it.
impl From<Refusal> for Halt {
    ghost from_gives = { λ e r. r ≡ RefusedBy e };

    fn from(refusal: Refusal) -> Halt {
        Halt::Refused(refusal)
    }
}

impl From<AllocError> for Halt {
    ghost from_gives = { λ _ r. r ≡ NoMemory };

    fn from(_: AllocError) -> Halt {
        Halt::Memory
    }
}

impl fmt::Display for Halt {
    ghost output = { λ h. Some (halt_words h) };

    fn fmt<W: fmt::Write>(&self, f: &mut fmt::Formatter<W>) -> fmt::Result {
        match self {
            Halt::Refused(refusal) => refusal.fmt(f),
            Halt::Memory => f.write_str("no memory for the tables"),
        }
    }
}

impl Error for Halt {}
