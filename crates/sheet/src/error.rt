// Why a sheet was not loaded.
ghost use Rattle.std.specs.Prelude.{◌≡◌, Some};
ghost use Rattle.sheet.specs.Errors.{load_refusal, load_words};
ghost use Rattle.sheet.specs.declared.error.LoadError.TheVariants.{Refused as RefusedBy, Memory as NoMemory};

use inspect::fault::{BlockFault, Refusal};
use std::alloc::AllocError;
use std::error::Error;
use std::fmt;

// An enum of its own beside the halt of a search, which also is a refusal or want of memory: one type for both would
// have to stand in a crate below inspect and inquiry, which know nothing of each other, for two cases.
#[derive(Clone, Copy, PartialEq, Eq, Debug)]
pub enum LoadError {
    // the sheet's first fault
    Refused(BlockFault),
    // no memory for what the sheet says
    Memory,
}

// Both by hand, since clauses name the error that a `?` makes, and a derived `From` says nothing of it.
impl From<BlockFault> for LoadError {
    ghost from_gives = { λ f r. r ≡ RefusedBy f };

    fn from(fault: BlockFault) -> LoadError {
        LoadError::Refused(fault)
    }
}

impl From<AllocError> for LoadError {
    ghost from_gives = { λ _ r. r ≡ NoMemory };

    fn from(_: AllocError) -> LoadError {
        LoadError::Memory
    }
}

impl fmt::Display for LoadError {
    ghost output = { λ e. Some (load_words e) };

    fn fmt<W: fmt::Write>(&self, f: &mut fmt::Formatter<W>) -> fmt::Result {
        match self {
            LoadError::Refused(fault) => fault.fmt(f),
            LoadError::Memory => f.write_str("no memory for what the sheet says"),
        }
    }
}

impl Error for LoadError {}

impl LoadError {
    // The refusal's layer, number and place: none for want of memory.
    pub fn refusal(self) -> Option<Refusal>
        ensures { result ≡ load_refusal self }
    {
        match self {
            LoadError::Refused(fault) => Some(fault.refusal()),
            LoadError::Memory => None,
        }
    }
}
