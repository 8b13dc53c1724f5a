// A sheet without a fault.
ghost use Rattle.std.specs.Prelude.{◌≡◌, true, Ok, Err, MatchResult};
ghost use Rattle.inspect.specs.Contents.{contents};
ghost use Rattle.inspect.specs.Inspected.{Inspected};
ghost use Rattle.layout.specs.Valid.{is_valid};
ghost use Rattle.sheet.specs.Loads.{Denoted};

use inspect::fault::BlockFault;
use inspect::head::{Asked, Head};
use inspect::inspect;

// The sheet denotes something, which can be written again, and this is its head.
#[derive(Clone, Copy)]
pub struct Faultless<'a> {
    pub(crate) bytes: &'a [u8],
    pub(crate) head: Head,
    ghost denoted: { ∥ Denoted bytes.now head ∥₁ },
    ghost valid: { is_valid (contents bytes.now) ≡ true },
}

impl<'a> Faultless<'a> {
    // The sheet, if it has no fault, or else its first one.
    pub(crate) fn of(asked: Asked, sheet: &'a [u8]) -> Result<Faultless<'a>, BlockFault>
        ensures { MatchResult result (λ s. (s.bytes.now ≡ sheet.now) × Inspected asked sheet.now (Ok s.head)) (λ f. Inspected asked sheet.now (Err f)) }
    {
        let head = inspect(asked, sheet)?;
        Ok(Faultless { bytes: sheet, head })
    }
}
