// Why a call turns its input down, by number.
ghost use Rattle.std.specs.Prelude.{◌≡◌, Some};
ghost use Rattle.inquiry.specs.Refusal.{number as numbered, refusal_words};

use std::error::Error;
use std::fmt;

#[derive(Clone, Copy, Debug, PartialEq, Eq)]
pub enum Refusal {
    // tables unequal, or of no place or more than 4,096
    Tables = 12,
    // a limit of 0
    Limit = 13,
    // more tops than places
    Tops = 14,
    // a table that has not the inquiry's places
    Places = 15,
    // not running
    Stopped = 16,
    // not full
    Room = 17,
    // new tables unequal, not longer, or of more than 4,096 places
    Wider = 18,
}

impl Refusal {
    pub fn number(self) -> u8
        ensures { result ≡ numbered self }
    {
        self as u8
    }
}

impl fmt::Display for Refusal {
    ghost output = { λ r. Some (refusal_words r) };

    fn fmt<W: fmt::Write>(&self, f: &mut fmt::Formatter<W>) -> fmt::Result {
        f.write_str(match self {
            Refusal::Tables => "tables unequal, or of no place or more than 4,096",
            Refusal::Limit => "a limit of 0",
            Refusal::Tops => "more tops than places",
            Refusal::Places => "a table that has not the inquiry's places",
            Refusal::Stopped => "not running",
            Refusal::Room => "not full",
            Refusal::Wider => "new tables unequal, not longer, or of more than 4,096 places",
        })
    }
}

impl Error for Refusal {}
