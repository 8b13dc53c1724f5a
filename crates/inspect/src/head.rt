// What the head block says.
ghost use Rattle.std.specs.Prelude.{◌≡◌, ◌*◌, Some};
ghost use Rattle.inspect.specs.Format.{asked_for, no_sort_words, sort_code, sort_words, takes, Stands};

use std::error::Error;
use std::fmt;

#[derive(Clone, Copy, PartialEq, Eq, Debug)]
pub enum Sort {
    Rule,
    Model,
}

// A byte that stands for no sort.
#[derive(Clone, Copy, PartialEq, Eq, Debug)]
pub struct NoSort(pub u8);

// Which sorts a reader takes. It is no Option<Sort>: `None` would read as nothing asked for, and the format's three cases
// have names.
#[derive(Clone, Copy, PartialEq, Eq, Debug)]
pub enum Asked {
    Rule,
    Model,
    Either,
}

#[derive(Clone, Copy, PartialEq, Eq, Debug)]
pub struct Head {
    pub sort: Sort,
    pub locations: u8,
    pub letters: u8,
    pub initial: u8,
    pub accepting: u32,
}

impl TryFrom<u8> for Sort {
    type Error = NoSort;

    ghost try_from_gives = { Stands };

    fn try_from(byte: u8) -> Result<Sort, NoSort> {
        match byte {
            1 => Ok(Sort::Rule),
            2 => Ok(Sort::Model),
            _ => Err(NoSort(byte)),
        }
    }
}

impl From<Sort> for u8 {
    ghost from_gives = { λ s b. b ≡ sort_code s };

    fn from(sort: Sort) -> u8 {
        match sort {
            Sort::Rule => 1,
            Sort::Model => 2,
        }
    }
}

impl fmt::Display for Sort {
    ghost output = { λ s. Some (sort_words s) };

    fn fmt<W: fmt::Write>(&self, f: &mut fmt::Formatter<W>) -> fmt::Result {
        f.write_str(match self {
            Sort::Rule => "rule",
            Sort::Model => "model",
        })
    }
}

impl fmt::Display for NoSort {
    ghost output = { λ e. Some (no_sort_words e) };

    fn fmt<W: fmt::Write>(&self, f: &mut fmt::Formatter<W>) -> fmt::Result {
        write!(f, "no sort has byte {}", self.0)
    }
}

impl Error for NoSort {}

// Who asks for this sort alone.
impl From<Sort> for Asked {
    ghost from_gives = { λ s a. a ≡ asked_for s };

    fn from(sort: Sort) -> Asked {
        match sort {
            Sort::Rule => Asked::Rule,
            Sort::Model => Asked::Model,
        }
    }
}

impl Asked {
    // Whether the reader takes sheets of this sort.
    pub(crate) fn takes(self, sort: Sort) -> bool
        ensures { result ≡ takes self sort }
    {
        match (self, sort) {
            (Asked::Either, _) | (Asked::Rule, Sort::Rule) | (Asked::Model, Sort::Model) => true,
            _ => false,
        }
    }
}

impl Head {
    // How many formulas there can be: one for each location and letter.
    pub fn cells(self) -> usize
        ensures { result ≡ self.locations * self.letters }
    {
        usize::from(self.locations) * usize::from(self.letters)
    }
}
