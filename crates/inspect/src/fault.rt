// What is wrong with a sheet, and where. Each layer has its own faults and carries those of the layer below.
ghost use Rattle.std.specs.Prelude.{◌≡◌};
ghost use Rattle.inspect.specs.Refusals.{block_refusal};
ghost use Rattle.inspect.specs.declared.fault.BlockFault.TheVariants.{Entry as InEntry};
ghost use Rattle.inspect.specs.declared.fault.EntryFault.TheVariants.{Formula as InFormula};

use std::error::Error;

#[derive(Clone, Copy, PartialEq, Eq, Debug)]
pub struct Place {
    pub block: u8,
    pub byte: u16,
}

#[derive(Clone, Copy, PartialEq, Eq, Debug)]
pub enum FormulaFault {
    // a byte that stands for no token, a token that the sort does not allow, or a location that the head lacks
    Token(Place),
    // a connective short of two values, a 33rd value, or not exactly one value left
    Waiting(Place),
}

#[derive(Clone, Copy, PartialEq, Eq, Debug)]
pub enum EntryFault {
    // a location or letter that the head lacks, no tokens, past byte 509, or out of order
    Entry(Place),
    // more tokens in all than a sheet may have
    Tokens(Place),
    Formula(FormulaFault),
}

#[derive(Clone, Copy, PartialEq, Eq, Debug)]
pub enum BlockFault {
    // not 1 to 64 blocks
    Length,
    // a block's check is not the one of its bytes
    Check(Place),
    // a block states another kind, or another number
    Kind(Place),
    // a field of the head out of its range, or a sort that is not asked for
    Head(Place),
    Entry(EntryFault),
}

impl Error for FormulaFault {}

impl Error for EntryFault {}

impl Error for BlockFault {}

// By hand, since a derived `From` has no contract, and clauses name the fault that a `?` makes.
impl From<FormulaFault> for EntryFault {
    ghost from_gives = { λ f r. r ≡ InFormula f };

    fn from(fault: FormulaFault) -> EntryFault {
        EntryFault::Formula(fault)
    }
}

// By hand for the same reason.
impl From<EntryFault> for BlockFault {
    ghost from_gives = { λ f r. r ≡ InEntry f };

    fn from(fault: EntryFault) -> BlockFault {
        BlockFault::Entry(fault)
    }
}

#[derive(Clone, Copy, PartialEq, Eq, Debug)]
pub enum Layer {
    Block,
    Entry,
    Formula,
}

// A fault by its layer, its number and its place. The number is the one that the format gives it, and is printed.
#[derive(Clone, Copy, PartialEq, Eq, Debug)]
pub struct Refusal {
    pub layer: Layer,
    pub number: u8,
    pub place: Place,
}

impl BlockFault {
    // The fault by its number, whichever layer found it.
    pub fn refusal(self) -> Refusal
        ensures { result ≡ block_refusal self }
    {
        let (layer, number, place) = match self {
            BlockFault::Length => (Layer::Block, 1, Place { block: 0, byte: 0 }),
            BlockFault::Check(place) => (Layer::Block, 2, place),
            BlockFault::Kind(place) => (Layer::Block, 3, place),
            BlockFault::Head(place) => (Layer::Block, 4, place),
            BlockFault::Entry(EntryFault::Entry(place)) => (Layer::Entry, 5, place),
            BlockFault::Entry(EntryFault::Formula(FormulaFault::Token(place))) => (
                Layer::Formula,
                6,
                place,
            ),
            BlockFault::Entry(EntryFault::Formula(FormulaFault::Waiting(place))) => (
                Layer::Formula,
                7,
                place,
            ),
            BlockFault::Entry(EntryFault::Tokens(place)) => (Layer::Entry, 8, place),
        };
        Refusal {
            layer,
            number,
            place,
        }
    }
}
