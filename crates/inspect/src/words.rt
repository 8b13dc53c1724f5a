// What is wrong with a sheet, in words.
ghost use Rattle.std.specs.Prelude.{◌≡◌, Some};
ghost use Rattle.inspect.specs.Faults.{kind_words, head_words, formula_words, entry_words, words, refusal_words};

use crate::fault::{BlockFault, EntryFault, FormulaFault, Place, Refusal};
use std::fmt;

// The place is what a refusal tells, and its byte says which field it is, so the byte is no number for a kind.
fn of_kind(place: Place) -> &'static str
    ensures { result.now ≡ kind_words place }
{
    match place {
        Place { block: _, byte: 1 } => "the block does not state its own number",
        Place { block: 0, byte: _ } => "the first block is not a head",
        Place { .. } => "the block is not one of entries",
    }
}

// By the byte of the field, as above.
fn of_head(place: Place) -> &'static str
    ensures { result.now ≡ head_words place.byte }
{
    match place.byte {
        2 => "the sort is not one that is asked for",
        3 => "there are not 1 to 32 locations",
        4 => "there are not 1 to 8 letters",
        _ => "the initial location is not one of the locations",
    }
}

fn of_formula(fault: FormulaFault) -> &'static str
    ensures { result.now ≡ formula_words fault }
{
    match fault {
        FormulaFault::Token(_) =>
            "no token of this sort of sheet, or a location that the head lacks",
        FormulaFault::Waiting(_) =>
            "a connective short of two values, a 33rd value, or not exactly one value left",
    }
}

fn of_entry(fault: EntryFault) -> &'static str
    ensures { result.now ≡ entry_words fault }
{
    match fault {
        EntryFault::Entry(_) =>
            "an entry with a location or letter that the head lacks, no tokens, past byte 509, or out of order",
        EntryFault::Tokens(_) => "more than 4096 tokens in all",
        EntryFault::Formula(fault) => of_formula(fault),
    }
}

// The words for a fault, which need no memory.
pub fn in_words(fault: BlockFault) -> &'static str
    ensures { result.now ≡ words fault }
{
    match fault {
        BlockFault::Length => "the length is not 1 to 64 blocks of 512 bytes",
        BlockFault::Check(_) => "the block's check does not match its bytes",
        BlockFault::Kind(place) => of_kind(place),
        BlockFault::Head(place) => of_head(place),
        BlockFault::Entry(fault) => of_entry(fault),
    }
}

impl fmt::Display for FormulaFault {
    ghost output = { λ f. Some (formula_words f) };

    fn fmt<W: fmt::Write>(&self, f: &mut fmt::Formatter<W>) -> fmt::Result {
        f.write_str(of_formula(*self))
    }
}

impl fmt::Display for EntryFault {
    ghost output = { λ f. Some (entry_words f) };

    fn fmt<W: fmt::Write>(&self, f: &mut fmt::Formatter<W>) -> fmt::Result {
        f.write_str(of_entry(*self))
    }
}

impl fmt::Display for BlockFault {
    ghost output = { λ f. Some (words f) };

    fn fmt<W: fmt::Write>(&self, f: &mut fmt::Formatter<W>) -> fmt::Result {
        f.write_str(in_words(*self))
    }
}

impl fmt::Display for Refusal {
    ghost output = { λ r. Some (refusal_words r) };

    fn fmt<W: fmt::Write>(&self, f: &mut fmt::Formatter<W>) -> fmt::Result {
        let Place { block, byte } = self.place;
        write!(f, "refused {} {block} {byte}", self.number)
    }
}
