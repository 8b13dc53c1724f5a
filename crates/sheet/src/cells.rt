// What stands under a head, in a cell for each location and letter: formulas in a rule, sets of successors in a model.
ghost use Rattle.std.specs.Prelude.{◌≡◌, Bool, true, List, [], length, IfOk, slice_index_or};
ghost use Rattle.formula.specs.declared.token.Token.{Token};
ghost use Rattle.formula.specs.declared.token.Token.TheVariants.{False};
ghost use Rattle.inspect.specs.declared.head.Head.{Head};
ghost use Rattle.inspect.specs.declared.head.Sort.{Sort};
ghost use Rattle.inspect.specs.Contents.{contents};
ghost use Rattle.inspect.specs.Denotes.{Content};
ghost use Rattle.layout.specs.Valid.{Valid, is_valid};
ghost use Rattle.sheet.specs.Automata.{fresh, with_formulas};

use crate::faultless::Faultless;
use formula::token::Token;
use inspect::head::{Head, Sort};
use std::alloc::{AllocError, Global};

pub trait Cells: Drop {
    // The sort of their sheets.
    ghost sort: { Sort };

    // The formulas that are written for them under a head.
    ghost formulas: { Head → Self → List (List Token) };

    // Whether they name locations of the head alone.
    ghost fits: { Head → Self → Bool };

    // What they are, under a head, of what a sheet denotes.
    ghost Holds: { Head → Self → Content → Type 0 };

    fn sort() -> Sort
        ensures { result ≡ sort };

    // One cell, with nothing in it.
    fn blank(heap: Global) -> Result<Self, AllocError>
        ensures { IfOk result (λ x. Holds (fresh sort).head x (fresh sort)) };

    // Those of a sheet.
    fn read(heap: Global, sheet: Faultless) -> Result<Self, AllocError>
        ensures { IfOk result (λ x. Holds sheet.entry.head x (contents sheet.entry.bytes.now)) };

    // How many tokens are written for a cell: none past the last.
    fn length(&self, head: Head, cell: usize) -> usize
        ensures { result ≡ length (slice_index_or (formulas head self.now) cell []) };

    // Token i of these: past their end, false.
    fn token(&self, head: Head, cell: usize, i: usize) -> Token
        ensures { result ≡ slice_index_or (slice_index_or (formulas head self.now) cell []) i False };

    // What holds of what a sheet can hold can be written, names locations of the head alone, and is what is read back.
    ghost written: { (h : Head) (x : Self) (c : Content) → Holds h x c → Valid c → is_valid (with_formulas h (formulas h x)) ≡ true };

    ghost fitting: { (h : Head) (x : Self) (c : Content) → Holds h x c → Valid c → fits h x ≡ true };

    ghost own: { (h : Head) (x : Self) → fits h x ≡ true → Holds h x (with_formulas h (formulas h x)) };
}
