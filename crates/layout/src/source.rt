// What can be written as a sheet: a head, and a table of token strings by location and then by letter.
ghost use Rattle.std.specs.Prelude.{◌≡◌, [], length, slice_index_or};
ghost use Rattle.formula.specs.declared.token.Token.TheVariants.{False};
ghost use Rattle.inspect.specs.Denotes.{Content};
ghost use Rattle.layout.specs.Valid.{Valid};

use formula::token::Token;
use inspect::head::Head;

pub trait Source {
    ghost content: { Self → Content };

    fn head(&self) -> Head
        ensures { result ≡ (content self.now).head };

    // How many tokens stand at this cell, location × letters + letter: none past the table's end. (Tokens are asked for by
    // number, since the type of an iterator that borrows from the source would need a lifetime of its own.)
    fn length(&self, cell: usize) -> usize
        ensures { result ≡ length (slice_index_or (content self.now).formulas cell []) };

    // Token i of this cell: past its end, false.
    fn token(&self, cell: usize, i: usize) -> Token
        ensures { result ≡ slice_index_or (slice_index_or (content self.now).formulas cell []) i False };

    fn locations(&self) -> u8
        ensures { result ≡ (content self.now).head.locations }
    {
        self.head().locations
    }

    fn letters(&self) -> u8
        ensures { result ≡ (content self.now).head.letters }
    {
        self.head().letters
    }

    fn initial(&self) -> u8
        ensures { result ≡ (content self.now).head.initial }
    {
        self.head().initial
    }

    // The accepting locations, as a mask.
    fn accepting(&self) -> u32
        ensures { result ≡ (content self.now).head.accepting }
    {
        self.head().accepting
    }

    ghost valid: { (x : Self) → Valid (content x) };
}
