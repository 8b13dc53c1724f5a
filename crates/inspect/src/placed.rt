// An entry of a sheet, and the place where it begins.
ghost use Rattle.std.specs.Prelude.{◌+◌, ◌≤◌, length};

use crate::fault::Place;

#[derive(Clone, Copy, PartialEq, Eq, Debug)]
pub struct PlacedEntry<'a> {
    pub place: Place,
    pub location: u8,
    pub letter: u8,
    pub tokens: &'a [u8],
    // it lies before byte 510 of its block
    ghost inside: { place.byte + (3 + length tokens.now) ≤ 510 },
}
