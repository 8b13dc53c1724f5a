// What a model is asked: the successors of a location under a letter.
ghost use Rattle.std.specs.Prelude.{◌≡◌};

use crate::model::Model;
use crate::numbers::known_cell;

impl Model {
    ghost use Rattle.sheet.specs.Models.{successors_of};

    // The successors of a location under a letter, as a mask.
    pub fn successors(&self, location: u8, letter: u8) -> u32
        ensures { result ≡ successors_of self.now location letter }
    {
        known_cell(&self.head, location, letter)
            .and_then(|cell| self.cells.get(cell).copied())
            .unwrap_or(0)
    }
}
