// What a rule is asked: the formula of a location and a letter, and which sets satisfy it.
ghost use Rattle.std.specs.Prelude.{◌≡◌};
ghost use Rattle.formula.specs.Formulas.{Formula, value};
ghost use Rattle.formula.specs.Sets.{has};

use crate::numbers::known_cell;
use crate::rule::Rule;
use crate::strings::tokens_at;
use formula::evaluate::evaluate;
use formula::token::Token;

impl Rule {
    ghost use Rattle.sheet.specs.Rules.{rule_content, formula_of, holds, Means};

    // The tokens for a location and a letter: none where there is no entry.
    pub fn formula(&self, location: u8, letter: u8) -> &[Token]
        ensures { result.now ≡ formula_of (rule_content self.now) location letter }
    {
        match known_cell(&self.head, location, letter) {
            Some(cell) => tokens_at(&self.cells, cell),
            None => &[],
        }
    }

    // Whether a set of locations satisfies the formula for a location and a letter. No set does where there is no entry.
    pub fn satisfied(&self, location: u8, letter: u8, set: u32) -> bool
        ensures value { result ≡ holds (formula_of (rule_content self.now) location letter) set }
        ensures means { (f : Formula) × Means (formula_of (rule_content self.now) location letter) f × (result ≡ value (has set) f) }
    {
        evaluate(self.formula(location, letter), set).unwrap_or(false)
    }
}
