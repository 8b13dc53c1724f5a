// A rule: an alternating automaton, with a formula for each location and letter.
ghost use Rattle.std.specs.Prelude.{◌≡◌, true};
ghost use Rattle.inspect.specs.declared.head.Sort.TheVariants.{Rule as RuleSort};
ghost use Rattle.layout.specs.Valid.{is_valid};
ghost use Rattle.layout.proofs.Valids.{valid_test};
ghost use Rattle.std.proofs.Common.{refl, ap, ◌∙◌};
ghost use Rattle.sheet.specs.Automata.{with_formulas};
ghost use Rattle.sheet.specs.Tables.{formulas};

use crate::cells::Cells;
use crate::faultless::Faultless;
use crate::filling::read_table;
use crate::headed::Headed;
use crate::strings::{blank, tokens_at};
use crate::table::Table;
use formula::token::Token;
use inspect::head::{Head, Sort};
use std::alloc::{AllocError, Global};

pub type Rule = Headed<Table>;

impl Cells for Table {
    ghost sort = { RuleSort };

    ghost formulas = { λ _ t. formulas t };

    ghost fits = { λ _ _. true };

    ghost Holds = { λ h t c. with_formulas h (formulas t) ≡ c };

    fn sort() -> Sort {
        Sort::Rule
    }

    fn blank(heap: Global) -> Result<Table, AllocError> {
        blank(heap, 1)
    }

    fn read(heap: Global, sheet: Faultless) -> Result<Table, AllocError> {
        read_table(heap, sheet)
    }

    fn length(&self, _head: Head, cell: usize) -> usize {
        tokens_at(self, cell).len()
    }

    fn token(&self, _head: Head, cell: usize, i: usize) -> Token {
        tokens_at(self, cell)
            .get(i)
            .copied()
            .unwrap_or(Token::False)
    }

    ghost written = { λ _ _ c same v. ap is_valid same ∙ valid_test c v };

    ghost fitting = { λ _ _ _ _ _. refl };

    ghost own = { λ _ _ _. refl };
}
