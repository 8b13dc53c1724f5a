// A model: a nondeterministic automaton, with a set of successors for each location and letter.
ghost use Rattle.std.specs.Prelude.{◌≡◌, map};
ghost use Rattle.formula.specs.Unions.{named as names};
ghost use Rattle.inspect.specs.declared.head.Sort.TheVariants.{Model as ModelSort};
ghost use Rattle.layout.specs.Successors.{spelled, with_successors};
ghost use Rattle.sheet.specs.Automata.{small};
ghost use Rattle.std.proofs.Common.{refl, sym, ap, ap₂, ◌∙◌};
ghost use Rattle.layout.specs.Valid.{is_valid};
ghost use Rattle.layout.proofs.Successors.{named_small, named_spelled_back, spelled_is, spelled_valid};
ghost use Rattle.layout.proofs.Valids.{valid_test};

use crate::cells::Cells;
use crate::faultless::Faultless;
use crate::filling::read_table;
use crate::headed::Headed;
use crate::sets::{Sets, named_sets};
use formula::token::Token;
use formula::union::{spelling_length, spelling_token};
use inspect::head::{Head, Sort};
use std::alloc::{AllocError, Global};

pub type Model = Headed<Sets>;

impl Cells for Sets {
    ghost sort = { ModelSort };

    ghost formulas = { λ h sets. (with_successors h sets.items).formulas };

    ghost fits = { λ h sets. small h.locations sets.items };

    ghost Holds = { λ h sets c. (h ≡ c.head) × (sets.items ≡ map names c.formulas) };

    fn sort() -> Sort {
        Sort::Model
    }

    fn blank(heap: Global) -> Result<Sets, AllocError> {
        vec![in heap; 0; 1]
    }

    fn read(heap: Global, sheet: Faultless) -> Result<Sets, AllocError> {
        let table = read_table(heap, sheet)?;
        named_sets(heap, &table)
    }

    fn length(&self, head: Head, cell: usize) -> usize {
        self.get(cell)
            .map_or(0, |set| spelling_length(head.locations, *set))
    }

    fn token(&self, head: Head, cell: usize, i: usize) -> Token {
        self.get(cell).map_or(Token::False, |set| spelling_token(head.locations, *set, i))
    }

    ghost written = { λ _ _ c is v. ap is_valid (ap₂ with_successors is.0 is.1 ∙ sym (spelled_is c)) ∙ valid_test (spelled c) (spelled_valid c v) };

    ghost fitting = { λ _ _ c is v. ap₂ small (ap (λ h. h.locations) is.0) is.1 ∙ named_small c v };

    ghost own = { λ h sets fit. (refl, sym (named_spelled_back h sets.items fit)) };
}
