// A sheet of either sort: the sort that is found decides.
ghost use Rattle.sheet.specs.Either.{Read, automaton_content, automaton_valid};

use crate::error::LoadError;
use crate::faultless::Faultless;
use crate::model::Model;
use crate::rule::Rule;
use formula::token::Token;
use inspect::head::{Asked, Head, Sort};
use layout::source::Source;
use std::alloc::Global;

#[derive(PartialEq, Debug, Drop)]
pub enum Automaton {
    Rule(Rule),
    Model(Model),
}

// The rule or the model that the sheet denotes.
pub fn load(heap: Global, sheet: &[u8]) -> Result<Automaton, LoadError>
    ensures { Read sheet.now result }
{
    let sheet = Faultless::of(Asked::Either, sheet)?;
    match sheet.head.sort {
        Sort::Rule => Ok(Automaton::Rule(Rule::read(heap, sheet)?)),
        Sort::Model => Ok(Automaton::Model(Model::read(heap, sheet)?)),
    }
}

impl Source for Automaton {
    ghost content = { automaton_content };

    ghost valid = { automaton_valid };

    fn head(&self) -> Head {
        match self {
            Automaton::Rule(rule) => rule.head(),
            Automaton::Model(model) => model.head(),
        }
    }

    fn length(&self, cell: usize) -> usize {
        match self {
            Automaton::Rule(rule) => rule.length(cell),
            Automaton::Model(model) => model.length(cell),
        }
    }

    fn token(&self, cell: usize, i: usize) -> Token {
        match self {
            Automaton::Rule(rule) => rule.token(cell, i),
            Automaton::Model(model) => model.token(cell, i),
        }
    }
}
