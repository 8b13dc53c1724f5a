// A small graph with a true order: an inquiry over it fills its tables, goes on in longer ones, and ends either way.
#![tactic(auto)]

ghost use Rattle.std.specs.Prelude.{◌≡◌};
ghost use Rattle.toy_graph.specs.Chain.{chain_means, moves as is_moving};
ghost use Rattle.toy_graph.specs.Laws.{chain_lawful};

use graph::Graph;

#[cfg(test)]
mod searches;
#[cfg(test)]
mod tests;

// State 0 accepts and steps to itself under letter 0. Under letter 1 the states 1, 2 and 3 step to the one before.
// State 4 is above these three and steps nowhere.
#[derive(Clone, Copy)]
pub struct Chain {
    // the start is 4, and else 3
    pub stuck: bool,
}

// Whether a state has a step under the letter.
fn moves(letter: u8, a: u8) -> bool
    ensures { result ≡ is_moving letter a }
{
    (letter == 0 && a == 0) || (letter == 1 && a >= 1 && a <= 3)
}

impl Graph for Chain {
    type State = u8;

    ghost means = { λ g. chain_means g.stuck };

    ghost lawful = { λ g. chain_lawful g.stuck };

    fn letters(&self) -> u8 {
        2
    }

    fn start(&self) -> u8 {
        if self.stuck { 4 } else { 3 }
    }

    fn accepts(&self, a: u8) -> bool {
        a == 0
    }

    fn below(&self, a: u8, b: u8) -> bool {
        a == b || (b == 4 && a >= 1 && a <= 3)
    }

    fn tops(&self) -> u32 {
        3
    }

    // The second is above the first.
    fn top(&self, i: u32) -> u8 {
        match i {
            0 => 1,
            1 => 4,
            _ => 0,
        }
    }

    fn slots(&self) -> u32 {
        4
    }

    // Slot i holds i if it steps to a state below b.
    fn slot(&self, letter: u8, b: u8, i: u32) -> Option<u8> {
        if i >= 4 {
            return None;
        }
        let a = i as u8;
        (moves(letter, a) && self.below(a.saturating_sub(1), b)).then_some(a)
    }
}
