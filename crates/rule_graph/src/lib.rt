// A rule as a graph: a state is a held set of locations and an owed one, and a slot is found without listing the states.
#![tactic(auto)]

ghost use Rattle.sheet.specs.Rules.{rule_content};
ghost use Rattle.rule_graph.specs.Admission.{Admission};
ghost use Rattle.rule_graph.specs.Alternating.{alternating};
ghost use Rattle.rule_graph.specs.RuleGraph.{rule_means};
ghost use Rattle.rule_graph.specs.Laws.{rule_lawful};
ghost use Rattle.rule_graph.specs.Words.{valid, content_sound};

use graph::Graph;
use layout::source::Source;
use locations::{everything, unsettled, within};
use masks::Masks;
use pair::Pair;
use sheet::rule::Rule;

mod locations;
pub mod masks;
mod pair;

// One that owes nothing, and one that owes something.
const SLOTS: u32 = 2;

#[derive(Drop)]
pub struct RuleGraph {
    pub rule: Rule,
}

impl RuleGraph {
    // The graph makes exactly the behaviours that the rule admits, and has an accepting loop exactly when there is one.
    pub fn admits(&self)
        ensures { Admission (alternating (rule_content self.now.rule)) }
    {}
}

impl Graph for RuleGraph {
    type State = Masks;

    ghost means = { λ g. rule_means (alternating (rule_content g.rule)) };

    ghost lawful = { λ g. let c = rule_content g.rule in rule_lawful (alternating c) (content_sound c (valid g.rule)) };

    fn letters(&self) -> u8 {
        self.rule.letters()
    }

    fn start(&self) -> Masks {
        Masks {
            held: 1 << self.rule.initial(),
            owed: 0,
        }
    }

    fn accepts(&self, a: Masks) -> bool {
        a.settled()
    }

    fn below(&self, a: Masks, b: Masks) -> bool {
        within(a.held, b.held) && within(a.owed, b.owed) && a.settled() == b.settled()
    }

    fn tops(&self) -> u32 {
        if unsettled(&self.rule, everything(&self.rule)) == 0 {
            1
        } else {
            2
        }
    }

    fn top(&self, i: u32) -> Masks {
        let held = everything(&self.rule);
        let owed = if i == 0 {
            0
        } else {
            unsettled(&self.rule, held)
        };
        Masks { held, owed }
    }

    fn slots(&self) -> u32 {
        SLOTS
    }

    fn slot(&self, letter: u8, b: Masks, i: u32) -> Option<Masks> {
        Pair::of(&self.rule, b)?.slot(letter, i)
    }
}
