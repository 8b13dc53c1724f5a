// A state of a rule's graph that was checked against the rule, and what its slots hold.
ghost use Rattle.std.specs.Prelude.{◌≡◌, true, false, MatchOption};
ghost use Rattle.sheet.specs.Rules.{rule_content};
ghost use Rattle.rule_graph.specs.Alternating.{alternating};
ghost use Rattle.rule_graph.specs.RuleGraph.{is_pair, owing_slot, settling as settling_set, slot_of};

use crate::locations::{everything, satisfied, unsettled, within};
use crate::masks::Masks;
use layout::source::Source;
use sheet::rule::Rule;

// The owed set lies inside the held set, and has no accepting location.
#[derive(Clone, Copy)]
pub(crate) struct Pair<'a> {
    rule: &'a Rule,
    masks: Masks,
    ghost pair: { is_pair (alternating (rule_content rule.now)) masks ≡ true },
}

impl<'a> Pair<'a> {
    // The pair that two masks are, if they are one.
    pub(crate) fn of(rule: &'a Rule, masks: Masks) -> Option<Pair<'a>>
        ensures { MatchOption result (is_pair (alternating (rule_content rule.now)) masks ≡ false) (λ p. (p.rule.now ≡ rule.now) × (p.masks ≡ masks)) }
    {
        let Masks { held, owed } = masks;
        // No `then`: its closure would have to require again what is tested here.
        if held <= everything(rule) && within(owed, held) && owed & rule.accepting() == 0 {
            Some(Pair { rule, masks })
        } else {
            None
        }
    }

    // What is owed, joined with the accepting part of what is held.
    fn settling(&self) -> u32
        ensures { result ≡ settling_set (alternating (rule_content self.now.rule.now)) self.now.masks }
    {
        self.masks.owed | self.masks.held & self.rule.accepting()
    }

    // Holding all that the held set satisfies, and owing what is not accepting of what can be settled, unless that is nothing.
    fn owing(&self, letter: u8, settled: u32) -> Option<Masks>
        ensures { result ≡ owing_slot (alternating (rule_content self.now.rule.now)) letter self.now.masks.held settled }
    {
        let owed = unsettled(self.rule, settled);
        if owed == 0 {
            return None;
        }
        Some(Masks {
            held: satisfied(self.rule, letter, self.masks.held),
            owed,
        })
    }

    // Slot 0 holds a state that owes nothing, and slot 1 one that owes something.
    pub(crate) fn slot(&self, letter: u8, i: u32) -> Option<Masks>
        ensures { result ≡ slot_of (alternating (rule_content self.now.rule.now)) letter self.now.masks i }
    {
        let settled = satisfied(self.rule, letter, self.settling());
        match i {
            0 => Some(Masks {
                held: settled,
                owed: 0,
            }),
            1 => self.owing(letter, settled),
            _ => None,
        }
    }
}
