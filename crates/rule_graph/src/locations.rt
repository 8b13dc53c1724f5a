// The sets of locations from which the graph of a rule is made, as masks.
ghost use Rattle.std.specs.Prelude.{◌≡◌};
ghost use Rattle.sheet.specs.Rules.{rule_content};
ghost use Rattle.rule_graph.specs.Alternating.{alternating};
ghost use Rattle.rule_graph.specs.RuleGraph.{all, part, satisfied as satisfied_by, unsettled as unsettled_set};

use layout::source::Source;
use sheet::rule::Rule;

// Whether each member of the first set is one of the second.
pub(crate) fn within(a: u32, b: u32) -> bool
    ensures { result ≡ part a b }
{
    a & b == a
}

// All the locations.
pub(crate) fn everything(rule: &Rule) -> u32
    ensures { result ≡ all (alternating (rule_content rule.now)) }
{
    let locations = rule.locations();
    if locations == 32 {
        u32::MAX
    } else {
        (1 << locations) - 1
    }
}

// The locations of a set that are not accepting.
pub(crate) fn unsettled(rule: &Rule, set: u32) -> u32
    ensures { result ≡ unsettled_set (alternating (rule_content rule.now)) set }
{
    set & everything(rule) & !rule.accepting()
}

// The locations whose formula under the letter the set satisfies.
pub(crate) fn satisfied(rule: &Rule, letter: u8, set: u32) -> u32
    ensures { result ≡ satisfied_by (alternating (rule_content rule.now)) letter set }
{
    // A filter and a fold in place of this loop take a fifth more time and more, and a search spends most of its time here.
    let mut found = 0;
    for l in 0..rule.locations() {
        if rule.satisfied(l, letter, set) {
            found |= 1 << l;
        }
    }
    found
}
