// The rule of two locations, its slots and its inquiries, and rules that are all or nothing.
use crate::search::{concluded, search};
use crate::sheets::{rule, sheet};
use formula::set::contains;
use graph::Graph;
use inspect::head::Head;
use rule_graph::RuleGraph;
use rule_graph::masks::Masks;
use sheet::rule::Rule;
use std::alloc::Global;
use std::fmt;

// 0 under a asks for 0 and 1, and under b for 1; 1 under a asks for 1, and under b for what cannot be. 1 accepts.
const EXAMPLE: [u8; 18] = [0, 0, 3, 0, 1, 0x42, 0, 1, 1, 1, 1, 0, 1, 1, 1, 1, 1, 0x41];

fn load(heap: Global, bytes: &[u8]) -> anyhow::Result<RuleGraph> {
    let rule = Rule::from_sheet(heap, bytes)?;
    Ok(RuleGraph { rule })
}

// The locations of a set, and a dash for none.
#[derive(Clone, Copy)]
struct Set(u32);

impl fmt::Display for Set {
    fn fmt<W: fmt::Write>(&self, f: &mut fmt::Formatter<W>) -> fmt::Result {
        if self.0 == 0 {
            return f.write_str("-");
        }
        for l in 0..32u8 {
            if contains(self.0, l) {
                write!(f, "{l}")?;
            }
        }
        Ok(())
    }
}

#[derive(Clone, Copy)]
struct Slot(Option<Masks>);

impl fmt::Display for Slot {
    fn fmt<W: fmt::Write>(&self, f: &mut fmt::Formatter<W>) -> fmt::Result {
        match self.0 {
            Some(Masks { held, owed }) => write!(f, " {}/{}", Set(held), Set(owed)),
            None => f.write_str(" nothing"),
        }
    }
}

fn try_slots(rt: &HostRuntime, graph: &RuleGraph, letter: u8, b: Masks) -> anyhow::Result<()> {
    print!(rt; "slots under {letter} of{}:", Slot(Some(b)))?;
    for i in 0..3 {
        print!(rt; "{}", Slot(graph.slot(letter, b, i)))?;
    }
    println!(rt; "")?;
    Ok(())
}

fn try_rule(
    rt: &HostRuntime,
    name: &'static str,
    head: Head,
    entries: &[u8],
    places: usize,
    limit: u32,
) -> anyhow::Result<()> {
    let bytes = sheet(head, entries);
    let graph = load(rt.alloc(), &bytes)?;
    search(rt, name, &graph, places, limit)?;
    concluded(rt, &graph)
}

fn try_example(rt: &HostRuntime) -> anyhow::Result<()> {
    let graph = load(rt.alloc(), &sheet(rule(2, 2, 2), &EXAMPLE))?;
    let settled = Masks { held: 3, owed: 0 };
    let owing = Masks { held: 3, owed: 1 };
    try_slots(rt, &graph, 0, settled)?;
    try_slots(rt, &graph, 1, settled)?;
    try_slots(rt, &graph, 0, owing)?;
    // masks that are no pair, and letters and slots that are not there
    try_slots(rt, &graph, 0, Masks { held: 2, owed: 1 })?;
    try_slots(rt, &graph, 0, Masks { held: 3, owed: 2 })?;
    try_slots(rt, &graph, 0, Masks { held: 7, owed: 0 })?;
    try_slots(rt, &graph, 9, settled)?;
    try_rule(rt, "example", rule(2, 2, 2), &EXAMPLE, 3, 100)?;
    try_rule(rt, "example", rule(2, 2, 2), &EXAMPLE, 2, 100)?;
    try_rule(rt, "example", rule(2, 2, 2), &EXAMPLE, 3, 8)?;
    try_rule(rt, "example", rule(2, 2, 2), &EXAMPLE, 3, 9)
}

pub fn try_rules(rt: &HostRuntime) -> anyhow::Result<()> {
    try_example(rt)?;
    let stopped = [
        0, 0, 3, 0, 1, 0x42, 0, 1, 1, 1, 1, 0, 1, 0x41, 1, 1, 1, 0x41,
    ];
    try_rule(rt, "1 under a false", rule(2, 2, 2), &stopped, 8, 100)?;
    let always = [0, 0, 1, 0x40];
    try_rule(rt, "true, none accepts", rule(1, 1, 0), &always, 8, 100)?;
    // each asks for itself
    let itself = [0, 0, 1, 0, 1, 0, 1, 1];
    try_rule(rt, "all accept", rule(2, 1, 3), &itself, 8, 100)?;
    try_rule(rt, "none accepts", rule(2, 1, 0), &itself, 8, 100)?;
    try_rule(rt, "no entries", rule(2, 1, 3), &[], 8, 100)?;
    // 32 locations: 0 asks for 31, 31 for 0, and 31 accepts
    let wide = [0, 0, 1, 31, 31, 0, 1, 0];
    try_rule(rt, "32 locations", rule(32, 1, 1 << 31), &wide, 8, 100)?;
    let lost = [0, 0, 1, 31, 31, 0, 3, 0, 30, 0x42];
    try_rule(
        rt,
        "32 locations, one missing",
        rule(32, 1, 1 << 31),
        &lost,
        8,
        100,
    )
}
