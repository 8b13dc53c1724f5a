// Repeating behaviours, and which of them a graph makes.
#![tactic(auto)]

ghost use Rattle.std.specs.Prelude.{◌↔◌};
ghost use Rattle.graph.specs.Meaning.{Meaning};
ghost use Rattle.graph.specs.Walks.{Loop};
ghost use Rattle.behaviour.specs.Behaviours.{MakesSome};

use graph::Graph;

// A graph has an accepting loop exactly when it makes some repeating behaviour.
pub fn loops_repeat<G: Graph>(graph: &G)
    ensures { Loop (G.means graph.now) ↔ MakesSome (G.means graph.now) }
{}
