// States in a lent table, none below another: what is covered, and the one rule by which a state is added.
#![tactic(auto)]

ghost use Rattle.std.specs.Prelude.{◌≡◌, ℕ, ◌≤◌, true, false, not, length, take, IfSome, None};
ghost use Rattle.graph.specs.Adding.{covered as is_covered, all_covered, staying, put};
ghost use Rattle.graph.specs.Meaning.{Meaning};
ghost use Rattle.antichain.specs.Fill.{table_of, tabled};

use fill::Fill;
use graph::Graph;

pub mod fill;

// Whether c is below one of the states.
pub fn covered<G: Graph>(graph: &G, c: G::State, states: &[G::State]) -> bool
    ensures { result ≡ is_covered (G.means graph.now).below c states.now }
{
    states.iter().any(|b| graph.below(c, *b))
}

// Whether each of the states is below one of the others.
pub fn within<G: Graph>(graph: &G, states: &[G::State], others: &[G::State]) -> bool
    ensures { result ≡ all_covered (G.means graph.now).below states.now others.now }
{
    states.iter().all(|a| covered(graph, *a, others))
}

// Moves the held states that are not below c to the front, in their order, and tells how many they are.
// By index, since a state moves within the slice, and a slice has no `retain`.
fn keep<G: Graph>(graph: &G, table: &mut [G::State], held: usize, c: G::State) -> usize
    requires { held ≤ length table.old }
    ensures few { result ≤ held }
    ensures stay { take result table.new ≡ staying (G.means graph.now).below c (take held table.old) }
    ensures whole { length table.old ≤ result → table.new ≡ table.old }
{
    let mut front = 0;
    for i in 0..held {
        let a = table[i];
        if !graph.below(a, c) {
            table[front] = a;
            front += 1;
        }
    }
    front
}

// Adds c: nothing if it is below a held state; else the held states below it go, and it follows the rest.
// A table that tells of more states than it has places holds as many as it has.
pub fn add<G: Graph>(graph: &G, table: &mut [G::State], fill: Fill, c: G::State) -> Option<Fill>
    ensures put { tabled result table.new ≡ put (G.means graph.now).below (length table.old) c (table_of fill table.old) }
    ensures fits { IfSome result (λ f. f.held ≤ length table.new) }
    // with no place, or with c below a held state, the table is as it was
    ensures full { result ≡ None → table.new ≡ table.old }
    ensures same { is_covered (G.means graph.now).below c (take fill.held table.old) ≡ true → table.new ≡ table.old }
{
    let held = fill.held.min(table.len());
    if covered(graph, c, &table[0..held]) {
        return Some(Fill { held, ..fill });
    }
    let kept = keep(graph, table, held, c);
    if kept == table.len() {
        return None;
    }
    table[kept] = c;
    Some(Fill {
        held: kept + 1,
        changed: true,
    })
}
