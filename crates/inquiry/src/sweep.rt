// One sweep over lent tables, and the tops of an opening: every state goes in by the one rule of adding.
ghost use Rattle.std.specs.Prelude.{◌≡◌, ◌≤◌, Bool, [], length, take, IfSome};
ghost use Rattle.graph.specs.Adding.{unchanged, filled};
ghost use Rattle.graph.specs.Candidates.{found_from, all_tops, candidates};
ghost use Rattle.graph.specs.Meaning.{Meaning};
ghost use Rattle.antichain.specs.Fill.{table_of, tabled};
ghost use Rattle.inquiry.specs.Pass.{Decided};

use antichain::add;
use antichain::fill::Fill;
use graph::Graph;

// Copies all of the first to the front of the second.
pub(crate) fn copy<T: Copy>(from: &[T], to: &mut [T])
    requires { length from.now ≤ length to.old }
    ensures { take (length from.now) to.new ≡ from.now }
{
    to[0..from.len()].copy_from_slice(from);
}

// The states found that pass are added, by rising letter, held state in order and rising slot.
fn add_found<G: Graph, F: Fn(G::State) -> bool>(
    graph: &G,
    from: &[G::State],
    pass: F,
    work: &mut [G::State],
    mut fill: Fill,
) -> Option<Fill>
    requires callable { F.IsAlwaysCallable pass }
    requires held { fill.held ≤ length work.old }
    ensures fills { (test : G.State → Bool) → Decided (F.post pass) test → tabled result work.new ≡ filled (G.means graph.now).below (length work.old) (found_from (G.means graph.now) test from.now) (table_of fill work.old) }
    ensures fits { IfSome result (λ f. f.held ≤ length work.new) }
{
    for letter in 0..graph.letters() {
        for b in from {
            // read once, and not again at each slot
            let b = *b;
            for i in 0..graph.slots() {
                if let Some(c) = graph.slot(letter, b, i) {
                    if pass(c) {
                        fill = add(graph, work, fill, c)?;
                    }
                }
            }
        }
    }
    Some(fill)
}

// Inner is copied to work; every state found from inner is added, then the accepting ones from outer.
pub(crate) fn sweep<G: Graph>(
    graph: &G,
    outer: &[G::State],
    inner: &[G::State],
    work: &mut [G::State],
) -> Option<Fill>
    requires { length inner.now ≤ length work.old }
    ensures fills { tabled result work.new ≡ filled (G.means graph.now).below (length work.old) (candidates (G.means graph.now) inner.now outer.now) (unchanged inner.now) }
    ensures fits { IfSome result (λ f. f.held ≤ length work.new) }
{
    copy(inner, work);
    let fill = Fill {
        held: inner.len(),
        changed: false,
    };
    let fill = add_found(graph, inner, |_| true, work, fill)?;
    add_found(graph, outer, |c| graph.accepts(c), work, fill)
}

// The tops are added in order to the empty table.
pub(crate) fn tops<G: Graph>(graph: &G, outer: &mut [G::State]) -> Option<Fill>
    ensures fills { tabled result outer.new ≡ filled (G.means graph.now).below (length outer.old) (all_tops (G.means graph.now)) (unchanged []) }
    ensures fits { IfSome result (λ f. f.held ≤ length outer.new) }
{
    let mut fill = Fill {
        held: 0,
        changed: false,
    };
    for i in 0..graph.tops() {
        fill = add(graph, outer, fill, graph.top(i))?;
    }
    Some(fill)
}
