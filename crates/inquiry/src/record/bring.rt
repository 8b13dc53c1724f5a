// A sweep with what follows from it in the tables: changed work becomes inner, and inner becomes outer where a round ends.
ghost use Rattle.std.specs.Prelude.{◌≡◌, length, take};
ghost use Rattle.graph.specs.Meaning.{Meaning};
ghost use Rattle.inquiry.specs.Bring.{verdict as verdict_of, Brings};

use super::Inquiry;
use crate::brought::Brought;
use crate::sweep::{copy, sweep};
use antichain::fill::Fill;
use antichain::{covered, within};
use graph::Graph;

// How a round ends, by the former outer states and the present ones.
fn verdict<G: Graph>(graph: &G, former: &[G::State], present: &[G::State]) -> Brought
    ensures { result ≡ verdict_of (G.means graph.now) former.now present.now }
{
    if !covered(graph, graph.start(), present) {
        Brought::Lost
    } else if within(graph, former, present) {
        Brought::Settled
    } else {
        Brought::Shrunk
    }
}

impl Inquiry {
    // Three tables, as in `step`: a struct of their loans would have to promise that it still holds them.
    pub(super) fn bring<G: Graph>(
        &self,
        graph: &G,
        outer: &mut [G::State],
        inner: &mut [G::State],
        work: &mut [G::State],
    ) -> Brought
        requires outer { length outer.old ≡ self.now.report.places }
        requires inner { length inner.old ≡ self.now.report.places }
        requires work { length work.old ≡ self.now.report.places }
        ensures { let r = self.now.report in Brings (G.means graph.now) (length work.old) (take r.outer outer.old) (take r.inner inner.old) r.inner outer.old inner.old outer.new inner.new result }
    {
        let held_outer = &outer[0..self.report.outer];
        let held_inner = &inner[0..self.report.inner];
        let Some(Fill { held, changed }) = sweep(graph, held_outer, held_inner, work) else {
            return Brought::NoPlace;
        };
        if changed {
            copy(&work[0..held], inner);
            return Brought::Gained(held);
        }
        let ended = verdict(graph, held_outer, held_inner);
        copy(held_inner, outer);
        ended
    }
}
