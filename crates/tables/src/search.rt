// An inquiry over a graph, in tables of its places: after open, no call on it is turned down for their lengths.
ghost use Rattle.std.specs.Prelude.{◌≡◌, vec_len};
ghost use Rattle.inquiry.specs.Record.{reported};

use crate::Tables;
use crate::halt::Halt;
use graph::Graph;
use inquiry::record::{Inquiry, MOST_PLACES};
use inquiry::refusal::Refusal;
use inquiry::report::Report;
use inquiry::standing::Standing;
use std::alloc::Global;

// How many places a search has at first.
pub const PLACES: usize = 512;

// The most places that it may be moved to.
pub const MOST: usize = MOST_PLACES;

// How many sweeps it may count.
pub const LIMIT: u32 = 100_000;

#[derive(Drop)]
pub struct Search<'a, G: Graph> {
    pub graph: &'a G,
    pub inquiry: Inquiry,
    pub tables: Tables<G::State>,
    pub ghost long: { vec_len tables.outer ≡ (reported inquiry).places },
}

impl<'a, G: Graph> Search<'a, G> {
    ghost use Rattle.std.specs.Prelude.{IfOk};
    ghost use Rattle.inquiry.specs.Calls.{open_refusal, Turned, Ran};
    ghost use Rattle.inquiry.specs.Course.{Course, Promise, Onward};
    ghost use Rattle.inquiry.specs.Position.{opened};
    ghost use Rattle.tables.specs.Search.{place, halted, Placed, Widened};

    // Begins an inquiry in the tables.
    pub fn open(
        graph: &'a G,
        tables: Tables<G::State>,
        limit: u32,
    ) -> Result<Search<'a, G>, Refusal>
        ensures steps { Turned (open_refusal (vec_len tables.outer) (vec_len tables.outer) (vec_len tables.outer) limit (G.means graph.now).tops) result (Unit {0}) (λ s. place s ≡ opened (G.means graph.now) limit (vec_len tables.outer)) }
        ensures onward { IfOk result (λ s. Placed (G.means graph.now) s × Promise (G.means graph.now) (place s)) }
        ensures graph { IfOk result (λ s. s.graph.now ≡ graph.now) }
    {
        let Tables {
            mut outer,
            inner,
            work,
        } = tables;
        let inquiry = Inquiry::open(graph, &mut outer, &inner, &work, limit)?;
        let tables = Tables { outer, inner, work };
        Ok(Search {
            graph,
            inquiry,
            tables,
        })
    }

    // Sweeps until so many are counted or the inquiry does not run.
    pub fn run(&mut self, budget: u32) -> Result<(), Refusal>
        ensures steps { Turned (halted self.old) result (self.new ≡ self.old) (λ _. Ran (G.means self.old.graph.now) budget (place self.old) (place self.new)) }
        ensures onward { IfOk result (λ _. Onward (G.means self.old.graph.now) (place self.old) (place self.new)) }
        ensures graph { self.new.graph ≡ self.old.graph }
    {
        let Standing::Running = self.report().standing else {
            return Err(Refusal::Stopped);
        };
        let tables = &mut self.tables;
        self.inquiry
            .run(
                self.graph,
                &mut tables.outer,
                &mut tables.inner,
                &mut tables.work,
                budget,
            )
            .unwrap();
        Ok(())
    }

    // Moves a full inquiry to longer tables, where it runs on. No memory is asked for where it is turned down.
    pub fn widen(&mut self, heap: Global, places: usize) -> Result<(), Halt>
        ensures steps { Widened places self.old self.new result }
        ensures onward { IfOk result (λ _. Onward (G.means self.old.graph.now) (place self.old) (place self.new)) }
        ensures graph { self.new.graph ≡ self.old.graph }
    {
        let report = self.report();
        let Standing::Full = report.standing else {
            return Err(Halt::Refused(Refusal::Room));
        };
        if places <= report.places || places > MOST {
            return Err(Halt::Refused(Refusal::Wider));
        }
        let Tables {
            mut outer,
            mut inner,
            work,
        } = Tables::new(heap, self.graph.start(), places)?;
        let tables = &self.tables;
        self.inquiry
            .widen::<G>(&tables.outer, &tables.inner, &mut outer, &mut inner, &work)
            .unwrap();
        self.tables = Tables { outer, inner, work };
        Ok(())
    }

    // What the record says.
    pub fn report(&self) -> Report
        ensures is { result ≡ reported self.now.inquiry }
        ensures onward { Course (G.means self.now.graph.now) (place self.now) → Promise (G.means self.now.graph.now) (place self.now) }
    {
        self.inquiry.report::<G>()
    }
}
