// The pursuit: an inquiry run to its end, in tables that grow where they are full.
#![tactic(auto)]

ghost use Rattle.std.specs.Prelude.{◌≡◌, vec_items};
ghost use Rattle.inquiry.specs.Record.{reported};
ghost use Rattle.tables.specs.Search.{Placed};
ghost use Rattle.pursuit.specs.Pursued.{Exhausted, Outcome};

use graph::Graph;
use inquiry::report::Report;
use inquiry::standing::Standing;
use std::alloc::Global;
use tables::Tables;
use tables::halt::Halt;
use tables::search::{LIMIT, MOST, PLACES, Search};

// How many sweeps are made before the watch is told.
const BUDGET: u32 = 1000;

// Is told what happens, as it happens.
pub trait Watch {
    // After every run, also where the inquiry runs on.
    fn stopped(&mut self, report: Report);

    // After the tables were made longer.
    fn widened(&mut self, places: usize);
}

// Runs the inquiry until it does not run.
fn exhaust<G: Graph, W: Watch>(search: &mut Search<'_, G>, watch: &mut W) -> Report
    requires { Placed (G.means search.old.graph.now) search.old }
    ensures is { result ≡ reported search.new.inquiry }
    ensures stops { Exhausted (G.means search.old.graph.now) (reported search.old.inquiry) result (vec_items search.new.tables.outer) (vec_items search.new.tables.inner) }
    ensures graph { search.new.graph ≡ search.old.graph }
{
    loop {
        let report = search.report();
        let Standing::Running = report.standing else {
            return report;
        };
        search.run(BUDGET).unwrap();
        watch.stopped(search.report());
    }
}

// An inquiry over the graph, pursued to its end: the report where nothing runs, and where no longer tables can help it if it
// is full. An error says why it was not opened, or that memory was wanting, at first or for longer tables.
pub fn pursue<G: Graph, W: Watch>(heap: Global, graph: &G, watch: &mut W) -> Result<Report, Halt>
    ensures { Outcome (G.means graph.now) result }
{
    let tables = Tables::new(heap, graph.start(), PLACES)?;
    let mut search = Search::open(graph, tables, LIMIT)?;
    loop {
        let report = exhaust(&mut search, watch);
        let Standing::Full = report.standing else {
            return Ok(report);
        };
        if report.places >= MOST {
            return Ok(report);
        }
        let places = (2 * report.places).min(MOST);
        search.widen(heap, places)?;
        watch.widened(places);
    }
}
