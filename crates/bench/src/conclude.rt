// An inquiry opened and run to its end.
ghost use Rattle.std.specs.Prelude.{◌≤◌, IfOk};
ghost use Rattle.bench.specs.Concludes.{Concludes};

use graph::Graph;
use inquiry::report::Report;
use std::alloc::{AllocError, Global};
use tables::Tables;
use tables::search::{LIMIT, PLACES, Search};

pub(crate) fn conclude<G: Graph>(heap: Global, graph: &G) -> Result<Report, AllocError>
    requires tops { (G.means graph.now).tops ≤ 512 }
    ensures { IfOk result (λ report. Concludes (G.means graph.now) report.standing report.round report.count) }
{
    let tables = Tables::new(heap, graph.start(), PLACES)?;
    let mut search = Search::open(graph, tables, LIMIT).unwrap();
    search.run(u32::MAX).unwrap();
    Ok(search.report())
}
