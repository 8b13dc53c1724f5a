// An inquiry in a few places, moved to one place more where it is full.
use bench::{Answer, ask};
use graph::Graph;
use inquiry::report::Report;
use inquiry::standing::Standing;
use std::alloc::Global;
use tables::Tables;
use tables::search::{LIMIT, PLACES, Search};

fn print_report(rt: &HostRuntime, name: &'static str, report: Report) -> anyhow::Result<()> {
    println!(rt;
        "{name}, {} places, limit {}: {}, round {}, sweep {}, count {}",
        report.places, report.limit, report.standing, report.round, report.sweep, report.count
    )?;
    Ok(())
}

// An inquiry opened in so many places and run.
fn begun<'a, G: Graph>(
    heap: Global,
    graph: &'a G,
    places: usize,
    limit: u32,
) -> anyhow::Result<Search<'a, G>> {
    let tables = Tables::new(heap, graph.start(), places)?;
    let mut search = Search::open(graph, tables, limit)?;
    search.run(limit)?;
    Ok(search)
}

// Name, places and limit are three parameters: a struct would name each of them again at every call.
pub fn search<G: Graph>(
    rt: &HostRuntime,
    name: &'static str,
    graph: &G,
    places: usize,
    limit: u32,
) -> anyhow::Result<()> {
    let mut search = begun(rt.alloc(), graph, places, limit)?;
    let report = search.report();
    print_report(rt, name, report)?;
    let Standing::Full = report.standing else {
        return Ok(());
    };
    let more = report.places.saturating_add(1);
    search.widen(rt.alloc(), more)?;
    search.run(limit)?;
    print_report(rt, name, search.report())
}

fn print_asked(rt: &HostRuntime, answer: Answer) -> anyhow::Result<()> {
    println!(rt; "    asked: {answer}")?;
    Ok(())
}

// As the bench asks a model.
pub fn asked(rt: &HostRuntime, bytes: &[u8]) -> anyhow::Result<()> {
    print_asked(rt, ask(rt.alloc(), bytes)?)
}

// In as many places and under the limit that the bench has. The bench takes no rules.
pub fn concluded<G: Graph>(rt: &HostRuntime, graph: &G) -> anyhow::Result<()> {
    let search = begun(rt.alloc(), graph, PLACES, LIMIT)?;
    print_asked(rt, Answer::from(search.report()))
}
