// Piles of layers under an inquiry, and the refusals of fit.
use crate::sheets::{stay, still, turn};
use graph::Graph;
use inquiry::standing::Standing;
use layer::Layer;
use layer::misfit::Misfit;
use model_graph::ModelGraph;
use sheet::model::Model;
use std::alloc::Global;
use std::process::Abort;
use std::test::Fail;
use tables::Tables;
use tables::search::Search;

// Whether an inquiry ends so, after so many sweeps in its first round.
fn ends<G: Graph>(
    rt: &impl Abort,
    heap: Global,
    graph: &G,
    standing: Standing,
    count: u32,
) -> Result<(), Fail> {
    let tables = Tables::new(heap, graph.start(), 16)?;
    let Ok(mut search) = Search::open(graph, tables, 100) else {
        return Err(Fail::new("open is refused"));
    };
    let Ok(()) = search.run(100) else {
        return Err(Fail::new("run is refused"));
    };
    let report = search.report();
    assert_eq!(rt; report.standing, standing);
    assert!(rt; report.round == 1 && report.count == count);
    Ok(())
}

// A refusal by its number.
fn fit<G: Graph>(layer: &mut Layer<G>, model: Model) -> Result<(), u8> {
    layer.fit(model).map_err(|misfit| misfit.number())
}

#[test]
fn lays_one_model_over_another(rt: HostRuntime) -> Result<(), Fail> {
    let mut layer = Layer::new(ModelGraph {
        model: turn(rt.alloc())?,
    });
    assert_eq!(rt; fit(&mut layer, stay(rt.alloc())?), Ok(()));
    assert!(rt; layer.tops() == 4 && layer.slots() == 4);
    ends(&rt, rt.alloc(), &layer, Standing::Possible, 4)
}

#[test]
fn lays_two_over_one(rt: HostRuntime) -> Result<(), Fail> {
    let mut layer = Layer::new(ModelGraph {
        model: turn(rt.alloc())?,
    });
    assert_eq!(rt; fit(&mut layer, stay(rt.alloc())?), Ok(()));
    let mut pile = Layer::new(layer);
    assert_eq!(rt; fit(&mut pile, stay(rt.alloc())?), Ok(()));
    assert!(rt; pile.tops() == 8 && pile.slots() == 8);
    ends(&rt, rt.alloc(), &pile, Standing::Possible, 4)
}

#[test]
fn does_nothing_over_an_unfitted_layer(rt: HostRuntime) -> Result<(), Fail> {
    let layer = Layer::new(ModelGraph {
        model: turn(rt.alloc())?,
    });
    ends(&rt, rt.alloc(), &layer, Standing::Impossible, 1)?;
    let mut pile = Layer::new(layer);
    assert_eq!(rt; fit(&mut pile, stay(rt.alloc())?), Ok(()));
    assert!(rt; pile.tops() == 2 && pile.slots() == 0);
    ends(&rt, rt.alloc(), &pile, Standing::Impossible, 1)
}

#[test]
fn refuses_other_letters(rt: HostRuntime) -> Result<(), Fail> {
    let mut layer = Layer::new(ModelGraph {
        model: turn(rt.alloc())?,
    });
    assert_eq!(rt; fit(&mut layer, still(rt.alloc(), 32, 2, 145)?), Err(10));
    assert!(rt; layer.tops() == 1);
    Ok(())
}

// 2 × 16 × 2,048 is 65,536.
#[test]
fn refuses_too_many_tops(rt: HostRuntime) -> Result<(), Fail> {
    let mut layer = Layer::new(ModelGraph {
        model: still(rt.alloc(), 32, 1, 140)?,
    });
    assert_eq!(rt; fit(&mut layer, still(rt.alloc(), 32, 1, 140)?), Ok(()));
    assert!(rt; layer.tops() == 2048);
    let mut pile = Layer::new(layer);
    assert_eq!(rt; fit(&mut pile, still(rt.alloc(), 17, 1, 80)?), Err(11));
    assert!(rt; pile.tops() == 1);
    assert_eq!(rt; fit(&mut pile, still(rt.alloc(), 16, 1, 76)?), Ok(()));
    assert!(rt; pile.tops() == 65536);
    Ok(())
}
