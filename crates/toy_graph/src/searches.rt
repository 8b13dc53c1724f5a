// A search over the chain: it goes on in longer tables, and stays as it was where it is turned down.
use crate::Chain;
use inquiry::refusal::Refusal;
use inquiry::standing::Standing;
use std::test::Fail;
use tables::Tables;
use tables::halt::Halt;
use tables::search::Search;

#[test]
fn goes_on_in_longer_tables(rt: HostRuntime) -> Result<(), Fail> {
    let graph = Chain { stuck: false };
    let tables = Tables::new(rt.alloc(), 9, 3)?;
    let Ok(mut search) = Search::open(&graph, tables, 100) else {
        return Err(Fail::new("open is refused"));
    };
    assert_eq!(rt; search.run(100), Ok(()));
    let report = search.report();
    assert_eq!(rt; report.standing, Standing::Full);
    assert!(rt; report.places == 3 && report.count == 3);
    assert_eq!(rt; search.widen(rt.alloc(), 5), Ok(()));
    assert_eq!(rt; search.run(100), Ok(()));
    let report = search.report();
    assert_eq!(rt; report.standing, Standing::Possible);
    assert!(rt; report.places == 5 && report.count == 10 && report.outer == 4);
    assert!(rt; &search.tables.outer[0..4] == [0, 1, 2, 3].as_slice());
    Ok(())
}

#[test]
fn turns_down_where_it_stands(rt: HostRuntime) -> Result<(), Fail> {
    let graph = Chain { stuck: false };
    let tables = Tables::new(rt.alloc(), 9, 3)?;
    let Ok(mut search) = Search::open(&graph, tables, 100) else {
        return Err(Fail::new("open is refused"));
    };
    let opened = search.report();
    assert_eq!(rt;
        search.widen(rt.alloc(), 5),
        Err(Halt::Refused(Refusal::Room))
    );
    assert_eq!(rt; search.report(), opened);
    assert_eq!(rt; search.run(100), Ok(()));
    let full = search.report();
    assert_eq!(rt; search.run(100), Err(Refusal::Stopped));
    for places in [3, 4097] {
        assert_eq!(rt;
            search.widen(rt.alloc(), places),
            Err(Halt::Refused(Refusal::Wider))
        );
    }
    assert_eq!(rt; search.report(), full);
    Ok(())
}

#[test]
fn refuses_too_many_tops(rt: HostRuntime) -> Result<(), Fail> {
    let tables = Tables::new(rt.alloc(), 9, 2)?;
    let Err(Refusal::Tops) = Search::open(&Chain { stuck: false }, tables, 100) else {
        return Err(Fail::new("opened"));
    };
    Ok(())
}
