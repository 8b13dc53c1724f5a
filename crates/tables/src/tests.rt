// Tables with a state in every place.
use crate::Tables;
use std::test::Fail;

#[test]
fn makes_tables_of_copies(rt: HostRuntime) -> Result<(), Fail> {
    let tables = Tables::new(rt.alloc(), 7u8, 3)?;
    assert_eq!(rt; tables.outer.as_slice(), [7, 7, 7].as_slice());
    assert_eq!(rt; tables.inner.as_slice(), [7, 7, 7].as_slice());
    assert_eq!(rt; tables.work.as_slice(), [7, 7, 7].as_slice());
    Ok(())
}

#[test]
fn makes_tables_of_no_place(rt: HostRuntime) -> Result<(), Fail> {
    let tables = Tables::new(rt.alloc(), 7u8, 0)?;
    assert!(rt; tables.outer.is_empty() && tables.inner.is_empty() && tables.work.is_empty());
    Ok(())
}
