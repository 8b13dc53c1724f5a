// A rule and a model, each written and read again.
use crate::model::Model;
use crate::rule::Rule;
use inspect::block::BLOCK;
use std::test::Fail;

#[test]
fn reads_a_written_rule(rt: HostRuntime) -> Result<(), Fail> {
    let rule = Rule::fresh(rt.alloc())?;
    let mut sheet = [0u8; BLOCK];
    assert_eq!(rt; rule.write(&mut sheet), Ok(BLOCK));
    assert_eq!(rt; Rule::from_sheet(rt.alloc(), &sheet), Ok(rule));
    Ok(())
}

#[test]
fn reads_a_written_model(rt: HostRuntime) -> Result<(), Fail> {
    let model = Model::fresh(rt.alloc())?;
    let mut sheet = [0u8; BLOCK];
    assert_eq!(rt; model.write(&mut sheet), Ok(BLOCK));
    assert_eq!(rt; Model::from_sheet(rt.alloc(), &sheet), Ok(model));
    Ok(())
}
