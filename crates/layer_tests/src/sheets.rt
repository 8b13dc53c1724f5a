// Models for the tests, each from its sheet.
use sheet::model::Model;
use std::alloc::Global;
use std::test::Fail;

fn load(heap: Global, sheet: &[u8]) -> Result<Model, Fail> {
    Ok(Model::from_sheet(heap, sheet)?)
}

// From 0 to 1 and back under one letter; 1 accepts.
pub fn turn(heap: Global) -> Result<Model, Fail> {
    let mut sheet = [0u8; 1024];
    sheet[0..7].copy_from_slice(&[1, 0, 2, 2, 1, 0, 2]);
    sheet[510] = 34;
    sheet[512..523].copy_from_slice(&[2, 1, 0, 0, 1, 1, 1, 0, 1, 0, 0xff]);
    sheet[1022..1024].copy_from_slice(&[0x14, 0x0b]);
    load(heap, &sheet)
}

// One location that accepts and steps to itself under one letter.
pub fn stay(heap: Global) -> Result<Model, Fail> {
    let mut sheet = [0u8; 1024];
    sheet[0..7].copy_from_slice(&[1, 0, 2, 1, 1, 0, 1]);
    sheet[510] = 23;
    sheet[512..519].copy_from_slice(&[2, 1, 0, 0, 1, 0, 0xff]);
    sheet[1022..1024].copy_from_slice(&[0x02, 0x07]);
    load(heap, &sheet)
}

// So many locations and letters, with no steps; check is the sum over the head.
pub fn still(heap: Global, locations: u8, letters: u8, check: u8) -> Result<Model, Fail> {
    let mut sheet = [0u8; 512];
    sheet[0..5].copy_from_slice(&[1, 0, 2, locations, letters]);
    sheet[510] = check;
    load(heap, &sheet)
}
