// A small rule, and its sheet byte by byte.
use crate::draft::{Draft, put_bytes};
use anyhow::anyhow;
use inspect::block::BLOCK;
use inspect::head::{Head, Sort};
use sheet::automaton::{Automaton, load};
use std::alloc::{AllocError, Global};

pub const HEAD: Head = Head {
    sort: Sort::Rule,
    locations: 2,
    letters: 2,
    initial: 0,
    accepting: 2,
};

// 0 under 0: 0 and 1; 0 under 1: 1; 1 under 0: 1; 1 under 1: false.
const BODY: [u8; 18] = [
    0, 0, 3, 0x00, 0x01, 0x42, 0, 1, 1, 0x01, 1, 0, 1, 0x01, 1, 1, 1, 0x41,
];

// What stands in the example's sheet from a byte on: the head's first bytes and its check, and of the block of entries
// its kind and number, its body, its end and its check.
const PARTS: [(usize, &[u8]); 6] = [
    (0, &[1, 0, 1, 2, 2, 0, 2, 0, 0, 0]),
    (510, &[0x24, 0x00]),
    (512, &[2, 1]),
    (514, &BODY),
    (532, &[0xff]),
    (1022, &[0xac, 0x1c]),
];

pub(crate) fn example(heap: Global) -> Result<Draft, AllocError> {
    let mut draft = Draft::begin(heap, HEAD)?;
    draft.add(&BODY)?;
    Ok(draft)
}

// The example's sheet, with no help of what makes sheets.
fn expected(heap: Global) -> Result<Vec<u8>, AllocError> {
    let mut bytes = vec![in heap; 0u8; 2 * BLOCK]?;
    for (start, part) in &PARTS {
        put_bytes(&mut bytes, *start, part);
    }
    Ok(bytes)
}

// Whether the example is written as it is expected.
pub(crate) fn drill_example(rt: &HostRuntime) -> anyhow::Result<()> {
    let expected = expected(rt.alloc())?;
    let Ok(Automaton::Rule(rule)) = load(rt.alloc(), expected.as_slice()) else {
        return Err(anyhow!("the example is not read as a rule"));
    };
    let mut out = vec![in rt.alloc(); 0xaau8; 3 * BLOCK]?;
    let Ok(length) = rule.write(&mut out) else {
        return Err(anyhow!("the example is not written"));
    };
    out.truncate(length);
    let verdict = if out == expected {
        "as expected"
    } else {
        "not as expected"
    };
    println!(rt; "example: {length} bytes, {verdict}")?;
    Ok(())
}
