// Entries: their fields, their ends and their order.
use crate::example::HEAD;
use crate::report::{Sheet, tell_sheet};
use std::alloc::{AllocError, Global};

pub const ENTRIES: [Sheet<'static>; 7] = [
    (
        "entry of location 1 under letter 1",
        HEAD,
        &[&[1, 1, 1, 0x41]],
    ),
    ("entry of location 2 of 2", HEAD, &[&[2, 0, 1, 0x41]]),
    ("entry of location fe", HEAD, &[&[0xfe, 0, 1, 0x41]]),
    ("entry under letter 2 of 2", HEAD, &[&[0, 2, 1, 0x41]]),
    ("entry of length 0", HEAD, &[&[0, 0, 0]]),
    (
        "FF at byte 2 and an entry behind it",
        HEAD,
        &[&[0xff, 9, 9, 9]],
    ),
    ("zeros after the number", HEAD, &[&[0; 508]]),
];

// An entry of `length` tokens: 0 or 0 or .. or 0 where the length is odd.
pub(crate) fn chain(
    heap: Global,
    location: u8,
    letter: u8,
    length: u8,
) -> Result<Vec<u8>, AllocError> {
    let mut entry = vec![in heap; location, letter, length]?;
    entry.extend((0..length).map(|i| if i > 0 && i % 2 == 0 { 0x43 } else { 0x00 }))?;
    Ok(entry)
}

// The length of a block's second entry, which starts at byte 256, and what stands behind it. A formula has an odd
// number of tokens, so entries without a fault start at even bytes.
const ENDS: [(&str, u8, &[u8]); 10] = [
    ("entry that ends at byte 509", 251, &[]),
    (
        "entry of one token that ends at byte 509",
        247,
        &[1, 0, 1, 0x41],
    ),
    ("entry that ends at byte 507, FF at 508", 249, &[]),
    ("FF at bytes 508 and 509", 249, &[0xff, 0xff]),
    ("FF at byte 509 behind an entry of 250 tokens", 250, &[]),
    ("one byte of an entry before byte 510", 250, &[1]),
    ("two bytes of an entry before byte 510", 249, &[1, 0]),
    ("three bytes of an entry before byte 510", 248, &[1, 0, 1]),
    ("entry that would end at byte 510", 252, &[]),
    ("entry that would end at byte 513", 255, &[]),
];

pub(crate) fn drill_ends(rt: &HostRuntime) -> anyhow::Result<()> {
    for (label, length, behind) in &ENDS {
        let mut body = chain(rt.alloc(), 0, 0, 251)?;
        body.extend_from_slice(chain(rt.alloc(), 0, 1, *length)?.as_slice())?;
        body.extend_from_slice(behind)?;
        tell_sheet(rt, (label, HEAD, &[body.as_slice()]))?;
    }
    Ok(())
}

// In one block, and across blocks. A block without entries does not begin the order anew.
pub const ORDER: [Sheet<'static>; 9] = [
    (
        "location rises and letter falls",
        HEAD,
        &[&[0, 1, 1, 0x41, 1, 0, 1, 0x41]],
    ),
    (
        "equal entries in one block",
        HEAD,
        &[&[0, 1, 1, 0x41, 0, 1, 1, 0x41]],
    ),
    (
        "letter falls in one block",
        HEAD,
        &[&[0, 1, 1, 0x41, 0, 0, 1, 0x41]],
    ),
    (
        "location falls in one block",
        HEAD,
        &[&[1, 0, 1, 0x41, 0, 1, 1, 0x41]],
    ),
    (
        "entries rise across blocks",
        HEAD,
        &[&[0, 1, 1, 0x41], &[1, 0, 1, 0x41]],
    ),
    (
        "equal entries across blocks",
        HEAD,
        &[&[0, 1, 1, 0x41], &[0, 1, 1, 0x41]],
    ),
    (
        "letter falls across blocks",
        HEAD,
        &[&[0, 1, 1, 0x41], &[0, 0, 1, 0x41]],
    ),
    (
        "location falls across blocks",
        HEAD,
        &[&[1, 0, 1, 0x41], &[0, 1, 1, 0x41]],
    ),
    (
        "equal entries around a block without any",
        HEAD,
        &[&[0, 1, 1, 0x41], &[], &[0, 1, 1, 0x41]],
    ),
];
