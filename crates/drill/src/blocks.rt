// Lengths, checks, kinds and numbers.
use crate::draft::{Draft, at};
use crate::example::{HEAD, example};
use crate::report::{Changes, tell};

// The length that the example is cut off at, or filled up to with zeros.
const LENGTHS: [(&str, usize); 7] = [
    ("0 bytes", 0),
    ("511 bytes", 511),
    ("512 bytes, the head alone", 512),
    ("513 bytes", 513),
    ("1024 bytes, the example", 1024),
    ("1025 bytes", 1025),
    ("1536 bytes, the last block all zeros", 1536),
];

pub(crate) fn drill_lengths(rt: &HostRuntime) -> anyhow::Result<()> {
    for (label, length) in &LENGTHS {
        let mut draft = example(rt.alloc())?;
        draft.bytes.resize(*length, 0)?;
        tell(rt, label, &draft)?;
    }
    Ok(())
}

// How many blocks without entries stand behind a head.
const EMPTY: [(&str, u8); 2] = [
    ("32768 bytes, 64 blocks", 63),
    ("33280 bytes, 65 blocks", 64),
];

pub(crate) fn drill_empty(rt: &HostRuntime) -> anyhow::Result<()> {
    for (label, blocks) in &EMPTY {
        let mut draft = Draft::begin(rt.alloc(), HEAD)?;
        for _ in 0..*blocks {
            draft.add(&[])?;
        }
        tell(rt, label, &draft)?;
    }
    Ok(())
}

pub const CHECKS: [Changes<'static>; 4] = [
    ("check of block 0, low byte", &[(0, 510, 0x25)], &[]),
    ("check of block 0, high byte", &[(0, 511, 0x01)], &[]),
    ("check of block 1", &[(1, 511, 0xff)], &[]),
    ("byte 509 of block 1 against its check", &[(1, 509, 1)], &[]),
];

// Byte 13 of a head that sums up to 65,521, so its check is 0, or to a little more, and the check that it states.
const LOW: [(&str, u8, [u8; 2]); 4] = [
    ("check 0 for the sum 0", 0, [0, 0]),
    ("check 65521 for the sum 0", 0, [0xf1, 0xff]),
    ("check 14 for the sum 14", 1, [14, 0]),
    ("check 65535 for the sum 14", 1, [0xff, 0xff]),
];

pub(crate) fn drill_low(rt: &HostRuntime) -> anyhow::Result<()> {
    for (label, byte_13, stated) in &LOW {
        let mut draft = Draft::begin(rt.alloc(), HEAD)?;
        draft.put(at(0, 13), &[*byte_13]);
        draft.put(at(0, 204), &[1]);
        draft.put(at(0, 255), &[255]);
        draft.put(at(0, 510), stated);
        tell(rt, label, &draft)?;
    }
    Ok(())
}

pub const KINDS: [Changes<'static>; 6] = [
    ("kind 2 in block 0", &[(0, 0, 2)], &[0]),
    ("kind 1 in block 1", &[(1, 0, 1)], &[1]),
    ("kind 3 in block 1", &[(1, 0, 3)], &[1]),
    ("number 1 in block 0", &[(0, 1, 1)], &[0]),
    ("number 0 in block 1", &[(1, 1, 0)], &[1]),
    ("number 2 in block 1", &[(1, 1, 2)], &[1]),
];
