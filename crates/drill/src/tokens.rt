// Tokens and formulas.
use crate::draft::Draft;
use crate::entries::chain;
use crate::example::HEAD;
use crate::report::{Sheet, tell, tell_sheet};
use inspect::head::{Head, Sort};
use std::alloc::{AllocError, Global};
use std::iter::repeat_n;

const MODEL: Head = Head {
    sort: Sort::Model,
    ..HEAD
};

// As many locations and letters as there can be.
const LARGE: Head = Head {
    sort: Sort::Rule,
    locations: 32,
    letters: 8,
    initial: 0,
    accepting: 0,
};

pub const TOKENS: [Sheet<'static>; 13] = [
    ("token 40", HEAD, &[&[0, 0, 1, 0x40]]),
    ("token 1f of 32 locations", LARGE, &[&[0, 0, 1, 0x1f]]),
    ("token 20 of 32 locations", LARGE, &[&[0, 0, 1, 0x20]]),
    ("token 3f", HEAD, &[&[0, 0, 1, 0x3f]]),
    ("token 44", HEAD, &[&[0, 0, 1, 0x44]]),
    ("token fe", HEAD, &[&[0, 0, 1, 0xfe]]),
    ("token ff", HEAD, &[&[0, 0, 1, 0xff]]),
    ("location 2 of 2 in a formula", HEAD, &[&[0, 0, 1, 2]]),
    (
        "location 2 of 2, third token",
        HEAD,
        &[&[0, 0, 5, 0, 1, 2, 0x42, 0x42]],
    ),
    (
        "false and or in a model",
        MODEL,
        &[&[0, 0, 3, 1, 0x41, 0x43]],
    ),
    ("true in a model", MODEL, &[&[0, 0, 1, 0x40]]),
    ("and in a model", MODEL, &[&[0, 0, 3, 0, 1, 0x42]]),
    ("location 2 of 2 in a model", MODEL, &[&[0, 0, 1, 2]]),
];

pub const VALUES: [Sheet<'static>; 5] = [
    ("or with one value", HEAD, &[&[0, 0, 2, 0, 0x43]]),
    ("and with none", HEAD, &[&[0, 0, 1, 0x42]]),
    ("two values left", HEAD, &[&[0, 0, 2, 0, 1]]),
    (
        "two values left in the second entry",
        HEAD,
        &[&[0, 0, 1, 0, 0, 1, 2, 0, 1]],
    ),
    (
        "or with one value in a model",
        MODEL,
        &[&[0, 0, 2, 0, 0x43]],
    ),
];

// An entry with so many values, and then so many connectives.
fn pile(heap: Global, values: u8, connectives: u8) -> Result<Vec<u8>, AllocError> {
    let mut entry = vec![in heap; 0, 0, values.wrapping_add(connectives)]?;
    entry.extend(repeat_n(0x01, usize::from(values)))?;
    entry.extend(repeat_n(0x43, usize::from(connectives)))?;
    Ok(entry)
}

// The values and the connectives of one entry.
const PILES: [(&str, Head, u8, u8); 5] = [
    ("32 values waiting, 31 connectives", HEAD, 32, 31),
    ("32 values waiting in a model", MODEL, 32, 31),
    ("32 values waiting, 30 connectives", HEAD, 32, 30),
    ("32 values waiting, 32 connectives", HEAD, 32, 32),
    ("a 33rd value", HEAD, 33, 32),
];

pub(crate) fn drill_piles(rt: &HostRuntime) -> anyhow::Result<()> {
    for (label, head, values, connectives) in &PILES {
        let entry = pile(rt.alloc(), *values, *connectives)?;
        tell_sheet(rt, (label, *head, &[entry.as_slice()]))?;
    }
    Ok(())
}

// Sixteen blocks of an entry of 255 tokens each, and a block with one of 15 tokens and the entries `last`.
pub(crate) fn crowd(heap: Global, last: &[u8]) -> Result<Draft, AllocError> {
    let mut draft = Draft::begin(heap, LARGE)?;
    for location in 0..16 {
        draft.add(chain(heap, location, 0, 255)?.as_slice())?;
    }
    let mut body = chain(heap, 16, 0, 15)?;
    body.extend_from_slice(last)?;
    draft.add(body.as_slice())?;
    Ok(draft)
}

// A crowd for each of these last entries.
pub(crate) fn tell_crowds(rt: &HostRuntime, lasts: &[(&str, &[u8])]) -> anyhow::Result<()> {
    for (label, last) in lasts {
        tell(rt, label, &crowd(rt.alloc(), last)?)?;
    }
    Ok(())
}

pub const CROWDS: [(&str, &[u8]); 3] = [
    ("4096 tokens", &[16, 1, 1, 0]),
    (
        "4097 tokens, one in the last entry",
        &[16, 1, 1, 0, 16, 2, 1, 0],
    ),
    (
        "4098 tokens, three in the last entry",
        &[16, 1, 3, 0, 1, 0x42],
    ),
];
