// Two faults: which one is told.
use crate::draft::at;
use crate::example::HEAD;
use crate::report::{Changes, Sheet, tell};
use crate::tokens::{crowd, tell_crowds};

pub const TWO_IN_BLOCKS: [Changes<'static>; 8] = [
    (
        "kind in block 0, check in block 1",
        &[(0, 0, 2), (1, 510, 0)],
        &[0],
    ),
    (
        "number in block 0, check in block 1",
        &[(0, 1, 1), (1, 510, 0)],
        &[0],
    ),
    ("check and kind in block 1", &[(1, 0, 1), (1, 510, 0)], &[]),
    ("kind and number in block 1", &[(1, 0, 1), (1, 1, 2)], &[1]),
    (
        "sort, and check in block 1",
        &[(0, 2, 3), (1, 510, 0)],
        &[0],
    ),
    ("sort and locations", &[(0, 2, 0), (0, 3, 33)], &[0]),
    ("locations and initial", &[(0, 3, 0), (0, 5, 9)], &[0]),
    (
        "letters, and an entry's location",
        &[(0, 4, 0), (1, 2, 9)],
        &[0, 1],
    ),
];

pub const TWO_IN_ENTRIES: [Sheet<'static>; 4] = [
    (
        "token, and location of a later entry",
        HEAD,
        &[&[0, 0, 1, 0x44, 9, 0, 1, 0x41]],
    ),
    (
        "location of two entries",
        HEAD,
        &[&[8, 0, 1, 0x41, 9, 0, 1, 0x41]],
    ),
    (
        "values left, and a later token",
        HEAD,
        &[&[0, 0, 2, 0, 1, 0, 1, 1, 0x44]],
    ),
    (
        "token, and values left in its entry",
        HEAD,
        &[&[0, 0, 2, 0, 0x44]],
    ),
];

const TWO_IN_CROWDS: [(&str, &[u8]); 2] = [
    (
        "4097 tokens, and order at the same entry",
        &[16, 0, 2, 0, 0],
    ),
    (
        "4097 tokens, and order at the next entry",
        &[16, 1, 2, 0, 0, 16, 1, 1, 0],
    ),
];

pub(crate) fn drill_two_in_crowds(rt: &HostRuntime) -> anyhow::Result<()> {
    let mut draft = crowd(rt.alloc(), &[16, 1, 2, 0, 0])?;
    draft.change(at(1, 5), &[0xfe]);
    tell(rt, "4097 tokens, and token fe before", &draft)?;
    tell_crowds(rt, &TWO_IN_CROWDS)
}
