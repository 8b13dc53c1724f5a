// The fields of the head, and what it ignores.
use crate::draft::{Draft, at};
use crate::example::HEAD;
use crate::report::tell;

// The bytes of the example's head that are changed from one on.
const HEADS: [(&str, u16, &[u8]); 17] = [
    ("sort 0", 2, &[0]),
    ("sort 2", 2, &[2]),
    ("sort 3", 2, &[3]),
    ("0 locations", 3, &[0]),
    ("1 location", 3, &[1]),
    ("32 locations", 3, &[32]),
    ("33 locations", 3, &[33]),
    ("0 letters", 4, &[0]),
    ("1 letter", 4, &[1]),
    ("8 letters", 4, &[8]),
    ("9 letters", 4, &[9]),
    ("initial 1 of 2 locations", 5, &[1]),
    ("initial 2 of 2 locations", 5, &[2]),
    ("initial 31 of 32 locations", 3, &[32, 2, 31]),
    ("accepting bits past the locations", 6, &[0xff; 4]),
    ("head byte 10 not zero", 10, &[0xff]),
    ("head byte 509 not zero", 509, &[0xff]),
];

pub(crate) fn drill_heads(rt: &HostRuntime) -> anyhow::Result<()> {
    for (label, byte, new) in &HEADS {
        let mut draft = Draft::begin(rt.alloc(), HEAD)?;
        draft.change(at(0, *byte), new);
        tell(rt, label, &draft)?;
    }
    Ok(())
}
