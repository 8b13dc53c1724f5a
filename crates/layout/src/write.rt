// Writing a sheet: its blocks are counted first, so that a sheet that does not fit leaves every byte as it was.
ghost use Rattle.std.specs.Prelude.{◌≡◌, Some, suc, ◌+◌, ◌*◌, ◌<◌, ◌≤◌, ◌++◌, map, length, drop};
ghost use Rattle.formula.specs.Tokens.{code};
ghost use Rattle.inspect.specs.Denotes.{entry_bytes};
ghost use Rattle.layout.specs.Pasted.{pasted};
ghost use Rattle.layout.specs.Standing.{tokens_at, entry_at, entries_at, Stands};
ghost use Rattle.layout.specs.Writes.{Writes, ReadsBack, write_number, write_words};
ghost use Rattle.layout.specs.Written.{bodies, entries_of, written};

use crate::cursor::{BEHIND_HEAD, Cursor};
use crate::put::{make_room, put_end, put_head};
use crate::source::Source;
use inspect::block::BLOCK;
use std::error::Error;
use std::fmt;

#[derive(Clone, Copy, PartialEq, Eq, Debug)]
pub enum WriteFault {
    TooFewBytes = 9,
}

impl WriteFault {
    // The number of the refusal.
    pub fn number(self) -> u8
        ensures { result ≡ write_number self }
    {
        self as u8
    }
}

impl fmt::Display for WriteFault {
    ghost output = { λ e. Some (write_words e) };

    fn fmt<W: fmt::Write>(&self, f: &mut fmt::Formatter<W>) -> fmt::Result {
        f.write_str(match self {
            WriteFault::TooFewBytes => "the bytes given are too few",
        })
    }
}

impl Error for WriteFault {}

// How many bytes an entry has before its tokens: location, letter and length.
const PREFIX: usize = 3;

// How many blocks the sheet has, with the head's.
fn count_blocks<S: Source>(source: &S) -> usize
    ensures { result ≡ suc (length (bodies (entries_of (S.content source.now)))) }
{
    let mut cursor = BEHIND_HEAD;
    for cell in 0..source.head().cells() {
        let tokens = source.length(cell);
        if tokens > 0 {
            cursor = cursor.after(PREFIX + tokens);
        }
    }
    usize::from(cursor.block) + 1
}

// Source, cell and bytes stay three parameters in the parts below: the bytes are lent anew to each, and the trait takes the
// cell's number, so that each would take a struct of source and cell apart again.

// The tokens of a cell, a byte each, over all of `out`.
fn put_tokens<S: Source>(source: &S, cell: usize, out: &mut [u8])
    requires { length out.old ≡ length (tokens_at (S.content source.now) cell) }
    ensures { out.new ≡ map code (tokens_at (S.content source.now) cell) }
{
    for (i, byte) in out.iter_mut().enumerate() {
        *byte = u8::from(source.token(cell, i));
    }
}

// The entry of a cell, over all of `out`.
fn put_entry<S: Source>(source: &S, cell: usize, out: &mut [u8])
    requires inside { cell < length (S.content source.now).formulas }
    requires room { length out.old ≡ length (entry_bytes (entry_at (S.content source.now) cell)) }
    ensures { out.new ≡ entry_bytes (entry_at (S.content source.now) cell) }
{
    let letters = usize::from(source.letters());
    let location = (cell / letters) as u8;
    let letter = (cell % letters) as u8;
    let (front, tokens) = out.split_at_mut(PREFIX);
    front.copy_from_slice(&[location, letter, tokens.len() as u8]);
    put_tokens(source, cell, tokens);
}

// The entry of a cell, if it has tokens, in the block that is open or the next.
fn put_cell<S: Source>(source: &S, cell: usize, out: &mut [u8], cursor: Cursor) -> Cursor
    requires inside { cell < length (S.content source.now).formulas }
    requires begun { Stands (S.content source.now) out.old cursor (entries_at (S.content source.now) cell) }
    ensures { Stands (S.content source.now) out.new result (entries_at (S.content source.now) (cell + 1)) }
{
    let tokens = source.length(cell);
    if tokens == 0 {
        return cursor;
    }
    let entry = PREFIX + tokens;
    let room = make_room(out, cursor, entry);
    let at = room.at();
    put_entry(source, cell, &mut out[at..at + entry]);
    room.after(entry)
}

// The sheet, over all of `out`.
fn put_sheet<S: Source>(source: &S, out: &mut [u8])
    requires { length out.old ≡ length (written (S.content source.now)) }
    ensures { out.new ≡ written (S.content source.now) }
{
    let head = source.head();
    put_head(out, head);
    let mut cursor = BEHIND_HEAD;
    for cell in 0..head.cells() {
        cursor = put_cell(source, cell, out, cursor);
    }
    put_end(out, cursor);
}

// Writes the sheet of `source` to the front of `out`, and says how long it is.
pub fn write<S: Source>(source: &S, out: &mut [u8]) -> Result<usize, WriteFault>
    ensures writes { Writes (S.content source.now) out.old out.new result }
    ensures reads_back { ReadsBack (S.content source.now) }
{
    let length = count_blocks(source) * BLOCK;
    if out.len() < length {
        return Err(WriteFault::TooFewBytes);
    }
    put_sheet(source, &mut out[..length]);
    Ok(length)
}
