// The parts of a sheet that no table is needed for, each laid over what `out` holds. The bytes and the cursor stay two
// parameters: of a struct that lends the bytes, each contract would have to say that it keeps lending the same ones.
ghost use Rattle.std.specs.Prelude.{◌≡◌, ◌+◌, ◌*◌, ◌<◌, ◌≤◌, ◌∷◌, length};
ghost use Rattle.inspect.specs.Format.{block, check_of, kind};
ghost use Rattle.layout.specs.Cursors.{Reaches, position, closing, check_bytes, ended, next_block, next_opened, roomy, room_made};
ghost use Rattle.layout.specs.Pasted.{pasted};
ghost use Rattle.layout.specs.Written.{zeros, head_payload};

use crate::cursor::{BODY, Cursor};
use inspect::block::{BLOCK, CHECK, Kind, check_sum};
use inspect::head::Head;

// Lays `bytes` over what `out` holds from `at` on.
fn put(out: &mut [u8], at: usize, bytes: &[u8])
    requires { at + length bytes.now ≤ length out.old }
    ensures { out.new ≡ pasted out.old at bytes.now }
{
    out[at..at + bytes.len()].copy_from_slice(bytes);
}

fn put_zeros(out: &mut [u8], at: usize, n: usize)
    requires { at + n ≤ length out.old }
    ensures { out.new ≡ pasted out.old at (zeros n) }
{
    out[at..at + n].fill(0);
}

// What follows a block's last entry: FF if a byte is left, so that a reader stops there, and zeros.
fn put_closing(out: &mut [u8], cursor: Cursor)
    requires { Reaches out.old cursor.block }
    ensures { out.new ≡ pasted out.old (position cursor) (closing cursor.used) }
{
    if cursor.used < BODY {
        let at = cursor.at();
        put(out, at, &[0xff]);
        put_zeros(out, at + 1, BODY - 1 - cursor.used);
    }
}

// The check of the block's bytes before it, low byte first.
fn put_check(out: &mut [u8], k: u8)
    requires { Reaches out.old k }
    ensures { out.new ≡ pasted out.old (k * 512 + 510) (check_bytes (check_of (block out.old k))) }
{
    let start = usize::from(k) * BLOCK;
    let check = check_sum(&out[start..start + BLOCK]);
    put(out, start + CHECK, &check.to_le_bytes());
}

// The end of the block that is open.
pub(crate) fn put_end(out: &mut [u8], cursor: Cursor)
    requires { Reaches out.old cursor.block }
    ensures { out.new ≡ ended out.old cursor }
{
    put_closing(out, cursor);
    put_check(out, cursor.block);
}

// Ends the block that is open, and starts the next.
fn open_next(out: &mut [u8], cursor: Cursor) -> Cursor
    requires few { cursor.block < 255 }
    requires room { Reaches out.old (cursor.block + 1) }
    ensures cursor { result ≡ next_block cursor }
    ensures bytes { out.new ≡ next_opened out.old cursor }
{
    put_end(out, cursor);
    let k = cursor.block + 1;
    put(out, usize::from(k) * BLOCK, &[u8::from(Kind::of(k)), k]);
    Cursor { block: k, used: 0 }
}

// Opens the next block if an entry of this many bytes does not fit into this one.
pub(crate) fn make_room(out: &mut [u8], cursor: Cursor, entry: usize) -> Cursor
    requires few { (roomy cursor entry).block < 256 }
    requires room { Reaches out.old (roomy cursor entry).block }
    ensures cursor { result ≡ roomy cursor entry }
    ensures bytes { out.new ≡ room_made out.old cursor entry }
{
    if cursor.fits(entry) {
        cursor
    } else {
        open_next(out, cursor)
    }
}

// The head block up to its check.
pub(crate) fn put_head(out: &mut [u8], head: Head)
    requires { 510 ≤ length out.old }
    ensures { out.new ≡ pasted out.old 0 (kind 0 ∷ 0 ∷ head_payload head) }
{
    put(
        out,
        0,
        &[
            u8::from(Kind::Head),
            0,
            u8::from(head.sort),
            head.locations,
            head.letters,
            head.initial,
        ],
    );
    put(out, 6, &head.accepting.to_le_bytes());
    put_zeros(out, 10, 500);
}
