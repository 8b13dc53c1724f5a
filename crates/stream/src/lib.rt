// Standard input, as far as a sheet can go.
#![tactic(auto)]

ghost use Rattle.std.specs.Prelude.{◌≡◌, ◌+◌, ◌<◌, ◌≤◌, IfOk, IfSome, drop, length, take, vec_items, vec_len};
ghost use Rattle.std.specs.Io.KnownBytes.{Consumes, IsAtEnd};

use inspect::MOST_BLOCKS;
use inspect::block::BLOCK;
use std::alloc::Global;
use std::io;
use std::io::Read;

#[cfg(test)]
mod tests;

// The length of the longest sheet and one byte more: a sheet of this length is refused.
const MOST: usize = MOST_BLOCKS * BLOCK + 1;

// One read, into all that follows the first `at` bytes.
fn read_behind<R: Read>(input: &mut R, bytes: &mut [u8], at: usize) -> io::Result<usize>
    requires { at < length bytes.old }
    ensures front { take at bytes.new ≡ take at bytes.old }
    ensures fits { IfOk result (λ n. at + n ≤ length bytes.new) }
    ensures consumes { IfOk result (λ n. Consumes (R.remaining input.old) (R.remaining input.new) (take n (drop at bytes.new))) }
    ensures end { IfOk result (λ n. n ≡ 0 → IsAtEnd (R.remaining input.new)) }
{
    input.read(&mut bytes[at..])
}

// Fills the bytes from an input, and tells how many it gave. Each read asks for all that is left, since what a read has no
// room for may be lost, as the end of a message is.
fn fill<R: Read>(input: &mut R, bytes: &mut [u8]) -> io::Result<usize>
    ensures fits { IfOk result (λ n. n ≤ length bytes.new) }
    ensures front { IfOk result (λ n. IfSome (R.remaining input.old) (λ xs. take n bytes.new ≡ take (length bytes.new) xs)) }
{
    let mut filled = 0;
    while filled < bytes.len() {
        let more = read_behind(input, bytes, filled)?;
        if more == 0 {
            break;
        }
        filled += more;
    }
    Ok(filled)
}

// The first bytes of an input, or all of it where it is shorter, in the one vector that is asked for.
fn read_front<R: Read + Drop>(heap: Global, mut input: R) -> io::Result<Vec<u8>>
    ensures most { IfOk result (λ v. vec_len v ≤ 32769) }
    ensures front { IfOk result (λ v. IfSome (R.remaining input) (λ bs. vec_items v ≡ take 32769 bs)) }
{
    let mut bytes = vec![in heap; 0u8; MOST]?;
    let length = fill(&mut input, &mut bytes)?;
    bytes.truncate(length);
    Ok(bytes)
}

// All of standard input, or the first byte past the longest sheet and what is before it: such a length is refused.
pub fn read_sheet(rt: &HostRuntime) -> io::Result<Vec<u8>>
    ensures { IfOk result (λ v. vec_len v ≤ 32769) }
{
    read_front(rt.alloc(), rt.stdin())
}
