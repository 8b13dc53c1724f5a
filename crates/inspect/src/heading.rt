// Reading the head block: its fields in byte order, each in its range.
ghost use Rattle.std.specs.Prelude.{◌≡◌, ◌%◌, ◌^◌, ◌≤◌};
ghost use Rattle.inspect.specs.Checks.{head_checks};
ghost use Rattle.inspect.specs.Format.{head, sort_of, word};
ghost use Rattle.inspect.specs.Judged.{Judged, asked_sort};
ghost use Rattle.inspect.specs.Refusals.{block_refusal, place};
ghost use Rattle.inspect.specs.declared.fault.BlockFault.TheVariants.{Head as HeadFault};

use crate::block::BLOCK;
use crate::fault::{BlockFault, Place};
use crate::head::{Asked, Head, Sort};

// The sort that a byte stands for, if it is one that is asked for.
fn sort_asked(asked: Asked, byte: u8) -> Option<Sort>
    ensures { result ≡ asked_sort asked (sort_of byte) }
{
    Sort::try_from(byte).ok().filter(|sort| asked.takes(*sort))
}

// The accepting locations: four bytes, low byte first, without the bits past the locations.
fn accepting(block: &[u8; BLOCK], locations: u8) -> u32
    requires { locations ≤ 32 }
    ensures { result ≡ word block.now 6 % 2 ^ locations }
{
    let mask = u32::from_le_bytes([block[6], block[7], block[8], block[9]]);
    (u64::from(mask) % (1 << locations)) as u32
}

// The fault of the head's field at this byte.
fn out_of_range(byte: u16) -> BlockFault
    ensures { result ≡ HeadFault (place 0 byte) }
{
    BlockFault::Head(Place { block: 0, byte })
}

// The head, or the first of its fields that is out of range.
pub(crate) fn read_head(asked: Asked, block: &[u8; BLOCK]) -> Result<Head, BlockFault>
    ensures { Judged block_refusal (head_checks asked block.now) (λ h. h ≡ head block.now) result }
{
    let Some(sort) = sort_asked(asked, block[2]) else {
        return Err(out_of_range(2));
    };
    let locations = block[3];
    if !(1..=32).contains(&locations) {
        return Err(out_of_range(3));
    }
    let letters = block[4];
    if !(1..=8).contains(&letters) {
        return Err(out_of_range(4));
    }
    let initial = block[5];
    if initial >= locations {
        return Err(out_of_range(5));
    }
    Ok(Head {
        sort,
        locations,
        letters,
        initial,
        accepting: accepting(block, locations),
    })
}
