// Blocks: their check, their kind, their number and their entries.
ghost use Rattle.std.specs.Prelude.{◌≡◌, ◌+◌, ◌<◌, take};
ghost use Rattle.inspect.specs.Checks.{block_checks};
ghost use Rattle.inspect.specs.Entries.{entries};
ghost use Rattle.inspect.specs.Format.{block, body, check_of, kind, kind_code};
ghost use Rattle.inspect.specs.Judged.{Judged};
ghost use Rattle.inspect.specs.Refusals.{block_refusal};

use crate::entries::Entries;
use crate::fault::{BlockFault, Place};

pub const BLOCK: usize = 512;

// Where a block's check stands, and its entries end.
pub const CHECK: usize = 510;

// Block k of a sheet; less than a block where the sheet ends before.
pub fn block_at(sheet: &[u8], k: u8) -> &[u8]
    ensures { result.now ≡ block sheet.now k }
{
    let rest = sheet.get(usize::from(k) * BLOCK..).unwrap_or(&[]);
    rest.get(..BLOCK).unwrap_or(rest)
}

// What lies before a block's check.
pub(crate) fn before_check(block: &[u8]) -> &[u8]
    ensures { result.now ≡ take 510 block.now }
{
    block.get(..CHECK).unwrap_or(block)
}

// The check of a block: the sum of (i + 1) × byte i over its bytes before the check, modulo 65,521.
pub fn check_sum(block: &[u8]) -> u16
    ensures { result ≡ check_of block.now }
{
    let mut sum: u32 = 0;
    for (i, b) in before_check(block).iter().enumerate() {
        sum += (i as u32 + 1) * u32::from(*b);
    }
    (sum % 65521) as u16
}

// What a block holds.
#[derive(Clone, Copy, PartialEq, Eq, Debug)]
pub enum Kind {
    Head,
    Entries,
}

impl Kind {
    // Block 0 alone is the head, and the others hold entries.
    pub fn of(block: u8) -> Kind
        ensures { kind_code result ≡ kind block }
    {
        if block == 0 {
            Kind::Head
        } else {
            Kind::Entries
        }
    }
}

impl From<Kind> for u8 {
    ghost from_gives = { λ k b. b ≡ kind_code k };

    fn from(kind: Kind) -> u8 {
        match kind {
            Kind::Head => 1,
            Kind::Entries => 2,
        }
    }
}

// A block of a sheet, and which of them it is.
#[derive(Clone, Copy, PartialEq, Eq, Debug)]
pub struct Block<'a> {
    pub number: u8,
    pub bytes: &'a [u8; BLOCK],
}

impl<'a> Block<'a> {
    // Block i of those behind the head.
    pub(crate) fn behind_head(i: usize, bytes: &'a [u8; BLOCK]) -> Block<'a>
        requires { i < 255 }
        ensures number { result.number ≡ i + 1 }
        ensures bytes { result.bytes.now ≡ bytes.now }
    {
        Block {
            number: i as u8 + 1,
            bytes,
        }
    }

    // Whether it states its check, its kind and its number.
    pub(crate) fn check(self) -> Result<(), BlockFault>
        ensures { Judged block_refusal (block_checks self.entry.number self.entry.bytes.now) (λ _. Unit {0}) result }
    {
        let Block {
            number: block,
            bytes,
        } = self;
        let stated = u16::from_le_bytes([bytes[CHECK], bytes[CHECK + 1]]);
        if stated != check_sum(bytes) {
            return Err(BlockFault::Check(Place {
                block,
                byte: CHECK as u16,
            }));
        }
        if bytes[0] != u8::from(Kind::of(block)) {
            return Err(BlockFault::Kind(Place { block, byte: 0 }));
        }
        if bytes[1] != block {
            return Err(BlockFault::Kind(Place { block, byte: 1 }));
        }
        Ok(())
    }

    // Its entries.
    pub fn entries(self) -> Entries<'a>
        ensures { result ≡ entries self.entry.number 2 (body self.entry.bytes.now) }
    {
        let Block { number, bytes } = self;
        Entries::of(number, bytes)
    }
}
