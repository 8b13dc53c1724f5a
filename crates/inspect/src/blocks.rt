// A sheet as its blocks.
ghost use Rattle.std.specs.Prelude.{◌≡◌, ◌<◌, [], ◌∷◌, length};
ghost use Rattle.std.specs.Simd.{first_chunks};
ghost use Rattle.inspect.specs.Blocks.{each_block_checks};
ghost use Rattle.inspect.specs.Checks.{length_check};
ghost use Rattle.inspect.specs.Format.{blocks};
ghost use Rattle.inspect.specs.Judged.{Judged};
ghost use Rattle.inspect.specs.Refusals.{block_refusal};

use crate::MOST_BLOCKS;
use crate::block::{BLOCK, Block};
use crate::fault::BlockFault;

// The block of the head, and those of the entries, from block 1 on.
#[derive(Drop)]
pub struct Blocks<'a> {
    pub(crate) head: &'a [u8; BLOCK],
    pub(crate) entries: &'a [[u8; BLOCK]],
    ghost few: { length entries.now < 64 },
}

impl<'a> Blocks<'a> {
    // The 1 to 64 blocks that the sheet is.
    pub(crate) fn of(sheet: &'a [u8]) -> Result<Blocks<'a>, BlockFault>
        ensures { Judged block_refusal (length_check sheet.now ∷ []) (λ b. b.head.now ∷ b.entries.now ≡ first_chunks 512 (blocks sheet.now) sheet.now) result }
    {
        let (blocks, rest) = sheet.as_chunks::<BLOCK>();
        if !rest.is_empty() || blocks.len() > MOST_BLOCKS {
            return Err(BlockFault::Length);
        }
        let Some((head, entries)) = blocks.split_first() else {
            return Err(BlockFault::Length);
        };
        Ok(Blocks { head, entries })
    }

    // Whether every block states its check, its kind and its number.
    pub(crate) fn check(&self) -> Result<(), BlockFault>
        ensures { Judged block_refusal (each_block_checks 0 (self.now.head.now ∷ self.now.entries.now)) (λ _. Unit {0}) result }
    {
        Block {
            number: 0,
            bytes: self.head,
        }
        .check()?;
        for (i, bytes) in self.entries.iter().enumerate() {
            Block::behind_head(i, bytes).check()?;
        }
        Ok(())
    }
}
