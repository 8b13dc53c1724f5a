// The entries of a sheet: each about a location and a letter that the head has, rising, with few tokens in all.
ghost use Rattle.std.specs.Prelude.{◌≡◌, ◌≤◌, ◌∷◌, ◌++◌};
ghost use Rattle.inspect.specs.Blocks.{each_entries};
ghost use Rattle.inspect.specs.Checks.{entry_checks};
ghost use Rattle.inspect.specs.Entries.{entries};
ghost use Rattle.inspect.specs.Format.{body};
ghost use Rattle.inspect.specs.Judged.{Judged, Passes};
ghost use Rattle.inspect.specs.Refusals.{entry_refusal};
ghost use Rattle.inspect.specs.Yielded.{placed_entry};

use crate::block::Block;
use crate::blocks::Blocks;
use crate::fault::EntryFault;
use crate::head::Head;
use crate::placed::PlacedEntry;

// The most tokens that the entries of a sheet have together.
const MOST_TOKENS: u16 = 4096;

// How far the entries have come: the least key, 8 × location + letter, that the next may have, and the tokens so far.
#[derive(Clone, Copy)]
struct Progress {
    least: u16,
    total: u16,
    ghost few: { total ≤ 4096 },
}

impl Progress {
    fn start() -> Progress
        ensures { (result.least ≡ 0) × (result.total ≡ 0) }
    {
        Progress { least: 0, total: 0 }
    }

    // One entry more.
    fn entry(self, head: &Head, entry: &PlacedEntry) -> Result<Progress, EntryFault>
        ensures { Passes entry_refusal (λ fs. entry_checks head.now self.least self.total (placed_entry entry.now ∷ fs)) (λ p fs. entry_checks head.now p.least p.total fs) result }
    {
        let key = u16::from(entry.location) * 8 + u16::from(entry.letter);
        if entry.location >= head.locations
            || entry.letter >= head.letters
            || entry.tokens.is_empty()
            || key < self.least
        {
            return Err(EntryFault::Entry(entry.place));
        }
        let total = self.total + entry.tokens.len() as u16;
        if total > MOST_TOKENS {
            return Err(EntryFault::Tokens(entry.place));
        }
        Ok(Progress {
            least: key + 1,
            total,
        })
    }
}

// The entries of a block.
fn scan(head: &Head, block: Block, before: Progress) -> Result<Progress, EntryFault>
    ensures { Passes entry_refusal (λ fs. entry_checks head.now before.least before.total (entries block.entry.number 2 (body block.entry.bytes.now) ++ fs)) (λ p fs. entry_checks head.now p.least p.total fs) result }
{
    let mut progress = before;
    for entry in block.entries() {
        progress = progress.entry(head, &entry?)?;
    }
    Ok(progress)
}

// The entries of the whole sheet, in the blocks after the head.
pub(crate) fn check_entries(head: &Head, blocks: &Blocks) -> Result<(), EntryFault>
    ensures { Judged entry_refusal (entry_checks head.now 0 0 (each_entries 1 blocks.now.entries.now)) (λ _. Unit {0}) result }
{
    let mut progress = Progress::start();
    for (i, bytes) in blocks.entries.iter().enumerate() {
        progress = scan(head, Block::behind_head(i, bytes), progress)?;
    }
    Ok(())
}
