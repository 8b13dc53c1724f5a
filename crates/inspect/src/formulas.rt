// The formulas of a sheet: tokens that the head allows, and one value left.
ghost use Rattle.std.specs.Prelude.{◌≡◌, ◌+◌, true, ◌++◌};
ghost use Rattle.std.specs.List.{AllByRecursion};
ghost use Rattle.formula.specs.Tokens.{token};
ghost use Rattle.inspect.specs.Blocks.{each_entries};
ghost use Rattle.inspect.specs.Checks.{formula_checks, token_checks};
ghost use Rattle.inspect.specs.Entries.{entries};
ghost use Rattle.inspect.specs.Format.{body};
ghost use Rattle.inspect.specs.Judged.{Judged, Passes, known_token, next_waiting};
ghost use Rattle.inspect.specs.Refusals.{entry_refusal, formula_refusal};

use crate::block::Block;
use crate::blocks::Blocks;
use crate::fault::{EntryFault, FormulaFault, Place};
use crate::head::{Head, Sort};
use crate::placed::PlacedEntry;
use formula::token::Token;

// How many values may wait.
const MOST_WAITING: u8 = 32;

// The token that a byte stands for, if the head allows it.
fn known(head: &Head, byte: u8) -> Option<Token>
    ensures { result ≡ known_token head.now.sort head.now.locations (token byte) }
{
    let token = Token::try_from(byte).ok()?;
    let allowed = match (token, head.sort) {
        (Token::Location(l), _) => l < head.locations,
        (Token::True | Token::And, Sort::Model) => false,
        _ => true,
    };
    allowed.then_some(token)
}

// How many values wait after a token, if there is room for it.
fn waits_after(token: Token, waiting: u8) -> Option<u8>
    ensures { result ≡ next_waiting token waiting }
{
    match token {
        Token::And | Token::Or if waiting > 1 => Some(waiting - 1),
        Token::And | Token::Or => None,
        _ if waiting < MOST_WAITING => Some(waiting + 1),
        _ => None,
    }
}

// The tokens of one entry.
fn check_formula(head: &Head, entry: &PlacedEntry) -> Result<(), FormulaFault>
    ensures { Judged formula_refusal (formula_checks head.now entry.now.place.block entry.now.place.byte (entry.now.place.byte + 3) 0 entry.now.tokens.now) (λ _. Unit {0}) result }
{
    let mut waiting = 0;
    for (i, b) in entry.tokens.iter().enumerate() {
        let at = Place {
            block: entry.place.block,
            byte: entry.place.byte + 3 + i as u16,
        };
        let Some(token) = known(head, *b) else {
            return Err(FormulaFault::Token(at));
        };
        let Some(next) = waits_after(token, waiting) else {
            return Err(FormulaFault::Waiting(at));
        };
        waiting = next;
    }
    if waiting != 1 {
        return Err(FormulaFault::Waiting(entry.place));
    }
    Ok(())
}

// The formulas of a block, of which every entry fits.
fn spell(head: &Head, block: Block) -> Result<(), EntryFault>
    requires { AllByRecursion (λ e. e.fits ≡ true) (entries block.number 2 (body block.bytes.now)) }
    ensures { Passes entry_refusal (λ fs. token_checks head.now (entries block.entry.number 2 (body block.entry.bytes.now) ++ fs)) (λ _ fs. token_checks head.now fs) result }
{
    for entry in block.entries() {
        check_formula(head, &entry?)?;
    }
    Ok(())
}

// The formulas of the whole sheet, of which every entry fits.
pub(crate) fn check_formulas(head: &Head, blocks: &Blocks) -> Result<(), EntryFault>
    requires { AllByRecursion (λ e. e.fits ≡ true) (each_entries 1 blocks.now.entries.now) }
    ensures { Judged entry_refusal (token_checks head.now (each_entries 1 blocks.now.entries.now)) (λ _. Unit {0}) result }
{
    for (i, bytes) in blocks.entries.iter().enumerate() {
        spell(head, Block::behind_head(i, bytes))?;
    }
    Ok(())
}
