// The token strings of a table, one in each cell and none where there is no entry: put there, read and compared.
ghost use Rattle.std.specs.Prelude.{◌≡◌, ◌≤◌, List, [], ◌++◌, map, length, replicate, IfOk, OnOk, vec_len, slice_index_or, slice_set};
ghost use Rattle.inspect.specs.Contents.{read};
ghost use Rattle.sheet.specs.Tables.{formulas};

use crate::span::Span;
use crate::table::Table;
use formula::token::Token;
use std::alloc::{AllocError, Global};
use std::fmt;

// No tokens in any of these cells.
pub(crate) fn blank(heap: Global, cells: usize) -> Result<Table, AllocError>
    ensures { IfOk result (λ t. formulas t ≡ replicate cells []) }
{
    let spans = vec![in heap; Span {
        start: 0,
        length: 0
    }; cells]?;
    Ok(Table {
        spans,
        tokens: Vec::new(heap),
    })
}

// The tokens that some bytes stand for, behind those that are there.
fn append(tokens: &mut Vec<Token>, bytes: &[u8]) -> Result<(), AllocError>
    ensures longer { vec_len tokens.old ≤ vec_len tokens.new }
    ensures items { OnOk result (tokens.new.items ≡ tokens.old.items ++ map read bytes.now) }
{
    tokens.extend(
        bytes
            .iter()
            .map(|b| Token::try_from(*b).unwrap_or(Token::False)),
    )
}

// These tokens in one cell, if there is such a cell.
pub(crate) fn put(table: &mut Table, cell: usize, bytes: &[u8]) -> Result<(), AllocError>
    ensures { OnOk result (formulas table.new ≡ slice_set (formulas table.old) cell (map read bytes.now)) }
{
    let start = table.tokens.len();
    append(&mut table.tokens, bytes)?;
    if let Some(span) = table.spans.get_mut(cell) {
        *span = Span {
            start,
            length: bytes.len(),
        };
    }
    Ok(())
}

// How many cells there are.
pub(crate) fn cells(table: &Table) -> usize
    ensures { result ≡ length (formulas table.now) }
{
    table.spans.len()
}

// The tokens of a cell: none where there is no such cell.
pub(crate) fn tokens_at(table: &Table, cell: usize) -> &[Token]
    ensures { result.now ≡ slice_index_or (formulas table.now) cell [] }
{
    match table.spans.get(cell) {
        Some(span) => &table.tokens[span.start..span.start + span.length],
        None => &[],
    }
}

impl PartialEq for Table {
    ghost use Rattle.std.specs.Cmp.{on_per};
    ghost use Rattle.std.specs.Cmp.Lexicographic.{pointwise, lists_per};
    ghost use Rattle.std.specs.Ordering.{on};
    ghost use Rattle.formula.specs.contracts.token.TokenPartialEq.TheImpl.Laws.{laws-law};

    // The same tokens in each cell, wherever the store has them.
    ghost eq = { on formulas (pointwise (pointwise ⟦<Token as PartialEq>⟧.eq)) };

    ghost laws = { on_per formulas (lists_per (lists_per laws-law)) };

    fn eq(&self, other: &Table) -> bool {
        cells(self) == cells(other)
            && (0..cells(self)).all(|cell| tokens_at(self, cell) == tokens_at(other, cell))
    }
}

impl fmt::Debug for Table {
    fn fmt<W: fmt::Write>(&self, f: &mut fmt::Formatter<W>) -> fmt::Result {
        let mut list = f.debug_list();
        for cell in 0..cells(self) {
            list.entry(&tokens_at(self, cell));
        }
        list.finish()
    }
}
