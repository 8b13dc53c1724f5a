// Sets of successors, one for each cell, as masks.
ghost use Rattle.std.specs.Prelude.{◌≡◌, map, IfOk};
ghost use Rattle.sheet.specs.Models.{named_mask};
ghost use Rattle.sheet.specs.Tables.{formulas};

use crate::strings::{cells, tokens_at};
use crate::table::Table;
use formula::union::named;
use std::alloc::{AllocError, Global};

pub type Sets = Vec<u32>;

// The sets that the token strings of a table name.
pub(crate) fn named_sets(heap: Global, table: &Table) -> Result<Sets, AllocError>
    ensures { IfOk result (λ v. v.items ≡ map named_mask (formulas table.now)) }
{
    (0..cells(table))
        .map(|cell| named(tokens_at(table, cell)))
        .collect(heap)
}
