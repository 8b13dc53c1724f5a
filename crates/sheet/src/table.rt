// Token strings by number, in one store: where each begins and how long it is. A vector for each would ask for memory at
// every entry, and a sheet of short ones would take more than twice as long to load.
ghost use Rattle.std.specs.Prelude.{◌≡◌, true, vec_len};
ghost use Rattle.layout.specs.Valid.{every};
ghost use Rattle.sheet.specs.Spans.{within};

use crate::span::Span;
use formula::token::Token;

#[derive(Drop)]
pub struct Table {
    pub(crate) spans: Vec<Span>,
    pub(crate) tokens: Vec<Token>,
    ghost inside: { every (within (vec_len tokens)) spans.items ≡ true },
}
