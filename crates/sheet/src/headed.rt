// A head with the cells under it: what rules and models have alike.
ghost use Rattle.std.specs.Prelude.{◌≡◌, true};
ghost use Rattle.layout.specs.Valid.{is_valid};
ghost use Rattle.sheet.specs.Automata.{with_formulas};

use crate::cells::Cells;
use inspect::head::Head;

#[derive(PartialEq, Debug, Drop)]
pub struct Headed<C: Cells> {
    pub(crate) head: Head,
    pub(crate) cells: C,
    pub ghost sort: { head.sort ≡ C.sort },
    pub ghost valid: { is_valid (with_formulas head (C.formulas head cells)) ≡ true },
    pub ghost fits: { C.fits head cells ≡ true },
}
