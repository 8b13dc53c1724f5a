// Why a model does not fit over a graph.
ghost use Rattle.std.specs.Prelude.{◌≡◌, Some};
ghost use Rattle.layer.specs.Misfits.{number as numbered, misfit_words};

use sheet::model::Model;
use std::error::Error;
use std::fmt;

// The model is handed back.
#[derive(PartialEq, Debug, Drop)]
pub enum Misfit {
    // its letters are not those below
    Letters(Model),
    // more than 65,536 tops or slots
    Counts(Model),
}

impl Misfit {
    // The number by which the refusal is known, as those of a writer and of an inquiry have theirs.
    pub fn number(&self) -> u8
        ensures { result ≡ numbered self.now }
    {
        match self {
            Misfit::Letters(_) => 10,
            Misfit::Counts(_) => 11,
        }
    }
}

impl fmt::Display for Misfit {
    ghost output = { λ m. Some (misfit_words m) };

    fn fmt<W: fmt::Write>(&self, f: &mut fmt::Formatter<W>) -> fmt::Result {
        f.write_str(match self {
            Misfit::Letters(_) => "the model's letters are not those below",
            Misfit::Counts(_) => "more than 65,536 tops or slots",
        })
    }
}

impl Error for Misfit {}
