// How an inquiry stands.
ghost use Rattle.std.specs.Prelude.{Some};
ghost use Rattle.inquiry.specs.Standing.{standing_name};

use std::fmt;

#[derive(Clone, Copy, Debug, PartialEq, Eq)]
pub enum Standing {
    Running,
    Possible,
    Impossible,
    Full,
    Spent,
}

impl fmt::Display for Standing {
    ghost output = { λ s. Some (standing_name s) };

    fn fmt<W: fmt::Write>(&self, f: &mut fmt::Formatter<W>) -> fmt::Result {
        f.write_str(match self {
            Standing::Running => "running",
            Standing::Possible => "possible",
            Standing::Impossible => "impossible",
            Standing::Full => "full",
            Standing::Spent => "spent",
        })
    }
}
