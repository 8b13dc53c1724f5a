// The bench: from the bytes of a sheet to an answer.
#![tactic(auto)]

mod conclude;

ghost use Rattle.std.specs.Prelude.{◌≡◌, Some};
ghost use Rattle.bench.specs.Answers.{answer_of, answer_words, Answered};

use conclude::conclude;
use inquiry::report::Report;
use inquiry::standing::Standing;
use model_graph::ModelGraph;
use sheet::error::LoadError;
use sheet::model::Model;
use std::alloc::Global;
use std::fmt;

// How the inquiry ended.
#[derive(Clone, Copy, PartialEq, Eq, Debug)]
pub struct Answer {
    pub standing: Standing,
    pub round: u32,
    pub count: u32,
}

impl From<Report> for Answer {
    ghost from_gives = { λ report answer. answer ≡ answer_of report };

    fn from(report: Report) -> Answer {
        Answer {
            standing: report.standing,
            round: report.round,
            count: report.count,
        }
    }
}

impl fmt::Display for Answer {
    ghost output = { λ answer. Some (answer_words answer) };

    fn fmt<W: fmt::Write>(&self, f: &mut fmt::Formatter<W>) -> fmt::Result {
        write!(f, "{} {} {}", self.standing, self.round, self.count)
    }
}

// Whether the model that the sheet denotes has an accepting loop, by an inquiry run to its end.
pub fn ask(heap: Global, sheet: &[u8]) -> Result<Answer, LoadError>
    ensures { Answered sheet.now result }
{
    let model = Model::from_sheet(heap, sheet)?;
    let report = conclude(heap, &ModelGraph { model })?;
    Ok(Answer::from(report))
}
