// What the record of an inquiry says.
ghost use Rattle.std.specs.Prelude.{◌≡◌, List};
ghost use Rattle.graph.specs.Meaning.{Meaning};
ghost use Rattle.inquiry.specs.Course.{Course, Promise};
ghost use Rattle.inquiry.specs.Record.{reported, position};

use super::Inquiry;
use crate::report::Report;
use graph::Graph;

impl Inquiry {
    // The report. Wherever a course leads to it, its promise holds.
    pub fn report<G: Graph>(&self) -> Report
        ensures is { result ≡ reported self.now }
        ensures onward { (g : G) (outer inner : List G.State) → Course (G.means g) (position result outer inner) → Promise (G.means g) (position result outer inner) }
    {
        self.report
    }
}
