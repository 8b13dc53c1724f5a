// The calls that move an inquiry: open, run and widen. A call that is turned down changes nothing.
ghost use Rattle.std.specs.Prelude.{◌≡◌, ◌≤◌, List, length, IfOk, MatchResult};
ghost use Rattle.graph.specs.Meaning.{Meaning};
ghost use Rattle.inquiry.specs.declared.standing.Standing.TheVariants.{Running};
ghost use Rattle.inquiry.specs.Calls.{open_refusal, run_refusal, widen_refusal, Turned, Ran};
ghost use Rattle.inquiry.specs.Course.{Course, Promise, Onward};
ghost use Rattle.inquiry.specs.Position.{opened, swept, ran, widened};
ghost use Rattle.inquiry.specs.Record.{reported, position};

use super::{Inquiry, MOST_PLACES};
use crate::brought::Brought;
use crate::refusal::Refusal;
use crate::report::Report;
use crate::standing::Standing;
use crate::sweep::{copy, tops};
use antichain::fill::Fill;
use graph::Graph;

impl Inquiry {
    // Begins an inquiry in tables of equal length. Only outer is written: inner is empty.
    pub fn open<G: Graph>(
        graph: &G,
        outer: &mut [G::State],
        inner: &[G::State],
        work: &[G::State],
        limit: u32,
    ) -> Result<Inquiry, Refusal>
        ensures steps { Turned (open_refusal (length outer.old) (length inner.now) (length work.now) limit (G.means graph.now).tops) result (outer.new ≡ outer.old) (λ i. position (reported i) outer.new inner.now ≡ opened (G.means graph.now) limit (length outer.old)) }
        ensures onward { IfOk result (λ i. Course (G.means graph.now) (position (reported i) outer.new inner.now) × Promise (G.means graph.now) (position (reported i) outer.new inner.now)) }
    {
        let places = outer.len();
        if !(1..=MOST_PLACES).contains(&places) || inner.len() != places || work.len() != places {
            return Err(Refusal::Tables);
        }
        if limit == 0 {
            return Err(Refusal::Limit);
        }
        if graph.tops() as usize > places {
            return Err(Refusal::Tops);
        }
        let Some(Fill { held, .. }) = tops(graph, outer) else {
            // there is a place for each top
            unreachable!()
        };
        Ok(Inquiry {
            report: Report {
                standing: Standing::Running,
                round: 0,
                sweep: 0,
                count: 0,
                limit,
                places,
                outer: held,
                inner: 0,
            },
        })
    }

    // The three tables stay three parameters: they are lent to each call, and a struct of their loans would have to
    // promise after every step that it still holds them.
    fn step<G: Graph>(
        &mut self,
        graph: &G,
        outer: &mut [G::State],
        inner: &mut [G::State],
        work: &mut [G::State],
    )
        requires runs { self.old.report.standing ≡ Running }
        requires outer { length outer.old ≡ self.old.report.places }
        requires inner { length inner.old ≡ self.old.report.places }
        requires work { length work.old ≡ self.old.report.places }
        ensures sweeps { position (reported self.new) outer.new inner.new ≡ swept (G.means graph.now) (position (reported self.old) outer.old inner.old) }
        ensures long { self.new.report.places ≡ self.old.report.places }
    {
        let brought = self.bring(graph, outer, inner, work);
        self.turn(brought);
    }

    // Sweeps until so many are counted or the inquiry does not run. Work is free, and so is what lies past the held states.
    pub fn run<G: Graph>(
        &mut self,
        graph: &G,
        outer: &mut [G::State],
        inner: &mut [G::State],
        work: &mut [G::State],
        budget: u32,
    ) -> Result<(), Refusal>
        ensures steps { Turned (run_refusal (reported self.old) (length outer.old) (length inner.old) (length work.old)) result ((self.new ≡ self.old) × (outer.new ≡ outer.old) × (inner.new ≡ inner.old) × (work.new ≡ work.old)) (λ _. Ran (G.means graph.now) budget (position (reported self.old) outer.old inner.old) (position (reported self.new) outer.new inner.new)) }
        ensures onward { Onward (G.means graph.now) (position (reported self.old) outer.old inner.old) (position (reported self.new) outer.new inner.new) }
    {
        let places = self.report.places;
        if outer.len() != places || inner.len() != places || work.len() != places {
            return Err(Refusal::Places);
        }
        let Standing::Running = self.report.standing else {
            return Err(Refusal::Stopped);
        };
        for _done in 0..budget {
            let Standing::Running = self.report.standing else {
                break;
            };
            self.step(graph, outer, inner, work);
        }
        Ok(())
    }

    // Moves a full inquiry to longer tables, where it runs on. New work is free, and so is what lies past the held states.
    pub fn widen<G: Graph>(
        &mut self,
        outer: &[G::State],
        inner: &[G::State],
        new_outer: &mut [G::State],
        new_inner: &mut [G::State],
        new_work: &[G::State],
    ) -> Result<(), Refusal>
        ensures steps { Turned (widen_refusal (reported self.old) (length outer.now) (length inner.now) (length new_outer.old) (length new_inner.old) (length new_work.now)) result ((self.new ≡ self.old) × (new_outer.new ≡ new_outer.old) × (new_inner.new ≡ new_inner.old)) (λ _. position (reported self.new) new_outer.new new_inner.new ≡ widened (length new_outer.old) (position (reported self.old) outer.now inner.now)) }
        ensures onward { MatchResult result (λ _. (g : G) → Onward (G.means g) (position (reported self.old) outer.now inner.now) (position (reported self.new) new_outer.new new_inner.new)) (λ _. (g : G) → Onward (G.means g) (position (reported self.old) outer.now inner.now) (position (reported self.new) outer.now inner.now)) }
    {
        if outer.len() != self.report.places || inner.len() != self.report.places {
            return Err(Refusal::Places);
        }
        let Standing::Full = self.report.standing else {
            return Err(Refusal::Room);
        };
        let places = new_outer.len();
        if new_inner.len() != places
            || new_work.len() != places
            || places <= self.report.places
            || places > MOST_PLACES
        {
            return Err(Refusal::Wider);
        }
        copy(&outer[0..self.report.outer], new_outer);
        copy(&inner[0..self.report.inner], new_inner);
        self.turn(Brought::Room(places));
        Ok(())
    }
}
