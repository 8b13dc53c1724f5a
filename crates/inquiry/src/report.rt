// What an inquiry's record says: how it stands, where it is, and how many states outer and inner hold.
ghost use Rattle.std.specs.Prelude.{◌≡◌, ◌<◌, ◌≤◌};
ghost use Rattle.inquiry.specs.declared.standing.Standing.TheVariants.{Running};
ghost use Rattle.inquiry.specs.Turn.{ticked, grown, next};

use super::standing::Standing;

#[derive(Clone, Copy, Debug, PartialEq, Eq)]
pub struct Report {
    pub standing: Standing,
    pub round: u32,
    pub sweep: u32,
    pub count: u32,
    pub limit: u32,
    pub places: usize,
    pub outer: usize,
    pub inner: usize,
}

impl Report {
    // Counts a sweep; at the limit the inquiry is spent.
    pub(crate) fn tick(&mut self)
        requires runs { self.old.standing ≡ Running }
        requires left { self.old.count < self.old.limit }
        ensures { self.new ≡ ticked self.old }
    {
        self.count += 1;
        if self.count == self.limit {
            self.standing = Standing::Spent;
        }
    }

    // A sweep goes on in the round, and inner holds so many.
    pub(crate) fn grow(&mut self, held: usize)
        requires { self.old.sweep < self.old.count }
        ensures { self.new ≡ grown held self.old }
    {
        self.sweep += 1;
        self.inner = held;
    }

    // Inner becomes outer, and the next round begins.
    fn next_round(&mut self)
        requires { self.old.round < self.old.count }
        ensures { self.new ≡ next self.old }
    {
        self.outer = self.inner;
        self.inner = 0;
        self.round += 1;
        self.sweep = 0;
    }

    // Counts the sweep that ends a round.
    pub(crate) fn end_round(&mut self)
        requires runs { self.old.standing ≡ Running }
        requires left { self.old.count < self.old.limit }
        requires rounds { self.old.round ≤ self.old.count }
        ensures { self.new ≡ next (ticked self.old) }
    {
        self.tick();
        self.next_round();
    }
}
