// How what was brought moves the record.
ghost use Rattle.std.specs.Prelude.{◌≡◌};
ghost use Rattle.inquiry.specs.Record.{reported};
ghost use Rattle.inquiry.specs.Turn.{turned, Meets};

use super::Inquiry;
use crate::brought::Brought;
use crate::standing::Standing;

impl Inquiry {
    pub(crate) fn turn(&mut self, brought: Brought)
        requires { Meets (reported self.old) brought }
        ensures { reported self.new ≡ turned brought (reported self.old) }
    {
        match (self.report.standing, brought) {
            (Standing::Running, Brought::NoPlace) => self.report.standing = Standing::Full,
            (Standing::Running, Brought::Gained(held)) => {
                self.report.tick();
                self.report.grow(held);
            }
            (Standing::Running, Brought::Lost) => {
                self.report.end_round();
                self.report.standing = Standing::Impossible;
            }
            (Standing::Running, Brought::Settled) => {
                self.report.end_round();
                self.report.standing = Standing::Possible;
            }
            (Standing::Running, Brought::Shrunk) => self.report.end_round(),
            (Standing::Full, Brought::Room(places)) => {
                self.report.places = places;
                self.report.standing = Standing::Running;
            }
            (_, _) => {}
        }
    }
}
