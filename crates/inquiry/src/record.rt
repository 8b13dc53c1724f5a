// The record of an inquiry. Its tables are lent to each call.
ghost use Rattle.std.specs.Prelude.{◌≡◌, ◌<◌, ◌≤◌, true};
ghost use Rattle.inquiry.specs.Standing.{going as is_going};

use crate::report::Report;

mod bring;
mod calls;
mod reporting;
mod turn;

// The most places a table has.
pub const MOST_PLACES: usize = 4096;

#[derive(Drop)]
pub struct Inquiry {
    report: Report,
    ghost some: { 1 ≤ report.places },
    ghost few: { report.places ≤ 4096 },
    ghost outer_fits: { report.outer ≤ report.places },
    ghost inner_fits: { report.inner ≤ report.places },
    ghost rounds: { report.round ≤ report.count },
    ghost sweeps: { report.sweep ≤ report.count },
    // so that one more sweep can be counted
    ghost left: { is_going report.standing ≡ true → report.count < report.limit },
}
