// What a sweep brought, or what new tables bring. No place and new room are among them, so that one function, `turn`,
// matches the standing with what was brought, for `run` and `widen` alike.
#[derive(Clone, Copy, Debug, PartialEq, Eq)]
pub enum Brought {
    // the sweep found no place
    NoPlace,
    // work changed, and is the new inner with so many states
    Gained(usize),
    // the round ended, and the start is below no outer state
    Lost,
    // the round ended, and outer stays
    Settled,
    // the round ended, and outer shrank
    Shrunk,
    // longer tables, of so many places
    Room(usize),
}
