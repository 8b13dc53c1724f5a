// How many states a table holds, and whether adding has changed it.
// It stands beside the table that the caller lends, and lives within one sweep or one opening: a struct that also held the
// loan would have to promise at every step that it lends the same table.
#[derive(Clone, Copy, Debug, PartialEq, Eq)]
pub struct Fill {
    pub held: usize,
    pub changed: bool,
}
