// A state of a rule's graph as it stands in tables and between calls: two plain masks of locations.
ghost use Rattle.std.specs.Prelude.{◌≡◌, ◌==◌};

#[derive(Clone, Copy, Debug, PartialEq, Eq)]
pub struct Masks {
    pub held: u32,
    pub owed: u32,
}

impl Masks {
    // Whether nothing is owed.
    pub fn settled(self) -> bool
        ensures { result ≡ (self.owed == 0) }
    {
        self.owed == 0
    }
}
