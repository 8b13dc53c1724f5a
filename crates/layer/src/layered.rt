// The states of a layer.
ghost use Rattle.std.specs.Prelude.{◌≡◌};
ghost use Rattle.layer.specs.Phases.{phase_after};

// Whose acceptance is waited for: that of the location above, or that of the state below.
#[derive(Clone, Copy, Debug, PartialEq, Eq)]
pub enum Phase {
    Above,
    Below,
}

#[derive(Clone, Copy, Debug, PartialEq, Eq)]
pub struct Layered<S> {
    pub location: u8,
    pub phase: Phase,
    pub state: S,
}

impl Phase {
    // The phase after a state is left whose location and whose state below accept or not.
    pub(crate) fn after(self, above_accepts: bool, below_accepts: bool) -> Phase
        ensures { result ≡ phase_after above_accepts below_accepts self }
    {
        match self {
            Phase::Above if above_accepts => Phase::Below,
            Phase::Below if below_accepts => Phase::Above,
            _ => self,
        }
    }
}
