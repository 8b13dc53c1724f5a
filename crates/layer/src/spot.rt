// The numbers of tops and slots: by location, then phase, then the number below.
ghost use Rattle.std.specs.Prelude.{◌≡◌};
ghost use Rattle.layer.specs.Layers.{layered};
ghost use Rattle.layer.specs.Spots.{count_of, spot_at};

use crate::layered::{Layered, Phase};
use layout::source::Source;
use sheet::model::Model;

// As many as there are locations, phases and numbers below.
#[derive(Clone, Copy, Debug, PartialEq, Eq)]
pub(crate) struct Numbers {
    locations: u8,
    below: u32,
}

#[derive(Clone, Copy, Debug, PartialEq, Eq)]
pub(crate) struct Spot {
    pub location: u8,
    pub phase: Phase,
    pub inner: u32,
}

impl Numbers {
    // Those of a model over a graph with so many of them.
    pub(crate) fn over(model: &Model, below: u32) -> Numbers
        ensures { result ≡ record { locations = model.now.head.locations; below = below } }
    {
        Numbers {
            locations: model.locations(),
            below,
        }
    }

    // How many there are, if they are at most 65,536.
    pub(crate) fn count(self) -> Option<u32>
        ensures { result ≡ count_of self.locations self.below }
    {
        let count = 2 * u64::from(self.locations) * u64::from(self.below);
        u32::try_from(count).ok().filter(|&count| count <= 65536)
    }

    // What a number stands for.
    pub(crate) fn spot(self, i: u32) -> Option<Spot>
        ensures { result ≡ spot_at self.locations self.below i }
    {
        let row = i.checked_div(self.below)?;
        let location = u8::try_from(row / 2)
            .ok()
            .filter(|&location| location < self.locations)?;
        Some(Spot {
            location,
            phase: if row % 2 == 0 {
                Phase::Above
            } else {
                Phase::Below
            },
            inner: i % self.below,
        })
    }
}

impl Spot {
    // The state of a layer there, over a state below.
    pub(crate) fn over<S: Copy>(self, state: S) -> Layered<S>
        ensures { result ≡ layered self.location self.phase state }
    {
        Layered {
            location: self.location,
            phase: self.phase,
            state,
        }
    }
}
