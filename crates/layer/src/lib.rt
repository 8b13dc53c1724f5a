// A layer: a model laid over any graph, so that both move under the same letters.
#![tactic(auto)]

ghost use Rattle.std.specs.Prelude.{◌≡◌};
ghost use Rattle.layer.specs.Layers.{layer_means, count_over};
ghost use Rattle.layer.specs.Laws.{layer_lawful};

pub mod both;
pub mod fit;
pub mod layered;
pub mod misfit;
mod spot;

use crate::layered::{Layered, Phase};
use crate::spot::Numbers;
use formula::set::contains;
use graph::Graph;
use layout::source::Source;
use sheet::model::Model;

// No model until one is fitted.
#[derive(Drop)]
pub struct Layer<G> {
    below: G,
    model: Option<Model>,
}

impl<G: Graph> Layer<G> {
    // How many there are over so many below: none without a model that fits, or past 65,536.
    fn count(&self, below: u32) -> Option<u32>
        ensures { result ≡ count_over self.now.model (G.means self.now.below) below }
    {
        let model = self.fitted()?;
        Numbers::over(model, below).count()
    }
}

impl<G: Graph> Graph for Layer<G> {
    type State = Layered<G::State>;

    ghost means = { λ l. layer_means l.model (G.Graph.means l.below) };

    ghost lawful = { λ l. layer_lawful l.model (G.Graph.means l.below) (G.Graph.lawful l.below) };

    fn letters(&self) -> u8 {
        self.below.letters()
    }

    fn start(&self) -> Layered<G::State> {
        Layered {
            location: self.fitted().map_or(0, |model| model.initial()),
            phase: Phase::Above,
            state: self.below.start(),
        }
    }

    fn accepts(&self, a: Layered<G::State>) -> bool {
        a.phase == Phase::Below && self.below.accepts(a.state)
    }

    fn below(&self, a: Layered<G::State>, b: Layered<G::State>) -> bool {
        a.location == b.location && a.phase == b.phase && self.below.below(a.state, b.state)
    }

    fn tops(&self) -> u32 {
        self.count(self.below.tops()).unwrap_or(1)
    }

    fn top(&self, i: u32) -> Layered<G::State> {
        let spot = self
            .fitted()
            .and_then(|model| Numbers::over(model, self.below.tops()).spot(i));
        match spot {
            Some(spot) => spot.over(self.below.top(spot.inner)),
            None => self.start(),
        }
    }

    fn slots(&self) -> u32 {
        self.count(self.below.slots()).unwrap_or(0)
    }

    // Where the model does not fit there are no slots, so that is not asked.
    fn slot(&self, letter: u8, b: Layered<G::State>, i: u32) -> Option<Layered<G::State>> {
        let model = self.model.as_ref()?;
        let spot = Numbers::over(model, self.below.slots()).spot(i)?;
        if !contains(model.successors(spot.location, letter), b.location) {
            return None;
        }
        let state = self.below.slot(letter, b.state, spot.inner)?;
        let phase = spot.phase.after(
            contains(model.accepting(), spot.location),
            self.below.accepts(state),
        );
        (phase == b.phase).then_some(spot.over(state))
    }
}
