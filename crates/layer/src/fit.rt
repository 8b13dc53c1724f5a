// Layers over a graph: made without a model, and fitted with one.
ghost use Rattle.std.specs.Prelude.{◌≡◌, Some, None, MatchOption};
ghost use Rattle.layer.specs.Fits.{Fit};
ghost use Rattle.layer.specs.Layers.{few as few_numbers, fits as fits_over, fitted_model, same_letters as same_letters_of};

use crate::Layer;
use crate::misfit::Misfit;
use crate::spot::Numbers;
use graph::Graph;
use layout::source::Source;
use sheet::model::Model;

// Whether the model has the letters of the graph.
fn same_letters<G: Graph>(model: &Model, below: &G) -> bool
    ensures { result ≡ same_letters_of model.now (G.means below.now) }
{
    model.letters() == below.letters()
}

// Whether the layer would have few enough tops and slots.
fn few<G: Graph>(model: &Model, below: &G) -> bool
    ensures { result ≡ few_numbers model.now (G.means below.now) }
{
    Numbers::over(model, below.tops()).count().is_some()
        && Numbers::over(model, below.slots()).count().is_some()
}

// Whether the model fits over the graph.
fn fits<G: Graph>(model: &Model, below: &G) -> bool
    ensures { result ≡ fits_over model.now (G.means below.now) }
{
    same_letters(model, below) && few(model, below)
}

impl<G> Layer<G> {
    // Not fitted yet.
    pub fn new(below: G) -> Layer<G>
        ensures { result ≡ record { below = below; model = None } }
    {
        Layer { below, model: None }
    }
}

impl<G: Graph> Layer<G> {
    // Lays the model over the graph; a model that does not fit is handed back, and the layer stays as it was.
    pub fn fit(&mut self, model: Model) -> Result<(), Misfit>
        ensures { Fit model (G.means self.old.below) self.old self.new result }
    {
        if !same_letters(&model, &self.below) {
            return Err(Misfit::Letters(model));
        }
        if !few(&model, &self.below) {
            return Err(Misfit::Counts(model));
        }
        self.model = Some(model);
        Ok(())
    }

    // The model, if it fits. That is asked each time: a field could say it only of a graph, and `new` takes any `G`.
    pub(crate) fn fitted(&self) -> Option<&Model>
        ensures { MatchOption result (fitted_model self.now.model (G.means self.now.below) ≡ None) (λ t. fitted_model self.now.model (G.means self.now.below) ≡ Some t.now) }
    {
        self.model.as_ref().filter(|model| fits(model, &self.below))
    }
}
