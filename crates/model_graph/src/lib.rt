// A model as a graph: its states are its locations, and below is equality.
#![tactic(auto)]

ghost use Rattle.std.specs.Prelude.{◌≡◌};
ghost use Rattle.model_graph.specs.ModelGraph.{model_means, location_at};
ghost use Rattle.layout.proofs.Valids.{test_valid};
ghost use Rattle.sheet.specs.Models.{model_content};
ghost use Rattle.model_graph.specs.Laws.{graph_lawful};

use formula::set::contains;
use graph::Graph;
use layout::source::Source;
use sheet::model::Model;

// The location of that number, if the model has it.
fn location(model: &Model, i: u32) -> Option<u8>
    ensures { result ≡ location_at model.now.head.locations i }
{
    u8::try_from(i)
        .ok()
        .filter(|&location| location < model.locations())
}

#[derive(Drop)]
pub struct ModelGraph {
    pub model: Model,
}

impl Graph for ModelGraph {
    type State = u8;

    ghost means = { λ g. model_means g.model };

    ghost lawful = { λ g.
        let m = g.model in
        graph_lawful (model_content m).head m.cells.items (test_valid (model_content m) m.valid).fields m.fits };

    fn letters(&self) -> u8 {
        self.model.letters()
    }

    fn start(&self) -> u8 {
        self.model.initial()
    }

    fn accepts(&self, a: u8) -> bool {
        contains(self.model.accepting(), a)
    }

    fn below(&self, a: u8, b: u8) -> bool {
        a == b
    }

    fn tops(&self) -> u32 {
        u32::from(self.model.locations())
    }

    fn top(&self, i: u32) -> u8 {
        location(&self.model, i).unwrap_or(self.model.initial())
    }

    fn slots(&self) -> u32 {
        u32::from(self.model.locations())
    }

    fn slot(&self, letter: u8, b: u8, i: u32) -> Option<u8> {
        location(&self.model, i).filter(|&a| contains(self.model.successors(a, letter), b))
    }
}
