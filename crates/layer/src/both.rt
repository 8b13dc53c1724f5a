// What a layer whose model fits does: what the model and the graph below do under the same letters.
ghost use Rattle.layer.specs.Both.{MakesTheSame, LoopsMeet, LoopsShared};

use crate::Layer;
use graph::Graph;

// It makes a behaviour exactly when the model and the graph below both make it.
pub fn makes_the_same<G: Graph>(layer: &Layer<G>)
    ensures { MakesTheSame layer.now.model (G.means layer.now.below) }
{}

// It has an accepting loop exactly when, phases left out, some reached closed walk meets an accepting location and an
// accepting state below.
pub fn loops_meet<G: Graph>(layer: &Layer<G>)
    ensures { LoopsMeet layer.now.model (G.means layer.now.below) }
{}

// It has an accepting loop exactly when the model and the graph below make one repeating behaviour.
pub fn loops_are_shared<G: Graph>(layer: &Layer<G>)
    ensures { LoopsShared layer.now.model (G.means layer.now.below) }
{}
