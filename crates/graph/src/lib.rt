// A graph that others know only by its meaning: its questions answer the meaning, and the meaning keeps the laws.
#![tactic(auto)]

ghost use Rattle.std.specs.Prelude.{◌≡◌};
ghost use Rattle.graph.specs.Meaning.{Meaning, Lawful};

pub trait Graph {
    type State: Copy;

    ghost means: { Self → Meaning Self.State };

    // Letters are numbered from 0.
    fn letters(&self) -> u8
        ensures { result ≡ (means self.now).letters };

    fn start(&self) -> Self::State
        ensures { result ≡ (means self.now).start };

    // Whether a is accepting.
    fn accepts(&self, a: Self::State) -> bool
        ensures { result ≡ (means self.now).accepts a };

    // Whether a is below b.
    fn below(&self, a: Self::State, b: Self::State) -> bool
        ensures { result ≡ (means self.now).below a b };

    // How many tops there are.
    fn tops(&self) -> u32
        ensures { result ≡ (means self.now).tops };

    // The top of a number: each state is below one of them.
    fn top(&self, i: u32) -> Self::State
        ensures { result ≡ (means self.now).top i };

    // How many slots a letter and a state have.
    fn slots(&self) -> u32
        ensures { result ≡ (means self.now).slots };

    // What a slot holds, if anything: just the states below what the slots hold step under the letter to one below b.
    fn slot(&self, letter: u8, b: Self::State, i: u32) -> Option<Self::State>
        ensures { result ≡ (means self.now).slot letter b i };

    ghost lawful: { (g : Self) → Lawful (means g) };
}
