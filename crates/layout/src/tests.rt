// A small sheet: the bytes of its one entry, and the refusal of a slice that is too short.
ghost use Rattle.std.specs.Prelude.{[], ◌∷◌};
ghost use Rattle.formula.specs.declared.token.Token.TheVariants.{Location, True as Always, Or};
ghost use Rattle.inspect.specs.declared.head.Sort.TheVariants.{Rule};
ghost use Rattle.std.proofs.Common.{rules};

use crate::source::Source;
use crate::write::{WriteFault, write};
use formula::token::Token;
use inspect::head::{Head, Sort};

// Two locations and one letter, with tokens for location 1 alone.
struct Pair;

impl Source for Pair {
    ghost content = { λ _. record { head = record { sort = Rule; locations = 2; letters = 1; initial = 0; accepting = 2 }; formulas = [] ∷ (Location 0 ∷ Always ∷ Or ∷ []) ∷ [] } };

    ghost valid = { Prim.search rules };

    fn head(&self) -> Head {
        Head {
            sort: Sort::Rule,
            locations: 2,
            letters: 1,
            initial: 0,
            accepting: 2,
        }
    }

    fn length(&self, cell: usize) -> usize {
        if cell == 1 { 3 } else { 0 }
    }

    fn token(&self, cell: usize, i: usize) -> Token {
        match (cell, i) {
            (1, 0) => Token::Location(0),
            (1, 1) => Token::True,
            (1, 2) => Token::Or,
            _ => Token::False,
        }
    }
}

#[test]
fn says_what_its_head_says(rt: HostRuntime) {
    assert_eq!(rt; Pair.locations(), 2);
    assert_eq!(rt; Pair.letters(), 1);
    assert_eq!(rt; Pair.initial(), 0);
    assert_eq!(rt; Pair.accepting(), 2);
}

#[test]
fn writes_an_entry(rt: HostRuntime) {
    let mut out = [0xaa; 1025];
    assert_eq!(rt; write(&Pair, &mut out), Ok(1024));
    assert_eq!(rt; &out[0..10], [1, 0, 1, 2, 1, 0, 2, 0, 0, 0].as_slice());
    assert_eq!(rt;
        &out[512..521],
        [2, 1, 1, 0, 3, 0, 0x40, 0x43, 0xff].as_slice()
    );
    assert_eq!(rt; out[1024], 0xaa);
}

#[test]
fn leaves_what_is_too_short(rt: HostRuntime) {
    let mut out = [0xaa; 1023];
    assert_eq!(rt; write(&Pair, &mut out), Err(WriteFault::TooFewBytes));
    assert_eq!(rt; out[0], 0xaa);
}

#[test]
fn says_what_was_wrong(rt: HostRuntime) {
    let fault = WriteFault::TooFewBytes;
    assert_eq!(rt; fault.number(), 9);
    let text = format!(in rt.alloc(); "{fault}").expect(&rt, "memory for a few words");
    assert_eq!(rt; text.as_str(), "the bytes given are too few");
}
