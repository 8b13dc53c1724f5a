// The values that wait while tokens are read: at most 32.
ghost use Rattle.std.specs.Prelude.{◌≡◌, ◌<◌, Bool, List, [], ◌∷◌, length, Some, MatchOption, IfSome};
ghost use Rattle.formula.specs.Machine.{pushed, joined, only};
ghost use Rattle.formula.specs.Stack.{Waits};

use std::marker::Model;

// How many values can wait.
const MOST: u64 = 32;

// The values as the low `count` bits, newest lowest, in two words that stay in registers while tokens are read: an array
// of 32 bools with a count, as an ArrayVec, took 1.4 times as long to evaluate formulas of 63 to 253 tokens.
#[derive(Drop)]
pub struct Stack {
    bits: u64,
    count: u64,
}

impl Model for Stack {
    ghost use Rattle.std.specs.Prelude.{◌^◌, ◌<◌, ◌≤◌, Bool, List};
    ghost use Rattle.formula.specs.Stack.{values};

    ghost Value = { List Bool };

    ghost view = { λ s. values s.count s.bits };

    ghost invariant = { λ s. (s.bits < 2 ^ s.count) × (s.count ≤ 32) };
}

impl Stack {
    pub(crate) fn new() -> Stack
        ensures { result ≡ [] }
    {
        Stack { bits: 0, count: 0 }
    }

    // One value more, unless 32 wait.
    pub(crate) fn push(self, value: bool) -> Option<Stack>
        ensures { Waits result (λ s. s) (pushed value self) }
    {
        if self.count < MOST {
            Some(self.put(value))
        } else {
            None
        }
    }

    // The two newest values joined, if two wait.
    pub(crate) fn join<F: Fn(bool, bool) -> bool>(self, op: F) -> Option<Stack>
        requires { (x y : Bool) → F.pre op x y }
        ensures { (m : Bool → Bool → Bool) → ((x y r : Bool) → F.post op x y r → r ≡ m x y) → Waits result (λ s. s) (joined m self) }
    {
        let (rest, y) = self.pop()?;
        let (rest, x) = rest.pop()?;
        Some(rest.put(op(x, y)))
    }

    // The value that waits, if it waits alone.
    pub(crate) fn only(self) -> Option<bool>
        ensures { result ≡ only (Some self) }
    {
        if self.count == 1 {
            Some(self.bits == 1)
        } else {
            None
        }
    }

    // One value more, for which there is room.
    fn put(self, value: bool) -> Stack
        requires { length self < 32 }
        ensures { result ≡ value ∷ self }
    {
        Stack {
            bits: self.bits * 2 + u64::from(value),
            count: self.count + 1,
        }
    }

    // What waits under the newest value, and that value, if any waits.
    fn pop(self) -> Option<(Stack, bool)>
        ensures parts { MatchOption result (self ≡ []) (λ p. self ≡ p.1 ∷ p.0) }
        ensures room { IfSome result (λ p. length p.0 < 32) }
    {
        if self.count == 0 {
            return None;
        }
        Some((
            Stack {
                bits: self.bits / 2,
                count: self.count - 1,
            },
            self.bits % 2 == 1,
        ))
    }
}
