// Formulas that are an or of locations: the set that one names, and the rising spelling of a set.
ghost use Rattle.std.specs.Prelude.{◌≡◌, ◌%◌, ◌^◌, [], ◌∷◌, length, bit_or, slice_index_or};
ghost use Rattle.std.specs.List.{slice_get};
ghost use Rattle.formula.specs.declared.token.Token.TheVariants.{False};
ghost use Rattle.formula.specs.Unions.{members, named as names, spelling};

use crate::set::{contains, with};
use crate::token::Token;

// The set of the locations that the tokens name, as a mask: a location of 32 or more has no bit.
pub fn named(tokens: &[Token]) -> u32
    ensures { result ≡ names tokens.now % 2 ^ 32 }
{
    tokens.iter().fold(0, |set, token| joined(set, *token))
}

// How many tokens the rising spelling of a set of the first `locations` locations has.
pub fn spelling_length(locations: u8, set: u32) -> usize
    ensures { result ≡ length (spelling locations set) }
{
    (2 * count(locations, set)).saturating_sub(1)
}

// Token i of that spelling; past its end, false.
pub fn spelling_token(locations: u8, set: u32, i: usize) -> Token
    ensures { result ≡ slice_index_or (spelling locations set) i False }
{
    // Member 0 stands at 0, and each later member j at 2j - 1, with its `or` at 2j.
    match member(locations, set, i / 2 + i % 2) {
        None => Token::False,
        Some(_) if i > 0 && i % 2 == 0 => Token::Or,
        Some(l) => Token::Location(l),
    }
}

// The set with the location that the token names, if any.
fn joined(set: u32, token: Token) -> u32
    ensures { result ≡ bit_or set (names (token ∷ [])) % 2 ^ 32 }
{
    match token {
        Token::Location(l) => with(set, l),
        Token::True | Token::False | Token::And | Token::Or => set,
    }
}

// How many of the first `locations` locations are in the set.
fn count(locations: u8, set: u32) -> usize
    ensures { result ≡ length (members locations set) }
{
    // A filter that is counted, here and in `member`, makes 1.6 times the instructions where full sets are written.
    let mut count = 0;
    for l in 0..locations {
        count += usize::from(contains(set, l));
    }
    count
}

// Member j of the set, from 0 and rising, among the first `locations` locations, if there are so many.
fn member(locations: u8, set: u32, j: usize) -> Option<u8>
    ensures { result ≡ slice_get (members locations set) j }
{
    let mut before = 0;
    for l in 0..locations {
        if contains(set, l) {
            if before == j {
                return Some(l);
            }
            before += 1;
        }
    }
    None
}

#[cfg(test)]
mod tests {
    use super::*;

    #[test]
    fn names_each_location_with_a_bit(rt: HostRuntime) {
        assert_eq!(rt; named(&[]), 0);
        assert_eq!(rt;
            named(&[Token::Location(0), Token::Location(2), Token::Or]),
            0b101
        );
        assert_eq!(rt;
            named(&[Token::Location(31), Token::Location(32), Token::Or]),
            0x8000_0000
        );
    }

    #[test]
    fn spells_a_set_by_rising_members(rt: HostRuntime) {
        let set = 0x8000_0012;
        let tokens = [
            Token::Location(1),
            Token::Location(4),
            Token::Or,
            Token::Location(31),
            Token::Or,
        ];
        assert_eq!(rt; spelling_length(32, set), 5);
        for (i, token) in tokens.iter().enumerate() {
            assert_eq!(rt; spelling_token(32, set, i), *token);
        }
        assert_eq!(rt; spelling_token(32, set, 5), Token::False);
        assert_eq!(rt; spelling_length(31, set), 3);
    }

    #[test]
    fn spells_the_empty_set_by_no_tokens(rt: HostRuntime) {
        assert_eq!(rt; spelling_length(32, 0), 0);
        assert_eq!(rt; spelling_token(32, 0, 0), Token::False);
    }
}
