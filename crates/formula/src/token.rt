// The tokens of a formula in postfix order, and the bytes that stand for them.
ghost use Rattle.std.specs.Prelude.{◌≡◌, Some};
ghost use Rattle.formula.specs.Tokens.{code, no_token_words, Stands};

use std::error::Error;
use std::fmt;

#[derive(Clone, Copy, PartialEq, Eq, Debug)]
pub enum Token {
    Location(u8),
    True,
    False,
    And,
    Or,
}

// A byte that stands for no token.
#[derive(Clone, Copy, PartialEq, Eq, Debug)]
pub struct NoToken(pub u8);

impl TryFrom<u8> for Token {
    type Error = NoToken;

    ghost try_from_gives = { Stands };

    fn try_from(byte: u8) -> Result<Token, NoToken> {
        match byte {
            0x00..=0x1f => Ok(Token::Location(byte)),
            0x40 => Ok(Token::True),
            0x41 => Ok(Token::False),
            0x42 => Ok(Token::And),
            0x43 => Ok(Token::Or),
            _ => Err(NoToken(byte)),
        }
    }
}

impl From<Token> for u8 {
    ghost from_gives = { λ t b. b ≡ code t };

    fn from(token: Token) -> u8 {
        match token {
            Token::Location(l) => l,
            Token::True => 0x40,
            Token::False => 0x41,
            Token::And => 0x42,
            Token::Or => 0x43,
        }
    }
}

impl fmt::Display for NoToken {
    ghost output = { λ e. Some (no_token_words e) };

    fn fmt<W: fmt::Write>(&self, f: &mut fmt::Formatter<W>) -> fmt::Result {
        write!(f, "no token has byte {}", self.0)
    }
}

impl Error for NoToken {}
