// A formula as a person reads it: connectives between their parts, and parts that are joined in parentheses.
ghost use Rattle.std.specs.Prelude.{◌≡◌, IfOk, string_bytes, MatchOption, OnOk};
ghost use Rattle.words.specs.Infix.{inside as part_inside, SpellNone, SpellText};
ghost use Rattle.words.specs.Parts.{shown, waiting, join as parts_joined, newest_joined, read_part};

use formula::evaluate::evaluate;
use formula::token::Token;
use std::alloc::{AllocError, Global};

// The text of a part of a formula, by whether it has a connective.
#[derive(Drop)]
enum Part {
    Single(String),
    Joined(String),
}

impl Part {
    fn text(self) -> String
        ensures { string_bytes result ≡ (shown self).0 }
    {
        match self {
            Part::Single(text) | Part::Joined(text) => text,
        }
    }

    // The text of this part inside another.
    fn inside(self, heap: Global) -> Result<String, AllocError>
        ensures { IfOk result (λ s. string_bytes s ≡ part_inside (shown self).1 (shown self).0) }
    {
        match self {
            Part::Single(text) => Ok(text),
            Part::Joined(text) => format!(in heap; "({text})"),
        }
    }

    fn join(self, connective: &str, right: Part, heap: Global) -> Result<Part, AllocError>
        ensures { IfOk result (λ p. shown p ≡ parts_joined connective.now (shown self) (shown right)) }
    {
        let left = self.inside(heap)?;
        let right = right.inside(heap)?;
        Ok(Part::Joined(format!(in heap; "{left} {connective} {right}")?))
    }
}

// The two newest parts joined, if there are two.
fn join_newest(parts: &mut Vec<Part>, connective: &str, heap: Global) -> Result<(), AllocError>
    ensures { OnOk result (waiting parts.new.items ≡ newest_joined connective.now (waiting parts.old.items)) }
{
    let (Some(right), Some(left)) = (parts.pop(), parts.pop()) else {
        return Ok(());
    };
    parts.push(left.join(connective, right, heap)?)?;
    Ok(())
}

fn read(parts: &mut Vec<Part>, token: Token, heap: Global) -> Result<(), AllocError>
    ensures { OnOk result (waiting parts.new.items ≡ read_part token (waiting parts.old.items)) }
{
    let part = match token {
        Token::Location(l) => Part::Single(l.to_string(heap)?),
        Token::True => Part::Single(String::from_str(heap, "true")?),
        Token::False => Part::Single(String::from_str(heap, "false")?),
        Token::And => return join_newest(parts, "and", heap),
        Token::Or => return join_newest(parts, "or", heap),
    };
    parts.push(part)?;
    Ok(())
}

// The formula that the tokens spell, in infix order, or nothing where they spell none, or where more than 32 values
// would wait.
pub fn infix(heap: Global, tokens: &[Token]) -> Result<Option<String>, AllocError>
    ensures { IfOk result (λ o. MatchOption o (SpellNone tokens.now) (λ s. SpellText tokens.now (string_bytes s))) }
{
    if evaluate(tokens, 0).is_none() {
        return Ok(None);
    }
    let mut parts = Vec::new(heap);
    for token in tokens {
        read(&mut parts, *token, heap)?;
    }
    Ok(parts.pop().map(Part::text))
}
