// The value of a formula in postfix order against a set of locations.
ghost use Rattle.std.specs.Prelude.{◌≡◌};
ghost use Rattle.formula.specs.Machine.{evaluated, step, Values};
ghost use Rattle.formula.specs.Sets.{has};
ghost use Rattle.formula.specs.Stack.{Waits};

use crate::set::contains;
use crate::stack::Stack;
use crate::token::Token;

// The value of the formula that the tokens spell, against the set whose mask is given, or nothing where they spell
// none, or where more than 32 values would wait.
pub fn evaluate(tokens: &[Token], set: u32) -> Option<bool>
    ensures value { result ≡ evaluated (has set) tokens.now }
    ensures means { Values tokens.now set result }
{
    let mut stack = Stack::new();
    for token in tokens {
        stack = read(stack, *token, set)?;
    }
    stack.only()
}

// The values that wait after one token more.
fn read(stack: Stack, token: Token, set: u32) -> Option<Stack>
    ensures { Waits result (λ s. s) (step (has set) token stack) }
{
    match token {
        Token::Location(l) => stack.push(contains(set, l)),
        Token::True => stack.push(true),
        Token::False => stack.push(false),
        Token::And => stack.join(|x, y| x && y),
        Token::Or => stack.join(|x, y| x || y),
    }
}

#[cfg(test)]
mod tests {
    use super::*;

    #[test]
    fn joins_values(rt: HostRuntime) {
        let tokens = [
            Token::Location(0),
            Token::Location(2),
            Token::And,
            Token::True,
            Token::Or,
        ];
        assert_eq!(rt; evaluate(&tokens, 0), Some(true));
        assert_eq!(rt; evaluate(&tokens[..3], 0), Some(false));
        assert_eq!(rt; evaluate(&tokens[..3], 0b001), Some(false));
        assert_eq!(rt; evaluate(&tokens[..3], 0b101), Some(true));
    }

    #[test]
    fn holds_32_values(rt: HostRuntime) {
        let mut tokens = [Token::Or; 63];
        tokens[..32].fill(Token::True);
        assert_eq!(rt; evaluate(&tokens, 0), Some(true));
    }

    #[test]
    fn refuses_a_33rd_value(rt: HostRuntime) {
        let mut tokens = [Token::Or; 65];
        tokens[..33].fill(Token::True);
        assert_eq!(rt; evaluate(&tokens, 0), None);
    }

    #[test]
    fn refuses_what_spells_no_formula(rt: HostRuntime) {
        assert_eq!(rt; evaluate(&[], 0), None, "no token");
        assert_eq!(rt; evaluate(&[Token::Or], 0), None, "no value to join");
        assert_eq!(rt;
            evaluate(&[Token::True, Token::And], 0),
            None,
            "one value to join"
        );
        assert_eq!(rt;
            evaluate(&[Token::True, Token::False], 0),
            None,
            "two values left"
        );
    }

    #[test]
    fn looks_at_each_location(rt: HostRuntime) {
        assert_eq!(rt; evaluate(&[Token::Location(31)], 0x8000_0000), Some(true));
        assert_eq!(rt; evaluate(&[Token::Location(30)], 0x8000_0000), Some(false));
        assert_eq!(rt; evaluate(&[Token::Location(32)], 0xffff_ffff), Some(false));
        assert_eq!(rt; evaluate(&[Token::Location(200)], 0xffff_ffff), Some(false));
    }
}
