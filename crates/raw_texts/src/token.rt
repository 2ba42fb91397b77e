//! What tokens are in texts that are read without expansion.

ghost use Rattle.std.specs.Prelude.{◌≡◌};
ghost use Rattle.raw_texts.specs.Kinds.{brace_of as the_brace_of, is_category, is_par as the_is_par};

use tok_lists::{NameNo, Token};

/// The number of the name `\par`.
pub const PAR: u32 = 72;

/// The brace that a token is. Only characters are braces, and not the names that mean them.
#[derive(Clone, Copy, Debug, PartialEq, Eq)]
pub enum Brace {
    Begin,
    End,
    /// No brace.
    Neither,
}

/// Returns the brace that a token is, by its category.
pub fn brace_of(token: &Token) -> Brace
    ensures { result ≡ the_brace_of token.now }
{
    match token {
        Token::Char(_, 1) => Brace::Begin,
        Token::Char(_, 2) => Brace::End,
        _ => Brace::Neither,
    }
}

/// Returns whether a token is a character of category 6, as `#` is.
pub fn is_parameter(token: &Token) -> bool
    ensures { result ≡ is_category 6 token.now }
{
    matches!(token, Token::Char(_, 6))
}

/// Returns whether a token is a space: a character of category 10.
pub fn is_space(token: &Token) -> bool
    ensures { result ≡ is_category 10 token.now }
{
    matches!(token, Token::Char(_, 10))
}

/// Returns whether a token is the name `\par`, whatever that name means.
pub fn is_par(token: &Token) -> bool
    ensures { result ≡ the_is_par token.now }
{
    matches!(token, Token::Name(NameNo(PAR)))
}
