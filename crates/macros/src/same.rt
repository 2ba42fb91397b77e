//! Equal tokens.

ghost use Rattle.std.specs.Prelude.{◌≡◌};
ghost use Rattle.macros.specs.Same.{is_same as the_same, are_same as the_same_lists};

use tok_lists::Token;

/// Returns whether two tokens are equal.
pub(crate) fn is_same(first: &Token, second: &Token) -> bool
    ensures { result ≡ the_same first.now second.now }
{
    *first == *second
}

/// Returns whether two lists of tokens are equal.
pub(crate) fn are_same(first: &[Token], second: &[Token]) -> bool
    ensures { result ≡ the_same_lists first.now second.now }
{
    first == second
}
