//! The `=` of assignments.

ghost use Rattle.std.specs.Prelude.{◌≡◌};
ghost use Rattle.scan_syntax.specs.Relations.{is_equals as it_is_equals};

use tok_lists::Token;

/// Whether it is the `=` of an assignment.
#[tactic(auto, unfolding(crate::specs::Relations::is_equals))]
pub(crate) fn is_equals(token: &Token) -> bool
    ensures { result ≡ it_is_equals token.now }
{
    matches!(token, Token::Char(b'=', 12))
}
