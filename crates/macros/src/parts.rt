//! The parts of a parameter text.

ghost use Rattle.std.specs.Prelude.{◌≡◌, ◌<◌, ◌≤◌, ◌+◌, length, drop, slice_range};
ghost use Rattle.macros.specs.Calls.{is_param as the_is_param, parts, with_param};

use tok_lists::Token;

fn is_param(token: &Token) -> bool
    ensures { result ≡ the_is_param token.now }
{
    matches!(token, Token::Param(_))
}

/// Returns the place of the first parameter from a place on, or the length where there is none.
pub(crate) fn next_param(params: &[Token], from: usize) -> usize
    requires { from ≤ length params.now }
    ensures order { from ≤ result }
    ensures most { result ≤ length params.now }
    ensures prefix { (parts (drop from params.now)).prefix ≡ slice_range params.now from result }
    ensures delimiters { (parts (drop from params.now)).delimiters
        ≡ (parts (drop result params.now)).delimiters }
    ensures here { result < length params.now
        → parts (drop result params.now) ≡ with_param (parts (drop (result + 1) params.now)) }
{
    let mut at = from;
    while at < params.len() {
        if is_param(&params[at]) {
            return at;
        }
        at += 1;
    }
    at
}
