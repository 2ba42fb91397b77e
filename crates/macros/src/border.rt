//! How much of a delimiter ends a text.

ghost use Rattle.std.specs.Prelude.{◌≡◌, ◌<◌, ◌≤◌, ◌+◌, ◌-◌, ◌++◌, ◌∷◌, ◌&&◌, [], length, take, suc, slice_index_or};
ghost use Rattle.macros.specs.Borders.{is_border as the_border, next_match};
ghost use Rattle.macros.specs.Same.{is_same as the_same};
ghost use Rattle.macros.specs.Matching.{has_par as the_has_par};

use crate::same::{are_same, is_same};
use raw_texts::is_par;
use tok_lists::Token;

// Whether the first tokens of a delimiter, so many, are also the last ones of its first `many`.
fn is_border(delimiter: &[Token], many: usize, few: usize) -> bool
    requires fewer { few ≤ many }
    requires most { many ≤ length delimiter.now }
    ensures { result ≡ the_border delimiter.now many few }
{
    are_same(&delimiter[many - few..many], &delimiter[..few])
}

// Whether a token after `many` tokens of a delimiter comes after its first `few` there.
fn goes_on(delimiter: &[Token], many: usize, few: usize, token: &Token) -> bool
    requires fewer { few ≤ many }
    requires most { many < length delimiter.now }
    ensures { result ≡ (the_border delimiter.now many few
        && the_same token.now (slice_index_or delimiter.now few token.now)) }
{
    if is_same(token, &delimiter[few]) {
        return is_border(delimiter, many, few);
    }
    false
}

/// Returns how many tokens of a delimiter end a text with this last token, where so many ended it
/// before (TeX: The Program, section 397).
#[tactic(auto, using(crate::proofs::Searching::next_fewer))]
pub(crate) fn next_match(delimiter: &[Token], many: usize, token: &Token) -> usize
    requires { many < length delimiter.now }
    ensures { result ≡ next_match delimiter.now many token.now }
{
    let mut few = many;
    loop {
        if goes_on(delimiter, many, few, token) {
            return few + 1;
        }
        if few == 0 {
            return 0;
        }
        few -= 1;
    }
}

/// Returns whether `\par` stands in a list.
pub(crate) fn has_par(list: &[Token]) -> bool
    ensures { result ≡ the_has_par list.now }
{
    list.iter().any(|token| is_par(token))
}

/// Returns whether `\par` stands in what becomes certain of an argument by a token, where so many
/// tokens of the delimiter ended the text before it, and so many do after it.
pub(crate) fn lets_par_in(delimiter: &[Token], many: usize, next: usize, token: &Token) -> bool
    requires most { many ≤ length delimiter.now }
    requires next { next ≤ many + 1 }
    ensures { result ≡ the_has_par (take (suc many - next)
        (take many delimiter.now ++ token.now ∷ [])) }
{
    if next > 0 {
        return has_par(&delimiter[..many + 1 - next]);
    }
    if is_par(token) {
        return true;
    }
    has_par(&delimiter[..many])
}
