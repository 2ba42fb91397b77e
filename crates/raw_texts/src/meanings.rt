//! What tokens mean.

ghost use Rattle.std.specs.Prelude.{◌≡◌, ◌↔◌, IsTrue};
ghost use Rattle.raw_texts.specs.Meanings.{meaning_of as the_meaning_of, means_category, is_blank as the_is_blank};

use crate::token::is_space;
use env_groups::{Env, Meaning, Prim};
use tok_lists::Token;

/// Returns what a token means: a character means itself, and a name what the environment has for
/// it. A macro is shared.
pub fn meaning_of(token: &Token, env: &Env) -> Meaning
    ensures { result ≡ the_meaning_of env.now token.now }
{
    match token {
        Token::Name(name) | Token::Kept(name) => env.get_meaning(*name),
        _ => Meaning::Letter(*token),
    }
}

// Whether two meanings are the same.
fn is_same(first: &Meaning, second: &Meaning) -> bool
    ensures { IsTrue result ↔ (first.now ≡ second.now) }
{
    first == second
}

/// Returns whether two tokens mean the same, as `\ifx` tests (The TeXbook, chapter 20): macros with
/// equal parameter text, body and `\long`; characters of equal code and category; equal primitives;
/// equal numbers of registers, characters or fonts; or nothing both.
pub fn mean_the_same(first: &Token, second: &Token, env: &Env) -> bool
    ensures { IsTrue result
        ↔ (the_meaning_of env.now first.now ≡ the_meaning_of env.now second.now) }
{
    is_same(&meaning_of(first, env), &meaning_of(second, env))
}

/// Returns whether a meaning is that of a `{`.
pub(crate) fn begins_group(meaning: &Meaning) -> bool
    ensures { result ≡ means_category 1 meaning.now }
{
    matches!(meaning, Meaning::Letter(Token::Char(_, 1)))
}

/// Returns whether a meaning is that of a space or of `\relax`.
pub(crate) fn is_blank(meaning: &Meaning) -> bool
    ensures { result ≡ the_is_blank meaning.now }
{
    match meaning {
        Meaning::Letter(token) => is_space(token),
        Meaning::Primitive(prim) => matches!(prim, Prim::Relax),
        _ => false,
    }
}
