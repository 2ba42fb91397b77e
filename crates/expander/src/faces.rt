//! What tokens are as characters.

ghost use Rattle.std.specs.Prelude.{◌≡◌, Some};
ghost use Rattle.expander.specs.Faces.{face_of as the_face_of, char_face as the_char_face, meant_face as the_meant_face, kept_face as the_kept_face, first_code as the_first_code, no_face, are_alike as the_are_alike};
ghost use Rattle.mouth.specs.Keeping.{IsToken};

use crate::action::Aspect;
use env_groups::{CodeKey, Env, Meaning};
use jis_codes::{Char, to_euc};
use tok_lists::{Names, Spelling, Token};

/// A token as `\if` and `\ifcat` see it: its code, and its category, which for a Japanese character
/// is its kind plus 100.
#[derive(Clone, Copy, Debug)]
pub struct Face {
    code: u32,
    category: i64,
}

// What is no character.
const NO_FACE: Face = Face {
    code: 256,
    category: 16,
};

fn char_face(env: &Env, token: &Token) -> Face
    ensures { result ≡ the_char_face env.now token.now }
{
    match token {
        Token::Char(code, category) => Face {
            code: u32::from(*code),
            category: i64::from(*category),
        },
        Token::Ja(cell) => Face {
            code: to_euc(*cell),
            category: env.get_code(CodeKey::Kcat(*cell)) + 100,
        },
        _ => NO_FACE,
    }
}

fn meant_face(env: &Env, meaning: &Meaning) -> Face
    ensures { result ≡ the_meant_face env.now meaning.now }
{
    match meaning {
        Meaning::Letter(token) => char_face(env, token),
        _ => NO_FACE,
    }
}

fn first_code(chars: &[Char]) -> u32
    ensures { result ≡ the_first_code chars.now }
{
    match chars {
        [Char::One(code), ..] => u32::from(*code),
        [Char::Ja(cell), ..] => to_euc(*cell),
        [] => 256,
    }
}

// A name that isn't expanded: an active character is itself.
fn kept_face(spelling: &Spelling) -> Face
    ensures { result ≡ the_kept_face (Some spelling.now) }
{
    if spelling.active {
        Face {
            code: first_code(spelling.chars.as_slice()),
            category: 13,
        }
    } else {
        NO_FACE
    }
}

/// Returns what a token is as a character. What is none has code 256 and category 16.
pub(crate) fn face_of(env: &Env, names: &Names, token: &Token) -> Face
    requires { IsToken names.now token.now }
    ensures { result ≡ the_face_of env.now names.now token.now }
{
    match token {
        Token::Name(name) => meant_face(env, &env.get_meaning(*name)),
        Token::Kept(name) => kept_face(names.spelling(*name)),
        _ => char_face(env, token),
    }
}

/// Returns whether two are alike: `\if` compares codes, `\ifcat` categories.
pub(crate) fn are_alike(aspect: Aspect, first: Face, second: Face) -> bool
    ensures { result ≡ the_are_alike aspect first second }
{
    match aspect {
        Aspect::Code => first.code == second.code,
        Aspect::Category => first.category == second.category,
    }
}
