//! What opens, divides and closes conditionals.

ghost use Rattle.std.specs.Prelude.{◌≡◌};
ghost use Rattle.raw_texts.specs.Limbs.{limb_of_prim as the_limb_of_prim, limb_of as the_limb_of};

use env_groups::{Env, Meaning, Prim};
use tok_lists::Token;

/// What a token is to a conditional (The TeXbook, chapter 20).
#[derive(Clone, Copy, Debug, PartialEq, Eq)]
pub enum Limb {
    /// It opens one.
    If,
    Or,
    Else,
    Fi,
    /// Nothing.
    Other,
}

fn limb_of_prim(prim: Prim) -> Limb
    ensures { result ≡ the_limb_of_prim prim }
{
    match prim {
        Prim::Fi => Limb::Fi,
        Prim::Else => Limb::Else,
        Prim::Or => Limb::Or,
        Prim::If
        | Prim::IfCat
        | Prim::IfX
        | Prim::IfNum
        | Prim::IfDim
        | Prim::IfOdd
        | Prim::IfVMode
        | Prim::IfHMode
        | Prim::IfInner
        | Prim::IfVoid
        | Prim::IfHBox
        | Prim::IfVBox
        | Prim::IfCase
        | Prim::IfTrue
        | Prim::IfFalse
        | Prim::IfYDir
        | Prim::IfTDir
        | Prim::IfDDir => Limb::If,
        _ => Limb::Other,
    }
}

/// Returns what a token is to a conditional, by what its name means.
pub fn limb_of(token: Token, env: &Env) -> Limb
    ensures { result ≡ the_limb_of env.now token }
{
    let Token::Name(name) = token else {
        return Limb::Other;
    };
    match env.get_meaning(name) {
        Meaning::Primitive(prim) => limb_of_prim(prim),
        _ => Limb::Other,
    }
}
