//! Meanings of names.

ghost use Rattle.std.specs.Prelude.{◌≡◌, slice_get};
ghost use Rattle.env_groups.specs.StartMeanings.{start_meaning};

use crate::prim::{PrimitiveName, START_PRIMS};
use box_tree::FontNo;
use tok_lists::{SharedTokens, Token};

/// A macro (The TeXbook, chapter 20): whether it is `\long`, its parameter text, and its body.
#[derive(Debug, Drop, PartialEq, Eq)]
pub struct MacroDef {
    pub long: bool,
    pub params: SharedTokens,
    pub body: SharedTokens,
}

impl MacroDef {
    /// Returns the same macro once more. It takes no memory and is never refused.
    pub fn same_copy(&self) -> MacroDef
        ensures { result ≡ self.now }
    {
        MacroDef {
            long: self.long,
            params: self.params.same_copy(),
            body: self.body.same_copy(),
        }
    }
}

/// The meaning of a name.
#[derive(Debug, Drop, PartialEq, Eq)]
pub enum Meaning {
    Undefined,
    Primitive(PrimitiveName),
    Macro(MacroDef),
    /// A character, by `\let`.
    Letter(Token),
    /// The code of a character, by `\chardef`.
    Code(u32),
    /// The number of a `\count` register, by `\countdef`.
    Count(u32),
    /// The number of a `\dimen` register, by `\dimendef`.
    Dimen(u32),
    /// The number of a `\skip` register, by `\skipdef`.
    Skip(u32),
    /// The number of a `\toks` register, by `\toksdef`.
    Toks(u32),
    /// A font that was added.
    Font(FontNo),
}

impl Meaning {
    /// Returns the same meaning once more. It takes no memory and is never refused.
    pub fn same_copy(&self) -> Meaning
        ensures { result ≡ self.now }
    {
        match self {
            Meaning::Undefined => Meaning::Undefined,
            Meaning::Primitive(prim) => Meaning::Primitive(*prim),
            Meaning::Macro(definition) => Meaning::Macro(definition.same_copy()),
            Meaning::Letter(token) => Meaning::Letter(*token),
            Meaning::Code(code) => Meaning::Code(*code),
            Meaning::Count(register) => Meaning::Count(*register),
            Meaning::Dimen(register) => Meaning::Dimen(*register),
            Meaning::Skip(register) => Meaning::Skip(*register),
            Meaning::Toks(register) => Meaning::Toks(*register),
            Meaning::Font(font) => Meaning::Font(*font),
        }
    }
}

fn primitive_in(prims: &[PrimitiveName], at: usize) -> Option<PrimitiveName>
    ensures { result ≡ slice_get prims.now at }
{
    prims.get(at).copied()
}

/// Returns the meaning of a name at the start.
pub(crate) fn meaning_at_start(name: usize) -> Meaning
    ensures { result ≡ start_meaning name }
{
    match primitive_in(&START_PRIMS, name) {
        Some(prim) => Meaning::Primitive(prim),
        None => Meaning::Undefined,
    }
}
