//! Laws of delimited arguments and of macros. The lemmas that proofs cite for them stand in
//! `proofs/Searching.antt` and `proofs/Bodied.antt`.

ghost use Rattle.std.specs.Prelude.{◌≡◌, ◌<◌, ◌++◌, List, length, true};
ghost use Rattle.tok_lists.specs.declared.token.Token.{Token};
ghost use Rattle.tok_lists.specs.declared.spelling.Spelling.{Spelling};
ghost use Rattle.tok_lists.specs.Names.{Grew};
ghost use Rattle.env_groups.specs.declared.meaning.MacroDef.{MacroDef};
ghost use Rattle.macros.specs.Definitions.{IsDefined};
ghost use Rattle.macros.specs.Matching.{argument, depth, is_ended};

/// The delimiter ends a text exactly where the text is an argument with the delimiter after it, and
/// no group is open at the end of the argument. So a delimited argument, which is read up to the
/// first such place, is the shortest one.
#[tactic(auto, using(crate::proofs::Searching::ended_text, crate::proofs::Searching::ended_groups, crate::proofs::Searching::ended_there))]
pub fn an_argument_is_the_shortest()
    ensures text { (delimiter text : List Token) → 0 < length delimiter
        → is_ended delimiter text ≡ true → argument delimiter text ++ delimiter ≡ text }
    ensures groups { (delimiter text : List Token) → 0 < length delimiter
        → is_ended delimiter text ≡ true → depth (argument delimiter text) ≡ 0 }
    ensures every { (delimiter front : List Token) → depth front ≡ 0
        → is_ended delimiter (front ++ delimiter) ≡ true }
{}

/// A macro stays as a definition makes it while names come.
#[tactic(auto, using(crate::proofs::Bodied::defined_still))]
pub fn definitions_stay()
    ensures { (old new : List Spelling) (definition : MacroDef) → Grew old new
        → IsDefined old definition → IsDefined new definition }
{}
