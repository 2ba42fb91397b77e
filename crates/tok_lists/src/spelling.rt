//! The spelling of a name.

ghost use Rattle.std.specs.Prelude.{◌++◌};
ghost use Rattle.std.specs.Hash as fed;
ghost use Rattle.std.specs.Cmp.{partial_equiv_from_equiv};
ghost use Rattle.std.proofs.Common.{ap};
ghost use Rattle.tok_lists.specs.Same.{is_same};
ghost use Rattle.tok_lists.specs.Equality.{is_same-equiv, is_same-decides};

use jis_codes::{Char, Chars};
use std::hash::{Hash, Hasher};

/// How a name is spelt: an active character, or the characters after an escape. They are two
/// names where their characters are the same.
#[derive(Debug, Drop)]
pub struct Spelling {
    pub active: bool,
    pub chars: Chars,
}

impl PartialEq for Spelling {
    ghost eq = { is_same };

    ghost laws = { partial_equiv_from_equiv is_same-equiv };

    #[tactic(auto, using(crate::proofs::Same::same_chars))]
    fn eq(&self, other: &Spelling) -> bool {
        self.active == other.active && self.chars.as_slice() == other.chars.as_slice()
    }
}

impl Eq for Spelling {
    ghost laws = { is_same-equiv };
}

impl Hash for Spelling {
    ghost hash_input = { λ s. fed.bool s.active ++ fed.slice ⟦<Char as Hash>⟧.hash_input s.chars };

    ghost respects_eq = { λ x y h. ap (λ s. fed.bool s.active ++ fed.slice ⟦<Char as Hash>⟧.hash_input s.chars) ((is_same-decides x y).0 h) };

    fn hash<H: Hasher>(&self, state: &mut H) {
        self.active.hash(state);
        self.chars.as_slice().hash(state);
    }
}
