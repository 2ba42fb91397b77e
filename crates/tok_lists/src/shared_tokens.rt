//! Lists of tokens that are shared.

ghost use Rattle.std.specs.Prelude.{◌≡◌, [], slice_get, IfOk};
ghost use Rattle.std.specs.Cmp.Lexicographic.{pointwise, lists_per, lists_equiv};
ghost use Rattle.tok_lists.specs.contracts.token.TokenPartialEq.TheImpl.Laws.{laws-law as tokens_per};
ghost use Rattle.tok_lists.specs.contracts.token.TokenEq.TheImpl.Laws.{laws-law as tokens_equiv};

use crate::token::{Token, Tokens};
use shared::Shared;
use std::alloc::Global;
use std::marker::Model;
use ts_base::NoMemory;

/// A list of tokens that is shared, as a macro's body or an argument is (The TeXbook, chapter 20).
/// Contracts see the list.
#[derive(Debug, Drop)]
pub struct SharedTokens {
    // The empty list has no block of its own.
    list: Option<Shared<Tokens>>,
}

impl Model for SharedTokens {
    ghost use Rattle.std.specs.Prelude.{List, [], unwrap_or};
    ghost use Rattle.tok_lists.specs.declared.token.Token.{Token};

    ghost Value = { List Token };

    ghost view = { λ s. unwrap_or s.list [] };
}

impl SharedTokens {
    /// Returns the shared list of these tokens.
    pub fn new(alloc: Global, list: &[Token]) -> Result<SharedTokens, NoMemory>
        ensures { IfOk result (λ tokens. tokens ≡ list.now) }
    {
        if list.is_empty() {
            return Ok(SharedTokens::default());
        }
        let list = Shared::new(alloc, Tokens::from_slice(alloc, list)?)?;
        Ok(SharedTokens { list: Some(list) })
    }

    /// Returns the token at a place counted from 0, or `None` exactly where the list ends before
    /// it. Takes no memory.
    pub fn get(&self, at: usize) -> Option<Token>
        ensures { result ≡ slice_get self.now at }
    {
        self.as_slice().get(at).copied()
    }

    /// Returns the tokens in order. Takes no memory.
    pub fn as_slice(&self) -> &[Token]
        ensures { result.now ≡ self.now }
    {
        match &self.list {
            Some(list) => list.get().as_slice(),
            None => &[],
        }
    }

    /// Returns the same list once more. It takes no memory and is never refused.
    pub fn same_copy(&self) -> SharedTokens
        ensures { result ≡ self.now }
    {
        match &self.list {
            Some(list) => SharedTokens {
                list: Some(list.same_copy()),
            },
            None => SharedTokens { list: None },
        }
    }
}

/// The empty list, which takes no memory.
impl Default for SharedTokens {
    ghost is_default = { λ s. s ≡ [] };

    fn default() -> SharedTokens {
        SharedTokens { list: None }
    }
}

impl PartialEq for SharedTokens {
    ghost eq = { pointwise ⟦<Token as PartialEq>⟧.eq };

    ghost laws = { lists_per tokens_per };

    fn eq(&self, other: &SharedTokens) -> bool {
        self.as_slice() == other.as_slice()
    }
}

impl Eq for SharedTokens {
    ghost laws = { lists_equiv tokens_equiv };
}
