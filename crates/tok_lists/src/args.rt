//! The arguments of a macro call.

ghost use Rattle.std.specs.Prelude.{◌≡◌, ◌<◌, ◌≤◌, [], ◌∷◌, ◌++◌, length, OnOk, OnErr};
ghost use Rattle.tok_lists.specs.Pending.{argument};

use crate::shared_tokens::SharedTokens;
use smallvec::SmallVec;
use std::alloc::Global;
use std::marker::Model;
use ts_base::NoMemory;

/// How many arguments have their place in the value itself. A call with more takes an allocation.
const INLINE_ARGS: usize = 2;

/// The arguments of a macro call, at most nine (The TeXbook, chapter 20). Contracts see the list of
/// them, each of them a list of tokens.
#[derive(Drop)]
pub struct Args {
    lists: SmallVec<SharedTokens, INLINE_ARGS>,
}

impl Model for Args {
    ghost use Rattle.std.specs.Prelude.{List, length, ◌≤◌};
    ghost use Rattle.tok_lists.specs.declared.token.Token.{Token};

    ghost Value = { List (List Token) };

    ghost view = { λ a. a.lists.items };

    ghost invariant = { λ a. length a.lists.items ≤ 9 };
}

impl Args {
    /// Returns the list of no argument. Takes no memory.
    pub fn new(alloc: Global) -> Args
        ensures { result ≡ [] }
    {
        Args {
            lists: SmallVec::new(alloc),
        }
    }

    /// Appends an argument. Refused, it leaves the arguments as they were.
    pub fn push(&mut self, argument: SharedTokens) -> Result<(), NoMemory>
        requires { length self.old < 9 }
        ensures ok { OnOk result (self.new ≡ self.old ++ argument ∷ []) }
        ensures err { OnErr result (self.new ≡ self.old) }
    {
        self.lists.push(argument)?;
        Ok(())
    }

    /// Returns the arguments in order, at most nine. Takes no memory.
    pub fn as_slice(&self) -> &[SharedTokens]
        ensures value { result.now ≡ self.now }
        ensures most { length self.now ≤ 9 }
    {
        self.lists.as_slice()
    }
}

/// The argument of a number, counted from 1.
pub(crate) fn argument(args: &[SharedTokens], number: u8) -> SharedTokens
    ensures { result ≡ argument args.now number }
{
    let at = usize::from(number).saturating_sub(1);
    match args.get(at) {
        Some(tokens) => tokens.same_copy(),
        None => SharedTokens::default(),
    }
}

/// How many tokens the argument of a number has.
pub(crate) fn argument_length(args: &[SharedTokens], number: u8) -> usize
    ensures { result ≡ length (argument args.now number) }
{
    match args.get(usize::from(number).saturating_sub(1)) {
        Some(tokens) => tokens.as_slice().len(),
        None => 0,
    }
}
