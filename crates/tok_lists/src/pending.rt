//! The tokens that are pending.

ghost use Rattle.std.specs.Prelude.{◌≡◌, ◌+◌, ◌-◌, ◌≤◌, [], ◌∷◌, ◌++◌, length, take, OnOk, OnErr, IfSome};
ghost use Rattle.ts_base.specs.Agreement.{Agrees};
ghost use Rattle.tok_lists.specs.Names.{IsNoParam, HasNoParam};
ghost use Rattle.tok_lists.specs.Cursors.{flat, AreUnread};
ghost use Rattle.tok_lists.specs.Pending.{with_arguments, put_before, pending_cause, Takes, AreParamsWithin, HaveNoParam};

use crate::args::Args;
use crate::cursor::Cursor;
use crate::pending_fault::PendingFault;
use crate::shared_tokens::SharedTokens;
use crate::token::Token;
use std::alloc::Global;
use std::marker::Model;

/// How many tokens may be pending.
const MOST_PENDING: usize = 1_000_000;

/// The tokens that are read before the rest of a file. Contracts see one flat list, the next token
/// first: lists and macro calls are put in front, a call as the body with its arguments put in
/// place (The TeXbook, chapter 20).
#[derive(Drop)]
pub struct Pending {
    // The one that is read first is the last. Each has a token left, so that a macro which calls
    // itself by its last token runs in constant memory.
    cursors: Vec<Cursor>,
    // How many tokens there are.
    left: usize,
    alloc: Global,
}

impl Model for Pending {
    ghost use Rattle.std.specs.Prelude.{List};
    ghost use Rattle.tok_lists.specs.declared.token.Token.{Token};
    ghost use Rattle.tok_lists.specs.Cursors.{flat, AreCounted};

    ghost Value = { List Token };

    ghost view = { λ p. flat p.cursors.items };

    ghost invariant = { λ p. AreCounted p.cursors.items p.left };
}

/// Drops the last cursor.
fn drop_last(cursors: &mut Vec<Cursor>)
    ensures { cursors.new.items ≡ take (length cursors.old.items - 1) cursors.old.items }
{
    cursors.pop();
}

/// Takes the next token, and drops the cursor that it was the last of.
fn take_next(cursors: &mut Vec<Cursor>) -> Option<Token>
    requires { AreUnread cursors.old.items }
    ensures token { Takes (flat cursors.old.items) result (flat cursors.new.items) }
    ensures unread { AreUnread cursors.new.items }
{
    let cursor = cursors.last_mut()?;
    let token = cursor.next()?;
    if cursor.len() == 0 {
        drop_last(cursors);
    }
    Some(token)
}

impl Pending {
    /// Returns the list of no token. Takes no memory.
    pub fn new(alloc: Global) -> Pending
        ensures { result ≡ [] }
    {
        Pending {
            cursors: Vec::new(alloc),
            left: 0,
            alloc,
        }
    }

    /// Puts a list in front. `TokensFull` comes exactly where there would be more than 1,000,000
    /// tokens. Refused, it leaves the tokens as they were.
    pub fn push_list(&mut self, list: &SharedTokens) -> Result<(), PendingFault>
        requires { HasNoParam list.now }
        ensures answer { Agrees (λ _. self.new) pending_cause result
            (put_before list.now self.old) }
        ensures err { OnErr result (self.new ≡ self.old) }
    {
        if MOST_PENDING - self.len() < list.as_slice().len() {
            return Err(PendingFault::TokensFull);
        }
        self.put(Cursor::of_list(self.alloc, list))
    }

    /// Puts a macro's body in front, with the arguments in the places of its parameters (The
    /// TeXbook, chapter 20). `TokensFull` comes exactly where there would be more than 1,000,000
    /// tokens. Refused, it leaves the tokens as they were.
    pub fn push_call(&mut self, body: &SharedTokens, args: Args) -> Result<(), PendingFault>
        requires params { AreParamsWithin (length args) body.now }
        requires no_param { HaveNoParam args }
        ensures answer { Agrees (λ _. self.new) pending_cause result
            (put_before (with_arguments args body.now) self.old) }
        ensures err { OnErr result (self.new ≡ self.old) }
    {
        match Cursor::of_call(body, args, MOST_PENDING - self.len()) {
            Some(cursor) => self.put(cursor),
            None => Err(PendingFault::TokensFull),
        }
    }

    /// Takes the next token, or `None` exactly where there is none. Takes no memory.
    pub fn take(&mut self) -> Option<Token>
        ensures token { Takes self.old result self.new }
        ensures no_param { IfSome result IsNoParam }
    {
        let token = take_next(&mut self.cursors)?;
        self.left -= 1;
        Some(token)
    }

    /// Returns how many tokens there are, at most 1,000,000.
    pub fn len(&self) -> usize
        ensures value { result ≡ length self.now }
        ensures most { result ≤ 1000000 }
    {
        self.left
    }

    /// Puts in front what is left to read, for which there is room.
    fn put(&mut self, cursor: Cursor) -> Result<(), PendingFault>
        requires room { length cursor + length self.old ≤ 1000000 }
        requires no_param { HasNoParam cursor }
        ensures answer { Agrees (λ _. self.new) pending_cause result (put_before cursor self.old) }
        ensures err { OnErr result (self.new ≡ self.old) }
    {
        let more = cursor.len();
        if more == 0 {
            return Ok(());
        }
        self.cursors.push(cursor)?;
        self.left += more;
        Ok(())
    }
}
