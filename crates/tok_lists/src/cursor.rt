//! Lists of tokens that are read by index: a list or an argument, and a macro's body with its
//! arguments.

ghost use Rattle.std.specs.Prelude.{◌≡◌, ℕ, ◌+◌, ◌-◌, ◌<◌, ◌≤◌, nat_le, List, [], ◌∷◌, ◌++◌, length, drop, Some, None, if◌then◌else◌};
ghost use Rattle.tok_lists.specs.Names.{HasNoParam};
ghost use Rattle.tok_lists.specs.Pending.{in_place, with_arguments, Takes};

use crate::args;
use crate::args::Args;
use crate::shared_tokens::SharedTokens;
use crate::token::Token;
use std::alloc::Global;
use std::marker::Model;

/// A shared list that is read from its first token on. Contracts see what is left.
#[derive(Drop)]
pub(crate) struct Reader {
    list: SharedTokens,
    // Where the next token stands.
    at: usize,
}

impl Model for Reader {
    ghost use Rattle.std.specs.Prelude.{List, drop};
    ghost use Rattle.tok_lists.specs.declared.token.Token.{Token};

    ghost Value = { List Token };

    ghost view = { λ r. drop r.at r.list };
}

impl Reader {
    pub(crate) fn new(list: SharedTokens) -> Reader
        ensures { result ≡ list }
    {
        Reader { list, at: 0 }
    }

    /// Takes the first token that is left.
    pub(crate) fn next(&mut self) -> Option<Token>
        ensures { Takes self.old result self.new }
    {
        let tokens = self.list.as_slice();
        if self.at < tokens.len() {
            let token = tokens[self.at];
            self.at += 1;
            return Some(token);
        }
        None
    }
}

/// A body that is read with its arguments put in place. Contracts see the tokens that are left.
#[derive(Drop)]
pub(crate) struct Cursor {
    body: Reader,
    args: Args,
    // What is left of the argument that is being read, which comes before the rest of the body.
    argument: Reader,
    // How many tokens are left.
    left: usize,
}

impl Model for Cursor {
    ghost use Rattle.std.specs.Prelude.{◌≡◌, List, ◌++◌, length};
    ghost use Rattle.tok_lists.specs.declared.token.Token.{Token};
    ghost use Rattle.tok_lists.specs.Pending.{with_arguments};

    ghost Value = { List Token };

    ghost view = { λ c. c.argument ++ with_arguments c.args c.body };

    ghost invariant = { λ c. c.left ≡ length (c.argument ++ with_arguments c.args c.body) };
}

/// How many tokens a body has with its arguments put in place, or `None` where there are more than
/// `most`.
fn length_of_call(body: &[Token], args: &[SharedTokens], most: usize) -> Option<usize>
    ensures { let n = length (with_arguments args.now body.now) in
        result ≡ (if nat_le n most then Some n else None) }
{
    let mut params = 0;
    let mut of_arguments = 0;
    for token in body {
        if let Token::Param(number) = token {
            let more = args::argument_length(args, *number);
            if most - of_arguments < more {
                return None;
            }
            params += 1;
            of_arguments += more;
        }
    }
    let others = body.len() - params;
    if most - of_arguments < others {
        return None;
    }
    Some(of_arguments + others)
}

/// Takes the first token of a body with its arguments put in place, where an argument that it comes
/// from is begun.
fn take_from_body(body: &mut Reader, args: &Args, argument: &mut Reader) -> Option<Token>
    requires { argument.old ≡ [] }
    ensures { Takes (with_arguments args.now body.old) result
        (argument.new ++ with_arguments args.now body.new) }
{
    while let Some(token) = body.next() {
        let Token::Param(number) = token else {
            return Some(token);
        };
        *argument = Reader::new(args::argument(args.as_slice(), number));
        if let Some(token) = argument.next() {
            return Some(token);
        }
    }
    None
}

impl Cursor {
    /// The tokens of a list.
    pub(crate) fn of_list(alloc: Global, list: &SharedTokens) -> Cursor
        requires { HasNoParam list.now }
        ensures { result ≡ list.now }
    {
        Cursor {
            body: Reader::new(list.same_copy()),
            args: Args::new(alloc),
            argument: Reader::new(SharedTokens::default()),
            left: list.as_slice().len(),
        }
    }

    /// The tokens of a body with its arguments put in place, or `None` where there are more than
    /// `most`.
    pub(crate) fn of_call(body: &SharedTokens, args: Args, most: usize) -> Option<Cursor>
        ensures { let tokens = with_arguments args body.now in
            result ≡ (if nat_le (length tokens) most then Some tokens else None) }
    {
        let left = length_of_call(body.as_slice(), args.as_slice(), most)?;
        Some(Cursor {
            body: Reader::new(body.same_copy()),
            args,
            argument: Reader::new(SharedTokens::default()),
            left,
        })
    }

    /// How many tokens are left.
    pub(crate) fn len(&self) -> usize
        ensures { result ≡ length self.now }
    {
        self.left
    }

    /// Takes the first token that is left.
    pub(crate) fn next(&mut self) -> Option<Token>
        ensures { Takes self.old result self.new }
    {
        let token = match self.argument.next() {
            Some(token) => token,
            None => take_from_body(&mut self.body, &self.args, &mut self.argument)?,
        };
        self.left -= 1;
        Some(token)
    }
}
