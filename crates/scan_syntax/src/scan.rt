//! Scans.

ghost use Rattle.std.specs.Prelude.{◌≡◌, ◌∷◌, ◌++◌, [], List, IfOk};
ghost use Rattle.scan_syntax.specs.Bounds.{IsFoundWithin};
ghost use Rattle.scan_numbers.specs.Tokens.{FedToken, fed};
ghost use Rattle.scan_numbers.specs.Contexts.{around};
ghost use Rattle.scan_syntax.specs.States.{reads};
ghost use Rattle.scan_syntax.specs.Scans.{grammar, Stands, Says, StandsOn, Steps, IsOpen};

use crate::gluing::Gluing;
use crate::internal::Internal;
use crate::keyword::Keyword;
use crate::naming::Naming;
use crate::state::{Move, State};
use crate::want::{Fed, Want};
use crate::word::Sought;
use env_groups::Env;
use scan_numbers::{Context, Dimen, Integer, ScanFault};
use std::alloc::Global;
use std::mem;
use tok_lists::{Names, Token, Tokens};

/// A scan, which is fed one token at a time. Contracts see of it what it still reads.
#[derive(Drop)]
pub struct Scan {
    alloc: Global,
    state: State,
}

impl Scan {
    /// Returns a scan of this kind, which was fed nothing. Its first token is wanted expanded.
    /// Takes no memory.
    #[tactic(auto, using(crate::proofs::States::starts, crate::proofs::MoreStates::more_starts, std::proofs::lemmas::Grind::common_steps))]
    pub fn new(alloc: Global, want: Want) -> Scan
        ensures stands { Stands want [] (reads result) }
        ensures going { IsOpen (reads result) }
    {
        match want {
            Want::Integer => Scan {
                alloc,
                state: State::Integer(Integer::new(alloc)),
            },
            Want::Dimen => Scan {
                alloc,
                state: State::Dimen(Dimen::new(false)),
            },
            Want::Glue => Scan {
                alloc,
                state: State::Glue(Gluing::new()),
            },
            Want::Internal => Scan {
                alloc,
                state: State::Internal(Internal::Begin),
            },
            Want::Equals => Scan {
                alloc,
                state: State::Equals,
            },
            Want::FileName => Scan {
                alloc,
                state: State::Naming(Naming::new(alloc)),
            },
            Want::BoxSize => Scan {
                alloc,
                state: State::Glue(Gluing::size(alloc)),
            },
            Want::Keyword(word) => Scan {
                alloc,
                state: State::Keyword(Keyword::new(alloc, Sought::Word(word))),
            },
        }
    }

    /// Takes a token of the form that was wanted last. Returns that a further token is wanted,
    /// and in which form, or the value, dimensions in scaled points, and the tokens to put back,
    /// in their order. `Kind` comes exactly where the tokens so far have that fault (The TeXbook,
    /// chapter 24). After a fault, or the value, nothing more is to be fed. An integer, and the
    /// measure of a box, is within 2^31 - 1 of 0; other dimensions, the numbers of glue and the
    /// sizes of boxes are within 2^30 - 1 scaled points.
    pub fn feed(&mut self, token: Token, env: &Env, names: &Names) -> Result<Fed, ScanFault>
        requires { IsOpen (reads self.old) }
        ensures step { Steps (reads self.old) (fed token (around env.now names.now)) result
            (reads self.new) }
        ensures stands { (want : Want) (before : List FedToken)
            → Stands want before (reads self.old)
            → StandsOn want (before ++ fed token (around env.now names.now) ∷ []) result
            (reads self.new) }
        ensures exact { (want : Want) (before : List FedToken)
            → Stands want before (reads self.old)
            → Says (around env.now names.now) result
            (grammar want (before ++ fed token (around env.now names.now) ∷ [])) }
        ensures within { IfOk result IsFoundWithin }
    {
        self.advance(&token, &Context::new(env, names))
    }

    fn advance(&mut self, token: &Token, context: &Context<'_>) -> Result<Fed, ScanFault>
        ensures steps { Steps (reads self.old) (fed token.now context.now) result
            (reads self.new) }
        ensures within { IfOk result IsFoundWithin }
    {
        match mem::replace(&mut self.state, State::Over).feed(token, context, self.alloc) {
            Ok(Move::On(state, true)) => {
                self.state = state;
                Ok(Fed::Raw)
            }
            Ok(Move::On(state, false)) => {
                self.state = state;
                Ok(Fed::Expanded)
            }
            Ok(Move::Done(found, tokens)) => Ok(Fed::Done(found.value, Tokens::from(tokens))),
            Err(fault) => Err(fault),
        }
    }
}
