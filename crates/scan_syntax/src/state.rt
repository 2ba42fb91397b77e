//! The state of a scan of any kind.

ghost use Rattle.std.specs.Prelude.{◌≡◌, ◌∷◌, [], IfOk};
ghost use Rattle.scan_numbers.specs.Tokens.{fed};
ghost use Rattle.scan_numbers.specs.Machines.{left_of};
ghost use Rattle.scan_syntax.specs.States.{state_left, Moves};

use crate::equals::is_equals;
use crate::found::Found;
use crate::gluing::{GlueMove, Gluing};
use crate::internal::Internal;
use crate::keyword::{Attempt, Keyword};
use crate::naming::Naming;
use crate::want::Value;
use scan_numbers::{Context, Dimen, Integer, ScanFault, ScanKind, Step, is_space, not_taken};
use std::alloc::Global;
use tok_lists::Token;
use ts_geometry::Sp;

/// The state of a scan.
#[derive(Drop)]
pub(crate) enum State {
    Integer(Integer),
    Dimen(Dimen),
    Glue(Gluing),
    Keyword(Keyword),
    Equals,
    Naming(Naming),
    Internal(Internal),
    /// Nothing more is to be read.
    Over,
}

/// What a token makes of a scan.
#[derive(Drop)]
pub(crate) enum Move {
    /// It goes on, and whether its next token is wanted raw.
    On(State, bool),
    /// It is at its end, with the tokens to put back.
    Done(Found, Vec<Token>),
}

impl State {
    #[tactic(auto, using(crate::proofs::States::over, std::proofs::lemmas::Grind::common_steps))]
    pub(crate) fn feed(
        self,
        token: &Token,
        context: &Context<'_>,
        alloc: Global,
    ) -> Result<Move, ScanFault>
        ensures { Moves (fed token.now context.now) (state_left self) result }
    {
        match self {
            State::Integer(integer) => integer_fed(integer, token, context, alloc),
            State::Dimen(dimen) => dimen_fed(dimen, token, context, alloc),
            State::Glue(glue) => glue_fed(glue, token, context, alloc),
            State::Keyword(keyword) => keyword_fed(keyword, token, context, alloc),
            State::Equals => equals_fed(token, context, alloc),
            State::Naming(naming) => naming_fed(naming, token, context, alloc),
            State::Internal(internal) => internal_fed(internal, token, context, alloc),
            State::Over => Err(ScanFault::Kind(ScanKind::NoNumber)),
        }
    }
}

#[tactic(auto, using(crate::proofs::States::integers, std::proofs::lemmas::Grind::common_steps))]
fn integer_fed(
    integer: Integer,
    token: &Token,
    context: &Context<'_>,
    alloc: Global,
) -> Result<Move, ScanFault>
    ensures { Moves (fed token.now context.now) (state_left (State.Integer integer)) result }
{
    match integer.feed(token, context) {
        Ok(Step::Further(integer)) => {
            let raw = integer.is_raw();
            Ok(Move::On(State::Integer(integer), raw))
        }
        Ok(Step::Done(number, taken)) => match not_taken(alloc, taken, token) {
            Ok(tokens) => {
                let value = Value::Integer(number.value());
                Ok(Move::Done(Found { value }, tokens))
            }
            Err(_) => Err(ScanFault::NoMemory),
        },
        Err(fault) => Err(fault),
    }
}

#[tactic(auto, using(crate::proofs::States::dimens, std::proofs::lemmas::Grind::common_steps))]
fn dimen_fed(
    dimen: Dimen,
    token: &Token,
    context: &Context<'_>,
    alloc: Global,
) -> Result<Move, ScanFault>
    ensures { Moves (fed token.now context.now) (state_left (State.Dimen dimen)) result }
{
    match dimen.feed(token, context, alloc) {
        Ok(Step::Further(dimen)) => {
            let raw = dimen.is_raw();
            Ok(Move::On(State::Dimen(dimen), raw))
        }
        Ok(Step::Done(amount, taken)) => match not_taken(alloc, taken, token) {
            Ok(tokens) => {
                let value = Value::Dimen(Sp(amount.size.value()));
                Ok(Move::Done(Found { value }, tokens))
            }
            Err(_) => Err(ScanFault::NoMemory),
        },
        Err(fault) => Err(fault),
    }
}

#[tactic(auto, using(crate::proofs::States::keywords, std::proofs::lemmas::Grind::common_steps))]
fn keyword_fed(
    keyword: Keyword,
    token: &Token,
    context: &Context<'_>,
    alloc: Global,
) -> Result<Move, ScanFault>
    ensures { Moves (fed token.now context.now) (state_left (State.Keyword keyword)) result }
{
    match keyword.feed(token, context) {
        Ok(Attempt::On(keyword)) => Ok(Move::On(State::Keyword(keyword), false)),
        Ok(Attempt::There) => {
            let value = Value::Keyword(true);
            Ok(Move::Done(Found { value }, Vec::new(alloc)))
        }
        Ok(Attempt::Not(tokens)) => {
            let value = Value::Keyword(false);
            Ok(Move::Done(Found { value }, tokens))
        }
        Err(fault) => Err(fault),
    }
}

#[tactic(auto, using(crate::proofs::States::glues, std::proofs::lemmas::Grind::common_steps))]
fn glue_fed(
    glue: Gluing,
    token: &Token,
    context: &Context<'_>,
    alloc: Global,
) -> Result<Move, ScanFault>
    ensures { Moves (fed token.now context.now) (state_left (State.Glue glue)) result }
{
    match glue.feed(token, context, alloc) {
        Ok(GlueMove::On(glue)) => {
            let raw = glue.is_raw();
            Ok(Move::On(State::Glue(glue), raw))
        }
        Ok(GlueMove::Done(found, tokens)) => Ok(Move::Done(found, tokens)),
        Err(fault) => Err(fault),
    }
}

#[tactic(auto, using(crate::proofs::MoreStates::equals_steps, std::proofs::lemmas::Grind::common_steps))]
fn equals_fed(token: &Token, context: &Context<'_>, alloc: Global) -> Result<Move, ScanFault>
    ensures { Moves (fed token.now context.now) (state_left State.Equals) result }
{
    if is_space(token, context) {
        Ok(Move::On(State::Equals, false))
    } else {
        match not_taken(alloc, is_equals(token), token) {
            Ok(tokens) => {
                let value = Value::Equals;
                Ok(Move::Done(Found { value }, tokens))
            }
            Err(_) => Err(ScanFault::NoMemory),
        }
    }
}

#[tactic(auto, using(crate::proofs::MoreStates::namings, std::proofs::lemmas::Grind::common_steps))]
fn naming_fed(
    naming: Naming,
    token: &Token,
    context: &Context<'_>,
    alloc: Global,
) -> Result<Move, ScanFault>
    ensures { Moves (fed token.now context.now) (state_left (State.Naming naming)) result }
{
    match naming.feed(token, context, alloc) {
        Ok(Step::Further(naming)) => Ok(Move::On(State::Naming(naming), false)),
        Ok(Step::Done(name, taken)) => match not_taken(alloc, taken, token) {
            Ok(tokens) => {
                let value = Value::FileName(name);
                Ok(Move::Done(Found { value }, tokens))
            }
            Err(_) => Err(ScanFault::NoMemory),
        },
        Err(fault) => Err(fault),
    }
}

#[tactic(auto, using(crate::proofs::MoreStates::internals, std::proofs::lemmas::Grind::common_steps))]
fn internal_fed(
    internal: Internal,
    token: &Token,
    context: &Context<'_>,
    alloc: Global,
) -> Result<Move, ScanFault>
    ensures { Moves (fed token.now context.now) (state_left (State.Internal internal)) result }
{
    match internal.feed(token, context, alloc) {
        Ok(Step::Further(internal)) => {
            let raw = internal.is_raw();
            Ok(Move::On(State::Internal(internal), raw))
        }
        Ok(Step::Done(found, taken)) => match not_taken(alloc, taken, token) {
            Ok(tokens) => Ok(Move::Done(found, tokens)),
            Err(_) => Err(ScanFault::NoMemory),
        },
        Err(fault) => Err(fault),
    }
}
