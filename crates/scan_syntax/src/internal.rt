//! Internal quantities, as `\the` takes them.

ghost use Rattle.std.specs.Prelude.{◌≡◌, true, IfOk};
ghost use Rattle.scan_numbers.specs.Bounds.{IsBounded};
ghost use Rattle.scan_syntax.specs.Bounds.{IsWithinBounds};
ghost use Rattle.scan_numbers.specs.Tokens.{FedToken, fed, start as the_start};
ghost use Rattle.scan_syntax.specs.Internals.{internal as an_internal};
ghost use Rattle.scan_syntax.specs.Internals.{quantity_value as the_quantity_value};
ghost use Rattle.scan_syntax.specs.Internals.{toks_held as the_toks_held, toks_reading};
ghost use Rattle.scan_syntax.specs.Internals.{toks_start as the_toks_start};
ghost use Rattle.scan_syntax.specs.Internals.{toks_meant as the_toks_meant, toks_named};
ghost use Rattle.scan_syntax.specs.Internalizing.{internal_left, found_value, begins_none};
ghost use Rattle.scan_numbers.specs.Machines.{Follows, FormIs};

use crate::found::Found;
use crate::gluing::signed_glue;
use crate::want::Value;
use env_groups::{Meaning, Prim, ToksKey, ToksParam};
use scan_numbers::{
    Context, Integer, Number, Quantity, Register, ScanFault, ScanKind, Start, Step, read, start_of,
};
use std::alloc::Global;
use tok_lists::Token;
use ts_geometry::Sp;

/// An internal quantity that is being read.
#[derive(Drop)]
pub(crate) enum Internal {
    Begin,
    /// The number of a register.
    Register(Register, Integer),
    /// The number of a register of tokens.
    Toks(Integer),
}

/// What a token begins of lists of tokens.
#[derive(Clone, Copy, PartialEq, Eq)]
pub(crate) enum Listed {
    Whole(ToksKey),
    /// A register, whose number follows.
    Register,
    Nothing,
}

fn quantity_value(quantity: Quantity) -> Value
    requires { IsBounded quantity }
    ensures value { result ≡ the_quantity_value quantity }
    ensures within { IsWithinBounds result }
{
    match quantity {
        Quantity::Integer(n) => Value::Integer(i64::from(n)),
        Quantity::Dimen(n) => Value::Dimen(Sp(i64::from(n))),
        Quantity::Glue(glue) => Value::Glue(signed_glue(false, glue)),
    }
}

// What a parameter or a register of tokens holds.
fn toks_held(key: ToksKey, context: &Context<'_>) -> Result<Value, ScanKind>
    ensures value { result ≡ the_toks_held key context.now.env }
    ensures within { IfOk result IsWithinBounds }
{
    match context.env().get_toks(key) {
        Ok(list) => Ok(Value::Toks(list)),
        Err(_) => Err(ScanKind::RegisterRange),
    }
}

// What the register of tokens of this number holds, where there is one.
#[tactic(auto, unfolding(crate::specs::Internals::toks_reading))]
fn toks_read(number: Number, context: &Context<'_>) -> Result<Value, ScanKind>
    ensures value { result ≡ toks_reading number.value context.now.env }
    ensures within { IfOk result IsWithinBounds }
{
    match u16::try_from(number.value()) {
        Ok(number) => toks_held(ToksKey::Register(u32::from(number)), context),
        Err(_) => Err(ScanKind::RegisterRange),
    }
}

fn named(prim: Prim) -> Listed
    ensures { result ≡ toks_named prim }
{
    match prim {
        Prim::Toks => Listed::Register,
        Prim::Output => Listed::Whole(ToksKey::Param(ToksParam::Output)),
        _ => Listed::Nothing,
    }
}

fn meant(meaning: &Meaning) -> Listed
    ensures { result ≡ the_toks_meant meaning.now }
{
    match meaning {
        Meaning::Primitive(prim) => named(*prim),
        Meaning::Toks(number) => Listed::Whole(ToksKey::Register(*number)),
        Meaning::Undefined
        | Meaning::Macro(_)
        | Meaning::Letter(_)
        | Meaning::Code(_)
        | Meaning::Count(_)
        | Meaning::Dimen(_)
        | Meaning::Skip(_)
        | Meaning::Font(_) => Listed::Nothing,
    }
}

#[tactic(auto, unfolding(crate::specs::Internals::toks_start))]
fn list_begun(token: &Token, context: &Context<'_>) -> Listed
    ensures { result ≡ the_toks_start token.now context.now }
{
    match token {
        Token::Name(name) => meant(&context.env().get_meaning(*name)),
        Token::Char(..) | Token::Ja(_) | Token::Kept(_) | Token::Param(_) => Listed::Nothing,
    }
}

impl Internal {
    /// Whether its next token is wanted raw.
    #[tactic(auto, using(crate::proofs::Internals::forms, std::proofs::lemmas::Grind::common_steps))]
    pub(crate) fn is_raw(&self) -> bool
        ensures { FormIs result (internal_left self.now) }
    {
        match self {
            Internal::Begin => false,
            Internal::Register(_, number) | Internal::Toks(number) => number.is_raw(),
        }
    }

    pub(crate) fn feed(
        self,
        token: &Token,
        context: &Context<'_>,
        alloc: Global,
    ) -> Result<Step<Internal, Found>, ScanFault>
        ensures { Follows found_value internal_left (fed token.now context.now)
            (internal_left self) result }
    {
        match self {
            Internal::Begin => begin(token, context, alloc),
            Internal::Register(register, number) => in_register(register, number, token, context),
            Internal::Toks(number) => in_toks(number, token, context),
        }
    }
}

#[tactic(auto, using(crate::proofs::Internals::listed_steps, std::proofs::lemmas::Grind::common_steps))]
fn begin(
    token: &Token,
    context: &Context<'_>,
    alloc: Global,
) -> Result<Step<Internal, Found>, ScanFault>
    ensures { Follows found_value internal_left (fed token.now context.now)
        (internal_left Internal.Begin) result }
{
    match list_begun(token, context) {
        Listed::Whole(key) => match toks_held(key, context) {
            Ok(value) => Ok(Step::Done(Found { value }, true)),
            Err(kind) => Err(ScanFault::Kind(kind)),
        },
        Listed::Register => Ok(Step::Further(Internal::Toks(Integer::new(alloc)))),
        Listed::Nothing => quantity_begun(token, context, alloc),
    }
}

// A token that is no list of tokens.
#[tactic(auto, using(crate::proofs::Internals::begun, std::proofs::lemmas::Grind::common_steps))]
fn quantity_begun(
    token: &Token,
    context: &Context<'_>,
    alloc: Global,
) -> Result<Step<Internal, Found>, ScanFault>
    requires { the_toks_start token.now context.now ≡ Listed.Nothing }
    ensures { Follows found_value internal_left (fed token.now context.now)
        (internal_left Internal.Begin) result }
{
    match start_of(token, context) {
        Start::Internal(quantity) => {
            let value = quantity_value(quantity);
            Ok(Step::Done(Found { value }, true))
        }
        Start::Register(register) => Ok(Step::Further(Internal::Register(
            register,
            Integer::new(alloc),
        ))),
        Start::Refused(kind) => Err(ScanFault::Kind(kind)),
        Start::Space
        | Start::Plus
        | Start::Minus
        | Start::Digit
        | Start::Octal
        | Start::Hexadecimal
        | Start::Backquote
        | Start::Point
        | Start::Other => begins_nothing(token, context),
    }
}

// A token that begins no internal quantity.
fn begins_nothing(token: &Token, context: &Context<'_>) -> Result<Step<Internal, Found>, ScanFault>
    requires listed { the_toks_start token.now context.now ≡ Listed.Nothing }
    requires none { begins_none (the_start token.now context.now) ≡ true }
    ensures { Follows found_value internal_left (fed token.now context.now)
        (internal_left Internal.Begin) result }
{
    Err(ScanFault::Kind(ScanKind::NoNumber))
}

fn in_register(
    register: Register,
    number: Integer,
    token: &Token,
    context: &Context<'_>,
) -> Result<Step<Internal, Found>, ScanFault>
    ensures { Follows found_value internal_left (fed token.now context.now)
        (internal_left (Internal.Register register number)) result }
{
    match number.feed(token, context) {
        Ok(Step::Further(number)) => Ok(Step::Further(Internal::Register(register, number))),
        Ok(Step::Done(number, taken)) => match read(register, number, context) {
            Ok(quantity) => {
                let value = quantity_value(quantity);
                Ok(Step::Done(Found { value }, taken))
            }
            Err(kind) => Err(ScanFault::Kind(kind)),
        },
        Err(fault) => Err(fault),
    }
}

fn in_toks(
    number: Integer,
    token: &Token,
    context: &Context<'_>,
) -> Result<Step<Internal, Found>, ScanFault>
    ensures { Follows found_value internal_left (fed token.now context.now)
        (internal_left (Internal.Toks number)) result }
{
    match number.feed(token, context) {
        Ok(Step::Further(number)) => Ok(Step::Further(Internal::Toks(number))),
        Ok(Step::Done(number, taken)) => match toks_read(number, context) {
            Ok(value) => Ok(Step::Done(Found { value }, taken)),
            Err(kind) => Err(ScanFault::Kind(kind)),
        },
        Err(fault) => Err(fault),
    }
}
