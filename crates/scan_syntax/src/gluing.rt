//! Glue, and the sizes of boxes, which end with more than one token to put back.

ghost use Rattle.std.specs.Prelude.{◌≡◌, ◌∷◌, [], List, true, pos};
ghost use Rattle.scan_numbers.specs.Tokens.{FedToken, fed, put_back, start as the_start};
ghost use Rattle.scan_numbers.specs.Amounts.{Amount as TheAmount};
ghost use Rattle.scan_syntax.specs.Glues.{glue_of as the_glue_of, signed_glue as the_signed_glue};
ghost use Rattle.scan_syntax.specs.Glues.{nothing as the_nothing};
ghost use Rattle.scan_syntax.specs.Gluing.{glue_scanned, size_scanned, GlueMoves, late_left};
ghost use Rattle.scan_syntax.specs.Gluing.{glue_left, quantity_glue_left, then_stretch, is_number};
ghost use Rattle.scan_syntax.specs.Gluing.{begins_width};
ghost use Rattle.ts_geometry.specs.Numbers.{IsWithin, max_dimen};
ghost use Rattle.box_tree.specs.Bounds.{IsDimen};
ghost use Rattle.env_groups.specs.Bounds.{HasSetDimens};
ghost use Rattle.scan_numbers.specs.Bounds.{IsBounded, HasDimens};
ghost use Rattle.scan_syntax.specs.Bounds.{IsSize};
ghost use Rattle.scan_numbers.specs.Integers.{signed};
ghost use Rattle.ts_geometry.specs.Directions.{sp};
ghost use Rattle.scan_numbers.specs.Machines.{Follows, FormIs, amount_of, dimen_left};
ghost use Rattle.scan_numbers.specs.Answers.{Answer};
ghost use Rattle.scan_numbers.specs.Contexts.{Context};
ghost use Rattle.scan_syntax.specs.declared.want.Value.{Value};

use crate::found::Found;
use crate::keyword::{Attempt, Keyword};
use crate::want::Value;
use crate::word::Sought;
use box_tree::BoxSize;
use scan_numbers::{
    Amount, Context, Dimen, HeldGlue, Integer, Length, Manner, Quantity, Register, ScanFault,
    Start, Step, from_quantity, not_taken, read, start_of,
};
use std::alloc::Global;
use tok_lists::Token;
use ts_geometry::{Glue, Order, Sp};

/// What comes after the stretch of a glue, or where no `to` is.
#[derive(Drop)]
pub(crate) enum Late {
    /// `minus` is looked for.
    Minus(Length, Amount, Keyword),
    Shrink(Length, Amount, Dimen),
    /// `spread` is looked for.
    Spread(Keyword),
    SpreadSize(Dimen),
}

/// A glue, or the size of a box, that is being read.
#[derive(Drop)]
pub(crate) enum Gluing {
    /// Signs, and whether those before make it negative.
    Signs(bool),
    /// The number of a register that holds it or begins its width.
    Register(bool, Register, Integer),
    Width(Dimen),
    /// `plus` is looked for.
    Plus(Length, Keyword),
    Stretch(Length, Dimen),
    /// `to` is looked for.
    To(Keyword),
    ToSize(Dimen),
    Late(Late),
}

/// What a token makes of a glue.
#[derive(Drop)]
pub(crate) enum GlueMove<S> {
    On(S),
    /// The value, and the tokens to put back.
    Done(Found, Vec<Token>),
}

#[tactic(auto, using(crate::proofs::Bounds::glue_within))]
fn glue_of(width: Length, stretch: Amount, shrink: Amount) -> Glue
    ensures value { result ≡ the_glue_of width.value (amount_of stretch) (amount_of shrink) }
    ensures within { HasSetDimens result }
{
    Glue {
        width: Sp(width.value()),
        stretch: Sp(stretch.size.value()),
        stretch_order: stretch.order,
        shrink: Sp(shrink.size.value()),
        shrink_order: shrink.order,
    }
}

fn nothing() -> Amount
    ensures { amount_of result ≡ the_nothing }
{
    Amount {
        size: Length::positive(0),
        order: Order::Normal,
    }
}

fn signed_number(negative: bool, value: i32) -> Sp
    requires { IsWithin max_dimen value }
    ensures value { result ≡ sp (signed negative value) }
    ensures within { IsDimen result }
{
    Sp(Length::of(value).signed(negative).value())
}

/// Glue that is held, which a sign turns whole.
#[tactic(auto, using(crate::proofs::Bounds::glue_within))]
pub(crate) fn signed_glue(negative: bool, glue: HeldGlue) -> Glue
    requires { HasDimens glue }
    ensures value { result ≡ the_signed_glue negative glue }
    ensures within { HasSetDimens result }
{
    Glue {
        width: signed_number(negative, glue.width),
        stretch: signed_number(negative, glue.stretch),
        stretch_order: glue.stretch_order,
        shrink: signed_number(negative, glue.shrink),
        shrink_order: glue.shrink_order,
    }
}

// A token after the stretch.
#[tactic(auto, using(crate::proofs::Stretches::lates_fed, std::proofs::lemmas::Grind::common_steps))]
fn late_fed(
    late: Late,
    token: &Token,
    context: &Context<'_>,
    alloc: Global,
) -> Result<GlueMove<Late>, ScanFault>
    ensures { GlueMoves late_left context.now (fed token.now context.now ∷ []) (late_left late)
        result }
{
    match late {
        Late::Minus(width, stretch, keyword) => match keyword.feed(token, context) {
            Ok(Attempt::On(keyword)) => Ok(GlueMove::On(Late::Minus(width, stretch, keyword))),
            Ok(Attempt::There) => Ok(GlueMove::On(Late::Shrink(width, stretch, Dimen::new(true)))),
            Ok(Attempt::Not(tokens)) => {
                let glue = glue_of(width, stretch, nothing());
                let value = Value::Glue(glue);
                Ok(GlueMove::Done(Found { value }, tokens))
            }
            Err(fault) => Err(fault),
        },
        Late::Shrink(width, stretch, dimen) => match dimen.feed(token, context, alloc) {
            Ok(Step::Further(dimen)) => Ok(GlueMove::On(Late::Shrink(width, stretch, dimen))),
            Ok(Step::Done(shrink, taken)) => match not_taken(alloc, taken, token) {
                Ok(tokens) => {
                    let glue = glue_of(width, stretch, shrink);
                    let value = Value::Glue(glue);
                    Ok(GlueMove::Done(Found { value }, tokens))
                }
                Err(_) => Err(ScanFault::NoMemory),
            },
            Err(fault) => Err(fault),
        },
        Late::Spread(keyword) => match keyword.feed(token, context) {
            Ok(Attempt::On(keyword)) => Ok(GlueMove::On(Late::Spread(keyword))),
            Ok(Attempt::There) => Ok(GlueMove::On(Late::SpreadSize(Dimen::new(false)))),
            Ok(Attempt::Not(tokens)) => {
                let value = Value::BoxSize(BoxSize::Natural);
                Ok(GlueMove::Done(Found { value }, tokens))
            }
            Err(fault) => Err(fault),
        },
        Late::SpreadSize(dimen) => spread_size_fed(dimen, token, context, alloc),
    }
}

#[tactic(auto, using(crate::proofs::Stretches::lates_fed, std::proofs::lemmas::Grind::common_steps))]
fn spread_size_fed(
    dimen: Dimen,
    token: &Token,
    context: &Context<'_>,
    alloc: Global,
) -> Result<GlueMove<Late>, ScanFault>
    ensures { GlueMoves late_left context.now (fed token.now context.now ∷ [])
        (late_left (Late.SpreadSize dimen)) result }
{
    match dimen.feed(token, context, alloc) {
        Ok(Step::Further(dimen)) => Ok(GlueMove::On(Late::SpreadSize(dimen))),
        Ok(Step::Done(size, taken)) => match not_taken(alloc, taken, token) {
            Ok(tokens) => {
                let size = BoxSize::Spread(Sp(size.size.value()));
                let value = Value::BoxSize(size);
                Ok(GlueMove::Done(Found { value }, tokens))
            }
            Err(_) => Err(ScanFault::NoMemory),
        },
        Err(fault) => Err(fault),
    }
}

// Tokens that were put back.
fn late_fed_all(
    late: Late,
    tokens: &[Token],
    context: &Context<'_>,
    alloc: Global,
) -> Result<GlueMove<Late>, ScanFault>
    ensures { GlueMoves late_left context.now (put_back context.now tokens.now) (late_left late)
        result }
{
    let mut late = late;
    for k in 0..tokens.len() {
        let token = tokens[k];
        match late_fed(late, &token, context, alloc) {
            Ok(GlueMove::On(next)) => late = next,
            Ok(GlueMove::Done(found, mut back)) => {
                return match back.extend_from_slice(&tokens[k + 1..]) {
                    Ok(()) => Ok(GlueMove::Done(found, back)),
                    Err(_) => Err(ScanFault::NoMemory),
                };
            }
            Err(ScanFault::Kind(kind)) => return Err(ScanFault::Kind(kind)),
            Err(ScanFault::NoMemory) => return Err(ScanFault::NoMemory),
        }
    }
    Ok(GlueMove::On(late))
}

impl Gluing {
    #[tactic(auto, using(crate::proofs::Stretches::fresh, std::proofs::lemmas::Grind::common_steps))]
    pub(crate) fn new() -> Gluing
        ensures { (list : List FedToken) → glue_left result list ≡ glue_scanned list }
    {
        Gluing::Signs(false)
    }

    /// The size of a box.
    #[tactic(auto, using(crate::proofs::Stretches::fresh_size, std::proofs::lemmas::Grind::common_steps))]
    pub(crate) fn size(alloc: Global) -> Gluing
        ensures { (list : List FedToken) → glue_left result list ≡ size_scanned list }
    {
        Gluing::To(Keyword::new(alloc, Sought::To))
    }

    /// Whether its next token is wanted raw.
    #[tactic(auto, using(crate::proofs::Stretches::forms, std::proofs::lemmas::Grind::common_steps))]
    pub(crate) fn is_raw(&self) -> bool
        ensures { FormIs result (glue_left self.now) }
    {
        match self {
            Gluing::Register(_, _, number) => number.is_raw(),
            Gluing::Width(dimen) | Gluing::Stretch(_, dimen) | Gluing::ToSize(dimen) => {
                dimen.is_raw()
            }
            Gluing::Late(Late::Shrink(_, _, dimen) | Late::SpreadSize(dimen)) => dimen.is_raw(),
            Gluing::Signs(_)
            | Gluing::Plus(..)
            | Gluing::To(_)
            | Gluing::Late(Late::Minus(..) | Late::Spread(_)) => false,
        }
    }

    pub(crate) fn feed(
        self,
        token: &Token,
        context: &Context<'_>,
        alloc: Global,
    ) -> Result<GlueMove<Gluing>, ScanFault>
        ensures { GlueMoves glue_left context.now (fed token.now context.now ∷ []) (glue_left self)
            result }
    {
        match self {
            Gluing::Signs(negative) => begin(negative, token, context, alloc),
            Gluing::Register(negative, register, number) => {
                in_register(negative, register, number, token, context, alloc)
            }
            Gluing::Width(dimen) => in_width(dimen, token, context, alloc),
            Gluing::Plus(width, keyword) => in_plus(width, keyword, token, context, alloc),
            Gluing::Stretch(width, dimen) => in_stretch(width, dimen, token, context, alloc),
            Gluing::To(keyword) => in_to(keyword, token, context, alloc),
            Gluing::ToSize(dimen) => in_to_size(dimen, token, context, alloc),
            Gluing::Late(late) => as_glue(late_fed(late, token, context, alloc)),
        }
    }
}

// What comes after the stretch is a part of the glue.
fn as_glue(given: Result<GlueMove<Late>, ScanFault>) -> Result<GlueMove<Gluing>, ScanFault>
    ensures { (context : Context) (tokens : List FedToken) (before : List FedToken → Answer Value)
        → GlueMoves late_left context tokens before given
        → GlueMoves glue_left context tokens before result }
{
    match given {
        Ok(GlueMove::On(late)) => Ok(GlueMove::On(Gluing::Late(late))),
        Ok(GlueMove::Done(found, back)) => Ok(GlueMove::Done(found, back)),
        Err(fault) => Err(fault),
    }
}

// A token where signs or a glue are wanted.
#[tactic(auto, using(crate::proofs::Stretches::begun, std::proofs::lemmas::Grind::common_steps))]
fn begin(
    negative: bool,
    token: &Token,
    context: &Context<'_>,
    alloc: Global,
) -> Result<GlueMove<Gluing>, ScanFault>
    ensures { GlueMoves glue_left context.now (fed token.now context.now ∷ [])
        (glue_left (Gluing.Signs negative)) result }
{
    match start_of(token, context) {
        Start::Space | Start::Plus => Ok(GlueMove::On(Gluing::Signs(negative))),
        Start::Minus => Ok(GlueMove::On(Gluing::Signs(!negative))),
        Start::Internal(quantity) => in_quantity(negative, quantity, true, token, context, alloc),
        Start::Register(register) => Ok(GlueMove::On(Gluing::Register(
            negative,
            register,
            Integer::new(alloc),
        ))),
        Start::Digit
        | Start::Octal
        | Start::Hexadecimal
        | Start::Backquote
        | Start::Point
        | Start::Refused(_)
        | Start::Other => width_begun(negative, token, context, alloc),
    }
}

// The first token of a width.
fn width_begun(
    negative: bool,
    token: &Token,
    context: &Context<'_>,
    alloc: Global,
) -> Result<GlueMove<Gluing>, ScanFault>
    requires { begins_width (the_start token.now context.now) ≡ true }
    ensures { GlueMoves glue_left context.now (fed token.now context.now ∷ [])
        (glue_left (Gluing.Signs negative)) result }
{
    in_width(Dimen::signed(negative), token, context, alloc)
}

fn in_register(
    negative: bool,
    register: Register,
    number: Integer,
    token: &Token,
    context: &Context<'_>,
    alloc: Global,
) -> Result<GlueMove<Gluing>, ScanFault>
    ensures { GlueMoves glue_left context.now (fed token.now context.now ∷ [])
        (glue_left (Gluing.Register negative register number)) result }
{
    match number.feed(token, context) {
        Ok(Step::Further(number)) => {
            Ok(GlueMove::On(Gluing::Register(negative, register, number)))
        }
        Ok(Step::Done(number, taken)) => match read(register, number, context) {
            Ok(quantity) => in_quantity(negative, quantity, taken, token, context, alloc),
            Err(kind) => Err(ScanFault::Kind(kind)),
        },
        Err(fault) => Err(fault),
    }
}

// An internal quantity that took the token or left it.
fn in_quantity(
    negative: bool,
    quantity: Quantity,
    taken: bool,
    token: &Token,
    context: &Context<'_>,
    alloc: Global,
) -> Result<GlueMove<Gluing>, ScanFault>
    requires { IsBounded quantity }
    ensures { GlueMoves glue_left context.now (fed token.now context.now ∷ [])
        (quantity_glue_left negative quantity context.now taken) result }
{
    match quantity {
        Quantity::Glue(glue) => match not_taken(alloc, taken, token) {
            Ok(tokens) => {
                let glue = signed_glue(negative, glue);
                let value = Value::Glue(glue);
                Ok(GlueMove::Done(Found { value }, tokens))
            }
            Err(_) => Err(ScanFault::NoMemory),
        },
        Quantity::Integer(_) | Quantity::Dimen(_) => {
            quantity_width(negative, quantity, taken, token, context, alloc)
        }
    }
}

// An internal quantity that begins a width.
fn quantity_width(
    negative: bool,
    quantity: Quantity,
    taken: bool,
    token: &Token,
    context: &Context<'_>,
    alloc: Global,
) -> Result<GlueMove<Gluing>, ScanFault>
    requires { is_number quantity ≡ true }
    ensures { GlueMoves glue_left context.now (fed token.now context.now ∷ [])
        (quantity_glue_left negative quantity context.now taken) result }
{
    let manner = Manner {
        negative,
        infinite: false,
    };
    let step = from_quantity(manner, quantity, taken, token, context, alloc);
    width_fed(step, token, context, alloc)
}

fn in_width(
    dimen: Dimen,
    token: &Token,
    context: &Context<'_>,
    alloc: Global,
) -> Result<GlueMove<Gluing>, ScanFault>
    ensures { GlueMoves glue_left context.now (fed token.now context.now ∷ [])
        (glue_left (Gluing.Width dimen)) result }
{
    let step = dimen.feed(token, context, alloc);
    width_fed(step, token, context, alloc)
}

// What a token made of the width.
fn width_fed(
    step: Result<Step<Dimen, Amount>, ScanFault>,
    token: &Token,
    context: &Context<'_>,
    alloc: Global,
) -> Result<GlueMove<Gluing>, ScanFault>
    ensures { (before : List FedToken → Answer TheAmount)
        → Follows amount_of dimen_left (fed token.now context.now) before step
        → GlueMoves glue_left context.now (fed token.now context.now ∷ []) (then_stretch before)
        result }
{
    match step {
        Ok(Step::Further(dimen)) => Ok(GlueMove::On(Gluing::Width(dimen))),
        Ok(Step::Done(width, true)) => Ok(GlueMove::On(Gluing::Plus(
            width.size,
            Keyword::new(alloc, Sought::Plus),
        ))),
        Ok(Step::Done(width, false)) => {
            let keyword = Keyword::new(alloc, Sought::Plus);
            in_plus(width.size, keyword, token, context, alloc)
        }
        Err(fault) => Err(fault),
    }
}

fn in_plus(
    width: Length,
    keyword: Keyword,
    token: &Token,
    context: &Context<'_>,
    alloc: Global,
) -> Result<GlueMove<Gluing>, ScanFault>
    ensures { GlueMoves glue_left context.now (fed token.now context.now ∷ [])
        (glue_left (Gluing.Plus width keyword)) result }
{
    match keyword.feed(token, context) {
        Ok(Attempt::On(keyword)) => Ok(GlueMove::On(Gluing::Plus(width, keyword))),
        Ok(Attempt::There) => Ok(GlueMove::On(Gluing::Stretch(width, Dimen::new(true)))),
        Ok(Attempt::Not(tokens)) => {
            let late = Late::Minus(width, nothing(), Keyword::new(alloc, Sought::Minus));
            as_glue(late_fed_all(late, &tokens, context, alloc))
        }
        Err(fault) => Err(fault),
    }
}

fn in_stretch(
    width: Length,
    dimen: Dimen,
    token: &Token,
    context: &Context<'_>,
    alloc: Global,
) -> Result<GlueMove<Gluing>, ScanFault>
    ensures { GlueMoves glue_left context.now (fed token.now context.now ∷ [])
        (glue_left (Gluing.Stretch width dimen)) result }
{
    match dimen.feed(token, context, alloc) {
        Ok(Step::Further(dimen)) => Ok(GlueMove::On(Gluing::Stretch(width, dimen))),
        Ok(Step::Done(stretch, taken)) => {
            let late = Late::Minus(width, stretch, Keyword::new(alloc, Sought::Minus));
            if taken {
                Ok(GlueMove::On(Gluing::Late(late)))
            } else {
                as_glue(late_fed(late, token, context, alloc))
            }
        }
        Err(fault) => Err(fault),
    }
}

// Where `to` is looked for.
fn in_to(
    keyword: Keyword,
    token: &Token,
    context: &Context<'_>,
    alloc: Global,
) -> Result<GlueMove<Gluing>, ScanFault>
    ensures { GlueMoves glue_left context.now (fed token.now context.now ∷ [])
        (glue_left (Gluing.To keyword)) result }
{
    match keyword.feed(token, context) {
        Ok(Attempt::On(keyword)) => Ok(GlueMove::On(Gluing::To(keyword))),
        Ok(Attempt::There) => Ok(GlueMove::On(Gluing::ToSize(Dimen::new(false)))),
        Ok(Attempt::Not(tokens)) => {
            let late = Late::Spread(Keyword::new(alloc, Sought::Spread));
            as_glue(late_fed_all(late, &tokens, context, alloc))
        }
        Err(fault) => Err(fault),
    }
}

fn in_to_size(
    dimen: Dimen,
    token: &Token,
    context: &Context<'_>,
    alloc: Global,
) -> Result<GlueMove<Gluing>, ScanFault>
    ensures { GlueMoves glue_left context.now (fed token.now context.now ∷ [])
        (glue_left (Gluing.ToSize dimen)) result }
{
    match dimen.feed(token, context, alloc) {
        Ok(Step::Further(dimen)) => Ok(GlueMove::On(Gluing::ToSize(dimen))),
        Ok(Step::Done(size, taken)) => match not_taken(alloc, taken, token) {
            Ok(tokens) => {
                let size = BoxSize::To(Sp(size.size.value()));
                let value = Value::BoxSize(size);
                Ok(GlueMove::Done(Found { value }, tokens))
            }
            Err(_) => Err(ScanFault::NoMemory),
        },
        Err(fault) => Err(fault),
    }
}
