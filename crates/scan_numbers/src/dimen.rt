//! Dimensions.

ghost use Rattle.std.specs.Prelude.{◌≡◌, ◌&&◌, List, true, false, if◌then◌else◌};
ghost use Rattle.scan_numbers.specs.Contexts.{Context};
ghost use Rattle.scan_numbers.specs.Tokens.{FedToken, fed, start as the_start};
ghost use Rattle.scan_numbers.specs.Tokens.{letter as the_letter};
ghost use Rattle.scan_numbers.specs.Dimensions.{dimen as a_dimen, dimen_signed, order_of};
ghost use Rattle.scan_numbers.specs.Dimensions.{of_measure};
ghost use Rattle.scan_numbers.specs.Keywords.{is_letter as it_is_letter};
ghost use Rattle.scan_numbers.specs.Machines.{Follows, Reads, FormIs, amount_of, at, turned_manner};
ghost use Rattle.scan_numbers.specs.Machines.{next_order, dimen_left, finished, quantity_left};
ghost use Rattle.scan_numbers.specs.Machines.{is_named, is_whole};

use crate::amount::Amount;
use crate::constant::Constant;
use crate::context::Context;
use crate::fault::{ScanFault, ScanKind};
use crate::fraction::Fraction;
use crate::integer::Integer;
use crate::letters::{First, first_of, second_of};
use crate::measure::{Factor, Measure, Unit};
use crate::number::Length;
use crate::quantity::{Quantity, Register, read};
use crate::start::{Radix, Start, digit, is_letter, is_space, letter, start_of};
use crate::step::Step;
use std::alloc::Global;
use tok_lists::Token;
use ts_geometry::Order;

/// The greatest dimension, in scaled points.
const GREATEST: u128 = 1_073_741_823;

/// The greatest whole part of a factor.
const GREATEST_WHOLE: u32 = 2_147_483_647;

/// How a dimension is read.
#[derive(Clone, Copy, PartialEq, Eq)]
pub struct Manner {
    /// Whether the signs before it make it negative.
    pub negative: bool,
    /// Whether its unit may be of an infinite order.
    pub infinite: bool,
}

/// The letters of `fil` after the first.
#[derive(Clone, Copy, PartialEq, Eq)]
pub(crate) enum FilLetter {
    I,
    L,
}

/// The infinite orders.
#[derive(Clone, Copy, PartialEq, Eq)]
pub(crate) enum Infinity {
    Fil,
    Fill,
    Filll,
}

impl Infinity {
    fn order(self) -> Order
        ensures { result ≡ order_of self }
    {
        match self {
            Infinity::Fil => Order::Fil,
            Infinity::Fill => Order::Fill,
            Infinity::Filll => Order::Filll,
        }
    }

    // The order that one more letter makes of it.
    fn next(self) -> Option<Infinity>
        ensures { result ≡ next_order self }
    {
        match self {
            Infinity::Fil => Some(Infinity::Fill),
            Infinity::Fill => Some(Infinity::Filll),
            Infinity::Filll => None,
        }
    }
}

/// A dimension that is being read.
#[derive(Drop)]
pub struct Dimen {
    manner: Manner,
    piece: Piece,
}

/// What is being read of a dimension.
#[derive(Drop)]
pub(crate) enum Piece {
    Signs,
    /// The number of a register that holds it or its factor.
    Register(Register, Integer),
    /// Digits before a decimal point, if there is one. They spell this number, or more than
    /// 2^32 - 1.
    Whole(u32),
    /// A factor that isn't decimal.
    Constant(Constant),
    /// Digits after a decimal point.
    Fraction(u32, Fraction),
    /// Spaces and a unit.
    Unit(Factor),
    /// The number of a register that is the unit.
    UnitRegister(Factor, Register, Integer),
    /// The second letter of a unit.
    Letter(Factor, u8),
    /// A letter of `fil`.
    Fil(Factor, FilLetter),
    /// Spaces, and a further `l`, if there is one.
    Infinite(Factor, Infinity),
    /// An optional space after a unit.
    Space(Measure),
}

// An amount of this measure and order, which signs may turn.
#[tactic(auto, using(crate::proofs::Dimensions::ranges, std::proofs::lemmas::Grind::common_steps))]
fn finish(manner: Manner, order: Order, measure: Measure) -> Result<Amount, ScanKind>
    ensures { (context : Context) → Reads amount_of context
        (finished manner order (of_measure measure) context) result }
{
    if measure.size > GREATEST {
        Err(ScanKind::DimenRange)
    } else {
        let size = Length::positive(measure.size as u32)
            .signed(measure.negative)
            .signed(manner.negative);
        Ok(Amount { size, order })
    }
}

// With a sign that another one turns.
fn turned(manner: Manner, by: bool) -> Manner
    ensures { result ≡ (if by then turned_manner manner else manner) }
{
    if by {
        Manner {
            negative: !manner.negative,
            infinite: manner.infinite,
        }
    } else {
        manner
    }
}

impl Dimen {
    /// Returns a dimension of which nothing was read, whose unit may be of an infinite order or
    /// mayn't. Takes no memory.
    #[tactic(auto, using(crate::proofs::Dimensions::fresh, std::proofs::lemmas::Grind::common_steps))]
    pub fn new(infinite: bool) -> Dimen
        ensures { (list : List FedToken) → dimen_left result list ≡ a_dimen infinite list }
    {
        Dimen {
            manner: Manner {
                negative: false,
                infinite,
            },
            piece: Piece::Signs,
        }
    }

    /// Returns a dimension after signs, of which nothing more was read. Takes no memory.
    #[tactic(auto, using(crate::proofs::Dimensions::fresh_signed, std::proofs::lemmas::Grind::common_steps))]
    pub fn signed(negative: bool) -> Dimen
        ensures { (list : List FedToken) → dimen_left result list ≡ dimen_signed negative list }
    {
        Dimen {
            manner: Manner {
                negative,
                infinite: false,
            },
            piece: Piece::Signs,
        }
    }

    /// Tells whether its next token is wanted raw.
    #[tactic(auto, using(crate::proofs::Dimensions::forms, std::proofs::lemmas::Grind::common_steps))]
    pub fn is_raw(&self) -> bool
        ensures { FormIs result (dimen_left self.now) }
    {
        match &self.piece {
            Piece::Register(_, number) | Piece::UnitRegister(_, _, number) => number.is_raw(),
            Piece::Constant(constant) => constant.is_raw(),
            Piece::Signs
            | Piece::Whole(_)
            | Piece::Fraction(..)
            | Piece::Unit(_)
            | Piece::Letter(..)
            | Piece::Fil(..)
            | Piece::Infinite(..)
            | Piece::Space(_) => false,
        }
    }

    /// Takes a token. Returns what is still to be read, or the amount and whether the token is a
    /// part of it. A fault of the tokens comes exactly where what is still to be read has it (The
    /// TeXbook, chapter 24, dimen).
    pub fn feed(
        self,
        token: &Token,
        context: &Context<'_>,
        alloc: Global,
    ) -> Result<Step<Dimen, Amount>, ScanFault>
        ensures { Follows amount_of dimen_left (fed token.now context.now)
            (dimen_left self) result }
    {
        let Dimen { manner, piece } = self;
        match piece {
            Piece::Signs => begin(manner, token, context, alloc),
            Piece::Register(register, number) => in_register(
                manner, register, number, token, context, alloc,
            ),
            Piece::Whole(whole) => in_whole(manner, whole, token, context, alloc),
            Piece::Constant(constant) => in_constant(manner, constant, token, context, alloc),
            Piece::Fraction(whole, fraction) => in_fraction(
                manner, whole, fraction, token, context, alloc,
            ),
            Piece::Unit(factor) => in_unit(manner, factor, token, context, alloc),
            Piece::UnitRegister(factor, register, number) => {
                in_unit_register(manner, factor, register, number, token, context)
            }
            Piece::Letter(factor, first) => in_letter(manner, factor, first, token, context),
            Piece::Fil(factor, letter) => in_fil(manner, factor, letter, token, context),
            Piece::Infinite(factor, order) => in_infinite(manner, factor, order, token, context),
            Piece::Space(measure) => in_space(manner, measure, token, context),
        }
    }
}

#[tactic(auto, using(crate::proofs::Dimensions::begun, std::proofs::lemmas::Grind::common_steps))]
fn begin(
    manner: Manner,
    token: &Token,
    context: &Context<'_>,
    alloc: Global,
) -> Result<Step<Dimen, Amount>, ScanFault>
    ensures { Follows amount_of dimen_left (fed token.now context.now)
        (dimen_left (record { manner = manner; piece = Piece.Signs })) result }
{
    match start_of(token, context) {
        Start::Space | Start::Plus => Ok(Step::Further(Dimen {
            manner,
            piece: Piece::Signs,
        })),
        Start::Minus => Ok(Step::Further(Dimen {
            manner: turned(manner, true),
            piece: Piece::Signs,
        })),
        Start::Digit => in_whole(manner, 0, token, context, alloc),
        Start::Point => Ok(Step::Further(Dimen {
            manner,
            piece: Piece::Fraction(0, Fraction::new()),
        })),
        Start::Octal => Ok(Step::Further(Dimen {
            manner,
            piece: Piece::Constant(Constant::First(Radix::Octal)),
        })),
        Start::Hexadecimal => Ok(Step::Further(Dimen {
            manner,
            piece: Piece::Constant(Constant::First(Radix::Hexadecimal)),
        })),
        Start::Backquote => Ok(Step::Further(Dimen {
            manner,
            piece: Piece::Constant(Constant::Character),
        })),
        Start::Internal(quantity) => from_quantity(manner, quantity, true, token, context, alloc),
        Start::Register(register) => Ok(Step::Further(Dimen {
            manner,
            piece: Piece::Register(register, Integer::new(alloc)),
        })),
        Start::Refused(kind) => Err(ScanFault::Kind(kind)),
        Start::Other => Err(ScanFault::Kind(ScanKind::NoNumber)),
    }
}

// An internal quantity that is no factor, which took the token or left it.
fn whole_quantity(
    manner: Manner,
    quantity: Quantity,
    taken: bool,
) -> Result<Step<Dimen, Amount>, ScanFault>
    requires { is_whole quantity ≡ true }
    ensures { (x : FedToken) → Follows amount_of dimen_left x
        (quantity_left manner quantity x.context taken) result }
{
    match finish(manner, Order::Normal, Measure::held(quantity)) {
        Ok(dimen) => Ok(Step::Done(dimen, taken)),
        Err(kind) => Err(ScanFault::Kind(kind)),
    }
}

/// Begins a dimension with an internal quantity that took the token or left it: an internal
/// dimension is whole, and so is the width of a glue; an integer is a factor. Returns as `feed`
/// does.
pub fn from_quantity(
    manner: Manner,
    quantity: Quantity,
    taken: bool,
    token: &Token,
    context: &Context<'_>,
    alloc: Global,
) -> Result<Step<Dimen, Amount>, ScanFault>
    ensures { Follows amount_of dimen_left (fed token.now context.now)
        (quantity_left manner quantity context.now taken) result }
{
    match quantity {
        Quantity::Dimen(_) | Quantity::Glue(_) => whole_quantity(manner, quantity, taken),
        Quantity::Integer(_) => {
            let manner = turned(manner, quantity.is_negative());
            let factor = Factor::held(quantity);
            if taken {
                Ok(Step::Further(Dimen {
                    manner,
                    piece: Piece::Unit(factor),
                }))
            } else {
                in_unit(manner, factor, token, context, alloc)
            }
        }
    }
}

fn in_register(
    manner: Manner,
    register: Register,
    number: Integer,
    token: &Token,
    context: &Context<'_>,
    alloc: Global,
) -> Result<Step<Dimen, Amount>, ScanFault>
    ensures { Follows amount_of dimen_left (fed token.now context.now)
        (dimen_left (record { manner = manner; piece = Piece.Register register number })) result }
{
    match number.feed(token, context) {
        Ok(Step::Further(number)) => Ok(Step::Further(Dimen {
            manner,
            piece: Piece::Register(register, number),
        })),
        Ok(Step::Done(number, taken)) => match read(register, number, context) {
            Ok(quantity) => from_quantity(manner, quantity, taken, token, context, alloc),
            Err(kind) => Err(ScanFault::Kind(kind)),
        },
        Err(fault) => Err(fault),
    }
}

// Digits before a decimal point.
#[tactic(auto, using(crate::proofs::Dimensions::wholes, std::proofs::lemmas::Grind::common_steps))]
fn in_whole(
    manner: Manner,
    whole: u32,
    token: &Token,
    context: &Context<'_>,
    alloc: Global,
) -> Result<Step<Dimen, Amount>, ScanFault>
    ensures { Follows amount_of dimen_left (fed token.now context.now)
        (dimen_left (record { manner = manner; piece = Piece.Whole whole })) result }
{
    match digit(Radix::Decimal, token) {
        Some(digit) => Ok(Step::Further(Dimen {
            manner,
            piece: Piece::Whole(Radix::Decimal.with_digit(whole, digit)),
        })),
        None if whole > GREATEST_WHOLE => Err(ScanFault::Kind(ScanKind::NumberRange)),
        None => match start_of(token, context) {
            Start::Point => Ok(Step::Further(Dimen {
                manner,
                piece: Piece::Fraction(whole, Fraction::new()),
            })),
            _ => in_unit(manner, Factor::whole(whole), token, context, alloc),
        },
    }
}

fn in_constant(
    manner: Manner,
    constant: Constant,
    token: &Token,
    context: &Context<'_>,
    alloc: Global,
) -> Result<Step<Dimen, Amount>, ScanFault>
    ensures { Follows amount_of dimen_left (fed token.now context.now)
        (dimen_left (record { manner = manner; piece = Piece.Constant constant })) result }
{
    match constant.feed(token, context) {
        Ok(Step::Further(constant)) => Ok(Step::Further(Dimen {
            manner,
            piece: Piece::Constant(constant),
        })),
        Ok(Step::Done(whole, true)) => Ok(Step::Further(Dimen {
            manner,
            piece: Piece::Unit(Factor::whole(whole)),
        })),
        Ok(Step::Done(whole, false)) => in_unit(
            manner,
            Factor::whole(whole),
            token,
            context,
            alloc,
        ),
        Err(fault) => Err(fault),
    }
}

// Digits after a decimal point.
#[tactic(auto, using(crate::proofs::Dimensions::fractions, std::proofs::lemmas::Grind::common_steps))]
fn in_fraction(
    manner: Manner,
    whole: u32,
    fraction: Fraction,
    token: &Token,
    context: &Context<'_>,
    alloc: Global,
) -> Result<Step<Dimen, Amount>, ScanFault>
    ensures { Follows amount_of dimen_left (fed token.now context.now)
        (dimen_left (record { manner = manner; piece = Piece.Fraction whole fraction })) result }
{
    match digit(Radix::Decimal, token) {
        Some(digit) => Ok(Step::Further(Dimen {
            manner,
            piece: Piece::Fraction(whole, fraction.with(digit)),
        })),
        None => {
            let factor = Factor {
                whole,
                fraction: fraction.value(),
            };
            in_unit(manner, factor, token, context, alloc)
        }
    }
}

// Where a unit is wanted.
#[tactic(auto, using(crate::proofs::Dimensions::units, std::proofs::lemmas::Grind::common_steps))]
fn in_unit(
    manner: Manner,
    factor: Factor,
    token: &Token,
    context: &Context<'_>,
    alloc: Global,
) -> Result<Step<Dimen, Amount>, ScanFault>
    ensures { Follows amount_of dimen_left (fed token.now context.now)
        (dimen_left (record { manner = manner; piece = Piece.Unit factor })) result }
{
    match start_of(token, context) {
        Start::Space => Ok(Step::Further(Dimen {
            manner,
            piece: Piece::Unit(factor),
        })),
        Start::Internal(quantity) => match finish(
            manner,
            Order::Normal,
            factor.times_quantity(quantity),
        ) {
            Ok(dimen) => Ok(Step::Done(dimen, true)),
            Err(kind) => Err(ScanFault::Kind(kind)),
        },
        Start::Register(register) => {
            Ok(Step::Further(Dimen {
                manner,
                piece: Piece::UnitRegister(factor, register, Integer::new(alloc)),
            }))
        }
        Start::Refused(kind) => Err(ScanFault::Kind(kind)),
        Start::Plus
        | Start::Minus
        | Start::Digit
        | Start::Octal
        | Start::Hexadecimal
        | Start::Backquote
        | Start::Point
        | Start::Other => name(manner, factor, token, context),
    }
}

// Whether a name begins `fil`, where that may come.
fn begins_fil(manner: Manner, token: &Token) -> bool
    ensures { result ≡ (manner.infinite && it_is_letter 102 (the_letter token.now)) }
{
    manner.infinite && is_letter(b'f', letter(token))
}

// The first letter of a unit.
#[tactic(auto, using(crate::proofs::Dimensions::fil_begins, std::proofs::lemmas::Grind::common_steps))]
fn name(
    manner: Manner,
    factor: Factor,
    token: &Token,
    context: &Context<'_>,
) -> Result<Step<Dimen, Amount>, ScanFault>
    requires { is_named (the_start token.now context.now) ≡ true }
    ensures { Follows amount_of dimen_left (fed token.now context.now)
        (dimen_left (record { manner = manner; piece = Piece.Unit factor })) result }
{
    if begins_fil(manner, token) {
        Ok(Step::Further(Dimen {
            manner,
            piece: Piece::Fil(factor, FilLetter::I),
        }))
    } else {
        finite_name(manner, factor, token, context)
    }
}

// The first letter of a unit of no infinite order.
#[tactic(auto, using(crate::proofs::Dimensions::named_steps, std::proofs::lemmas::Grind::common_steps))]
fn finite_name(
    manner: Manner,
    factor: Factor,
    token: &Token,
    context: &Context<'_>,
) -> Result<Step<Dimen, Amount>, ScanFault>
    requires named { is_named (the_start token.now context.now) ≡ true }
    requires finite { (manner.infinite && it_is_letter 102 (the_letter token.now)) ≡ false }
    ensures { Follows amount_of dimen_left (fed token.now context.now)
        (dimen_left (record { manner = manner; piece = Piece.Unit factor })) result }
{
    match letter(token) {
        Some(first) => match first_of(first) {
            First::Whole(unit) => Ok(Step::Further(Dimen {
                manner,
                piece: Piece::Space(factor.of(unit, context)),
            })),
            First::Begins => Ok(Step::Further(Dimen {
                manner,
                piece: Piece::Letter(factor, first),
            })),
            First::Nothing => Err(ScanFault::Kind(ScanKind::NoUnit)),
        },
        None => Err(ScanFault::Kind(ScanKind::NoUnit)),
    }
}

// The second letter of a unit.
#[tactic(auto, using(crate::proofs::Dimensions::second_letters, std::proofs::lemmas::Grind::common_steps))]
fn in_letter(
    manner: Manner,
    factor: Factor,
    first: u8,
    token: &Token,
    context: &Context<'_>,
) -> Result<Step<Dimen, Amount>, ScanFault>
    ensures { Follows amount_of dimen_left (fed token.now context.now)
        (dimen_left (record { manner = manner; piece = Piece.Letter factor first })) result }
{
    match letter(token) {
        Some(second) => match second_of(first, second) {
            Some(unit) => Ok(Step::Further(Dimen {
                manner,
                piece: Piece::Space(factor.of(unit, context)),
            })),
            None => Err(ScanFault::Kind(ScanKind::NoUnit)),
        },
        None => Err(ScanFault::Kind(ScanKind::NoUnit)),
    }
}

// A letter of `fil`.
#[tactic(auto, using(crate::proofs::Dimensions::fil_steps, std::proofs::lemmas::Grind::common_steps))]
fn in_fil(
    manner: Manner,
    factor: Factor,
    wanted: FilLetter,
    token: &Token,
    context: &Context<'_>,
) -> Result<Step<Dimen, Amount>, ScanFault>
    ensures { Follows amount_of dimen_left (fed token.now context.now)
        (dimen_left (record { manner = manner; piece = Piece.Fil factor wanted })) result }
{
    match wanted {
        FilLetter::I => {
            if is_letter(b'i', letter(token)) {
                Ok(Step::Further(Dimen {
                    manner,
                    piece: Piece::Fil(factor, FilLetter::L),
                }))
            } else {
                Err(ScanFault::Kind(ScanKind::NoUnit))
            }
        }
        FilLetter::L => {
            if is_letter(b'l', letter(token)) {
                Ok(Step::Further(Dimen {
                    manner,
                    piece: Piece::Infinite(factor, Infinity::Fil),
                }))
            } else {
                Err(ScanFault::Kind(ScanKind::NoUnit))
            }
        }
    }
}

// After a unit of an infinite order, where one `l` more makes the order higher.
#[tactic(auto, using(crate::proofs::Dimensions::infinite_steps, std::proofs::lemmas::Grind::common_steps))]
fn in_infinite(
    manner: Manner,
    factor: Factor,
    order: Infinity,
    token: &Token,
    context: &Context<'_>,
) -> Result<Step<Dimen, Amount>, ScanFault>
    ensures { Follows amount_of dimen_left (fed token.now context.now)
        (dimen_left (record { manner = manner; piece = Piece.Infinite factor order })) result }
{
    if is_space(token, context) {
        Ok(Step::Further(Dimen {
            manner,
            piece: Piece::Infinite(factor, order),
        }))
    } else if is_letter(b'l', letter(token)) {
        match order.next() {
            Some(next) => Ok(Step::Further(Dimen {
                manner,
                piece: Piece::Infinite(factor, next),
            })),
            None => Err(ScanFault::Kind(ScanKind::NoUnit)),
        }
    } else {
        match finish(manner, order.order(), factor.of(Unit::Point, context)) {
            Ok(amount) => Ok(Step::Done(amount, false)),
            Err(kind) => Err(ScanFault::Kind(kind)),
        }
    }
}

fn in_unit_register(
    manner: Manner,
    factor: Factor,
    register: Register,
    number: Integer,
    token: &Token,
    context: &Context<'_>,
) -> Result<Step<Dimen, Amount>, ScanFault>
    ensures { Follows amount_of dimen_left (fed token.now context.now)
        (dimen_left (at manner (Piece.UnitRegister factor register number))) result }
{
    match number.feed(token, context) {
        Ok(Step::Further(number)) => Ok(Step::Further(Dimen {
            manner,
            piece: Piece::UnitRegister(factor, register, number),
        })),
        Ok(Step::Done(number, taken)) => match read(register, number, context) {
            Ok(quantity) => match finish(manner, Order::Normal, factor.times_quantity(quantity)) {
                Ok(dimen) => Ok(Step::Done(dimen, taken)),
                Err(kind) => Err(ScanFault::Kind(kind)),
            },
            Err(kind) => Err(ScanFault::Kind(kind)),
        },
        Err(fault) => Err(fault),
    }
}

// An optional space after a unit.
fn in_space(
    manner: Manner,
    measure: Measure,
    token: &Token,
    context: &Context<'_>,
) -> Result<Step<Dimen, Amount>, ScanFault>
    ensures { Follows amount_of dimen_left (fed token.now context.now)
        (dimen_left (record { manner = manner; piece = Piece.Space measure })) result }
{
    match finish(manner, Order::Normal, measure) {
        Ok(dimen) => Ok(Step::Done(dimen, is_space(token, context))),
        Err(kind) => Err(ScanFault::Kind(kind)),
    }
}
