//! Integers.

ghost use Rattle.std.specs.Prelude.{◌≡◌, List};
ghost use Rattle.scan_numbers.specs.Tokens.{FedToken, fed};
ghost use Rattle.scan_numbers.specs.Integers.{integer as an_integer, signed as the_signed};
ghost use Rattle.scan_numbers.specs.Machines.{Follows, Reads, FormIs, outward as the_outward};
ghost use Rattle.scan_numbers.specs.Machines.{whole_integer, integer_left, value_of};
ghost use Rattle.scan_numbers.specs.declared.step.Step.TheVariants.{Further};

use crate::constant::Constant;
use crate::context::Context;
use crate::fault::{ScanFault, ScanKind};
use crate::number::Number;
use crate::quantity::{Register, read};
use crate::start::{Radix, Start, start_of};
use crate::step::Step;
use std::alloc::Global;
use tok_lists::Token;

/// An integer that is being read.
#[derive(Drop)]
pub struct Integer {
    /// The registers whose numbers are being read, the outermost first.
    open: Vec<Open>,
    /// Whether the signs of the innermost number make it negative.
    negative: bool,
    part: Part,
}

/// A register whose number is being read, and whether the signs before it turn what it holds.
#[derive(Clone, Copy, PartialEq, Eq)]
pub(crate) struct Open {
    register: Register,
    negative: bool,
}

/// What is being read of the innermost number.
#[derive(Clone, Copy, PartialEq, Eq)]
pub(crate) enum Part {
    Signs,
    Constant(Constant),
}

// The integer that a number inside of open registers comes to.
#[tactic(auto, using(crate::proofs::Integers::out, std::proofs::lemmas::Grind::common_steps))]
fn outward(
    mut opens: Vec<Open>,
    mut number: Number,
    context: &Context<'_>,
) -> Result<Number, ScanKind>
    ensures { Reads value_of context.now
        (the_outward opens.items whole_integer number.value context.now) result }
{
    while let Some(innermost) = opens.pop() {
        match read(innermost.register, number, context) {
            Ok(quantity) => number = Number::held(quantity).signed(innermost.negative),
            Err(kind) => return Err(kind),
        }
    }
    Ok(number)
}

impl Integer {
    /// Returns an integer of which nothing was read. Takes no memory.
    #[tactic(auto, using(crate::proofs::Integers::fresh, std::proofs::lemmas::Grind::common_steps))]
    pub fn new(alloc: Global) -> Integer
        ensures { (list : List FedToken) → integer_left result list ≡ an_integer list }
    {
        Integer {
            open: Vec::new(alloc),
            negative: false,
            part: Part::Signs,
        }
    }

    /// Tells whether its next token is wanted raw.
    #[tactic(auto, using(crate::proofs::Integers::forms, std::proofs::lemmas::Grind::common_steps))]
    pub fn is_raw(&self) -> bool
        ensures { FormIs result (integer_left self.now) }
    {
        match &self.part {
            Part::Signs => false,
            Part::Constant(constant) => constant.is_raw(),
        }
    }

    // Goes on with a constant.
    fn with(self, constant: Constant) -> Step<Integer, Number>
        ensures { result ≡ Further (record self { part = Part.Constant constant }) }
    {
        Step::Further(Integer {
            part: Part::Constant(constant),
            ..self
        })
    }

    // A number without its sign is whole.
    fn close(self, number: Number, context: &Context<'_>) -> Result<Number, ScanKind>
        ensures { Reads value_of context.now
            (the_outward self.open.items whole_integer
            (the_signed self.negative number.value) context.now) result }
    {
        outward(self.open, number.signed(self.negative), context)
    }

    // A token for a constant.
    #[tactic(auto, using(crate::proofs::Integers::constant_steps, std::proofs::lemmas::Grind::common_steps))]
    fn fed(
        self,
        constant: Constant,
        token: &Token,
        context: &Context<'_>,
    ) -> Result<Step<Integer, Number>, ScanFault>
        ensures { Follows value_of integer_left (fed token.now context.now)
            (integer_left (record self { part = Part.Constant constant })) result }
    {
        match constant.feed(token, context) {
            Ok(Step::Further(constant)) => Ok(Step::Further(Integer {
                part: Part::Constant(constant),
                ..self
            })),
            Ok(Step::Done(number, taken)) => match self.close(Number::positive(number), context) {
                Ok(number) => Ok(Step::Done(number, taken)),
                Err(kind) => Err(ScanFault::Kind(kind)),
            },
            Err(fault) => Err(fault),
        }
    }

    // A token where signs or a number are wanted.
    #[tactic(auto, using(crate::proofs::Integers::begun, std::proofs::lemmas::Grind::common_steps))]
    fn begin(
        mut self,
        token: &Token,
        context: &Context<'_>,
    ) -> Result<Step<Integer, Number>, ScanFault>
        requires { self.part ≡ Part.Signs }
        ensures { Follows value_of integer_left (fed token.now context.now)
            (integer_left self) result }
    {
        match start_of(token, context) {
            Start::Space | Start::Plus => Ok(Step::Further(self)),
            Start::Minus => {
                self.negative = !self.negative;
                Ok(Step::Further(self))
            }
            Start::Digit => self.fed(Constant::First(Radix::Decimal), token, context),
            Start::Octal => Ok(self.with(Constant::First(Radix::Octal))),
            Start::Hexadecimal => Ok(self.with(Constant::First(Radix::Hexadecimal))),
            Start::Backquote => Ok(self.with(Constant::Character)),
            Start::Internal(quantity) => match self.close(Number::held(quantity), context) {
                Ok(number) => Ok(Step::Done(number, true)),
                Err(kind) => Err(ScanFault::Kind(kind)),
            },
            Start::Register(register) => {
                self.open.push(Open {
                    register,
                    negative: self.negative,
                })?;
                self.negative = false;
                Ok(Step::Further(self))
            }
            Start::Refused(kind) => Err(ScanFault::Kind(kind)),
            Start::Point | Start::Other => Err(ScanFault::Kind(ScanKind::NoNumber)),
        }
    }

    /// Takes a token. Returns what is still to be read, or the integer and whether the token is a
    /// part of it. A fault of the tokens comes exactly where what is still to be read has it (The
    /// TeXbook, chapter 24, number).
    pub fn feed(
        self,
        token: &Token,
        context: &Context<'_>,
    ) -> Result<Step<Integer, Number>, ScanFault>
        ensures { Follows value_of integer_left (fed token.now context.now)
            (integer_left self) result }
    {
        match self.part {
            Part::Signs => self.begin(token, context),
            Part::Constant(constant) => self.fed(constant, token, context),
        }
    }
}
