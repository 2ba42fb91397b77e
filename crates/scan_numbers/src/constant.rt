//! Constants of integers.

ghost use Rattle.std.specs.Prelude.{◌≡◌};
ghost use Rattle.scan_numbers.specs.Tokens.{fed};
ghost use Rattle.env_groups.specs.Bounds.{max_int};
ghost use Rattle.scan_numbers.specs.Bounds.{IsDoneWithin};
ghost use Rattle.scan_numbers.specs.Machines.{Follows, constant_left, same, FormIs};

use crate::context::Context;
use crate::fault::ScanFault::{self, Kind};
use crate::fault::ScanKind;
use crate::start::{Radix, character, digit, is_space};
use crate::step::Step;
use tok_lists::Token;

/// The greatest integer.
const GREATEST: u32 = 2_147_483_647;

/// A constant that has begun.
#[derive(Clone, Copy, PartialEq, Eq)]
pub(crate) enum Constant {
    /// The first digit is wanted.
    First(Radix),
    /// Digits that spell this number, or more than 2^32 - 1, have been read.
    Digits(Radix, u32),
    /// The character after a backquote is wanted.
    Character,
    /// An optional space is wanted after the code of a character.
    Space(u16),
}

impl Constant {
    /// Whether its next token is wanted raw.
    #[tactic(auto, unfolding(crate::specs::Machines::constant_left, crate::specs::Integers::constant, crate::specs::Integers::digits, crate::specs::Integers::character_constant, crate::specs::Integers::optional_space))]
    pub(crate) fn is_raw(&self) -> bool
        ensures { FormIs result (constant_left self.now) }
    {
        matches!(self, Constant::Character)
    }

    #[tactic(auto, using(crate::proofs::Constants::steps, std::proofs::lemmas::Grind::common_steps))]
    pub(crate) fn feed(
        self,
        token: &Token,
        context: &Context<'_>,
    ) -> Result<Step<Constant, u32>, ScanFault>
        ensures follows { Follows same constant_left (fed token.now context.now)
            (constant_left self) result }
        ensures within { IsDoneWithin max_int result }
    {
        match self {
            Constant::First(radix) => match digit(radix, token) {
                Some(d) => Ok(Step::Further(Constant::Digits(radix, u32::from(d)))),
                None => Err(Kind(ScanKind::NoNumber)),
            },
            Constant::Digits(radix, value) => match digit(radix, token) {
                Some(d) => Ok(Step::Further(Constant::Digits(radix, radix.with_digit(value, d)))),
                None if value <= GREATEST => Ok(Step::Done(value, is_space(token, context))),
                None => Err(Kind(ScanKind::NumberRange)),
            },
            Constant::Character => match character(token, context) {
                Some(code) => Ok(Step::Further(Constant::Space(code))),
                None => Err(Kind(ScanKind::NoNumber)),
            },
            Constant::Space(code) => Ok(Step::Done(u32::from(code), is_space(token, context))),
        }
    }
}
