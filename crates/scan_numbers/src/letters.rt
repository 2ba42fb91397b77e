//! The letters of units.

ghost use Rattle.std.specs.Prelude.{◌≡◌};
ghost use Rattle.scan_numbers.specs.Machines.{first_of as the_first_of, second_of as the_second_of};

use crate::measure::Unit;

/// What a letter begins.
#[derive(Clone, Copy, PartialEq, Eq)]
pub(crate) enum First {
    /// It is a unit.
    Whole(Unit),
    /// It is the first of two letters.
    Begins,
    Nothing,
}

pub(crate) fn first_of(letter: u8) -> First
    ensures { result ≡ the_first_of letter }
{
    match letter {
        b'q' | b'h' => First::Whole(Unit::Quarter),
        b'e' | b'z' | b'i' | b'p' | b'c' | b'm' | b'b' | b'd' | b's' => First::Begins,
        _ => First::Nothing,
    }
}

/// The unit of two letters.
pub(crate) fn second_of(first: u8, second: u8) -> Option<Unit>
    ensures { result ≡ the_second_of first second }
{
    match (first, second) {
        (b'e', b'm') => Some(Unit::Em),
        (b'e', b'x') => Some(Unit::Ex),
        (b'z', b'w') => Some(Unit::Zw),
        (b'z', b'h') => Some(Unit::Zh),
        (b'i', b'n') => Some(Unit::Inch),
        (b'p', b't') => Some(Unit::Point),
        (b'p', b'c') => Some(Unit::Pica),
        (b'c', b'm') => Some(Unit::Centimeter),
        (b'c', b'c') => Some(Unit::Cicero),
        (b'm', b'm') => Some(Unit::Millimeter),
        (b'b', b'p') => Some(Unit::BigPoint),
        (b'd', b'd') => Some(Unit::Didot),
        (b's', b'p') => Some(Unit::Scaled),
        _ => None,
    }
}
