//! The codes of characters.

ghost use Rattle.std.specs.Prelude.{◌≡◌, ◌≤◌, Some, IfSome};
ghost use Rattle.env_groups.specs.Bounds.{IsPenalty};
ghost use Rattle.env_groups.specs.CharCodes.{category_of, category_number, start_category, kind_of, kind_number, start_kind, spacing_of, start_xsp, penalty_of, pre_of, post_of, IsCharPenalty, char_place, cell_place};

use jis_codes::{Cell, Char};
use std::marker::Model;

/// A code that can be set: the category of a character of one byte, the kind of the Japanese
/// characters of a row, where space comes beside a character, and the penalty before or after one.
#[derive(Clone, Copy, Debug, PartialEq, Eq, Hash)]
pub enum CodeKey {
    /// `\catcode`.
    Cat(u8),
    /// `\kcatcode`, for the whole row of a cell.
    Kcat(Cell),
    /// `\xspcode`.
    Xsp(u8),
    /// `\inhibitxspcode`.
    InhibitXsp(Cell),
    /// `\prebreakpenalty`.
    Pre(Char),
    /// `\postbreakpenalty`.
    Post(Char),
}

/// The category of a character of one byte (The TeXbook, chapter 7).
#[derive(Clone, Copy, Debug)]
pub(crate) enum Category {
    Escape,
    BeginGroup,
    EndGroup,
    MathShift,
    Alignment,
    EndOfLine,
    Parameter,
    Superscript,
    Subscript,
    Ignored,
    Space,
    Letter,
    Other,
    Active,
    Comment,
    Invalid,
}

/// The categories in the order of their numbers.
const CATEGORIES: [Category; 16] = [
    Category::Escape,
    Category::BeginGroup,
    Category::EndGroup,
    Category::MathShift,
    Category::Alignment,
    Category::EndOfLine,
    Category::Parameter,
    Category::Superscript,
    Category::Subscript,
    Category::Ignored,
    Category::Space,
    Category::Letter,
    Category::Other,
    Category::Active,
    Category::Comment,
    Category::Invalid,
];

impl Category {
    /// Returns the category of a number, or `None` where the number isn't from 0 to 15.
    pub(crate) fn new(number: i64) -> Option<Category>
        ensures { result ≡ category_of number }
    {
        CATEGORIES.get(usize::try_from(number).ok()?).copied()
    }

    /// Returns its number.
    pub(crate) fn number(self) -> u8
        ensures value { result ≡ category_number self }
        ensures most { result ≤ 15 }
    {
        match self {
            Category::Escape => 0,
            Category::BeginGroup => 1,
            Category::EndGroup => 2,
            Category::MathShift => 3,
            Category::Alignment => 4,
            Category::EndOfLine => 5,
            Category::Parameter => 6,
            Category::Superscript => 7,
            Category::Subscript => 8,
            Category::Ignored => 9,
            Category::Space => 10,
            Category::Letter => 11,
            Category::Other => 12,
            Category::Active => 13,
            Category::Comment => 14,
            Category::Invalid => 15,
        }
    }

    /// Returns what the category of a character is at the start.
    pub(crate) fn at_start(code: u8) -> Category
        ensures { result ≡ start_category code }
    {
        match code {
            b'\\' => Category::Escape,
            b'{' => Category::BeginGroup,
            b'}' => Category::EndGroup,
            b'$' => Category::MathShift,
            b'&' => Category::Alignment,
            b'\r' => Category::EndOfLine,
            b'#' => Category::Parameter,
            b'^' => Category::Superscript,
            b'_' => Category::Subscript,
            0 => Category::Ignored,
            b' ' | b'\t' => Category::Space,
            b'a'..=b'z' | b'A'..=b'Z' => Category::Letter,
            b'~' => Category::Active,
            b'%' => Category::Comment,
            127 => Category::Invalid,
            _ => Category::Other,
        }
    }
}

/// The kind of a Japanese character (pTeX).
#[derive(Clone, Copy, Debug)]
pub(crate) enum Kind {
    Kanji,
    Kana,
    OtherKchar,
}

impl Kind {
    /// Returns the kind of a number, or `None` where the number isn't from 16 to 18.
    pub(crate) fn new(number: i64) -> Option<Kind>
        ensures { result ≡ kind_of number }
    {
        match usize::try_from(number).ok()? {
            16 => Some(Kind::Kanji),
            17 => Some(Kind::Kana),
            18 => Some(Kind::OtherKchar),
            _ => None,
        }
    }

    /// Returns its number.
    pub(crate) fn number(self) -> u8
        ensures value { result ≡ kind_number self }
        ensures least { 16 ≤ result }
        ensures most { result ≤ 18 }
    {
        match self {
            Kind::Kanji => 16,
            Kind::Kana => 17,
            Kind::OtherKchar => 18,
        }
    }

    /// Returns what the kind of the characters of a row is at the start.
    pub(crate) fn at_start(row: u8) -> Kind
        ensures { result ≡ start_kind row }
    {
        match row {
            3..=6 => Kind::Kana,
            16..=84 => Kind::Kanji,
            _ => Kind::OtherKchar,
        }
    }
}

/// Where space comes beside a character, as a number from 0 to 3 (pTeX). Contracts see the number.
#[derive(Clone, Copy, Debug)]
pub(crate) struct Spacing {
    number: u8,
}

impl Model for Spacing {
    ghost use Rattle.std.specs.Prelude.{ℕ, ◌≤◌};

    ghost Value = { ℕ };

    ghost view = { λ s. s.number };

    ghost invariant = { λ s. s.number ≤ 3 };

    ghost inverse = { λ n. record { number = n } };
}

impl Spacing {
    /// Returns the code of a number, or `None` where the number isn't from 0 to 3.
    pub(crate) fn new(number: i64) -> Option<Spacing>
        ensures { result ≡ spacing_of number }
    {
        match u8::try_from(number) {
            Ok(number) if number <= 3 => Some(Spacing { number }),
            _ => None,
        }
    }

    /// Returns its number.
    pub(crate) fn number(self) -> u8
        ensures value { result ≡ self }
        ensures most { result ≤ 3 }
    {
        self.number
    }
}

/// The penalty of a character, which stands before it or after it (pTeX).
#[derive(Clone, Copy, Debug)]
pub(crate) enum CharPenalty {
    Pre(i64),
    Post(i64),
}

/// The penalty of a character, within 10000 of 0. Contracts see the penalty.
#[derive(Clone, Copy, Debug)]
pub(crate) struct SetPenalty {
    penalty: CharPenalty,
}

impl Model for SetPenalty {
    ghost use Rattle.env_groups.specs.declared.code.CharPenalty.{CharPenalty};
    ghost use Rattle.env_groups.specs.CharCodes.{IsCharPenalty};

    ghost Value = { CharPenalty };

    ghost view = { λ p. p.penalty };

    ghost invariant = { λ p. IsCharPenalty p.penalty };

    ghost inverse = { λ p. record { penalty = p } };
}

impl SetPenalty {
    pub(crate) fn new(penalty: CharPenalty) -> SetPenalty
        requires { IsCharPenalty penalty }
        ensures { result ≡ penalty }
    {
        SetPenalty { penalty }
    }

    /// Returns the penalty before the character, which is 0 where it has one after it.
    pub(crate) fn pre(self) -> i64
        ensures value { result ≡ pre_of (Some self) }
        ensures within { IsPenalty result }
    {
        match self.penalty {
            CharPenalty::Pre(value) => value,
            CharPenalty::Post(_) => 0,
        }
    }

    /// Returns the penalty after the character, which is 0 where it has one before it.
    pub(crate) fn post(self) -> i64
        ensures value { result ≡ post_of (Some self) }
        ensures within { IsPenalty result }
    {
        match self.penalty {
            CharPenalty::Pre(_) => 0,
            CharPenalty::Post(value) => value,
        }
    }
}

/// Returns a value as a penalty, or `None` where it isn't from -10000 to 10000.
pub(crate) fn penalty_of(value: i64) -> Option<i64>
    ensures value { result ≡ penalty_of value }
    ensures within { IfSome result IsPenalty }
{
    if -10_000 <= value && value <= 10_000 {
        Some(value)
    } else {
        None
    }
}

/// Returns the place of a character among all: those of one byte come first, and then the cells.
pub(crate) fn char_place(character: Char) -> usize
    ensures { result ≡ char_place character }
{
    match character {
        Char::One(code) => code as usize,
        Char::Ja(cell) => cell_place(cell),
    }
}

/// Returns the place of a cell among all characters.
pub(crate) fn cell_place(cell: Cell) -> usize
    ensures { result ≡ cell_place cell }
{
    256 + (cell.row() as usize - 1) * 94 + (cell.cell() as usize - 1)
}

/// Returns what `\xspcode` of a character is at the start.
pub(crate) fn start_xsp(code: u8) -> u8
    ensures value { result ≡ start_xsp code }
    ensures most { result ≤ 3 }
{
    match code {
        b'a'..=b'z' | b'A'..=b'Z' | b'0'..=b'9' => 3,
        _ => 0,
    }
}
