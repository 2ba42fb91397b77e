//! Characters, and what the next one looks at.

use crate::space::Unscaled;
use box_tree::FontNo;
use ts_geometry::{Measures, Sp};

/// The penalties before and after a character.
#[derive(Clone, Copy, Debug, PartialEq, Eq, Hash)]
pub struct Kinsoku {
    pub pre: i32,
    pub post: i32,
}

/// A European character or a ligature, with the first and the last letter of its source.
#[derive(Clone, Copy, Debug, PartialEq, Eq)]
pub struct Letter {
    pub font: FontNo,
    pub code: u8,
    pub size: Measures,
    pub shift: Sp,
    pub first: u8,
    pub last: u8,
    pub kinsoku: Kinsoku,
}

/// A character on the left of a gap, with the penalty after it.
#[derive(Clone, Copy, Debug, PartialEq, Eq)]
pub struct Side {
    pub is_japanese: bool,
    pub post: i32,
}

/// What stands directly before in the run: a Japanese character has its class, and the space that
/// its font has before a character of another.
#[derive(Debug, Drop)]
pub enum Run {
    Start,
    Japanese(u8, Unscaled),
    European(Letter),
}

/// How a letter goes on after what stands before it in the run: as a ligature with it, or beside it
/// after a space.
#[derive(Debug, Drop)]
pub enum Arrival {
    Joined(Letter),
    Beside(Unscaled),
}
