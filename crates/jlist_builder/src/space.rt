//! What metrics put between characters.

ghost use Rattle.std.specs.Prelude.{◌≡◌, ◌≤◌, ◌<◌, ◌^◌, length};
ghost use Rattle.jlist_builder.specs.Spaces.{scaled_glue, scaled_space, space_items};

use jfm_load::Space as Words;
use std::marker::Model;
use ts_geometry::{Glue, Order, Sp, scale};

/// What a metric puts before a character, in scaled points.
#[derive(Clone, Copy, Debug, PartialEq, Eq)]
pub enum Space {
    Nothing,
    Glue(Glue),
    Kern(Sp),
}

// Glue of fix words at a size.
#[inline(always)]
fn scaled_glue(width: i32, stretch: i32, shrink: i32, z: u32) -> Glue
    requires { z < 2 ^ 23 }
    ensures { result ≡ scaled_glue width stretch shrink z }
{
    Glue {
        width: Sp(scale(width, z)),
        stretch: Sp(scale(stretch, z)),
        stretch_order: Order::Normal,
        shrink: Sp(scale(shrink, z)),
        shrink_order: Order::Normal,
    }
}

/// What a Japanese metric has between two classes, which is scaled only where it is looked at.
/// Contracts see the space at its size.
#[derive(Debug, Drop)]
pub struct Unscaled {
    words: Words,
    z: u32,
}

impl Model for Unscaled {
    ghost use Rattle.jlist_builder.specs.declared.space.Space.{Space};

    ghost Value = { Space };

    ghost use Rattle.std.specs.Prelude.{◌<◌, ◌^◌};
    ghost use Rattle.jlist_builder.specs.Spaces.{scaled_space};

    ghost view = { λ s. scaled_space s.words s.z };

    ghost invariant = { λ s. s.z < 2 ^ 23 };
}

impl Unscaled {
    /// Keeps what a Japanese metric has between two classes, with a size in scaled points.
    #[inline(always)]
    pub(crate) fn new(words: Words, z: u32) -> Unscaled
        requires { z < 2 ^ 23 }
        ensures { result ≡ scaled_space words z }
    {
        Unscaled { words, z }
    }

    /// Returns the same space.
    #[inline(always)]
    pub(crate) fn same_copy(&self) -> Unscaled
        ensures { result ≡ self.now }
    {
        Unscaled {
            words: self.words,
            z: self.z,
        }
    }

    /// Returns how many items it makes.
    #[inline(always)]
    pub(crate) fn count(&self) -> usize
        ensures count { result ≡ length (space_items self.now) }
        ensures few { result ≤ 1 }
    {
        match self.words {
            Words::Nothing => 0,
            Words::Glue(_, _, _) => 1,
            Words::Kern(_) => 1,
        }
    }

    /// Returns the space at its size.
    #[inline(always)]
    pub(crate) fn scaled(&self) -> Space
        ensures { result ≡ self.now }
    {
        scaled_space(self.words, self.z)
    }
}

/// Returns what a Japanese metric has between two classes, at a size in scaled points.
#[inline(always)]
pub(crate) fn scaled_space(words: Words, z: u32) -> Space
    requires { z < 2 ^ 23 }
    ensures { result ≡ scaled_space words z }
{
    match words {
        Words::Nothing => Space::Nothing,
        Words::Glue(width, stretch, shrink) => Space::Glue(scaled_glue(width, stretch, shrink, z)),
        Words::Kern(width) => Space::Kern(Sp(scale(width, z))),
    }
}
