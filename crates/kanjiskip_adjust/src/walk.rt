//! A walk over the items of a list.

ghost use Rattle.std.specs.Prelude.{◌≡◌, Some, None, false, if◌then◌else◌};
ghost use Rattle.kanjiskip_adjust.specs.Walks.{start, walk_after};

use crate::look::{End, Look};

/// What a walk knows of what it has passed.
#[derive(Clone, Copy, Debug, PartialEq, Eq)]
pub struct Walk {
    /// The end that faces what comes next.
    pub left: Option<End>,
    /// Whether the neighbour on the left is Japanese.
    pub is_after_japanese: bool,
    /// Whether the gap has its metric space.
    pub is_spaced: bool,
    /// How many items stand before the gap.
    pub gap: usize,
    /// How many items stand before the gap that may have the widow penalty.
    pub widow: Option<usize>,
}

impl Walk {
    /// Returns the walk at the front of a list.
    #[inline(always)]
    pub(crate) fn start() -> Walk
        ensures { result ≡ start }
    {
        Walk {
            left: None,
            is_after_japanese: false,
            is_spaced: false,
            gap: 0,
            widow: None,
        }
    }

    // The gap that has the widow penalty if this Japanese character is the last one.
    #[inline(always)]
    fn widow_at(&self, is_text: bool) -> Option<usize>
        ensures { result ≡ (if is_text then (if self.now.is_after_japanese
            then Some self.now.gap else None) else self.now.widow) }
    {
        if !is_text {
            self.widow
        } else if self.is_after_japanese {
            Some(self.gap)
        } else {
            None
        }
    }

    // Begins a gap after an item, up to which so many stand.
    #[inline(always)]
    fn begin_gap(&mut self, left: Option<End>, is_after_japanese: bool, count: usize)
        ensures { self.new ≡ record {
          left = left;
          is_after_japanese = is_after_japanese;
          is_spaced = false;
          gap = count;
          widow = self.old.widow;
        } }
    {
        self.left = left;
        self.is_after_japanese = is_after_japanese;
        self.is_spaced = false;
        self.gap = count;
    }

    /// Goes past an item, up to which so many stand.
    #[inline(always)]
    pub(crate) fn go_past(&mut self, look: &Look, count: usize)
        ensures { self.new ≡ walk_after self.old look.now count }
    {
        match look {
            Look::Letter(_, last) => {
                self.begin_gap(Some(End::European(*last)), false, count);
                self.widow = None;
            }
            Look::Kanji(cell, is_text) => {
                self.widow = self.widow_at(*is_text);
                self.begin_gap(Some(End::Japanese(*cell)), true, count);
            }
            Look::Gap => {}
            Look::Skip => {}
            Look::Space => self.is_spaced = true,
            Look::Penalty => {
                self.is_spaced = false;
                self.gap = count;
            }
            Look::Blank => self.begin_gap(None, false, count),
            Look::Solid => {
                self.begin_gap(None, false, count);
                self.widow = None;
            }
        }
    }
}
