//! What items are to the walk.

ghost use Rattle.std.specs.Prelude.{◌≡◌};
ghost use Rattle.kanjiskip_adjust.specs.Finished.{is_text};
ghost use Rattle.kanjiskip_adjust.specs.Walks.{look_of};

use box_tree::{GlueFrom, Item, KernFrom};
use jis_codes::Cell;

/// What a space beside it looks at.
#[derive(Clone, Copy, Debug, PartialEq, Eq)]
pub enum End {
    European(u8),
    Japanese(Cell),
}

/// What an item is.
#[derive(Clone, Copy, Debug, PartialEq, Eq)]
pub enum Look {
    /// A European character with the first and the last letter of its source.
    Letter(u8, u8),
    /// A Japanese character, which may be kanji or kana.
    Kanji(Cell, bool),
    /// The penalty of a gap.
    Gap,
    /// The metric space of a gap.
    Space,
    /// A skip.
    Skip,
    /// A penalty that came from a command.
    Penalty,
    /// Glue or a kern that came from a command.
    Blank,
    /// A box or a rule.
    Solid,
}

#[inline(always)]
fn is_text(kind: u8) -> bool
    ensures { result ≡ is_text kind }
{
    kind == 16 || kind == 17
}

/// Returns what an item is.
#[inline(always)]
pub(crate) fn look_of(item: &Item) -> Look
    ensures { result ≡ look_of item.now }
{
    match item {
        Item::Glyph { first, last, .. } => Look::Letter(*first, *last),
        Item::Kanji { cell, kind, .. } => Look::Kanji(*cell, is_text(*kind)),
        Item::Glue { from, .. } => match from {
            GlueFrom::Given => Look::Blank,
            GlueFrom::Metric => Look::Space,
            GlueFrom::Skip => Look::Skip,
        },
        Item::Kern { from, .. } => match from {
            KernFrom::Given => Look::Blank,
            KernFrom::Metric => Look::Space,
        },
        Item::Penalty { auto, .. } => { if *auto { Look::Gap } else { Look::Penalty } }
        Item::Box { .. } | Item::Crossed { .. } | Item::Rule { .. } => Look::Solid,
    }
}
