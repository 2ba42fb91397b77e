//! The items of a list.

ghost use Rattle.std.specs.Prelude.{◌≡◌, ◌≤◌, ⊤, IfOk};
ghost use Rattle.box_tree.specs.Nodes.{tree_item};
ghost use Rattle.box_tree.specs.Weights.{item_weight, item_depth, most_weight, most_depth};

use crate::shared_box::SharedBox;
use jis_codes::Cell;
use std::alloc::{AllocError, Global};
use ts_base::{List, NoMemory};
use ts_geometry::{Glue, Measures, Sp};

/// The number of a font, counted from 0 in the order in which fonts were added.
#[derive(Clone, Copy, Debug, PartialEq, Eq, Hash)]
pub struct FontNo(pub u8);

/// Where glue comes from: a command, a metric file, or the space between characters.
#[derive(Clone, Copy, Debug, PartialEq, Eq, Hash)]
pub enum GlueFrom {
    Given,
    Metric,
    Skip,
}

/// Where a kern comes from: a command, or a metric file.
#[derive(Clone, Copy, Debug, PartialEq, Eq, Hash)]
pub enum KernFrom {
    Given,
    Metric,
}

/// An item of a list (The TeXbook, chapters 12 and 14). Lengths are in scaled points.
#[cycle(boxes)]
#[derive(Debug, Drop)]
pub enum Item {
    /// A European character, moved across by its shift, with the first and the last letter of its
    /// source.
    Glyph {
        font: FontNo,
        code: u8,
        size: Measures,
        shift: Sp,
        first: u8,
        last: u8,
    },
    /// A Japanese character with its kind, from 16 to 18.
    Kanji {
        font: FontNo,
        cell: Cell,
        size: Measures,
        kind: u8,
    },
    /// A box of the list's own direction, moved by its shift: across in a horizontal list, along in
    /// a vertical one.
    Box {
        node: SharedBox,
        shift: Sp,
    },
    /// A box of another direction, moved by its shift, with the measures that the list sees.
    Crossed {
        node: SharedBox,
        shift: Sp,
        seen: Measures,
    },
    /// A rule. A measure that is absent runs to that of the box.
    Rule {
        wd: Option<Sp>,
        ht: Option<Sp>,
        dp: Option<Sp>,
    },
    Glue {
        glue: Glue,
        from: GlueFrom,
    },
    Kern {
        width: Sp,
        from: KernFrom,
    },
    /// A penalty. The automatic ones come with characters, the others from a command.
    Penalty {
        value: i64,
        auto: bool,
    },
}

impl Item {
    /// Returns its weight: that of the node of a box, and else 1.
    pub fn weight(&self) -> u64
        ensures value { result ≡ item_weight (tree_item self.now) }
        ensures most { result ≤ most_weight }
    {
        match self {
            Item::Box { node, .. } | Item::Crossed { node, .. } => node.weight(),
            _ => 1,
        }
    }

    /// Returns the depth of the node of a box, and else 0.
    pub fn deepest(&self) -> u32
        ensures value { result ≡ item_depth (tree_item self.now) }
        ensures most { result ≤ most_depth }
    {
        match self {
            Item::Box { node, .. } | Item::Crossed { node, .. } => node.deepest(),
            _ => 0,
        }
    }

    /// Returns the same item, which shares the node of a box. It takes no memory and is never
    /// refused.
    pub fn same_copy(&self) -> Item
        ensures { result ≡ self.now }
    {
        match self {
            Item::Box { node, shift } => Item::Box {
                node: node.same_copy(),
                shift: *shift,
            },
            Item::Crossed { node, shift, seen } => Item::Crossed {
                node: node.same_copy(),
                shift: *shift,
                seen: *seen,
            },
            Item::Glyph {
                font,
                code,
                size,
                shift,
                first,
                last,
            } => Item::Glyph {
                font: *font,
                code: *code,
                size: *size,
                shift: *shift,
                first: *first,
                last: *last,
            },
            Item::Kanji {
                font,
                cell,
                size,
                kind,
            } => Item::Kanji {
                font: *font,
                cell: *cell,
                size: *size,
                kind: *kind,
            },
            Item::Rule { wd, ht, dp } => Item::Rule {
                wd: *wd,
                ht: *ht,
                dp: *dp,
            },
            Item::Glue { glue, from } => Item::Glue {
                glue: *glue,
                from: *from,
            },
            Item::Kern { width, from } => Item::Kern {
                width: *width,
                from: *from,
            },
            Item::Penalty { value, auto } => Item::Penalty {
                value: *value,
                auto: *auto,
            },
        }
    }
}

/// A `clone` that is always `Ok`, for a derive or a `Vec` that asks for it.
impl Clone for Item {
    ghost is_clone = { λ x copy. copy ≡ x };

    ghost is_infallible = { λ _. ⊤ };

    fn clone(&self) -> Result<Item, AllocError> {
        Ok(self.same_copy())
    }
}

/// A list of items.
pub type Items = List<Item>;

/// Returns a list of the same items, which shares the nodes of their boxes.
pub fn same_items(alloc: Global, items: &[Item]) -> Result<Items, NoMemory>
    ensures { IfOk result (λ copies. copies ≡ items.now) }
{
    let mut copies = Items::new(alloc);
    copies.reserve(items.len())?;
    for item in items {
        copies.push(item.same_copy())?;
    }
    Ok(copies)
}
