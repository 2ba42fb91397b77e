//! The end of a paragraph.

ghost use Rattle.std.specs.Prelude.{◌≡◌, IfOk};
ghost use Rattle.line_break.specs.Lines.{is_glue};
ghost use Rattle.line_break.specs.Paragraphs.{ended, without_last_glue, ends_with_glue};

use crate::items::is_glue;
use box_tree::{GlueFrom, Item, Items};
use std::alloc::Global;
use ts_base::NoMemory;
use ts_geometry::Glue;

/// Returns the items of a paragraph with its end: the last item is removed where it is glue of any
/// origin, and a penalty of 10000, the last glue, and a penalty of -10000 are appended (The
/// TeXbook, chapter 14; TeX: The Program, section 816). Where it is refused the items are dropped.
pub fn end_paragraph(_alloc: Global, items: Items, fill: Glue) -> Result<Items, NoMemory>
    ensures { IfOk result (λ all. all ≡ ended items fill) }
{
    let mut items = without_last_glue(items);
    items.push(Item::Penalty {
        value: 10_000,
        auto: false,
    })?;
    items.push(Item::Glue {
        glue: fill,
        from: GlueFrom::Given,
    })?;
    items.push(Item::Penalty {
        value: -10_000,
        auto: false,
    })?;
    Ok(items)
}

fn without_last_glue(mut items: Items) -> Items
    ensures { result ≡ without_last_glue items }
{
    if ends_with_glue(items.as_slice()) {
        items.pop();
    }
    items
}

fn ends_with_glue(items: &[Item]) -> bool
    ensures { result ≡ ends_with_glue items.now }
{
    !items.is_empty() && is_glue(&items[items.len() - 1])
}
