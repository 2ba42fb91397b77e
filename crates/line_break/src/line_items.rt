//! The items of the lines of a paragraph.

ghost use Rattle.std.specs.Prelude.{◌≡◌, ◌<◌, ◌≤◌, length, Option, IfOk, IfSome};
ghost use Rattle.std.specs.List.{All, slice_range};
ghost use Rattle.line_break.specs.Lines.{skip, with_skips, without_dropped, kept_to};
ghost use Rattle.line_break.specs.Paragraphs.{lines_at};

use crate::items::is_dropped;
use crate::shape::{BreakAt, ParaShape};
use box_tree::{GlueFrom, Item, Items};
use std::alloc::Global;
use ts_base::NoMemory;
use ts_geometry::Glue;

/// Returns the items of each line of a paragraph, where the lines end at these places: the left
/// skip, what is kept of the items up to the place, and the right skip. The item at the place
/// itself is in no line. After each break glue, penalties and kerns of a command are dropped, up to
/// the next break (The TeXbook, chapter 14).
pub fn lines(
    alloc: Global,
    items: &[Item],
    at: &[BreakAt],
    shape: &ParaShape,
) -> Result<Vec<Items>, NoMemory>
    requires { All (λ b. b.0 < length items.now) at.now }
    ensures { IfOk result (λ lines. lines.items ≡ lines_at items.now shape.now at.now) }
{
    let mut lines = Vec::new(alloc);
    let mut start = None;
    for end in at {
        let to = end.0 as usize;
        lines.push(line(alloc, kept_to(items, start, to), shape)?)?;
        start = Some(to);
    }
    Ok(lines)
}

/// Returns what is kept of a line that ends at this place.
fn kept_to(items: &[Item], start: Option<usize>, to: usize) -> &[Item]
    requires { to < length items.now }
    ensures { result.now ≡ kept_to items.now start to }
{
    match start {
        None => &items[..to],
        Some(from) => without_dropped(between(items, from, to)),
    }
}

/// Returns the items from one place up to another, none where that is not after it.
fn between(items: &[Item], from: usize, to: usize) -> &[Item]
    requires { to < length items.now }
    ensures { result.now ≡ slice_range items.now from to }
{
    if from < to {
        &items[from..to]
    } else {
        &items[to..to]
    }
}

/// Returns the items from the first one on that isn't dropped.
fn without_dropped(items: &[Item]) -> &[Item]
    ensures { result.now ≡ without_dropped items.now }
{
    let mut first = 0;
    while first < items.len() && is_dropped(&items[first]) {
        first += 1;
    }
    &items[first..]
}

fn line(alloc: Global, kept: &[Item], shape: &ParaShape) -> Result<Items, NoMemory>
    ensures { IfOk result (λ line. line ≡ with_skips shape.now kept.now) }
{
    let mut line = Items::new(alloc);
    line.push(skip(shape.left))?;
    line.reserve(kept.len())?;
    for item in kept {
        line.push(item.same_copy())?;
    }
    line.push(skip(shape.right))?;
    Ok(line)
}

pub(crate) fn skip(glue: Glue) -> Item
    ensures { result ≡ skip glue }
{
    Item::Glue {
        glue,
        from: GlueFrom::Given,
    }
}
