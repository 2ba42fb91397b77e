//! Interline glue.

ghost use Rattle.std.specs.Prelude.{◌≡◌, ℤ, ◌-ℤ◌, IfOk, IfSome};
ghost use Rattle.ts_geometry.specs.declared.direction.Dir.{Dir};
ghost use Rattle.ts_geometry.specs.Directions.{sp};
ghost use Rattle.box_tree.specs.Bounds.{IsDimen, IsDimenIfThere};
ghost use Rattle.box_tree.specs.Nodes.{tree_item, tree_items};
ghost use Rattle.box_tree.specs.Places.{item_height};
ghost use Rattle.box_tree.specs.Sound.{IsSoundGlue, IsSoundItem, AreSound};
ghost use Rattle.vert_lists.specs.Interline.{IsBox, IsSoundShape, space_left, interline, glue_before, spaced};

use box_tree::{GlueFrom, Item, Items};
use std::alloc::Global;
use ts_base::NoMemory;
use ts_geometry::{Glue, Sp};

/// How lines are spaced (The TeXbook, chapter 12): `\baselineskip`, `\lineskip`, and
/// `\lineskiplimit` in scaled points.
#[derive(Clone, Copy, Debug, PartialEq, Eq, Hash)]
pub struct LineShape {
    pub baseline: Glue,
    pub line_skip: Glue,
    pub limit: Sp,
}

/// At this depth of the box before and below it there is no interline glue: -1000pt.
const IGNORED_DEPTH: i64 = -65_536_000;

/// Returns the items that a box appends to a vertical list: the interline glue, if any, and the box
/// (The TeXbook, chapter 12; TeX: The Program, section 679). `last` is the depth of the box before
/// in scaled points, and `None` at the start of the list and after a rule; then there is no
/// interline glue, and neither is there where that depth is -65536000 or less. Else the glue is the
/// baseline skip less the depth before and the height of the box, or the line skip where that width
/// is below the limit. Where it is refused the item is dropped.
pub fn spaced(
    alloc: Global,
    item: Item,
    last: Option<Sp>,
    shape: &LineShape,
) -> Result<Items, NoMemory>
    requires is_box { IsBox (tree_item item) }
    requires sound { (dir : Dir) × IsSoundItem dir (tree_item item) }
    requires last_sound { IsDimenIfThere last }
    requires shape_sound { IsSoundShape shape.now }
    ensures value { IfOk result (λ items. items ≡ spaced item last shape.now) }
    ensures sound { IfOk result (λ items. (dir : Dir) → IsSoundItem dir (tree_item item)
        → AreSound dir (tree_items items)) }
{
    let mut items = Items::new(alloc);
    if let Some(glue) = glue_before(shape, last, height(&item)) {
        items.reserve(2)?;
        items.push(Item::Glue {
            glue,
            from: GlueFrom::Given,
        })?;
    }
    items.push(item)?;
    Ok(items)
}

/// Returns the interline glue before a box of this height.
fn glue_before(shape: &LineShape, last: Option<Sp>, height: Sp) -> Option<Glue>
    requires shape_sound { IsSoundShape shape.now }
    requires last_sound { IsDimenIfThere last }
    requires height_sound { IsDimen height }
    ensures value { result ≡ glue_before shape.now last height.0 }
    ensures sound { IfSome result (λ glue. IsSoundGlue glue) }
{
    match last {
        Some(depth) if depth.0 > IGNORED_DEPTH => Some(interline(shape, depth, height)),
        _ => None,
    }
}

fn interline(shape: &LineShape, depth: Sp, height: Sp) -> Glue
    requires shape_sound { IsSoundShape shape.now }
    requires depth_sound { IsDimen depth }
    requires height_sound { IsDimen height }
    ensures value { result ≡ interline shape.now depth.0 height.0 }
    ensures sound { IsSoundGlue result }
{
    let width = space_left(shape, depth, height);
    if width.0 < shape.limit.0 {
        return shape.line_skip;
    }
    Glue {
        width,
        ..shape.baseline
    }
}

fn space_left(shape: &LineShape, depth: Sp, height: Sp) -> Sp
    requires shape_sound { IsSoundShape shape.now }
    requires depth_sound { IsDimen depth }
    requires height_sound { IsDimen height }
    ensures { result ≡ sp (space_left shape.now depth.0 height.0) }
{
    shape.baseline.width.minus(depth).minus(height)
}

fn height(item: &Item) -> Sp
    requires is_box { IsBox (tree_item item.now) }
    requires sound { (dir : Dir) × IsSoundItem dir (tree_item item.now) }
    ensures value { result ≡ item_height (tree_item item.now) }
    ensures sound { IsDimen result }
{
    match item {
        Item::Box { node, .. } => node.get().size.ht,
        Item::Crossed { seen, .. } => seen.ht,
        _ => Sp(0),
    }
}
