//! Boxes in lists of any direction.

ghost use Rattle.std.specs.Prelude.{◌≡◌, IfOk};
ghost use Rattle.box_tree.specs.Bounds.{IsDimen, HasDimens};
ghost use Rattle.box_tree.specs.Nodes.{tree_item};
ghost use Rattle.box_tree.specs.Sound.{IsSound, IsSoundItem};
ghost use Rattle.box_tree.specs.Trees.{size_of, dir_of};
ghost use Rattle.ts_geometry.specs.Crossings.{seen};
ghost use Rattle.packaging.specs.Crossing.{same_dir, crossing};

use crate::fault::PackFault;
use crate::long::LongMeasures;
use box_tree::{Item, SharedBox};
use ts_geometry::{Dir, Sp, seen};

/// Returns a box as an item of a list of this direction, moved by the shift in scaled points: a
/// `Box` where the directions agree, and else a `Crossed` with the measures that the list sees. It
/// takes no memory.
///
/// DimenRange is its only fault, and comes exactly where the directions differ and a measure that
/// is seen isn't within 2^30 - 1 scaled points of 0. Where it is refused the box is dropped.
pub fn cross(node: SharedBox, dir: Dir, shift: Sp) -> Result<Item, PackFault>
    requires sound { IsSound node }
    requires shift_sound { IsDimen shift }
    ensures value { result ≡ crossing node dir shift }
    ensures sound { IfOk result (λ item. IsSoundItem dir (tree_item item)) }
{
    let own = node.get().dir;
    if same_dir(own, dir) {
        return Ok(Item::Box { node, shift });
    }
    let seen = seen(node.get().size, own, dir);
    if !LongMeasures::new(seen).are_dimens() {
        return Err(PackFault::DimenRange);
    }
    Ok(Item::Crossed { node, shift, seen })
}

fn same_dir(a: Dir, b: Dir) -> bool
    ensures { result ≡ same_dir a b }
{
    a == b
}
