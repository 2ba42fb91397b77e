//! The box of a list, once its measures are known.

ghost use Rattle.std.specs.Prelude.{◌≡◌, ◌+◌, ◌*◌, ◌^◌, IfOk};
ghost use Rattle.ts_base.specs.Agreement.{Agrees, with_fault};
ghost use Rattle.ts_geometry.specs.Numbers.{IsWithin};
ghost use Rattle.box_tree.specs.Nodes.{tree, tree_items};
ghost use Rattle.box_tree.specs.Making.{boxed};
ghost use Rattle.box_tree.specs.Sound.{AreSound};
ghost use Rattle.box_tree.specs.Weights.{weights};
ghost use Rattle.packaging.specs.Packing.{packed, pack_fault, pack_cause, excess_for, length_for, IsSoundSize, IsSoundIn};
ghost use Rattle.packaging.specs.Running.{long, measures_of, AreTotals};

use crate::fault::PackFault;
use crate::long::{Long, LongMeasures};
use crate::totals::Totals;
use box_tree::{BoxKind, BoxNode, BoxSize, Items, SharedBox, past_limits};
use std::alloc::Global;
use ts_geometry::Dir;

/// What a list is packed to: its kind, its direction, its measures, and how much longer it becomes
/// than it is by nature.
#[derive(Clone, Copy, Debug)]
pub(crate) struct Target {
    pub(crate) kind: BoxKind,
    pub(crate) dir: Dir,
    pub(crate) size: LongMeasures,
    pub(crate) excess: Long,
}

/// Returns the box of a list with these totals.
pub(crate) fn pack(
    alloc: Global,
    items: Items,
    totals: &Totals,
    target: Target,
) -> Result<SharedBox, PackFault>
    requires sound { AreSound target.dir (tree_items items) }
    requires totals { AreTotals target.kind (tree_items items) totals.now }
    requires near { IsWithin (weights (tree_items items) * 2 ^ 32 + 2 ^ 32) target.excess.0 }
    ensures value { Agrees (λ b. b) pack_cause result
        (packed target.kind target.dir (measures_of target.size) target.excess.0
        (tree_items items)) }
    ensures sound { IfOk result (λ b. IsSoundIn target.dir b) }
{
    if !target.size.are_dimens() {
        return Err(PackFault::DimenRange);
    }
    if let Some(fault) = past_limits(items.as_slice()) {
        return Err(PackFault::from(fault));
    }
    let node = BoxNode {
        kind: target.kind,
        dir: target.dir,
        size: target.size.short(),
        set: totals.set_glue(target.excess.short()),
        items,
    };
    boxed(alloc, node)
}

fn boxed(alloc: Global, node: BoxNode) -> Result<SharedBox, PackFault>
    ensures { Agrees (λ b. b) pack_cause result (with_fault pack_fault (boxed (tree node))) }
{
    Ok(SharedBox::new(alloc, node)?)
}

/// Returns the length to which a list of this natural length is packed.
pub(crate) fn length_for(size: BoxSize, natural: Long) -> Long
    requires sound { IsSoundSize size }
    requires near { IsWithin (2 ^ 99) natural.0 }
    ensures value { result ≡ long (length_for size natural.0) }
    ensures near { IsWithin (2 ^ 100) result.0 }
{
    match size {
        BoxSize::Natural => natural,
        BoxSize::To(length) => Long::new(length),
        BoxSize::Spread(more) => natural.plus(more),
    }
}

/// Returns how much longer a list of this natural length becomes.
pub(crate) fn excess_for(size: BoxSize, natural: Long) -> Long
    requires sound { IsSoundSize size }
    requires near { IsWithin (2 ^ 99) natural.0 }
    ensures { result ≡ long (excess_for size natural.0) }
{
    Long(length_for(size, natural).0 - natural.0)
}
