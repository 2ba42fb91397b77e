//! Boxes that are shared.

ghost use Rattle.std.specs.Prelude.{◌≡◌, ◌≤◌, ◌+◌, ⊤, Some, None, IfOk, IfErr, OnOk};
ghost use Rattle.ts_base.specs.Agreement.{Agrees};
ghost use Rattle.box_tree.specs.Weights.{weight, depth, weights, greatest_depth, most_weight, most_depth};
ghost use Rattle.box_tree.specs.Nodes.{tree, tree_items};
ghost use Rattle.box_tree.specs.Keeping.{Keeps};
ghost use Rattle.box_tree.specs.Making.{boxed, past_limits, box_cause, in_word, with_measure, with_side};

use crate::fault::BoxFault;
use crate::item::{Item, same_items};
use crate::node::{BoxNode, Side};
use shared::Shared;
use std::alloc::{AllocError, Global};
use std::marker::Model;
use ts_base::NoMemory;
use ts_geometry::{Measures, Sp};

/// The greatest weight of a box.
const MOST_WEIGHT: u64 = 2_000_000;

/// The greatest depth of a box.
const MOST_DEPTH: u32 = 200;

/// What is kept with a box: its weight, or 2^64 - 1 where that is greater, and its depth.
#[derive(Clone, Copy, Debug)]
pub(crate) struct Kept {
    weight: u64,
    depth: u32,
}

/// A box whose node may be shared. Contracts see its value tree, in which a shared node stands in
/// each place from which it is reached. It is within the limits: its weight is at most 2,000,000,
/// and its depth at most 200.
#[cycle(boxes)]
#[derive(Debug, Drop)]
pub struct SharedBox {
    node: Shared<BoxNode>,
    kept: Kept,
}

impl Model for SharedBox {
    ghost use Rattle.box_tree.specs.Trees.{BoxTree};
    ghost use Rattle.box_tree.specs.Codes.{coded_tree};

    ghost Value = { BoxTree };

    ghost coded = { coded_tree };

    ghost use Rattle.box_tree.specs.Weights.{weight};
    ghost use Rattle.box_tree.specs.Nodes.{tree};
    ghost use Rattle.box_tree.specs.Keeping.{IsKept};

    ghost view = { λ b. tree b.node };

    ghost invariant = { λ b. IsKept (tree b.node) b.kept };

    ghost size = { weight };

    ghost use Rattle.box_tree.specs.Falls.{node_falls};

    ghost size_decreases = { λ b h. node_falls b.node };
}

impl SharedBox {
    /// Returns the box of a node. Takes memory for one block.
    ///
    /// BoxTooLarge comes exactly where the weight passes 2,000,000, with the weight, or with
    /// 2^64 - 1 where it is greater; else BoxTooDeep exactly where the depth passes 200, with the
    /// depth. Where it is refused the node is dropped.
    pub fn new(alloc: Global, node: BoxNode) -> Result<SharedBox, BoxFault>
        ensures { Agrees (λ b. b) box_cause result (boxed (tree node)) }
    {
        let kept = kept_of(node.items.as_slice())?;
        let node = Shared::new(alloc, node)?;
        Ok(SharedBox { node, kept })
    }

    /// Returns its node.
    pub fn get(&self) -> &BoxNode
        ensures { self.now ≡ tree result.now }
    {
        self.node.get()
    }

    /// Returns its weight: 1 for the node, and the weights of its items, where a shared node counts
    /// as often as it is reached.
    pub fn weight(&self) -> u64
        ensures value { result ≡ weight self.now }
        ensures most { result ≤ most_weight }
    {
        self.kept.weight
    }

    /// Returns its depth: 1, and the greatest depth of a box in it.
    pub fn deepest(&self) -> u32
        ensures value { result ≡ depth self.now }
        ensures most { result ≤ most_depth }
    {
        self.kept.depth
    }

    /// Returns the same box, which shares its node. It takes no memory and is never refused.
    pub fn same_copy(&self) -> SharedBox
        ensures { result ≡ self.now }
    {
        SharedBox {
            node: self.node.same_copy(),
            kept: self.kept,
        }
    }

    /// Returns the same box but for one measure, in scaled points. It has a node of its own and
    /// shares the boxes in it. This box and the other copies of it stay.
    pub fn with_measure(&self, alloc: Global, side: Side, value: Sp) -> Result<SharedBox, NoMemory>
        ensures { IfOk result (λ b. b ≡ with_measure self.now side value) }
    {
        let BoxNode {
            kind,
            dir,
            size,
            set,
            items,
        } = self.get();
        let node = BoxNode {
            kind: *kind,
            dir: *dir,
            size: with_side(*size, side, value),
            set: *set,
            items: same_items(alloc, items.as_slice())?,
        };
        let node = Shared::new(alloc, node)?;
        Ok(SharedBox {
            node,
            kept: self.kept,
        })
    }
}

/// A `clone` that is always `Ok`, for a derive or a `Vec` that asks for it.
impl Clone for SharedBox {
    ghost is_clone = { λ b copy. copy ≡ b };

    ghost is_infallible = { λ _. ⊤ };

    fn clone(&self) -> Result<SharedBox, AllocError> {
        Ok(self.same_copy())
    }
}

fn with_side(size: Measures, side: Side, value: Sp) -> Measures
    ensures { result ≡ with_side size side value }
{
    match side {
        Side::Wd => Measures { wd: value, ..size },
        Side::Ht => Measures { ht: value, ..size },
        Side::Dp => Measures { dp: value, ..size },
    }
}

/// Returns the first limit that a node of these items passes: the weight, and then the depth; or
/// `None` where it is within both.
pub fn past_limits(items: &[Item]) -> Option<BoxFault>
    ensures { result ≡ past_limits (tree_items items.now) }
{
    kept_of(items).err()
}

/// Returns what is kept with a node of these items, or the first limit that it passes.
fn kept_of(items: &[Item]) -> Result<Kept, BoxFault>
    ensures ok { IfOk result (λ kept. Keeps (tree_items items.now) kept) }
    ensures within { OnOk result (past_limits (tree_items items.now) ≡ None) }
    ensures err { IfErr result (λ fault. past_limits (tree_items items.now) ≡ Some fault) }
{
    let totals = totals_of(items);
    if totals.weight > MOST_WEIGHT {
        return Err(BoxFault::BoxTooLarge(totals.weight));
    }
    if totals.depth > MOST_DEPTH {
        return Err(BoxFault::BoxTooDeep(totals.depth));
    }
    Ok(totals)
}

/// Returns the weight and the depth of a node of these items. Looks at each item once, and at no
/// node below.
fn totals_of(items: &[Item]) -> Kept
    ensures weight { result.weight ≡ in_word (1 + weights (tree_items items.now)) }
    ensures depth { result.depth ≡ 1 + greatest_depth (tree_items items.now) }
    ensures most { result.depth ≤ most_depth + 1 }
{
    let mut weight: u64 = 1;
    let mut greatest = 0;
    for item in items {
        weight = weight.saturating_add(item.weight());
        greatest = item.deepest().max(greatest);
    }
    Kept {
        weight,
        depth: greatest + 1,
    }
}
