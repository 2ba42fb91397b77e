//! Laws of packing, over all lists.

ghost use Rattle.packaging.specs.Laws.{PackedIsItsNode, ListsAreFilled};

/// A list that is packed has become the node of these measures, this set glue and these items, and
/// its measures are dimensions.
#[tactic(auto, using(crate::proofs::Soundness::packed_is_its_node))]
pub fn a_packed_list_is_its_node()
    ensures { PackedIsItsNode }
{}

/// Where the set glue takes a whole excess of at most 10^9 scaled points, the offset at the end of
/// a list is its natural length and the excess: the length to which it is packed.
#[tactic(auto, using(crate::proofs::Filled::lists_are_filled))]
pub fn set_glue_fills_the_box()
    ensures { ListsAreFilled }
{}
