//! Laws of value trees, sound boxes and their places, over all trees.

ghost use Rattle.box_tree.specs.Laws.{NodesComeBack, TreesComeBack, ItemsComeBack, ListsComeBack, TreesAreTested, ItemsAreTested, MeasuresKeepSound, MeasuresKeepWeight, MeasuresKeepDepth, EachIsSound, JoinedAreSound, ItemsLeadNear, ItemPartsAreNear, OffsetsAreNear, ExtentsRun, PartsRun, RunningExtentsAreNear, RunningPartsAreNear, ListsWeigh, SoundPlacesAreNear};

/// A tree and the node that it stands for give each other back, and so do the items of both.
#[tactic(auto, using(crate::proofs::Unpacked::nodes_come_back, crate::proofs::Unpacked::trees_come_back, crate::proofs::Unpacked::items_come_back, crate::proofs::Unpacked::lists_come_back))]
pub fn trees_and_nodes_give_each_other_back()
    ensures nodes { NodesComeBack }
    ensures trees { TreesComeBack }
    ensures items { ItemsComeBack }
    ensures lists { ListsComeBack }
{}

/// The test for the same tree passes exactly where the trees are the same, and so does that for
/// items.
#[tactic(auto, using(crate::proofs::Equal::trees_are_tested, crate::proofs::Equal::items_are_tested))]
pub fn the_same_trees_are_told()
    ensures trees { TreesAreTested }
    ensures items { ItemsAreTested }
{}

/// One other measure, of less than 16384pt, leaves a sound box sound; any leaves its weight and its
/// depth.
#[tactic(auto, using(crate::proofs::Measured::measures_keep_sound, crate::proofs::Measured::measures_keep_weight, crate::proofs::Measured::measures_keep_depth))]
pub fn a_measure_keeps_a_box_sound()
    ensures sound { MeasuresKeepSound }
    ensures weight { MeasuresKeepWeight }
    ensures depth { MeasuresKeepDepth }
{}

/// Items are sound where each of them is, and so are two lists joined where both are.
#[tactic(auto, using(crate::proofs::Lists::each_is_sound, crate::proofs::Lists::joined_are_sound))]
pub fn lists_of_sound_items_are_sound()
    ensures each { EachIsSound }
    ensures joined { JoinedAreSound }
{}

/// One more item adds its extent, and its part of the stretch or shrink that is set.
#[tactic(auto, using(crate::proofs::Lists::extents_run, crate::proofs::Lists::parts_run))]
pub fn sums_run()
    ensures extents { ExtentsRun }
    ensures parts { PartsRun }
{}

/// A sound item adds at most 2^32 to a sum, either way, and an offset is at most 10^9 from the
/// natural sum before it. A list of at most 2,000,000 items has no running sum past 2^53.
pub fn sums_are_near()
    ensures extent { ItemsLeadNear }
    ensures part { ItemPartsAreNear }
    ensures offset { OffsetsAreNear }
    ensures extents { RunningExtentsAreNear }
    ensures parts { RunningPartsAreNear }
{}

/// A list has no more items than its weight.
#[tactic(auto, using(crate::proofs::Weighed::lists_weigh))]
pub fn each_item_weighs_something()
    ensures { ListsWeigh }
{}

/// Every place of a sound box within the limits is within 2^60 of 0 where the box is set from a
/// point within 2^59 of 0.
#[tactic(auto, using(crate::proofs::Placed::sound_places_are_near))]
pub fn sound_places_are_near()
    ensures { SoundPlacesAreNear }
{}
