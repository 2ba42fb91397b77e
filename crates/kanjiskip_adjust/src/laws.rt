//! Laws of finished lists, over all entries.

ghost use Rattle.kanjiskip_adjust.specs.Laws.{FinishedIsAsSound, FinishedListsAreSound, FinishedGlyphsComeFromEntries};

use box_tree::laws::lists_of_sound_items_are_sound;
use jlist_builder::laws::{glyphs_come_from_entries, metric_lists_are_sound};

/// Where the skips are sound glue, the finished list is sound where the metric list is, and so
/// where the entries are.
pub fn finished_lists_are_sound()
    ensures list { FinishedIsAsSound }
    ensures entries { FinishedListsAreSound }
{
    metric_lists_are_sound();
    lists_of_sound_items_are_sound();
}

/// Each item of a finished list comes from the entries, as those of the metric list do: spaces and a
/// widow penalty are all that is put.
pub fn finished_glyphs_come_from_entries()
    ensures { FinishedGlyphsComeFromEntries }
{
    glyphs_come_from_entries();
}
