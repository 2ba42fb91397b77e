//! Laws of metric lists, over all entries.

ghost use Rattle.jlist_builder.specs.Glyphs.{GlyphsComeFromEntries};
ghost use Rattle.jlist_builder.specs.Sound.{MetricListsAreSound};

use box_tree::laws::lists_of_sound_items_are_sound;
use metric_words::fix_words_stay_near;

/// The metric list of sound entries is sound.
pub fn metric_lists_are_sound()
    ensures { MetricListsAreSound }
{
    fix_words_stay_near();
    tfm_load::a_metric_stays_near();
    jfm_load::a_metric_stays_near();
    lists_of_sound_items_are_sound();
}

/// Each item of a metric list is an other item of the entries, a space, a penalty, or a glyph of one
/// of their characters: in its font, of its code or that of a ligature which it makes, with the
/// measures that the metric gives at its size.
#[tactic(auto, using(crate::proofs::Coming::glyphs_come))]
pub fn glyphs_come_from_entries()
    ensures { GlyphsComeFromEntries }
{}
