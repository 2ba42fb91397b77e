//! Laws of the glyphs in open lists and in their boxes.

ghost use Rattle.std.specs.Prelude.{◌≡◌, ℕ, List, Option, IfSome, Ok};
ghost use Rattle.ts_geometry.specs.declared.direction.Dir.{Dir};
ghost use Rattle.jis_codes.specs.Kuten.{Kuten, IsKuten};
ghost use Rattle.jis_codes.specs.declared.Char.{Char};
ghost use Rattle.box_tree.specs.Trees.{BoxTree};
ghost use Rattle.env_groups.specs.Environments.{Nest};
ghost use Rattle.font_store.specs.declared.fonts.Font.{Font};
ghost use Rattle.font_store.specs.Store.{BeginWith};
ghost use Rattle.font_store.specs.Measures.{AreWhole};
ghost use Rattle.jlist_builder.specs.Entries.{Entry};
ghost use Rattle.kanjiskip_adjust.specs.EndCodes.{Codes};
ghost use Rattle.open_lists.specs.declared.plan.BoxPlan.{BoxPlan};
ghost use Rattle.open_lists.specs.declared.plan.EndedBox.{EndedBox};
ghost use Rattle.open_lists.specs.Characters.{kanji_entry, roman_entry, entry_of};
ghost use Rattle.open_lists.specs.Glyphs.{IsBoxOf, IsEntryOf, AreOf, IsCharacter};
ghost use Rattle.open_lists.specs.Lists.{OpenLists as Lists, start, put, marked, hbox_begun, hbox_ended, around};

use font_store::cells_have_their_measures;
use kanjiskip_adjust::laws::finished_glyphs_come_from_entries;
use packaging::laws::a_packed_list_is_its_node;

/// The entry of a character is one of the fonts: it has the number, the metric and the size of the
/// one that is selected.
#[tactic(auto, using(crate::proofs::Glyphs::kanji_of, crate::proofs::Glyphs::roman_of, crate::proofs::Glyphs::char_of))]
pub fn entries_are_of_fonts()
    ensures kanji { (fonts : List Font) (nest : Nest) (dir : Dir) (cell : Kuten) → IsKuten cell
        → IfSome (kanji_entry fonts nest dir cell) (IsEntryOf fonts) }
    ensures roman { (fonts : List Font) (nest : Nest) (dir : Dir) (code : ℕ)
        → IfSome (roman_entry fonts nest dir code) (IsEntryOf fonts) }
    ensures char { (fonts : List Font) (nest : Nest) (dir : Dir) (c : Char) → IsCharacter c
        → IfSome (entry_of fonts nest dir c) (IsEntryOf fonts) }
{}

/// What open lists become keeps their entries of the fonts, also where fonts come after them.
#[tactic(auto, using(crate::proofs::Glyphs::start_of, crate::proofs::Glyphs::put_of, crate::proofs::Glyphs::marked_of, crate::proofs::Glyphs::begun_of, crate::proofs::Glyphs::around_of, crate::proofs::Glyphs::grown_of))]
pub fn glyphs_stay_of_fonts()
    ensures start { (fonts : List Font) → AreOf fonts start }
    ensures put { (fonts : List Font) (entry : Dir → Option Entry) (lists more : Lists)
        → AreOf fonts lists → ((dir : Dir) → IfSome (entry dir) (IsEntryOf fonts))
        → put entry lists ≡ Ok more → AreOf fonts more }
    ensures marked { (fonts : List Font) (x : Entry) (lists : Lists)
        → AreOf fonts lists → IsEntryOf fonts x → AreOf fonts (marked x lists) }
    ensures begun { (fonts : List Font) (plan : BoxPlan) (lists more : Lists)
        → AreOf fonts lists → hbox_begun plan lists ≡ Ok more → AreOf fonts more }
    ensures ended { (fonts : List Font) (lists : Lists)
        → AreOf fonts lists → AreOf fonts (around lists) }
    ensures grown { (fonts all : List Font) (lists : Lists)
        → AreOf fonts lists → BeginWith all fonts → AreOf all lists }
{}

/// Where the fonts are whole, the box of a list of their entries is one of the fonts: each glyph has
/// the measures that the metric of its font gives. It stays so where fonts come after them.
pub fn boxes_are_of_fonts()
    ensures ended { (fonts : List Font) (codes : Codes) (lists : Lists) (ended : EndedBox)
        → AreWhole fonts → AreOf fonts lists → hbox_ended codes lists ≡ Ok ended
        → IsBoxOf fonts ended.node }
    ensures grown { (fonts all : List Font) (tree : BoxTree)
        → IsBoxOf fonts tree → BeginWith all fonts → IsBoxOf all tree }
{
    cells_have_their_measures();
    finished_glyphs_come_from_entries();
    a_packed_list_is_its_node();
}
