//! Laws of fonts.

ghost use Rattle.std.specs.Prelude.{◌≡◌, ℕ, List, [], ◌++◌, Option, Some, length, All, true};
ghost use Rattle.std.specs.Option.{option_map};
ghost use Rattle.ts_outside.specs.States.{Held};
ghost use Rattle.box_tree.specs.declared.item.FontNo.{FontNo};
ghost use Rattle.dvi_structure.specs.Structure.{is_sound_font};
ghost use Rattle.dvi_commands.specs.declared.font.FontDef.{FontDef};
ghost use Rattle.box_tree.specs.Trees.{BoxTree};
ghost use Rattle.box_marks.specs.Glyphs.{FontsAreBelow};
ghost use Rattle.dvi_writer.specs.Reading.{Asked, HasWidths};
ghost use Rattle.shipping.specs.Boxes.{BeginsWith};
ghost use Rattle.env_groups.specs.Environments.{start};
ghost use Rattle.font_store.specs.declared.fonts.Font.{Font};
ghost use Rattle.font_store.specs.Store.{font_at};
ghost use Rattle.font_store.specs.Widths.{widths};
ghost use Rattle.known_fonts.specs.Tables.{definitions};
ghost use Rattle.font_store.specs.Measures.{AreWhole, measures_by};
ghost use Rattle.open_lists.specs.Glyphs.{IsBoxOf};
ghost use Rattle.known_fonts.specs.Standing.{AreNumbered, AreDefined, AreDefinable, AreAsHeld, measures_held};
ghost use Rattle.known_fonts.specs.Shipped.{HasMeasuresHeld, file_widths};

use font_store::loaded_metrics_are_whole;

/// A store that grew has a list of definitions that begins with the one before. Where each font can
/// be defined, each definition is sound, and there is one for each number of a font.
#[tactic(auto, using(crate::proofs::Defining::grown_begins, crate::proofs::Defining::all_sound, crate::proofs::Defining::one_each))]
pub fn definitions_go_on()
    ensures grown { (fonts more : List Font)
        → BeginsWith (definitions (fonts ++ more)) (definitions fonts) }
    ensures sound { (fonts : List Font) → AreDefinable fonts
        → All (λ f. is_sound_font f ≡ true) (definitions fonts) }
    ensures each { (fonts : List Font) → length (definitions fonts) ≡ length fonts }
{}

/// At the start store and environment number fonts alike, and each font is whole and as the files
/// hold it.
#[tactic(auto, using(crate::proofs::Standing::none_held, crate::proofs::Standing::none_definable, crate::proofs::Shipped::none_whole))]
pub fn fonts_begin_so()
    ensures numbered { AreNumbered start [] }
    ensures definable { AreDefinable [] }
    ensures as_held { (held : List Held) → AreAsHeld held [] }
    ensures whole { AreWhole [] }
{}

/// The measures that a font's metric gives at its size are those that the metric of its name gives,
/// as the files hold it; and their widths are those with which a DVI file is read.
#[tactic(auto, using(crate::proofs::Standing::held_measures, crate::proofs::Standing::measured_widths))]
pub fn measures_are_as_held()
    ensures measures { (held : List Held) (fonts : List Font) (number : FontNo) (font : Font)
        (code : ℕ) → AreAsHeld held fonts → font_at fonts number ≡ Some font
        → measures_held held font.name font.size code ≡ measures_by font.metric font.size code }
    ensures widths { (held : List Held) (name : List ℕ) (size code : ℕ)
        → widths held name size code ≡ option_map (λ m. m.wd) (measures_held held name size code) }
{}

/// Fonts that are as the files hold them are whole: each ligature that a metric puts is a character
/// of the font.
pub fn fonts_as_held_are_whole()
    ensures { (held : List Held) (fonts : List Font) → AreAsHeld held fonts → AreWhole fonts }
{
    loaded_metrics_are_whole();
}

/// Each glyph of a box that is asked to be shipped with the definitions of its fonts has the
/// measures that the metric of the font gives at its size, as the files hold it; and so its width is
/// that with which a DVI file is read, and its font is among the definitions.
#[tactic(auto, using(crate::proofs::Shipped::measures_as_held, crate::proofs::Shipped::widths_as_held, crate::proofs::Shipped::held_below))]
pub fn shipped_glyphs_are_as_held()
    ensures measures { (held : List Held) (fonts : List Font) (a : Asked) → AreAsHeld held fonts
        → AreDefined a.fonts fonts → IsBoxOf fonts a.node → HasMeasuresHeld held a }
    ensures widths { (held : List Held) (a : Asked)
        → HasMeasuresHeld held a → HasWidths (file_widths held) a }
    ensures fonts { (held : List Held) (a : Asked)
        → HasMeasuresHeld held a → FontsAreBelow (length a.fonts) a.node }
{}

/// The table of the definitions of fonts has each font of a box whose glyphs are those of the fonts,
/// as a box has to be shipped.
#[tactic(auto, using(crate::proofs::Shipped::fonts_there))]
pub fn shipped_fonts_are_there()
    ensures { (fonts : List Font) (table : List FontDef) (tree : BoxTree)
        → AreDefined table fonts → IsBoxOf fonts tree → FontsAreBelow (length table) tree }
{}
