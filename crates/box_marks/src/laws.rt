//! Laws of what boxes mark, over all trees.

ghost use Rattle.box_marks.specs.Laws.{FewArePlaced, PlacedFontsAreBelow, PlacedWidthsAreGiven, PagesBeginInTheCorner};

/// A box marks no more glyphs and rules than it weighs.
#[tactic(auto, using(crate::proofs::Placing::few_are_placed))]
pub fn few_are_placed()
    ensures { FewArePlaced }
{}

/// Where each font of a box is among the first so many, so is each that is marked; and where each
/// glyph has the width that its font and its code are given, so has each that is marked.
#[tactic(auto, using(crate::proofs::Placing::placed_fonts_are_below, crate::proofs::Placing::placed_widths_are_given))]
pub fn all_glyphs_are_marked()
    ensures fonts { PlacedFontsAreBelow }
    ensures widths { PlacedWidthsAreGiven }
{}

/// What a shipped box covers begins in the page's top left corner.
#[tactic(auto, using(crate::proofs::Placing::pages_begin_in_the_corner))]
pub fn pages_begin_in_the_corner()
    ensures { PagesBeginInTheCorner }
{}
