//! Laws of what is given, over all boxes.

ghost use Rattle.dvi_writer.specs.Laws.{PagesAreWhole};

/// The pages of the boxes for which a writer stands are the whole pages of the bytes that it gave,
/// for widths that give each glyph of the boxes its item's.
pub fn pages_are_whole()
    ensures { PagesAreWhole }
{}
