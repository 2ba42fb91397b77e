//! What takes the boxes that are shipped.

ghost use Rattle.std.specs.Prelude.{◌≡◌, ℕ, List, Bool, true, [], ◌∷◌, ◌++◌, length, All, OnOk, OnErr};
ghost use Rattle.ts_base.specs.Agreement.{Agrees, Counts};
ghost use Rattle.dvi_structure.specs.Structure.{is_sound_font};
ghost use Rattle.box_tree.specs.Sound.{IsSound};
ghost use Rattle.box_marks.specs.Glyphs.{FontsAreBelow};
ghost use Rattle.dvi_writer.specs.Reading.{Asked, asked_for};
ghost use Rattle.shipping.specs.Boxes.{BeginsWith, last_table, shipped};
ghost use Rattle.shipping.specs.Faults.{ship_cause, Breaks};

use crate::fault::ShipFault;
use box_tree::SharedBox;
use dvi_writer::FontTable;

/// Takes boxes, one after the other.
pub trait Shipper {
    /// What a shipper is about, which each type of shippers defines for itself.
    ghost Origin: { Type 0 };

    /// A shipper stands for the boxes that it took.
    ghost stands: { Self → List Asked → Type 0 };

    /// The faults so far, a number that never falls.
    ghost faults: { Self → ℕ };

    /// Whether a put failed, so that nothing more can be put.
    ghost broken: { Self → Bool };

    ghost origin: { Self → Origin };

    /// Takes a box with ten counts and the table of its fonts, which begins with the table of the
    /// box before.
    ///
    /// `PagesFull` comes exactly at the 65,536th box, else `JobTooLarge` exactly where the weights
    /// of the boxes would pass 20,000,000, else `PlaceRange` exactly where a coordinate of a glyph
    /// or of a rule passes 2^29 - 1 in absolute value, or the height or the width of a rule passes
    /// 2^30 - 1. `SinkFault` comes only where the count of faults rises. Refused, it stands for the
    /// boxes for which it stood.
    fn ship(
        &mut self,
        node: &SharedBox,
        counts: &[i32; 10],
        fonts: &FontTable,
    ) -> Result<(), ShipFault>
        requires sound { IsSound node.now }
        requires fonts_there { FontsAreBelow (length fonts.now) node.now }
        requires fonts_sound { All (λ f. is_sound_font f ≡ true) fonts.now }
        requires begins { (boxes : List Asked) × stands self.old boxes
            × BeginsWith fonts.now (last_table boxes) }
        ensures exact { (boxes : List Asked) → stands self.old boxes
            → Agrees (λ _. boxes ++ asked_for counts.now fonts.now node.now ∷ []) ship_cause
            result (shipped boxes (asked_for counts.now fonts.now node.now)) }
        ensures took { OnOk result ((boxes : List Asked) → stands self.old boxes
            → stands self.new (boxes ++ asked_for counts.now fonts.now node.now ∷ [])) }
        ensures kept { OnErr result ((boxes : List Asked) → stands self.old boxes
            → stands self.new boxes) }
        ensures breaks { Breaks result (broken self.old) (broken self.new) }
        ensures origin { origin self.new ≡ origin self.old }
        ensures counted { Counts ship_cause result (faults self.old) (faults self.new) };
}
