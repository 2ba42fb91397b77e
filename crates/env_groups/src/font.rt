//! Fonts as settings see them.

ghost use Rattle.std.specs.Prelude.{◌≡◌};
ghost use Rattle.env_groups.specs.Fonts.{slot_place};

use ts_geometry::Sp;

/// One of the fonts that are selected: the European one, or the Japanese one of yoko or tate lines.
#[derive(Clone, Copy, Debug, PartialEq, Eq, Hash)]
pub enum FontSlot {
    Roman,
    Yoko,
    Tate,
}

/// What units and spaces need of a font, in scaled points: the `em` and the `ex` of a European one
/// (The TeXbook, chapter 10), the `zw` and the `zh` of a Japanese one (pTeX).
#[derive(Clone, Copy, Debug, PartialEq, Eq, Hash)]
pub struct FontFacts {
    pub em: Sp,
    pub ex: Sp,
    pub zw: Sp,
    pub zh: Sp,
}

/// Returns the place of a slot.
pub(crate) fn place_of(slot: FontSlot) -> usize
    ensures { result ≡ slot_place slot }
{
    match slot {
        FontSlot::Roman => 0,
        FontSlot::Yoko => 1,
        FontSlot::Tate => 2,
    }
}
