//! Tables of fonts.

ghost use Rattle.std.specs.Prelude.{◌≡◌, IfOk};
ghost use Rattle.dvi_writer.specs.Tables.{known};

use dvi_code::FontDef;
use std::alloc::Global;
use ts_base::{List, NoMemory};

/// A list of the definitions of fonts, by the numbers that items have for them.
pub type FontTable = List<FontDef>;

/// The most fonts of which the number has one byte.
const MOST_FONTS: usize = 256;

/// Returns the fonts of which the number has one byte.
#[tactic(auto, unfolding(crate::specs::Tables::known))]
pub(crate) fn known(fonts: &[FontDef]) -> &[FontDef]
    ensures { result.now ≡ known fonts.now }
{
    if fonts.len() > MOST_FONTS {
        &fonts[..MOST_FONTS]
    } else {
        fonts
    }
}

/// Returns a list of the same fonts, which shares their names.
pub(crate) fn same_fonts(alloc: Global, fonts: &[FontDef]) -> Result<FontTable, NoMemory>
    ensures { IfOk result (λ copies. copies ≡ fonts.now) }
{
    let mut copies = FontTable::new(alloc);
    copies.reserve(fonts.len())?;
    for font in fonts {
        copies.push(same_font(font))?;
    }
    Ok(copies)
}

fn same_font(font: &FontDef) -> FontDef
    ensures { result ≡ font.now }
{
    FontDef {
        number: font.number,
        check_sum: font.check_sum,
        size: font.size,
        design: font.design,
        name: font.name.same_copy(),
    }
}
