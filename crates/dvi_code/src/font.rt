//! The widths of characters.

ghost use Rattle.std.specs.Prelude.{◌≡◌};

use dvi_commands::FontDef;
use ts_geometry::Sp;

/// The widths of characters, which a DVI file doesn't tell.
pub trait Widths {
    ghost use Rattle.std.specs.Prelude.{ℕ, Option};
    ghost use Rattle.ts_geometry.specs.declared.measure.Sp.{Sp};
    ghost use Rattle.dvi_commands.specs.declared.font.FontDef.{FontDef};

    /// The width of a character of a font at its size.
    ghost width_of: { Self → FontDef → ℕ → Option Sp };

    /// The width of the character of this code at the font's size, or `None` where the font has no
    /// such character.
    fn width(&self, font: &FontDef, code: u32) -> Option<Sp>
        ensures { result ≡ width_of self.now font.now code };
}
