//! What holds at a list's end.

ghost use Rattle.std.specs.Prelude.{◌≡◌, ◌≤◌};
ghost use Rattle.kanjiskip_adjust.specs.EndCodes.{Codes};

use jis_codes::Cell;
use ts_geometry::Glue;

/// Skips, switches and codes as they are when a list ends.
pub trait EndCodes {
    ghost codes: { Self → Codes };

    /// Returns the glue between two Japanese characters.
    fn kanjiskip(&self) -> Glue
        ensures { result ≡ (codes self.now).kanjiskip };

    /// Returns the glue between a Japanese character and a European one.
    fn xkanjiskip(&self) -> Glue
        ensures { result ≡ (codes self.now).xkanjiskip };

    /// Returns whether the glue between two Japanese characters is switched on.
    fn auto(&self) -> bool
        ensures { result ≡ (codes self.now).auto };

    /// Returns whether the glue between a Japanese character and a European one is switched on.
    fn autox(&self) -> bool
        ensures { result ≡ (codes self.now).autox };

    /// Returns the penalty before the last Japanese character of a paragraph.
    fn widow(&self) -> i32
        ensures { result ≡ (codes self.now).widow };

    /// Returns which gaps a European character allows: 0 none, 1 the one before it, 2 the one after
    /// it, 3 both.
    fn xsp(&self, code: u8) -> u8
        ensures value { result ≡ (codes self.now).xsp code }
        ensures most { result ≤ 3 };

    /// Returns which gaps a Japanese character forbids: 0 both, 1 the one before it, 2 the one
    /// after it, 3 none.
    fn inhibit_xsp(&self, cell: Cell) -> u8
        ensures value { result ≡ (codes self.now).inhibit_xsp cell }
        ensures most { result ≤ 3 };
}
