//! The size of a font.

ghost use Rattle.std.specs.Prelude.{◌≡◌, ◌<◌, ◌≤◌, ◌^◌, IfOk};
ghost use Rattle.known_fonts.specs.Sizes.{whole_size as the_whole_size, scaled_size as the_scaled_size, font_size as the_font_size};

use control_faults::FaultKind;
use ts_geometry::Sp;

/// How the size of a font is said (TeX: The Program, section 1258).
#[derive(Clone, Copy, Debug, PartialEq, Eq)]
pub enum Sizing {
    /// Nothing is said: the design size.
    Design,
    /// `at`.
    At(Sp),
    /// `scaled`, in thousandths of the design size.
    Scaled(i64),
}

/// The greatest size, in scaled points.
const MOST: i64 = (1 << 23) - 1;

/// The greatest scale, in thousandths.
const MOST_SCALE: i64 = 32_768;

// A size in scaled points, where it may be one.
fn whole_size(z: i64) -> Result<u32, FaultKind>
    ensures value { result ≡ the_whole_size z }
    ensures least { IfOk result (λ size. 1 ≤ size) }
    ensures size { IfOk result (λ size. size < 2 ^ 23) }
{
    if 1 <= z && z <= MOST {
        Ok(z as u32)
    } else {
        Err(FaultKind::FontSize)
    }
}

// So many thousandths of a design size in scaled points.
fn scaled_size(design: u32, n: i64) -> Result<u32, FaultKind>
    requires { design < 2 ^ 27 }
    ensures value { result ≡ the_scaled_size design n }
    ensures least { IfOk result (λ size. 1 ≤ size) }
    ensures size { IfOk result (λ size. size < 2 ^ 23) }
{
    if n < 1 || MOST_SCALE < n {
        return Err(FaultKind::FontSize);
    }
    whole_size((u64::from(design) * n as u64 / 1000) as i64)
}

/// Returns the size of a font of a design size, both in scaled points. `FontSize` comes exactly
/// where the scale isn't from 1 to 32768, or the size from 1 to 2^23 - 1.
pub(crate) fn font_size(design: u32, sizing: Sizing) -> Result<u32, FaultKind>
    requires { design < 2 ^ 27 }
    ensures value { result ≡ the_font_size design sizing }
    ensures least { IfOk result (λ size. 1 ≤ size) }
    ensures size { IfOk result (λ size. size < 2 ^ 23) }
{
    match sizing {
        Sizing::Design => whole_size(i64::from(design)),
        Sizing::At(d) => whole_size(d.0),
        Sizing::Scaled(n) => scaled_size(design, n),
    }
}
