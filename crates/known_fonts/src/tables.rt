//! The definitions of fonts that a shipped page carries.

ghost use Rattle.std.specs.Prelude.{◌≡◌};
ghost use Rattle.known_fonts.specs.Tables.{definition as the_definition};

use crate::metrics::{check_sum_of, design_of};
use box_tree::FontNo;
use dvi_code::FontDef;
use font_store::Metric;
use ts_outside::FileName;

/// Returns the definition of a font under its number (TeX: The Program, section 602).
pub(crate) fn definition(number: FontNo, name: &FileName, size: u32, metric: &Metric) -> FontDef
    ensures { result ≡ the_definition number.0
        (record { name = name.now; size = size; metric = metric.now }) }
{
    FontDef {
        number: i32::from(number.0),
        check_sum: check_sum_of(metric),
        size,
        design: design_of(metric),
        name: name.same_copy(),
    }
}
