//! What commands take from the metric of a font.

ghost use Rattle.std.specs.Prelude.{◌≡◌, ◌<◌, ◌^◌};
ghost use Rattle.known_fonts.specs.Metrics.{design_of as the_design_of, check_sum_of as the_check_sum_of, facts_of as the_facts_of, slot_of as the_slot_of};

use env_groups::{FontFacts, FontSlot};
use font_store::Metric;
use ts_geometry::{Sp, scale};

/// Returns the design size in scaled points.
pub(crate) fn design_of(metric: &Metric) -> u32
    ensures value { result ≡ the_design_of metric.now }
    ensures most { result < 2 ^ 27 }
{
    match metric {
        Metric::Roman(roman) => roman.design(),
        Metric::Japanese(japanese) => japanese.design(),
    }
}

/// Returns the check sum, which a DVI file repeats.
pub(crate) fn check_sum_of(metric: &Metric) -> u32
    ensures { result ≡ the_check_sum_of metric.now }
{
    match metric {
        Metric::Roman(roman) => roman.check_sum(),
        Metric::Japanese(japanese) => japanese.check_sum(),
    }
}

/// Returns what units need of a font at a size in scaled points: the parameters 6 and 5, the
/// quad and the x-height (The TeXbook, appendix F), or zw and zh (pTeX).
pub(crate) fn facts_of(metric: &Metric, size: u32) -> FontFacts
    requires { size < 2 ^ 23 }
    ensures { result ≡ the_facts_of metric.now size }
{
    match metric {
        Metric::Roman(roman) => FontFacts {
            em: Sp(scale(roman.param(6), size)),
            ex: Sp(scale(roman.param(5), size)),
            zw: Sp(0),
            zh: Sp(0),
        },
        Metric::Japanese(japanese) => FontFacts {
            em: Sp(0),
            ex: Sp(0),
            zw: Sp(scale(japanese.param(6), size)),
            zh: Sp(scale(japanese.param(5), size)),
        },
    }
}

/// Returns where a font is selected: beside the European one there are two Japanese ones, of yoko
/// and of tate lines (pTeX).
pub(crate) fn slot_of(metric: &Metric) -> FontSlot
    ensures { result ≡ the_slot_of metric.now }
{
    match metric {
        Metric::Roman(_) => FontSlot::Roman,
        Metric::Japanese(japanese) if japanese.is_tate() => FontSlot::Tate,
        Metric::Japanese(_) => FontSlot::Yoko,
    }
}
