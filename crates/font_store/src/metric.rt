//! A metric of either kind.

ghost use Rattle.ts_base.specs.Agreement.{Agrees};
ghost use Rattle.metric_words.specs.Checking.{cause};
ghost use Rattle.font_store.specs.Metrics.{metric_of};

use jfm_load::Japanese;
use metric_words::begins_as_jfm;
use std::alloc::Global;
use tfm_load::Roman;
use ts_geometry::MetricFault;

/// The metric of a font: of a European one, which a TFM spells, or of a Japanese one, which a JFM
/// spells.
#[derive(Debug, Drop)]
pub enum Metric {
    Roman(Roman),
    Japanese(Japanese),
}

// Reads the metric that a file spells, or its first fault.
pub(crate) fn read(alloc: Global, bytes: &[u8]) -> Result<Metric, MetricFault>
    ensures { Agrees (λ m. m) cause result (metric_of bytes.now) }
{
    if begins_as_jfm(bytes) {
        Ok(Metric::Japanese(jfm_load::read(alloc, bytes)?))
    } else {
        Ok(Metric::Roman(tfm_load::read(alloc, bytes)?))
    }
}
