//! The halfwords with which a TFM begins.

ghost use Rattle.std.specs.Prelude.{◌≡◌, length, IfOk};
ghost use Rattle.ts_base.specs.Agreement.{Agrees};
ghost use Rattle.metric_words.specs.Checking.{cause};
ghost use Rattle.metric_words.specs.Sound.{AreSound};
ghost use Rattle.tfm_load.specs.Metrics as spec;

use metric_words::{Lengths, truncated};
use ts_geometry::MetricFault;

/// Reads the lengths. A file of fewer than 24 bytes is Truncated, then lengths that contradict each
/// other are Lengths at 0, then a file of fewer bytes than they count is Truncated.
#[tactic(auto, unfolding(crate::specs::Metrics::lengths_in, crate::specs::Metrics::lengths_of))]
pub(crate) fn read_lengths(bytes: &[u8]) -> Result<Lengths, MetricFault>
    ensures exact { Agrees (λ l. l) cause result (spec.lengths_in bytes.now) }
    ensures sound { IfOk result (λ l. AreSound l (length bytes.now)) }
{
    if bytes.len() < 24 {
        return Err(truncated(bytes));
    }
    Lengths::at(bytes, 6, 0, 0).within(bytes, false)
}
