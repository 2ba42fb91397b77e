//! The halfwords with which a JFM begins.

ghost use Rattle.std.specs.Prelude.{◌≡◌, length, IfOk};
ghost use Rattle.ts_base.specs.Agreement.{Agrees};
ghost use Rattle.metric_words.specs.Checking.{cause};
ghost use Rattle.metric_words.specs.Sound.{AreSound};
ghost use Rattle.jfm_load.specs.Metrics as spec;
ghost use Rattle.jfm_load.specs.Sound.{HasClasses};

use metric_words::{Lengths, halfword_at, truncated};
use ts_geometry::MetricFault;

#[tactic(auto, unfolding(crate::specs::Metrics::is_odd))]
fn is_odd(lengths: &Lengths) -> bool
    ensures { result ≡ spec.is_odd lengths.now }
{
    lengths.bc != 0 || lengths.nt == 0 || lengths.ng % 3 != 0
}

/// Reads the lengths. A file of fewer than 28 bytes is Truncated, then lengths that contradict each
/// other are Lengths at 0, then a file of fewer bytes than they count is Truncated.
#[tactic(auto, unfolding(crate::specs::Metrics::lengths_in, crate::specs::Metrics::lengths_of))]
pub(crate) fn read_lengths(bytes: &[u8]) -> Result<Lengths, MetricFault>
    ensures exact { Agrees (λ l. l) cause result (spec.lengths_in bytes.now) }
    ensures sound { IfOk result (λ l. AreSound l (length bytes.now)) }
    ensures japanese { IfOk result (λ l. HasClasses l) }
{
    if bytes.len() < 28 {
        return Err(truncated(bytes));
    }
    let lengths = Lengths::at(bytes, 7, halfword_at(bytes, 1), 2);
    let odd = is_odd(&lengths);
    lengths.within(bytes, odd)
}
