//! The name of a font.

ghost use Rattle.std.specs.Prelude.{◌≡◌, IfOk};
ghost use Rattle.ts_base.specs.Agreement.{Agrees, Uncounted, with_fault};
ghost use Rattle.control_faults.specs.declared.turn_fault.TurnFault.TheVariants.{Kind};
ghost use Rattle.control_faults.specs.TurnFaults.{read_cause, sink_cause};
ghost use Rattle.known_fonts.specs.Names.{IsMetricName, metric_name};

use control_faults::{FaultKind, TurnFault};
use std::alloc::Global;
use ts_outside::{FileName, NameFault};

/// The name of a font as it is spelt, and that of the file of its metric.
#[derive(Debug, Drop)]
pub struct FontName {
    pub spelt: FileName,
    pub file: FileName,
}

/// The ending of the name of a metric file.
const ENDING: &[u8] = b".tfm";

impl FontName {
    /// Returns the name, with that of the file of its metric. `NoName` comes exactly where the name
    /// with its ending is none of a file: with `.tfm` it has at most 255 bytes.
    pub fn new(alloc: Global, spelt: FileName) -> Result<FontName, TurnFault>
        ensures exact { Agrees (λ n. n.spelt) read_cause result
            (with_fault Kind (metric_name spelt)) }
        ensures named { IfOk result (λ n. IsMetricName n.spelt n.file) }
        ensures quiet { Uncounted read_cause result }
        ensures unshipped { Uncounted sink_cause result }
    {
        match FileName::with_ending(alloc, spelt.bytes(), ENDING) {
            Ok(file) => Ok(FontName { spelt, file }),
            Err(NameFault::BadName) => Err(TurnFault::Kind(FaultKind::NoName)),
            Err(NameFault::NoMemory) => Err(TurnFault::NoMemory),
        }
    }
}
