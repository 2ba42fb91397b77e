//! Why a command is refused.

ghost use Rattle.std.specs.Prelude.{◌≡◌};
ghost use Rattle.dvi_structure.specs.Answers.{refused_at};

use crate::fault::DviFault;
use dvi_commands::{DviBad, DviKind};

/// The kind of the command's fault, or want of memory.
#[derive(Clone, Copy, Debug, PartialEq, Eq)]
pub enum Refusal {
    Kind(DviKind),
    NoMemory,
}

impl Refusal {
    /// Returns the fault of the command at this place.
    pub fn at(self, at: usize) -> DviFault
        ensures { result ≡ refused_at at self }
    {
        match self {
            Refusal::Kind(kind) => DviFault::Bad(DviBad { at, kind }),
            Refusal::NoMemory => DviFault::NoMemory,
        }
    }
}
