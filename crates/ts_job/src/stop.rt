//! Why a job stops before its page is set.

ghost use Rattle.std.specs.Prelude.{◌≡◌};
ghost use Rattle.ts_job.specs.Loading.{load_fault};
ghost use Rattle.ts_job.specs.Meaning.{font_fault, line_fault, open_fault};

use crate::fault::FaultKind;
use crate::load::LoadFault;
use input_codings::{LineFault, OpenFault};
use ts_geometry::MetricFault;

/// A fault at a line of the main file, a read that failed, or want of memory.
#[derive(Clone, Copy, Debug, PartialEq, Eq)]
pub(crate) enum Stop {
    Fault(FaultKind, u32),
    ReadFault,
    NoMemory,
}

impl From<OpenFault> for Stop {
    ghost from_gives = { λ fault stop. stop ≡ open_fault fault };

    fn from(fault: OpenFault) -> Stop {
        match fault {
            OpenFault::Missing => Stop::Fault(FaultKind::FileMissing, 0),
            OpenFault::ReadFault => Stop::ReadFault,
            OpenFault::NoMemory => Stop::NoMemory,
        }
    }
}

impl From<LineFault> for Stop {
    ghost from_gives = { λ fault stop. stop ≡ line_fault fault };

    fn from(fault: LineFault) -> Stop {
        match fault {
            LineFault::TooManyLines => Stop::Fault(FaultKind::TooManyLines, 1),
            LineFault::LineTooLong => Stop::Fault(FaultKind::LineTooLong, 1),
            LineFault::BadByte(at) => Stop::Fault(FaultKind::BadByte(at), 1),
            LineFault::ReadFault => Stop::ReadFault,
            LineFault::NoMemory => Stop::NoMemory,
        }
    }
}

impl From<LoadFault> for Stop {
    ghost from_gives = { λ fault stop. stop ≡ load_fault fault };

    fn from(fault: LoadFault) -> Stop {
        match fault {
            LoadFault::Missing => Stop::Fault(FaultKind::FileMissing, 1),
            LoadFault::ReadFault => Stop::ReadFault,
            LoadFault::NoMemory => Stop::NoMemory,
        }
    }
}

impl From<MetricFault> for Stop {
    ghost from_gives = { λ fault stop. stop ≡ font_fault fault };

    fn from(fault: MetricFault) -> Stop {
        match fault {
            MetricFault::Bad(kind, at) => Stop::Fault(FaultKind::FontBad(kind, at), 1),
            MetricFault::NoMemory => Stop::NoMemory,
        }
    }
}
