//! Why an expansion is refused.

ghost use Rattle.std.specs.Prelude.{◌≡◌};
ghost use Rattle.mouth.specs.declared.fault.MouthFault.TheVariants as mouth_faults;
ghost use Rattle.raw_texts.specs.declared.fault.MacroFault.TheVariants as texts;
ghost use Rattle.expander.specs.declared.fault.StepFault.TheVariants as faults;

use mouth::MouthFault;
use raw_texts::MacroFault;
use scan_syntax::ScanKind;
use thiserror::Error;
use ts_base::NoMemory;

/// Why an expansion is refused. The place of a fault is that of the mouth.
#[derive(Clone, Copy, Debug, Drop, PartialEq, Eq, Error)]
pub enum StepFault {
    /// A text that is read is refused.
    #[error("{0}")]
    Text(MacroFault),
    /// The name is undefined.
    #[error("an undefined name")]
    Undefined,
    /// Something other than a character stands before an `\endcsname`.
    #[error("a name ended too early")]
    CsnameEnd,
    /// What is scanned isn't there, or is out of range.
    #[error("no such value")]
    Scan(ScanKind),
}

impl From<MacroFault> for StepFault {
    ghost from_gives = { λ of_text fault. fault ≡ faults.Text of_text };

    fn from(fault: MacroFault) -> StepFault {
        StepFault::Text(fault)
    }
}

impl From<MouthFault> for StepFault {
    ghost from_gives = { λ of_mouth fault. fault ≡ faults.Text (texts.Mouth of_mouth) };

    fn from(fault: MouthFault) -> StepFault {
        StepFault::Text(MacroFault::Mouth(fault))
    }
}

impl From<NoMemory> for StepFault {
    ghost from_gives = { λ _ fault. fault ≡ faults.Text (texts.Mouth mouth_faults.NoMemory) };

    fn from(_error: NoMemory) -> StepFault {
        StepFault::Text(MacroFault::Mouth(MouthFault::NoMemory))
    }
}
