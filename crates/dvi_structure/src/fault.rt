//! Why a call of this crate is refused.

use dvi_commands::DviBad;

/// Why the pages or the fonts of a DVI file aren't given.
#[derive(Clone, Copy, Debug, PartialEq, Eq, Hash)]
pub enum DviFault {
    /// The file's first fault.
    Bad(DviBad),
    /// Memory ran out.
    NoMemory,
}

impl From<DviBad> for DviFault {
    ghost use Rattle.std.specs.Prelude.{◌≡◌};
    ghost use Rattle.dvi_structure.specs.declared.fault.DviFault.TheVariants.{Bad};

    ghost from_gives = { λ bad fault. fault ≡ Bad bad };

    fn from(bad: DviBad) -> DviFault {
        DviFault::Bad(bad)
    }
}
