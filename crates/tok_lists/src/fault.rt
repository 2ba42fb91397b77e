//! Why a spelling gets no number.

ghost use Rattle.std.specs.Prelude.{◌≡◌};
ghost use Rattle.tok_lists.specs.declared.fault.NamesFault.TheVariants as faults;

use ts_base::NoMemory;

/// Why a spelling gets no number.
#[derive(Clone, Copy, Debug, PartialEq, Eq, Hash)]
pub enum NamesFault {
    /// It is new, and there are 50,000 names.
    NamesFull,
    /// Memory ran out.
    NoMemory,
}

impl From<NoMemory> for NamesFault {
    ghost from_gives = { λ _ fault. fault ≡ faults.NoMemory };

    fn from(_error: NoMemory) -> NamesFault {
        NamesFault::NoMemory
    }
}
