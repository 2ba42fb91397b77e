//! Why an item isn't put to a list.

ghost use Rattle.std.specs.Prelude.{◌≡◌};
ghost use Rattle.node_links.specs.declared.fault.ListFault.TheVariants as faults;

use ts_base::NoMemory;

/// Why an item isn't put to a list.
#[derive(Clone, Copy, Debug, PartialEq, Eq, Hash)]
pub enum ListFault {
    /// 200,000 items are there.
    ListFull,
    /// Memory ran out.
    NoMemory,
}

impl From<NoMemory> for ListFault {
    ghost from_gives = { λ _ fault. fault ≡ faults.NoMemory };

    fn from(_error: NoMemory) -> ListFault {
        ListFault::NoMemory
    }
}
