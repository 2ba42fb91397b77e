//! Why a node isn't made a box.

use ts_base::NoMemory;

/// Why a node isn't made a box.
#[derive(Clone, Copy, Debug, PartialEq, Eq, Hash)]
pub enum BoxFault {
    /// Its weight passes 2,000,000; the weight, or 2^64 - 1 where it is greater.
    BoxTooLarge(u64),
    /// Its weight doesn't pass that, and its depth passes 200; the depth.
    BoxTooDeep(u32),
    /// Memory ran out.
    NoMemory,
}

impl From<NoMemory> for BoxFault {
    ghost use Rattle.std.specs.Prelude.{◌≡◌};
    ghost use Rattle.box_tree.specs.declared.fault.BoxFault.{BoxFault};

    ghost from_gives = { λ _ fault. fault ≡ BoxFault.NoMemory };

    fn from(_: NoMemory) -> BoxFault {
        BoxFault::NoMemory
    }
}
