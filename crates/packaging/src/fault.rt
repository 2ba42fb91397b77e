//! Why a list isn't packed.

ghost use Rattle.std.specs.Prelude.{◌≡◌};
ghost use Rattle.packaging.specs.Packing.{pack_fault};

use box_tree::BoxFault;

/// Why a list isn't packed, or a box doesn't stand in a list.
#[derive(Clone, Copy, Debug, PartialEq, Eq, Hash)]
pub enum PackFault {
    /// A measure of the box is 16384pt or more, or -16384pt or less.
    DimenRange,
    /// The weight of the box passes 2,000,000; the weight, or 2^64 - 1 where it is greater.
    BoxTooLarge(u64),
    /// Its weight doesn't pass that, and its depth passes 200; the depth.
    BoxTooDeep(u32),
    /// Memory ran out.
    NoMemory,
}

impl From<BoxFault> for PackFault {
    ghost from_gives = { λ lower upper. upper ≡ pack_fault lower };

    fn from(fault: BoxFault) -> PackFault {
        match fault {
            BoxFault::BoxTooLarge(weight) => PackFault::BoxTooLarge(weight),
            BoxFault::BoxTooDeep(depth) => PackFault::BoxTooDeep(depth),
            BoxFault::NoMemory => PackFault::NoMemory,
        }
    }
}
