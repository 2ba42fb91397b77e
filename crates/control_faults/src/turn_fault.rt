//! Why a command is refused, and what the faults of the layers below become.

ghost use Rattle.std.specs.Prelude.{◌≡◌};
ghost use Rattle.control_faults.specs.declared.turn_fault.TurnFault.TheVariants as faults;
ghost use Rattle.control_faults.specs.TurnFaults.{of_gullet, of_env, of_load, of_list, of_pack, of_para, of_ship};

use crate::kind::FaultKind;
use env_groups::EnvFault;
use expander::GulletFault;
use font_store::LoadFault;
use line_break::ParaFault;
use node_links::ListFault;
use packaging::PackFault;
use shipping::ShipFault;
use std::alloc::AllocError;
use ts_base::NoMemory;

/// Why a command is refused. The place is where the gullet is then.
#[derive(Clone, Copy, Debug, PartialEq, Eq, Hash)]
pub enum TurnFault {
    /// The source has a fault of this kind.
    Kind(FaultKind),
    /// A unit is needed and none is left.
    Budget,
    /// A call on the files failed, which they count.
    ReadFault,
    /// The shipper's sink failed, which it counts.
    SinkFault,
    NoMemory,
}

impl From<FaultKind> for TurnFault {
    ghost from_gives = { λ kind fault. fault ≡ faults.Kind kind };

    fn from(kind: FaultKind) -> TurnFault {
        TurnFault::Kind(kind)
    }
}

impl From<NoMemory> for TurnFault {
    ghost from_gives = { λ _ fault. fault ≡ faults.NoMemory };

    fn from(_error: NoMemory) -> TurnFault {
        TurnFault::NoMemory
    }
}

impl From<AllocError> for TurnFault {
    ghost from_gives = { λ _ fault. fault ≡ faults.NoMemory };

    fn from(_error: AllocError) -> TurnFault {
        TurnFault::NoMemory
    }
}

impl From<GulletFault> for TurnFault {
    ghost from_gives = { λ lower upper. upper ≡ of_gullet lower };

    fn from(fault: GulletFault) -> TurnFault {
        match fault {
            GulletFault::Undefined => TurnFault::Kind(FaultKind::Undefined),
            GulletFault::UseMismatch => TurnFault::Kind(FaultKind::UseMismatch),
            GulletFault::ArgParagraph => TurnFault::Kind(FaultKind::ArgParagraph),
            GulletFault::FileEnded => TurnFault::Kind(FaultKind::FileEnded),
            GulletFault::BadParameter => TurnFault::Kind(FaultKind::BadParameter),
            GulletFault::ExtraCond => TurnFault::Kind(FaultKind::ExtraCond),
            GulletFault::CsnameEnd => TurnFault::Kind(FaultKind::CsnameEnd),
            GulletFault::NoBrace => TurnFault::Kind(FaultKind::NoBrace),
            GulletFault::NoName => TurnFault::Kind(FaultKind::NoName),
            GulletFault::FileMissing => TurnFault::Kind(FaultKind::FileMissing),
            GulletFault::InputsFull => TurnFault::Kind(FaultKind::InputsFull),
            GulletFault::TokensFull => TurnFault::Kind(FaultKind::TokensFull),
            GulletFault::NoEnd => TurnFault::Kind(FaultKind::NoEnd),
            GulletFault::DepthFull => TurnFault::Kind(FaultKind::DepthFull),
            GulletFault::Budget => TurnFault::Budget,
            GulletFault::BadChar => TurnFault::Kind(FaultKind::BadChar),
            GulletFault::NamesFull => TurnFault::Kind(FaultKind::NamesFull),
            GulletFault::TooManyLines => TurnFault::Kind(FaultKind::TooManyLines),
            GulletFault::LineTooLong => TurnFault::Kind(FaultKind::LineTooLong),
            GulletFault::BadByte(place) => TurnFault::Kind(FaultKind::BadByte(place)),
            GulletFault::NoNumber => TurnFault::Kind(FaultKind::NoNumber),
            GulletFault::NumberRange => TurnFault::Kind(FaultKind::NumberRange),
            GulletFault::NoUnit => TurnFault::Kind(FaultKind::NoUnit),
            GulletFault::DimenRange => TurnFault::Kind(FaultKind::DimenRange),
            GulletFault::RegisterRange => TurnFault::Kind(FaultKind::RegisterRange),
            GulletFault::CodeRange => TurnFault::Kind(FaultKind::CodeRange),
            GulletFault::ReadFault => TurnFault::ReadFault,
            GulletFault::NoMemory => TurnFault::NoMemory,
        }
    }
}

impl From<EnvFault> for TurnFault {
    ghost from_gives = { λ lower upper. upper ≡ of_env lower };

    fn from(fault: EnvFault) -> TurnFault {
        match fault {
            EnvFault::RegisterRange => TurnFault::Kind(FaultKind::RegisterRange),
            EnvFault::CodeRange => TurnFault::Kind(FaultKind::CodeRange),
            EnvFault::FontsFull => TurnFault::Kind(FaultKind::FontsFull),
            EnvFault::GroupsFull => TurnFault::Kind(FaultKind::GroupsFull),
            EnvFault::GroupEnd => TurnFault::Kind(FaultKind::GroupEnd),
            EnvFault::NoMemory => TurnFault::NoMemory,
        }
    }
}

impl From<LoadFault> for TurnFault {
    ghost from_gives = { λ lower upper. upper ≡ of_load lower };

    fn from(fault: LoadFault) -> TurnFault {
        match fault {
            LoadFault::Missing => TurnFault::Kind(FaultKind::FileMissing),
            LoadFault::Bad(bad, at) => TurnFault::Kind(FaultKind::FontBad(bad, at)),
            LoadFault::ReadFault => TurnFault::ReadFault,
            LoadFault::NoMemory => TurnFault::NoMemory,
        }
    }
}

impl From<ListFault> for TurnFault {
    ghost from_gives = { λ lower upper. upper ≡ of_list lower };

    fn from(fault: ListFault) -> TurnFault {
        match fault {
            ListFault::ListFull => TurnFault::Kind(FaultKind::ListFull),
            ListFault::NoMemory => TurnFault::NoMemory,
        }
    }
}

impl From<PackFault> for TurnFault {
    ghost from_gives = { λ lower upper. upper ≡ of_pack lower };

    fn from(fault: PackFault) -> TurnFault {
        match fault {
            PackFault::DimenRange => TurnFault::Kind(FaultKind::DimenRange),
            PackFault::BoxTooLarge(_) => TurnFault::Kind(FaultKind::BoxTooLarge),
            PackFault::BoxTooDeep(_) => TurnFault::Kind(FaultKind::BoxTooDeep),
            PackFault::NoMemory => TurnFault::NoMemory,
        }
    }
}

impl From<ParaFault> for TurnFault {
    ghost from_gives = { λ lower upper. upper ≡ of_para lower };

    fn from(fault: ParaFault) -> TurnFault {
        match fault {
            ParaFault::InfiniteShrink => TurnFault::Kind(FaultKind::InfiniteShrink),
            ParaFault::NoMemory => TurnFault::NoMemory,
        }
    }
}

impl From<ShipFault> for TurnFault {
    ghost from_gives = { λ lower upper. upper ≡ of_ship lower };

    fn from(fault: ShipFault) -> TurnFault {
        match fault {
            ShipFault::PagesFull => TurnFault::Kind(FaultKind::PagesFull),
            ShipFault::JobTooLarge => TurnFault::Kind(FaultKind::JobTooLarge),
            ShipFault::PlaceRange => TurnFault::Kind(FaultKind::PlaceRange),
            ShipFault::SinkFault => TurnFault::SinkFault,
            ShipFault::NoMemory => TurnFault::NoMemory,
        }
    }
}
