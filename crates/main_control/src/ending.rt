//! How a run ends.

ghost use Rattle.std.specs.Prelude.{◌≡◌};
ghost use Rattle.main_control.specs.declared.ending.Halt.TheVariants as halts;
ghost use Rattle.main_control.specs.Endings.{ending_at as the_ending_at};

use control_faults::{Fault, TurnFault};
use mouth::Place;

/// How a run ends.
#[derive(Debug, Drop, PartialEq, Eq)]
pub enum Ending {
    /// `\end` was met.
    Ended,
    /// What the source has wrong first.
    Fault(Fault),
    /// A unit was needed here, and none was left.
    Budget(Place),
    /// A call on the files failed, which they count.
    ReadFault,
    /// The shipper's sink failed, which it counts.
    SinkFault,
    NoMemory,
}

/// What a turn gives.
#[derive(Debug, Drop, PartialEq, Eq)]
pub enum Turn {
    /// The token has had its whole effect, and the run goes on.
    More,
    /// The run has ended.
    Last(Ending),
}

/// Why turns don't go on.
#[derive(Clone, Copy, Debug, PartialEq, Eq)]
pub(crate) enum Halt {
    Ended,
    Refused(TurnFault),
}

impl From<TurnFault> for Halt {
    ghost from_gives = { λ fault halt. halt ≡ halts.Refused fault };

    fn from(fault: TurnFault) -> Halt {
        Halt::Refused(fault)
    }
}

/// Returns how a run ends where a command is refused at a place.
pub(crate) fn ending_at(place: Place, fault: TurnFault) -> Ending
    ensures { result ≡ the_ending_at place fault }
{
    match fault {
        TurnFault::Kind(kind) => Ending::Fault(Fault { kind, place }),
        TurnFault::Budget => Ending::Budget(place),
        TurnFault::ReadFault => Ending::ReadFault,
        TurnFault::SinkFault => Ending::SinkFault,
        TurnFault::NoMemory => Ending::NoMemory,
    }
}
