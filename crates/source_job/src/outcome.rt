//! How a job ends.

ghost use Rattle.std.specs.Prelude.{◌≡◌};
ghost use Rattle.source_job.specs.Statuses.{status_of};

use main_control::Fault;
use mouth::Place;

/// How a job ends.
#[derive(Debug, Drop, PartialEq, Eq)]
pub enum Outcome {
    /// The source ended well, and the file of its pages was put.
    Done,
    /// The first fault of the source.
    SourceFault(Fault),
    /// A unit was needed here, and none was left.
    Budget(Place),
    /// The words are refused.
    Usage,
    /// A read failed.
    ReadFault,
    /// A put failed.
    SinkFault,
    NoMemory,
}

impl Outcome {
    /// Returns the exit status of a program that ends so. Takes no memory.
    pub fn status(&self) -> u8
        ensures { result ≡ status_of self.now }
    {
        match self {
            Outcome::Done => 0,
            Outcome::SourceFault(_) => 1,
            Outcome::Usage => 2,
            Outcome::ReadFault => 3,
            Outcome::SinkFault => 4,
            Outcome::NoMemory => 5,
            Outcome::Budget(_) => 6,
        }
    }
}
