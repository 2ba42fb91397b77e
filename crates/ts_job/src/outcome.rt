//! How a job ends.

ghost use Rattle.std.specs.Prelude.{◌≡◌};
ghost use Rattle.ts_job.specs.Statuses.{status_of};

use crate::fault::Fault;

/// How a job ends.
#[derive(Debug, Drop)]
pub enum Outcome {
    /// The source ended well, and all of its pages were put.
    Done,
    /// The first fault of the source.
    SourceFault(Fault),
    /// The words are refused.
    Usage,
    /// A read failed.
    ReadFault,
    /// A put failed.
    SinkFault,
    NoMemory,
}

impl Outcome {
    /// The exit status of a program that ends so.
    pub fn status(&self) -> u8
        ensures { result ≡ status_of self.now }
    {
        match self {
            Outcome::Done => 0,
            Outcome::SourceFault(_) => 1,
            Outcome::Usage => 2,
            Outcome::ReadFault => 3,
            Outcome::SinkFault => 4,
            Outcome::NoMemory => 5,
        }
    }
}
