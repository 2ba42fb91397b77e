//! Sinks to write to.

ghost use Rattle.std.specs.Prelude.{◌≡◌, ◌<◌, ℕ, List, Option, length, OnOk, OnErr};
ghost use Rattle.ts_base.specs.Agreement.{Counts};
ghost use Rattle.ts_outside.specs.Gaining.{Takes, CountsPut, Gained, GainedPart, put_cause};

use thiserror::Error;

/// What `Sink::put` answers.
#[derive(Clone, Copy, Debug, PartialEq, Eq)]
pub enum Put {
    /// So many bytes from the front of the piece, at least one, are held now.
    Took(usize),
    /// The outside failed, which is counted.
    Failed,
    NoMemory,
}

/// Why not all bytes were put.
#[derive(Clone, Copy, Debug, Drop, PartialEq, Eq, Error)]
pub enum PutFault {
    /// The outside failed, which is counted.
    #[error("the sink failed")]
    Failed,
    #[error("out of memory")]
    NoMemory,
}

/// A sink that bytes are put to, piece by piece.
pub trait Sink {
    /// The bytes that it holds, where they are told.
    ghost held: { Self → Option (List ℕ) };

    /// The faults of the outside so far, a number that never falls and stops at its last value.
    ghost faults: { Self → ℕ };

    /// Puts bytes of a piece after those that are held, as many as the outside likes to take.
    fn put(&mut self, piece: &[u8]) -> Put
        requires { 0 < length piece.now }
        ensures takes { Takes result piece.now (held self.old) (held self.new) }
        ensures counted { CountsPut result (faults self.old) (faults self.new) };
}

/// Puts all bytes. After a fault the sink holds what it held and a prefix of the bytes that isn't
/// all of them. Every answer but `Failed` leaves the count of faults.
pub fn put_all<S: Sink>(sink: &mut S, bytes: &[u8]) -> Result<(), PutFault>
    ensures all { OnOk result (Gained (S.held sink.old) (S.held sink.new) bytes.now) }
    ensures part { OnErr result (GainedPart (S.held sink.old) (S.held sink.new) bytes.now) }
    ensures counted { Counts put_cause result (S.faults sink.old) (S.faults sink.new) }
{
    let mut done = 0;
    while done < bytes.len() {
        match sink.put(&bytes[done..]) {
            Put::Took(n) => done += n,
            Put::Failed => return Err(PutFault::Failed),
            Put::NoMemory => return Err(PutFault::NoMemory),
        }
    }
    Ok(())
}
