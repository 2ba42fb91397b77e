//! A sink over a writer.

ghost use Rattle.std.specs.Prelude.{◌≡◌, ◌≢◌, ◌↔◌, ℕ, None, nat_eq, if◌then◌else◌, IfOk, IfErr};
ghost use Rattle.std.specs.IoError.{error_kind};

use crate::script::count_on;
use crate::sink::{Put, Sink};
use std::io;
use std::io::{ErrorKind, Write};

/// A sink over a writer, as standard output, which doesn't tell what it holds. Each error of the
/// writer counts as a fault, but for want of memory, and so does a piece of which it takes nothing.
#[derive(Drop)]
pub struct StreamSink<W: Write + Drop> {
    inner: W,
    faults: u64,
}

impl<W: Write + Drop> StreamSink<W> {
    /// A sink over this writer.
    pub fn new(inner: W) -> StreamSink<W>
        ensures { ⟦<StreamSink<W> as Sink>⟧.faults result ≡ 0 }
    {
        StreamSink { inner, faults: 0 }
    }
}

// Returns what the answer of a writer means: a piece of which it takes nothing is a failure, and so
// is each error but want of memory.
fn put_of(written: io::Result<usize>) -> Put
    ensures took { IfOk written (λ n. result ≡ (if nat_eq n 0 then Put.Failed else Put.Took n)) }
    ensures memory { IfErr written (λ e. (result ≡ Put.NoMemory) ↔ (error_kind e ≡ ErrorKind.OutOfMemory)) }
    ensures refused { IfErr written (λ e. (n : ℕ) → result ≢ Put.Took n) }
{
    match written {
        Ok(n) if 0 < n => Put::Took(n),
        Err(error) if error.kind() == ErrorKind::OutOfMemory => Put::NoMemory,
        _ => Put::Failed,
    }
}

impl<W: Write + Drop> Sink for StreamSink<W> {
    ghost held = { λ s. None };

    ghost faults = { λ s. s.faults };

    fn put(&mut self, piece: &[u8]) -> Put {
        let put = put_of(self.inner.write(piece));
        if let Put::Failed = put {
            self.faults = count_on(self.faults);
        }
        put
    }
}
