//! The metric of a file.

ghost use Rattle.std.specs.Prelude.{◌≡◌, ◌≤◌, ℕ, List, true, Some, Ok, take, length, OnOk, IfOk};
ghost use Rattle.ts_base.specs.Agreement.{Agrees, Counts, Uncounted, with_fault};
ghost use Rattle.ts_outside.specs.States.{Held, KeepsAll, ReadsOn};
ghost use Rattle.font_store.specs.Metrics.{metric_of};
ghost use Rattle.font_store.specs.Loading.{load_cause, load_fault, loaded};
ghost use Rattle.font_store.specs.Measures.{IsWhole};
ghost use Rattle.font_store.specs.Pieces.{IsFront, size_of, first_bytes};

use crate::laws::loaded_metrics_are_whole;
use crate::metric::{Metric, read};
use metric_words::{begins_as_jfm, halfword_at};
use std::alloc::Global;
use ts_geometry::{BadKind, MetricFault};
use ts_outside::{FileName, FileNo, Files, Got, Opened};

/// Why a metric isn't loaded.
#[derive(Clone, Copy, Debug, PartialEq, Eq, Hash)]
pub enum LoadFault {
    /// There is no file of this name.
    Missing,
    /// The first fault of the file, and its place: the number of bytes before the bad word, or the
    /// length of a file that is too short.
    Bad(BadKind, u32),
    /// A call on the files failed, which they count.
    ReadFault,
    /// Memory ran out.
    NoMemory,
}

impl From<MetricFault> for LoadFault {
    ghost from_gives = { λ lower upper. upper ≡ load_fault lower };

    fn from(fault: MetricFault) -> LoadFault {
        match fault {
            MetricFault::Bad(kind, at) => LoadFault::Bad(kind, at),
            MetricFault::NoMemory => LoadFault::NoMemory,
        }
    }
}

// The bytes with which every JFM begins, and more than a TFM does.
const FRONT: usize = 28;

const BLOCK: usize = 1024;

// The bytes that a metric file counts, or its front where this is more.
fn size_of(bytes: &[u8]) -> usize
    requires { 28 ≤ length bytes.now }
    ensures value { result ≡ size_of bytes.now }
    ensures least { 28 ≤ result }
{
    let count = if begins_as_jfm(bytes) { 2 } else { 0 };
    FRONT.max(4 * usize::from(halfword_at(bytes, count)))
}

// Reads an open file on, until so many bytes of it are there or it ends.
fn read_on<F: Files>(
    files: &mut F,
    file: FileNo,
    bytes: &mut Vec<u8>,
    most: usize,
) -> Result<(), LoadFault>
    requires number { (F.state files.old).is_open file.0 ≡ true }
    requires room { length bytes.old.items ≤ most }
    ensures exact { (whole : List ℕ)
        → IsFront whole bytes.old.items ((F.state files.old).left file.0)
        → Agrees (λ _. bytes.new.items) load_cause result (Ok (take most whole)) }
    ensures front { (whole : List ℕ)
        → IsFront whole bytes.old.items ((F.state files.old).left file.0)
        → OnOk result (IsFront whole bytes.new.items ((F.state files.new).left file.0)) }
    ensures within { length bytes.new.items ≤ most }
    ensures reads { ReadsOn file.0 (F.state files.old) (F.state files.new) }
    ensures counted { Counts load_cause result
        (F.state files.old).faults (F.state files.new).faults }
{
    let mut buffer = [0u8; BLOCK];
    while bytes.len() < most {
        let room = BLOCK.min(most - bytes.len());
        match files.read(file, &mut buffer[..room]) {
            Got::Bytes(n) => {
                let Ok(()) = bytes.extend_from_slice(&buffer[..n]) else {
                    return Err(LoadFault::NoMemory);
                };
            }
            Got::End => return Ok(()),
            Got::Failed => return Err(LoadFault::ReadFault),
        }
    }
    Ok(())
}

// Reads the front of an open file, and then no more than the bytes that it counts.
fn read_metric<F: Files>(alloc: Global, files: &mut F, file: FileNo) -> Result<Vec<u8>, LoadFault>
    requires number { (F.state files.old).is_open file.0 ≡ true }
    ensures exact { (left : List ℕ) → (F.state files.old).left file.0 ≡ Some left
        → Agrees (λ v. v.items) load_cause result (Ok (first_bytes left)) }
    ensures reads { ReadsOn file.0 (F.state files.old) (F.state files.new) }
    ensures counted { Counts load_cause result
        (F.state files.old).faults (F.state files.new).faults }
{
    let mut bytes = Vec::new(alloc);
    read_on(files, file, &mut bytes, FRONT)?;
    if bytes.len() < FRONT {
        return Ok(bytes);
    }
    let most = size_of(&bytes);
    read_on(files, file, &mut bytes, most)?;
    Ok(bytes)
}

// Reads the metric that bytes spell.
fn metric_in(alloc: Global, bytes: &[u8]) -> Result<Metric, LoadFault>
    ensures exact { Agrees (λ m. m) load_cause result
        (with_fault load_fault (metric_of bytes.now)) }
    ensures whole { IfOk result IsWhole }
    ensures quiet { Uncounted load_cause result }
{
    loaded_metrics_are_whole();
    Ok(read(alloc, bytes)?)
}

/// Reads the metric of the file of a name, which has its ending: its first 28 bytes, or the words
/// that it counts where these are more. The file is a JFM where its first halfword is 11 or 9, and
/// else a TFM (the JFM specification; TeX: The Program, part 30). The file is closed again on every
/// answer.
///
/// `Missing` comes exactly where there is no such file, `Bad` exactly where the file isn't a
/// metric, with its first fault, and `ReadFault` only where the files counted a fault. Refused,
/// nothing is kept. A metric that is read is whole: it has each ligature that its programs put.
pub fn load<F: Files>(alloc: Global, files: &mut F, name: &FileName) -> Result<Metric, LoadFault>
    ensures exact { (held : List Held) → (F.state files.old).held ≡ Some held
        → Agrees (λ m. m) load_cause result (loaded held name.now) }
    ensures whole { IfOk result IsWhole }
    ensures kept { KeepsAll (F.state files.old) (F.state files.new) }
    ensures counted { Counts load_cause result
        (F.state files.old).faults (F.state files.new).faults }
{
    match files.open(name) {
        Opened::Found(file) => {
            let bytes = read_metric(alloc, files, file);
            files.close(file);
            metric_in(alloc, &bytes?)
        }
        Opened::Missing => Err(LoadFault::Missing),
        Opened::Failed => Err(LoadFault::ReadFault),
        Opened::NoMemory => Err(LoadFault::NoMemory),
    }
}
