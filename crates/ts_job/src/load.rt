//! The first bytes of a file.

ghost use Rattle.std.specs.Prelude.{◌≡◌, ℕ, List, true, Some, Ok, take};
ghost use Rattle.ts_base.specs.Agreement.{Agrees, Counts};
ghost use Rattle.ts_outside.specs.States.{Held, KeepsAll, ReadsOn};
ghost use Rattle.ts_job.specs.Loading.{load_cause, loaded};

use std::alloc::Global;
use ts_outside::{FileName, FileNo, Files, Got, Opened};

/// Why a file isn't loaded.
#[derive(Clone, Copy, Debug, PartialEq, Eq)]
pub(crate) enum LoadFault {
    Missing,
    ReadFault,
    NoMemory,
}

const BLOCK: usize = 4096;

// Reads an open file on to its end, or until so many bytes are there.
fn read_on<F: Files>(
    alloc: Global,
    files: &mut F,
    file: FileNo,
    most: usize,
) -> Result<Vec<u8>, LoadFault>
    requires number { (F.state files.old).is_open file.0 ≡ true }
    ensures exact { (left : List ℕ) → (F.state files.old).left file.0 ≡ Some left
        → Agrees (λ v. v.items) load_cause result (Ok (take most left)) }
    ensures reads { ReadsOn file.0 (F.state files.old) (F.state files.new) }
    ensures counted { Counts load_cause result (F.state files.old).faults (F.state files.new).faults }
{
    let mut bytes = Vec::new(alloc);
    let mut buffer = [0u8; BLOCK];
    while bytes.len() < most {
        let room = BLOCK.min(most - bytes.len());
        match files.read(file, &mut buffer[..room]) {
            Got::Bytes(n) => {
                let Ok(()) = bytes.extend_from_slice(&buffer[..n]) else {
                    return Err(LoadFault::NoMemory);
                };
            }
            Got::End => return Ok(bytes),
            Got::Failed => return Err(LoadFault::ReadFault),
        }
    }
    Ok(bytes)
}

/// At most so many bytes of the file of a name, which is closed again on every answer.
pub(crate) fn load<F: Files>(
    alloc: Global,
    files: &mut F,
    name: &FileName,
    most: usize,
) -> Result<Vec<u8>, LoadFault>
    ensures exact { (held : List Held) → (F.state files.old).held ≡ Some held → Agrees (λ v. v.items) load_cause result (loaded held name.now most) }
    ensures kept { KeepsAll (F.state files.old) (F.state files.new) }
    ensures counted { Counts load_cause result (F.state files.old).faults (F.state files.new).faults }
{
    match files.open(name) {
        Opened::Found(file) => {
            let bytes = read_on(alloc, files, file, most);
            files.close(file);
            bytes
        }
        Opened::Missing => Err(LoadFault::Missing),
        Opened::Failed => Err(LoadFault::ReadFault),
        Opened::NoMemory => Err(LoadFault::NoMemory),
    }
}
