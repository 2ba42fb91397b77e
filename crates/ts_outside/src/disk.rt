//! The files of the disk.

ghost use Rattle.std.specs.Prelude.{◌≡◌, ◌≢◌, ◌↔◌, ◌≤◌, ℕ, true, false, None, length, get_or, is_some, is_err, nat_eq, if◌then◌else◌, IfOk};
ghost use Rattle.std.specs.IoError.{error_kind};

use crate::files::{FileNo, Files, Got, Opened};
use crate::name::FileName;
use crate::script::count_on;
use crate::slots::{add_open, set_open, take_open};
use std::alloc::Global;
use std::io::{ErrorKind, Read};
use std::{fs, io, rt, str};

/// The files of a runtime, which tell neither names nor bytes. Each error of the runtime counts as
/// a fault, but for a file that isn't there and want of memory.
#[derive(Drop)]
pub struct DiskFiles<R: rt::Files + Drop> {
    runtime: R,
    files: Vec<Option<R::File>>,
    faults: u64,
}

impl<R: rt::Files + Drop> DiskFiles<R> {
    /// The files of this runtime, none of them open.
    pub fn new(rt: R, alloc: Global) -> DiskFiles<R>
        ensures closed { (n : ℕ) → (⟦<DiskFiles<R> as Files>⟧.state result).is_open n ≡ false }
        ensures faults { (⟦<DiskFiles<R> as Files>⟧.state result).faults ≡ 0 }
    {
        DiskFiles {
            runtime: rt,
            files: Vec::new(alloc),
            faults: 0,
        }
    }
}

// Returns what the error of an opening means.
fn not_opened(error: &io::Error) -> Opened
    ensures missing { (result ≡ Opened.Missing) ↔ (error_kind error.now ≡ ErrorKind.NotFound) }
    ensures memory { (result ≡ Opened.NoMemory) ↔ (error_kind error.now ≡ ErrorKind.OutOfMemory) }
    ensures closed { (file : FileNo) → result ≢ Opened.Found file }
{
    match error.kind() {
        ErrorKind::NotFound => Opened::Missing,
        ErrorKind::OutOfMemory => Opened::NoMemory,
        _ => Opened::Failed,
    }
}

// Returns what the answer of a read means: no byte is the end, and each error a failure.
pub(crate) fn got_of(read: io::Result<usize>) -> Got
    ensures got { IfOk read (λ n. result ≡ (if nat_eq n 0 then Got.End else Got.Bytes n)) }
    ensures failed { is_err read ≡ true → result ≡ Got.Failed }
{
    match read {
        Ok(0) => Got::End,
        Ok(n) => Got::Bytes(n),
        Err(_) => Got::Failed,
    }
}

// Reads the open file of a number.
pub(crate) fn read_open<T: Read + Drop>(
    files: &mut Vec<Option<T>>,
    n: usize,
    buffer: &mut [u8],
) -> io::Result<usize>
    requires number { is_some (get_or files.old.items n None) ≡ true }
    ensures bound { IfOk result (λ m. m ≤ length buffer.old) }
    ensures number { (k : ℕ) → is_some (get_or files.new.items k None) ≡ is_some (get_or files.old.items k None) }
{
    let mut open = take_open(files, n);
    let read = open.read(buffer);
    set_open(files, n, Some(open));
    read
}

impl<R: rt::Files + Drop> Files for DiskFiles<R> {
    ghost state = { λ d. record { held = None; is_open = λ n. is_some (get_or d.files.items n None); left = λ n. None; faults = d.faults } };

    fn open(&mut self, name: &FileName) -> Opened {
        let Ok(path) = str::from_utf8(name.bytes()) else {
            self.faults = count_on(self.faults);
            return Opened::Failed;
        };
        match fs::open(&self.runtime, path) {
            Ok(file) => match add_open(&mut self.files, file) {
                Ok(n) => Opened::Found(FileNo(n)),
                Err(_) => Opened::NoMemory,
            },
            Err(error) => {
                let opened = not_opened(&error);
                if let Opened::Failed = opened {
                    self.faults = count_on(self.faults);
                }
                opened
            }
        }
    }

    fn read(&mut self, file: FileNo, buffer: &mut [u8]) -> Got {
        let got = got_of(read_open(&mut self.files, file.0, buffer));
        if let Got::Failed = got {
            self.faults = count_on(self.faults);
        }
        got
    }

    fn close(&mut self, file: FileNo) {
        set_open(&mut self.files, file.0, None);
    }
}
