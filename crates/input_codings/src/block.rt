//! A block of bytes that reads fill.

ghost use Rattle.std.specs.Prelude.{◌≡◌, ◌-◌, ◌<◌, ◌≤◌, [], true, length, take, drop, IfOk};
ghost use Rattle.ts_outside.specs.States.{ReadsOn};
ghost use Rattle.ts_outside.specs.Reading.{Fills, Gives, CountsGot};
ghost use Rattle.input_codings.specs.Reading.{Adds, Moves, EndsAt};

use std::alloc::Global;
use std::marker::Model;
use ts_base::NoMemory;
use ts_outside::{FileNo, Files, Got};

/// How many bytes a block has room for: more than two lines.
pub const BLOCK: usize = 131_072;

/// A read has room for so many bytes at least.
pub const LEAST_READ: usize = 8_192;

/// Bytes that were read and not yet used. Contracts see their list.
#[derive(Drop)]
pub struct Block {
    bytes: Vec<u8>,
    start: usize,
    end: usize,
}

impl Model for Block {
    ghost use Rattle.std.specs.Prelude.{◌≡◌, ◌≤◌, ◌-◌, List, ℕ, length, take, drop};

    ghost Value = { List ℕ };

    ghost view = { λ b. take (b.end - b.start) (drop b.start b.bytes.items) };

    ghost invariant = { λ b. (b.start ≤ b.end) × (b.end ≤ length b.bytes.items) × (length b.bytes.items ≡ 131072) };
}

// Moves the bytes from a start to an end to the front, where there is little room after them.
// Gives the start and the end after it.
fn make_room(bytes: &mut Vec<u8>, start: usize, end: usize) -> (usize, usize)
    requires order { start ≤ end }
    requires within { end ≤ length bytes.old.items }
    requires block { length bytes.old.items ≡ 131072 }
    requires few { end - start ≤ 65535 }
    ensures same { take (result.1 - result.0) (drop result.0 bytes.new.items)
        ≡ take (end - start) (drop start bytes.old.items) }
    ensures order { result.0 ≤ result.1 }
    ensures room { result.1 < 131072 }
    ensures block { length bytes.new.items ≡ 131072 }
{
    if LEAST_READ <= BLOCK - end {
        return (start, end);
    }
    bytes.copy_within(start..end, 0);
    (0, end - start)
}

// Reads once, after the first bytes.
fn read_after<F: Files>(bytes: &mut Vec<u8>, end: usize, files: &mut F, file: FileNo) -> Got
    requires number { (F.state files.old).is_open file.0 ≡ true }
    requires room { end < length bytes.old.items }
    ensures len { length bytes.new.items ≡ length bytes.old.items }
    ensures before { take end bytes.new.items ≡ take end bytes.old.items }
    ensures fills { Fills result (length bytes.old.items - end) }
    ensures gives { Gives ((F.state files.old).left file.0) result (drop end bytes.new.items) ((F.state files.new).left file.0) }
    ensures reads { ReadsOn file.0 (F.state files.old) (F.state files.new) }
    ensures counted { CountsGot result (F.state files.old).faults (F.state files.new).faults }
{
    files.read(file, &mut bytes[end..])
}

impl Block {
    pub fn new(alloc: Global) -> Result<Block, NoMemory>
        ensures { IfOk result (λ block. block ≡ []) }
    {
        Ok(Block {
            bytes: vec![in alloc; 0; BLOCK]?,
            start: 0,
            end: 0,
        })
    }

    /// The bytes.
    pub fn as_slice(&self) -> &[u8]
        ensures { result.now ≡ self.now }
    {
        &self.bytes[self.start..self.end]
    }

    /// The first bytes are used.
    pub fn skip(&mut self, n: usize)
        requires { n ≤ length self.old }
        ensures { self.new ≡ drop n self.old }
    {
        self.start += n;
    }

    /// Reads once, after the bytes that are there.
    pub fn fill<F: Files>(&mut self, files: &mut F, file: FileNo) -> Got
        requires number { (F.state files.old).is_open file.0 ≡ true }
        requires room { length self.old ≤ 65535 }
        ensures adds { Adds result self.old self.new }
        ensures moves { Moves self.old ((F.state files.old).left file.0) self.new ((F.state files.new).left file.0) }
        ensures ends { EndsAt result ((F.state files.old).left file.0) }
        ensures reads { ReadsOn file.0 (F.state files.old) (F.state files.new) }
        ensures counted { CountsGot result (F.state files.old).faults (F.state files.new).faults }
    {
        let (start, end) = make_room(&mut self.bytes, self.start, self.end);
        self.start = start;
        self.end = end;
        match read_after(&mut self.bytes, end, files, file) {
            Got::Bytes(n) => {
                self.end += n;
                Got::Bytes(n)
            }
            Got::End => Got::End,
            Got::Failed => Got::Failed,
        }
    }
}
