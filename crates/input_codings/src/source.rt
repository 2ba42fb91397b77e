//! An open file that is read a block at a time.

ghost use Rattle.std.specs.Prelude.{◌≡◌, ◌≢◌, ◌≤◌, ◌<◌, ◌+◌, ◌⊎◌, ℕ, [], true, false, length, drop, IsSome, OnOk, OnErr, IfOk};
ghost use Rattle.ts_base.specs.Agreement.{Counts};
ghost use Rattle.ts_outside.specs.States.{ReadsOn, Closes};
ghost use Rattle.input_codings.specs.Lines.{line_cause};
ghost use Rattle.input_codings.specs.Reading.{Grows, KeepsBytes, left_to_use, before_ten};

use crate::block::Block;
use crate::fault::LineFault;
use std::marker::Model;
use ts_outside::{FileNo, Files, Got};

/// The most bytes that a line has before its byte 10.
pub const MOST_BYTES: usize = 65_535;

/// An open file. Contracts see its number, the bytes that were read and not yet used, and whether
/// its end was met.
#[derive(Drop)]
pub struct Source {
    file: FileNo,
    block: Block,
    ended: bool,
}

impl Model for Source {
    ghost use Rattle.input_codings.specs.Reading.{SourceView};

    ghost Value = { SourceView };

    ghost view = { λ s. record { file = s.file.0; buffered = s.block; ended = s.ended } };
}

/// How many bytes stand before the first byte 10, or how many there are.
#[tactic(auto, using(crate::proofs::Ends::before_steps))]
fn bytes_before_ten(bytes: &[u8]) -> usize
    ensures value { result ≡ before_ten bytes.now }
    ensures most { result ≤ length bytes.now }
{
    for (place, b) in bytes.iter().enumerate() {
        if *b == 10 {
            return place;
        }
    }
    bytes.len()
}

impl Source {
    pub fn new(file: FileNo, block: Block) -> Source
        ensures { result ≡ record { file = file.0; buffered = block; ended = false } }
    {
        Source {
            file,
            block,
            ended: false,
        }
    }

    pub fn file(&self) -> FileNo
        ensures { result.0 ≡ self.now.file }
    {
        self.file
    }

    /// The bytes that were read and not yet used.
    pub fn buffered(&self) -> &[u8]
        ensures { result.now ≡ self.now.buffered }
    {
        self.block.as_slice()
    }

    /// A line of so many bytes is used, with its byte 10, if it has one.
    pub fn skip_line(&mut self, count: usize)
        requires { count ≤ length self.old.buffered }
        ensures { self.new ≡ record { file = self.old.file; buffered = drop (count + 1) self.old.buffered; ended = self.old.ended } }
    {
        let all = self.block.as_slice().len();
        self.block.skip(all.min(count + 1));
    }

    /// Reads once, and tells whether bytes came.
    fn fill<F: Files>(&mut self, files: &mut F) -> Result<bool, LineFault>
        requires number { (F.state files.old).is_open self.old.file ≡ true }
        requires room { length self.old.buffered ≤ 65535 }
        ensures same { self.new.file ≡ self.old.file }
        ensures bytes { KeepsBytes self.old ((F.state files.old).left self.old.file) self.new ((F.state files.new).left self.old.file) }
        ensures more { length self.old.buffered ≤ length self.new.buffered }
        ensures came { result ≡ Ok true → Grows self.old.buffered self.new.buffered }
        ensures ended { result ≡ Ok false → (self.new.buffered ≡ self.old.buffered) × (self.new.ended ≡ true) }
        ensures reads { ReadsOn self.old.file (F.state files.old) (F.state files.new) }
        ensures quiet { OnErr result (result ≡ Err LineFault.ReadFault) }
        ensures counted { Counts line_cause result (F.state files.old).faults (F.state files.new).faults }
    {
        if self.ended {
            return Ok(false);
        }
        match self.block.fill(files, self.file) {
            Got::Bytes(_) => Ok(true),
            Got::End => {
                self.ended = true;
                Ok(false)
            }
            Got::Failed => Err(LineFault::ReadFault),
        }
    }

    /// Whether a byte is left. If so, it is in the block then.
    pub fn has_more<F: Files>(&mut self, files: &mut F) -> Result<bool, LineFault>
        requires { (F.state files.old).is_open self.old.file ≡ true }
        ensures same { self.new.file ≡ self.old.file }
        ensures bytes { KeepsBytes self.old ((F.state files.old).left self.old.file) self.new ((F.state files.new).left self.old.file) }
        ensures more { result ≡ Ok true → 0 < length self.new.buffered }
        ensures none { result ≡ Ok false → (self.new.buffered ≡ []) × (self.new.ended ≡ true) }
        ensures reads { ReadsOn self.old.file (F.state files.old) (F.state files.new) }
        ensures quiet { OnErr result (result ≡ Err LineFault.ReadFault) }
        ensures counted { Counts line_cause result (F.state files.old).faults (F.state files.new).faults }
    {
        if !self.block.as_slice().is_empty() {
            return Ok(true);
        }
        self.fill(files)
    }

    /// Reads up to the next byte 10 or the end of the file. How many bytes stand before it, all of
    /// them in the block then.
    pub fn find_end<F: Files>(&mut self, files: &mut F) -> Result<usize, LineFault>
        requires { (F.state files.old).is_open self.old.file ≡ true }
        ensures same { self.new.file ≡ self.old.file }
        ensures bytes { KeepsBytes self.old ((F.state files.old).left self.old.file) self.new ((F.state files.new).left self.old.file) }
        ensures more { length self.old.buffered ≤ length self.new.buffered }
        ensures end { IfOk result (λ n. n ≡ before_ten self.new.buffered) }
        ensures most { IfOk result (λ n. n ≤ 65535) }
        ensures whole { IfOk result (λ n. n ≡ length self.new.buffered → self.new.ended ≡ true) }
        ensures long { result ≡ Err LineFault.LineTooLong → 65535 < before_ten self.new.buffered }
        ensures reads { ReadsOn self.old.file (F.state files.old) (F.state files.new) }
        ensures quiet { OnErr result (result ≡ Err LineFault.ReadFault ⊎ result ≡ Err LineFault.LineTooLong) }
        ensures counted { Counts line_cause result (F.state files.old).faults (F.state files.new).faults }
    {
        let mut seen = 0;
        'find: loop {
            let bytes = self.block.as_slice();
            let length = seen + bytes_before_ten(&bytes[seen..]);
            if length > MOST_BYTES {
                return Err(LineFault::LineTooLong);
            }
            if length < bytes.len() {
                return Ok(length);
            }
            seen = length;
            if !self.fill(files)? {
                return Ok(length);
            }
        }
    }

    /// Closes the file.
    pub fn close<F: Files>(self, files: &mut F)
        requires { (F.state files.old).is_open self.file ≡ true }
        ensures closes { Closes self.file (F.state files.old) (F.state files.new) }
        ensures counted { (F.state files.new).faults ≡ (F.state files.old).faults }
    {
        files.close(self.file);
    }
}
