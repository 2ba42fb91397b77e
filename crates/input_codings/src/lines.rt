//! The lines of an open file, one after another.

ghost use Rattle.std.specs.Prelude.{◌≡◌, ◌≢◌, ◌≤◌, ◌<◌, ◌+◌, ℕ, [], true, false, length, drop, IsSome, OnOk, OnErr, IfOk, IfSome, MatchResult, is_err};
ghost use Rattle.ts_base.specs.Agreement.{Agrees, Counts};
ghost use Rattle.ts_outside.specs.States.{OpensIfOk, ReadsOn, Closes};
ghost use Rattle.ts_outside.specs.Reading.{bytes_of};
ghost use Rattle.input_codings.specs.Lines.{next_line, opened, line_cause, open_cause, CountsLine};
ghost use Rattle.input_codings.specs.Reading.{unread, IsAtStart};

use crate::block::Block;
use crate::coding::Coding;
use crate::decode::line_chars;
use crate::fault::{LineFault, OpenFault};
use crate::line::Line;
use crate::source::Source;
use std::alloc::Global;
use std::marker::Model;
use ts_outside::{FileName, Files, Opened};

/// The most lines of a file.
const MOST_LINES: u32 = 1_000_000;

/// An open file whose lines are taken one after another. Contracts see what it keeps, and by
/// `unread` what it stands for.
#[derive(Drop)]
pub struct Lines {
    alloc: Global,
    source: Source,
    coding: Coding,
    line_no: u32,
    failed: bool,
}

impl Model for Lines {
    ghost use Rattle.std.specs.Prelude.{◌≡◌, ◌≤◌, false};
    ghost use Rattle.input_codings.specs.Reading.{LinesView};

    ghost Value = { LinesView };

    ghost view = { λ l. record { file = l.source.file; coding = l.coding; line_no = l.line_no; buffered = l.source.buffered; ended = l.source.ended; failed = l.failed } };

    ghost invariant = { λ l. l.failed ≡ false → l.line_no ≤ 1000000 };
}

impl Lines {
    /// Opens a file at its first line. Refused, it leaves open the files that were open.
    pub fn open<F: Files>(
        alloc: Global,
        files: &mut F,
        name: &FileName,
        coding: Coding,
    ) -> Result<Lines, OpenFault>
        ensures opens { IfSome (F.state files.old).held (λ held.
            Agrees (λ lines. unread lines ((F.state files.new).left lines.file)) open_cause result
            (opened coding (bytes_of held name.now))) }
        ensures told { IfOk result (λ lines. IsSome (F.state files.old).held
            → IsSome ((F.state files.new).left lines.file)) }
        ensures start { IfOk result (λ lines. IsAtStart coding lines) }
        ensures leaves { OpensIfOk (λ lines. lines.file) result (F.state files.old)
            (F.state files.new) }
        ensures counted { Counts open_cause result (F.state files.old).faults (F.state files.new).faults }
    {
        let block = Block::new(alloc)?;
        let file = match files.open(name) {
            Opened::Found(file) => file,
            Opened::Missing => return Err(OpenFault::Missing),
            Opened::Failed => return Err(OpenFault::ReadFault),
            Opened::NoMemory => return Err(OpenFault::NoMemory),
        };
        Ok(Lines {
            alloc,
            source: Source::new(file, block),
            coding,
            line_no: 0,
            failed: false,
        })
    }

    /// Returns the number of the last line that was needed and is there, or 0 before the first.
    pub fn line_no(&self) -> u32
        ensures value { result ≡ self.now.line_no }
        ensures most { self.now.failed ≡ false → result ≤ 1000000 }
    {
        self.line_no
    }

    /// Whether a line was refused. No further line may be asked for then.
    pub fn failed(&self) -> bool
        ensures { result ≡ self.now.failed }
    {
        self.failed
    }

    /// The next line, or none at the end of the file. After a refusal it isn't asked for another.
    /// A line has at most 65,536 characters, the one that ends it counted.
    pub fn next_line<F: Files>(&mut self, files: &mut F) -> Result<Option<Line>, LineFault>
        requires open { (F.state files.old).is_open self.old.file ≡ true }
        requires unfailed { self.old.failed ≡ false }
        ensures exact { IsSome ((F.state files.old).left self.old.file)
            → Agrees (λ line. (line, unread self.new ((F.state files.new).left self.old.file)))
            line_cause result (next_line (unread self.old ((F.state files.old).left self.old.file))) }
        ensures short { IfOk result (λ line. IfSome line (λ chars. length chars ≤ 65536)) }
        ensures file { self.new.file ≡ self.old.file }
        ensures coding { self.new.coding ≡ self.old.coding }
        ensures counts { CountsLine result self.old.line_no self.new.line_no }
        ensures failed { self.new.failed ≡ is_err result }
        ensures reads { ReadsOn self.old.file (F.state files.old) (F.state files.new) }
        ensures counted { Counts line_cause result (F.state files.old).faults (F.state files.new).faults }
    {
        self.failed = true;
        if !self.source.has_more(files)? {
            self.failed = false;
            return Ok(None);
        }
        self.line_no += 1;
        if self.line_no > MOST_LINES {
            return Err(LineFault::TooManyLines);
        }
        let count = self.source.find_end(files)?;
        let chars = line_chars(self.alloc, self.coding, self.source.buffered(), count)?;
        self.source.skip_line(count);
        self.failed = false;
        Ok(Some(Line::new(chars)))
    }

    /// Closes the file.
    pub fn close<F: Files>(self, files: &mut F)
        requires { (F.state files.old).is_open self.file ≡ true }
        ensures closes { Closes self.file (F.state files.old) (F.state files.new) }
        ensures counted { (F.state files.new).faults ≡ (F.state files.old).faults }
    {
        self.source.close(files);
    }
}
