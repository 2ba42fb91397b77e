//! The eyes of an open file.

ghost use Rattle.std.specs.Prelude.{◌≡◌, ◌≢◌, ◌≤◌, ◌+◌, true, false, [], length, drop, IsSome, Some, Option, is_err, Ok, Err, Bool, Result, OnOk, OnErr, IfOk, IfSome};
ghost use Rattle.ts_base.specs.Agreement.{Agrees, Counts, with_fault};
ghost use Rattle.ts_outside.specs.States.{OpensIfOk, ReadsOn, Closes};
ghost use Rattle.ts_outside.specs.Reading.{bytes_of};
ghost use Rattle.input_codings.specs.Reading.{IsReadOn};
ghost use Rattle.kcat_eyes.specs.Eyes.{next as the_next, at_line};
ghost use Rattle.kcat_eyes.specs.Finds.{glance_of, IsInLine};
ghost use Rattle.kcat_eyes.specs.Sights.{line_in, sight_of, eye_cause, look_cause, first_sight, SeesNames, ahead, Lowers};
ghost use Rattle.input_codings.specs.Lines.{open_cause};

use crate::fault::EyeFault;
use crate::find::Find;
use crate::present::{Present, find, see, turn};
use crate::seen::Seen;
use crate::state::State;
use input_codings::{Coding, Lines, OpenFault};
use std::alloc::Global;
use std::marker::Model;
use tok_lists::{CodeTable, Names};
use ts_outside::{FileName, Files};

/// The eyes of an open file, which give its tokens one after another. Contracts see what they
/// keep, and by `sight_of` what they are about to read.
#[derive(Drop)]
pub struct Eyes {
    lines: Lines,
    present: Present,
    // Whether the file ends after the present line, or after its first one.
    ends: bool,
}

impl Model for Eyes {
    ghost use Rattle.std.specs.Prelude.{◌≤◌, length, drop};
    ghost use Rattle.kcat_eyes.specs.Sights.{EyesView, line_in};

    ghost Value = { EyesView };

    ghost view = { λ e. record { lines = e.lines; state = e.present.state; rest = drop e.present.at (line_in e.present.line); ends = e.ends } };

    ghost invariant = { λ e. e.present.at ≤ length (line_in e.present.line) };
}

fn is_nothing(found: Find) -> bool
    ensures nothing { result ≡ true → found ≡ Find.Nothing }
    ensures something { result ≡ false → found ≢ Find.Nothing }
{
    matches!(found, Find::Nothing)
}

impl Eyes {
    /// Opens a file before its first line. Refused, it leaves open the files that were open.
    pub fn open<F: Files>(
        alloc: Global,
        files: &mut F,
        name: &FileName,
        coding: Coding,
    ) -> Result<Eyes, OpenFault>
        ensures opens { IfSome (F.state files.old).held (λ held.
            Agrees (λ eyes. sight_of eyes ((F.state files.new).left eyes.lines.file)) open_cause
            result (first_sight coding (bytes_of held name.now))) }
        ensures told { IfOk result (λ eyes. IsSome (F.state files.old).held
            → IsSome ((F.state files.new).left eyes.lines.file)) }
        ensures unfailed { IfOk result (λ eyes. eyes.lines.failed ≡ false) }
        ensures start { IfOk result (λ eyes. (eyes.lines.line_no ≡ 0) × (eyes.rest ≡ [])) }
        ensures leaves { OpensIfOk (λ eyes. eyes.lines.file) result (F.state files.old)
            (F.state files.new) }
        ensures counted { Counts open_cause result (F.state files.old).faults (F.state files.new).faults }
    {
        let lines = Lines::open(alloc, files, name, coding)?;
        let present = Present {
            line: None,
            at: 0,
            state: State::NewLine,
        };
        Ok(Eyes {
            lines,
            present,
            ends: false,
        })
    }

    /// Returns the number of the last line that was needed and is there, or 0 before the first.
    pub fn line_no(&self) -> u32
        ensures value { result ≡ self.now.lines.line_no }
        ensures most { self.now.lines.failed ≡ false → result ≤ 1000000 }
    {
        self.lines.line_no()
    }

    /// Ends the file after the present line, of which the rest is still read; before the first
    /// line was taken, after the first line (The TeXbook, chapter 20).
    pub fn end_after_line(&mut self)
        ensures { self.new ≡ record { lines = self.old.lines; state = self.old.state; rest = self.old.rest; ends = true } }
    {
        self.ends = true;
    }

    /// Closes the file.
    pub fn close<F: Files>(self, files: &mut F)
        requires { (F.state files.old).is_open self.lines.file ≡ true }
        ensures closes { Closes self.lines.file (F.state files.old) (F.state files.new) }
        ensures counted { (F.state files.new).faults ≡ (F.state files.old).faults }
    {
        self.lines.close(files);
    }

    /// Returns the next token, or the end of the file. After a fault, whose line is `line_no`, it
    /// isn't asked for another. How many characters may still be seen falls with each token.
    #[tactic(auto, unfolding(crate::specs::Sights::ahead))]
    pub fn next<F: Files, C: CodeTable>(
        &mut self,
        files: &mut F,
        codes: &C,
        names: &mut Names,
    ) -> Result<Seen, EyeFault>
        requires open { (F.state files.old).is_open self.old.lines.file ≡ true }
        requires unfailed { self.old.lines.failed ≡ false }
        ensures exact { IsSome ((F.state files.old).left self.old.lines.file)
            → Agrees (λ seen. record { seen = seen; names = names.new; sight = sight_of self.new ((F.state files.new).left self.old.lines.file) }) look_cause
            (with_fault (at_line self.new.lines.line_no) result) (the_next (C.codes codes.now)
            names.old (sight_of self.old ((F.state files.old).left self.old.lines.file))) }
        ensures lines { IsReadOn self.old.lines self.new.lines }
        ensures lowers { Lowers result (ahead self.old.lines.line_no self.old.rest)
            (ahead self.new.lines.line_no self.new.rest) }
        ensures unfailed { OnOk result (self.new.lines.failed ≡ false) }
        ensures names { SeesNames result names.old names.new }
        ensures reads { ReadsOn self.old.lines.file (F.state files.old) (F.state files.new) }
        ensures counted { Counts eye_cause result (F.state files.old).faults (F.state files.new).faults }
    {
        let mut found = find(&self.present, codes);
        while is_nothing(found) {
            if !turn(&mut self.present, &mut self.lines, self.ends, files)? {
                return Ok(Seen::End);
            }
            found = find(&self.present, codes);
        }
        see(&mut self.present, found, names)
    }
}
