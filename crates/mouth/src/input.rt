//! Open files.

ghost use Rattle.std.specs.Prelude.{◌≡◌, ◌≤◌, ◌+◌, List, [], true, false, length, OnOk, OnErr, IfOk, IfSome, IsSome};
ghost use Rattle.ts_base.specs.Agreement.{Agrees, Counts, with_fault};
ghost use Rattle.ts_outside.specs.States.{OpensIfOk, ReadsOn, Closes};
ghost use Rattle.ts_outside.specs.Reading.{bytes_of};
ghost use Rattle.input_codings.specs.Lines.{open_cause};
ghost use Rattle.tok_lists.specs.declared.spelling.Spelling.{Spelling};
ghost use Rattle.tok_lists.specs.Names.{Grew, AreHeld, HasNoParam};
ghost use Rattle.tok_lists.specs.Pending.{put_before, pending_cause, with_arguments, AreParamsWithin, HaveNoParam};
ghost use Rattle.kcat_eyes.specs.Eyes.{at_line};
ghost use Rattle.kcat_eyes.specs.Sights.{eye_cause, look_cause, Lowers};
ghost use Rattle.mouth.specs.Tokens.{given};
ghost use Rattle.mouth.specs.Opening.{first_file};
ghost use Rattle.mouth.specs.Keeping.{FileView, ended_eyes, file_of, number_of, IsUnfailed, IsGiven};
ghost use Rattle.mouth.specs.Sizes.{size_in};

use input_codings::{Coding, OpenFault};
use kcat_eyes::{EyeFault, Eyes, Seen};
use std::alloc::Global;
use std::marker::Model;
use tok_lists::{Args, CodeTable, Names, Pending, PendingFault, SharedTokens};
use ts_outside::{FileName, Files};

/// An open file, with the tokens that are read before its rest.
#[derive(Drop)]
pub(crate) struct InputFile {
    name: FileName,
    eyes: Eyes,
    pending: Pending,
}

impl Model for InputFile {
    ghost use Rattle.mouth.specs.Keeping.{FileView};

    ghost Value = { FileView };

    ghost view = { λ f. record { name = f.name; eyes = f.eyes; pending = f.pending } };
}

impl InputFile {
    /// Opens a file before its first line, with no token pending. Refused, it leaves open the
    /// files that were open.
    #[tactic(auto, unfolding(kcat_eyes::specs::Sights::ahead))]
    pub(crate) fn open<F: Files>(
        alloc: Global,
        files: &mut F,
        name: &FileName,
        coding: Coding,
    ) -> Result<InputFile, OpenFault>
        ensures opens { IfSome (F.state files.old).held (λ held.
            Agrees (λ file. file_of (F.state files.new) file) open_cause result
            (first_file coding name.now (bytes_of held name.now))) }
        ensures told { IfOk result (λ file. IsSome (F.state files.old).held
            → IsSome ((F.state files.new).left (number_of file))) }
        ensures unfailed { IfOk result IsUnfailed }
        ensures pending { IfOk result (λ file. file.pending ≡ []) }
        ensures size { IfOk result (λ file. size_in file ≤ 65536000000) }
        ensures leaves { OpensIfOk number_of result (F.state files.old) (F.state files.new) }
        ensures counted { Counts open_cause result (F.state files.old).faults
            (F.state files.new).faults }
    {
        let eyes = Eyes::open(alloc, files, name, coding)?;
        Ok(InputFile {
            name: name.same_copy(),
            eyes,
            pending: Pending::new(alloc),
        })
    }

    /// Returns its name.
    pub(crate) fn name(&self) -> FileName
        ensures { result ≡ self.now.name }
    {
        self.name.same_copy()
    }

    /// Returns the number of the last line that was needed and is there, or 0 before the first.
    pub(crate) fn line_no(&self) -> u32
        ensures { result ≡ self.now.eyes.lines.line_no }
    {
        self.eyes.line_no()
    }

    /// Returns the next token, or the end of the file. A fault is in the line that `line_no`
    /// gives.
    pub(crate) fn next<F: Files, C: CodeTable>(
        &mut self,
        files: &mut F,
        codes: &C,
        names: &mut Names,
    ) -> Result<Seen, EyeFault>
        requires open { (F.state files.old).is_open (number_of self.old) ≡ true }
        requires unfailed { IsUnfailed self.old }
        requires held { AreHeld names.old self.old.pending }
        ensures exact { IsSome ((F.state files.old).left (number_of self.old))
            → Agrees (λ seen. record {
              seen = seen;
              names = names.new;
              file = file_of (F.state files.new) self.new;
            }) look_cause
            (with_fault (at_line self.new.eyes.lines.line_no) result)
            (given (C.codes codes.now) names.old (file_of (F.state files.old) self.old)) }
        ensures same { (self.new.name ≡ self.old.name) × (number_of self.new ≡ number_of self.old) }
        ensures unfailed { OnOk result (IsUnfailed self.new) }
        ensures given { IfOk result (IsGiven names.new) }
        ensures held { AreHeld names.new self.new.pending }
        ensures names { Grew names.old names.new }
        ensures lowers { Lowers result (size_in self.old) (size_in self.new) }
        ensures reads { ReadsOn (number_of self.old) (F.state files.old) (F.state files.new) }
        ensures counted { Counts eye_cause result (F.state files.old).faults
            (F.state files.new).faults }
    {
        match self.pending.take() {
            Some(token) => Ok(Seen::Token(token)),
            None => self.eyes.next(files, codes, names),
        }
    }

    /// Puts a list in front of the pending tokens. Refused, it leaves them.
    #[tactic(auto, using(crate::proofs::Sizing::put_held, crate::proofs::Sizing::put_most))]
    pub(crate) fn push_list(&mut self, list: &SharedTokens) -> Result<(), PendingFault>
        requires { HasNoParam list.now }
        ensures answer { Agrees (λ _. self.new.pending) pending_cause result
            (put_before list.now self.old.pending) }
        ensures rest { self.new ≡ record {
          name = self.old.name;
          eyes = self.old.eyes;
          pending = self.new.pending;
        } }
        ensures err { OnErr result (self.new ≡ self.old) }
        ensures held { (names : List Spelling) → AreHeld names list.now
            → AreHeld names self.old.pending → AreHeld names self.new.pending }
        ensures size { size_in self.new ≤ size_in self.old + 1000000 }
    {
        self.pending.push_list(list)
    }

    /// Puts a macro's body with its arguments in front of the pending tokens. Refused, it leaves
    /// them.
    #[tactic(auto, using(crate::proofs::Sizing::put_held, crate::proofs::Sizing::put_most))]
    pub(crate) fn push_call(&mut self, body: &SharedTokens, args: Args) -> Result<(), PendingFault>
        requires params { AreParamsWithin (length args) body.now }
        requires no_param { HaveNoParam args }
        ensures answer { Agrees (λ _. self.new.pending) pending_cause result
            (put_before (with_arguments args body.now) self.old.pending) }
        ensures rest { self.new ≡ record {
          name = self.old.name;
          eyes = self.old.eyes;
          pending = self.new.pending;
        } }
        ensures err { OnErr result (self.new ≡ self.old) }
        ensures held { (names : List Spelling) → AreHeld names (with_arguments args body.now)
            → AreHeld names self.old.pending → AreHeld names self.new.pending }
        ensures size { size_in self.new ≤ size_in self.old + 1000000 }
    {
        self.pending.push_call(body, args)
    }

    /// Ends the file after the present line, or after its first one where none was taken yet.
    pub(crate) fn end_after_line(&mut self)
        ensures { self.new ≡ record {
          name = self.old.name;
          eyes = ended_eyes self.old.eyes;
          pending = self.old.pending;
        } }
    {
        self.eyes.end_after_line();
    }

    /// Closes the file.
    pub(crate) fn close<F: Files>(self, files: &mut F)
        requires { (F.state files.old).is_open (number_of self) ≡ true }
        ensures closes { Closes (number_of self) (F.state files.old) (F.state files.new) }
        ensures counted { (F.state files.new).faults ≡ (F.state files.old).faults }
    {
        self.eyes.close(files);
    }
}
