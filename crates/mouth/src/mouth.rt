//! The mouth.

ghost use Rattle.std.specs.Prelude.{◌≡◌, ◌≤◌, ◌+◌, [], OnOk, OnErr, IfOk, IfErr, IfSome, IsSome};
ghost use Rattle.ts_base.specs.Agreement.{Agrees, Counts, with_fault};
ghost use Rattle.ts_outside.specs.States.{KeepsAll};
ghost use Rattle.tok_lists.specs.StartNames.{start_names};
ghost use Rattle.mouth.specs.Reading.{at_place, stop_cause, mouth_cause};
ghost use Rattle.mouth.specs.Opening.{started, with_file, before_lines, IsStartFault};
ghost use Rattle.mouth.specs.Sizes.{size};
ghost use Rattle.mouth.specs.Keeping.{number_of, numbers, reading, place_in, AgreesAt, AreOpen, AreTold, IsReadable, LeavesOthers};

use crate::allowed::Allowed;
use crate::fault::MouthFault;
use crate::input::InputFile;
use crate::place::Place;
use crate::stack::{count, pop_file, push_file};
use input_codings::Coding;
use std::alloc::Global;
use std::marker::Model;
use std::mem;
use tok_lists::Names;
use ts_outside::{FileName, Files};

/// How many files may be open.
const MOST_FILES: usize = 15;

/// What expansion reads: open files with their pending tokens, the innermost first, and what it
/// takes and leaves beside them (The TeXbook, chapters 7, 8 and 20). Contracts see what it keeps,
/// and by `reading` what it stands for.
#[derive(Drop)]
pub struct Mouth {
    pub(crate) innermost: InputFile,
    // The files below it, the outermost first.
    pub(crate) below: Vec<InputFile>,
    pub(crate) names: Names,
    pub(crate) units: u32,
    pub(crate) begun: u32,
    // The outermost first.
    pub(crate) conditionals: Vec<Allowed>,
    pub(crate) inside: u64,
    pub(crate) coding: Coding,
    pub(crate) alloc: Global,
}

impl Model for Mouth {
    ghost use Rattle.std.specs.Prelude.{reverse};
    ghost use Rattle.mouth.specs.Keeping.{MouthView, IsMouth};

    ghost Value = { MouthView };

    ghost view = { λ m. record { innermost = m.innermost; below = reverse m.below.items; names = m.names; units = m.units; begun = m.begun; conditionals = m.conditionals.items; inside = m.inside; coding = m.coding } };

    ghost invariant = { λ m. IsMouth m.innermost (reverse m.below.items) m.names m.begun };
}

impl Mouth {
    /// Opens the main file, with the names that have a meaning at the start and so many units.
    /// Refuses with `FileMissing`, `ReadFault` and `NoMemory` alone; refused, it leaves open the
    /// files that were open.
    pub fn start<F: Files>(
        alloc: Global,
        files: &mut F,
        name: &FileName,
        coding: Coding,
        units: u32,
    ) -> Result<Mouth, MouthFault>
        ensures exact { IfSome (F.state files.old).held (λ held.
            Agrees (λ mouth. reading mouth (F.state files.new)) (stop_cause mouth_cause)
            (with_fault (at_place (before_lines name.now)) result)
            (started held coding units name.now)) }
        ensures refuses { IfErr result IsStartFault }
        ensures opened { IfOk result (λ mouth. AreOpen mouth (F.state files.new)) }
        ensures readable { IfOk result IsReadable }
        ensures told { IfOk result (λ mouth. IsSome (F.state files.old).held
            → AreTold mouth (F.state files.new)) }
        ensures others { IfOk result (λ mouth.
            LeavesOthers [] (F.state files.old) (numbers mouth) (F.state files.new)) }
        ensures refused { OnErr result (KeepsAll (F.state files.old) (F.state files.new)) }
        ensures names { IfOk result (λ mouth. mouth.names ≡ start_names) }
        ensures counted { Counts mouth_cause result (F.state files.old).faults
            (F.state files.new).faults }
    {
        let names = Names::new(alloc)?;
        let innermost = InputFile::open(alloc, files, name, coding)?;
        Ok(Mouth {
            innermost,
            below: Vec::new(alloc),
            names,
            units,
            begun: 0,
            conditionals: Vec::new(alloc),
            inside: 0,
            coding,
            alloc,
        })
    }

    /// Returns the place: the innermost open file, and the number of its last line that was needed
    /// and is there, or 0 before the first.
    pub fn place(&self) -> Place
        ensures { result ≡ place_in self.now }
    {
        Place {
            file: self.innermost.name(),
            line: self.innermost.line_no(),
        }
    }

    /// Opens a file whose tokens come before what is left of the open ones (The TeXbook, chapter
    /// 20, `\input`). `InputsFull` comes exactly where 15 files are open, and else `FileMissing`
    /// exactly where the name isn't held. Refused, it leaves everything as it was.
    pub fn open<F: Files>(&mut self, files: &mut F, name: &FileName) -> Result<(), MouthFault>
        requires opened { AreOpen self.old (F.state files.old) }
        requires readable { IsReadable self.old }
        ensures exact { AreTold self.old (F.state files.old)
            → AgreesAt (λ _. reading self.new (F.state files.new)) mouth_cause self.new result
            (with_file name.now (reading self.old (F.state files.old))) }
        ensures opened { AreOpen self.new (F.state files.new) }
        ensures readable { IsReadable self.new }
        ensures told { AreTold self.old (F.state files.old) → AreTold self.new (F.state files.new) }
        ensures others { LeavesOthers (numbers self.old) (F.state files.old)
            (numbers self.new) (F.state files.new) }
        ensures refused { OnErr result ((self.new ≡ self.old)
            × KeepsAll (F.state files.old) (F.state files.new)) }
        ensures names { self.new.names ≡ self.old.names }
        ensures size { size (reading self.new (F.state files.new))
            ≤ size (reading self.old (F.state files.old)) + 65536000000 }
        ensures counted { Counts mouth_cause result (F.state files.old).faults
            (F.state files.new).faults }
    {
        if count(&self.below) + 1 >= MOST_FILES {
            return Err(MouthFault::InputsFull);
        }
        self.below.reserve(1)?;
        let file = InputFile::open(self.alloc, files, name, self.coding)?;
        let below = mem::replace(&mut self.innermost, file);
        push_file(&mut self.below, below);
        Ok(())
    }

    /// Closes every open file.
    pub fn close_all<F: Files>(self, files: &mut F)
        requires { AreOpen self (F.state files.old) }
        ensures others { LeavesOthers (numbers self) (F.state files.old) [] (F.state files.new) }
        ensures counted { (F.state files.new).faults ≡ (F.state files.old).faults }
    {
        self.innermost.close(files);
        let mut below = self.below;
        while let Some(file) = pop_file(&mut below) {
            file.close(files);
        }
    }
}
