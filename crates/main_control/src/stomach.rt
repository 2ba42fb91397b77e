//! A run, and its turns one by one.

ghost use Rattle.std.specs.Prelude.{◌≡◌, ◌<◌, [], List, None, IfOk, IfSome, IsSome, OnErr};
ghost use Rattle.ts_base.specs.Agreement.{Agrees, Counts, CountsFault};
ghost use Rattle.ts_outside.specs.States.{Held, KeepsAll};
ghost use Rattle.mouth.specs.Keeping.{AreTold, LeavesOthers};
ghost use Rattle.jlist_builder.specs.Entries.{Entry};
ghost use Rattle.open_lists.specs.Standing.{StandFor};
ghost use Rattle.known_fonts.specs.Standing.{AreAsHeld};
ghost use Rattle.dvi_writer.specs.Reading.{Asked};
ghost use Rattle.main_control.specs.Endings.{ending_read, ending_shipped};
ghost use Rattle.main_control.specs.Worlds.{world, scene_of, scene_in};
ghost use Rattle.main_control.specs.Turn.{turn_of};
ghost use Rattle.main_control.specs.Run.{first_scene, meaning, started_as};
ghost use Rattle.main_control.specs.Standing.{IsBegun, ShipsIn, StayHeld, Holds, Runs, Turns, GoesOn, IsLast, CountsTurn, BreaksTurn, BreaksAt, numbers_in, size_in, IsOpen, IsTold};

use crate::control::Control;
use crate::ending::{Ending, Turn};
use input_codings::Coding;
use known_fonts::fonts_begin_so;
use shipping::Shipper;
use std::alloc::Global;
use std::marker::Model;
use ts_outside::{FileName, Files};

/// A run that has begun. Contracts see what is kept of the world, or nothing after the last turn:
/// not what is left of the files, nor the boxes that were shipped.
#[derive(Drop)]
pub struct Stomach {
    control: Option<Control>,
}

impl Model for Stomach {
    ghost use Rattle.std.specs.Prelude.{Option, IfSome};
    ghost use Rattle.std.specs.Coded.{coded_option};
    ghost use Rattle.main_control.specs.Bodies.{Body, body_code};

    ghost Value = { Option Body };

    ghost coded = { coded_option body_code };

    ghost use Rattle.main_control.specs.Standing.{IsGoing};

    ghost view = { λ s. s.control };

    ghost invariant = { λ s. IfSome s.control IsGoing };
}

impl Stomach {
    /// Opens the main file of a run with so many units; the environment is that of the start.
    ///
    /// Refuses with `Fault`, which is `FileMissing` at line 0 exactly where there is no such file,
    /// `ReadFault` and `NoMemory` alone. Refused, it leaves open the files that were open.
    pub fn start<F: Files>(
        alloc: Global,
        files: &mut F,
        name: &FileName,
        coding: Coding,
        budget: u32,
    ) -> Result<Stomach, Ending>
        ensures exact { IfSome (F.state files.old).held (λ held.
            Agrees (λ s. scene_in s (F.state files.new) []) ending_read result
            (started_as (first_scene held coding budget name.now))) }
        ensures begun { IfOk result (λ s. IfSome s IsBegun) }
        ensures opened { IfOk result (λ s. IsOpen s (F.state files.new)) }
        ensures told { IfOk result (λ s. IsSome (F.state files.old).held
            → IsTold s (F.state files.new)) }
        ensures others { IfOk result (λ s.
            LeavesOthers [] (F.state files.old) (numbers_in s) (F.state files.new)) }
        ensures refused { OnErr result (KeepsAll (F.state files.old) (F.state files.new)) }
        ensures counted { Counts ending_read result (F.state files.old).faults
            (F.state files.new).faults }
    {
        let control = Control::start(alloc, files, name, coding, budget)?;
        Ok(Stomach {
            control: Some(control),
        })
    }

    /// Takes the next unexpandable token, and has its whole effect (The TeXbook, chapters 24 and
    /// 25). The last turn closes the files, and no other may follow it.
    pub fn turn<F: Files, P: Shipper>(&mut self, files: &mut F, shipper: &mut P) -> Turn
        requires opened { IsOpen self.old (F.state files.old) }
        requires ships { ShipsIn (P.stands shipper.old) self.old }
        ensures exact { IfSome self.old (λ b. AreTold b.gullet (F.state files.old)
            → (held : List Held) → AreAsHeld held b.fonts
            → (entries : List (List Entry)) → StandFor b.lists entries
            → (boxes : List Asked) → Holds (P.stands shipper.old) held boxes
            → Turns (Holds (P.stands shipper.new) held) self.new (F.state files.new) boxes
            result (turn_of (world (scene_of b (F.state files.old) entries) boxes))) }
        ensures ships { GoesOn result (ShipsIn (P.stands shipper.new) self.new) }
        ensures held { GoesOn result (IfSome self.old (λ old. IfSome self.new (λ new.
            StayHeld (F.state files.old) old new))) }
        ensures opened { GoesOn result (IsOpen self.new (F.state files.new)) }
        ensures told { GoesOn result (IsTold self.old (F.state files.old)
            → IsTold self.new (F.state files.new)) }
        ensures ends { IsLast result (self.new ≡ None) }
        ensures others { LeavesOthers (numbers_in self.old) (F.state files.old)
            (numbers_in self.new) (F.state files.new) }
        ensures breaks { BreaksTurn result (P.broken shipper.old) (P.broken shipper.new) }
        ensures origin { P.origin shipper.new ≡ P.origin shipper.old }
        ensures read { CountsTurn ending_read result (F.state files.old).faults
            (F.state files.new).faults }
        ensures shipped { CountsTurn ending_shipped result (P.faults shipper.old)
            (P.faults shipper.new) }
        ensures size { GoesOn result (size_in self.new (F.state files.new)
            < size_in self.old (F.state files.old)) }
    {
        let Some(mut control) = self.control.take() else {
            return Turn::Last(Ending::NoMemory);
        };
        match control.step(files, shipper) {
            Ok(()) => {
                self.control = Some(control);
                Turn::More
            }
            Err(halt) => Turn::Last(control.end(files, halt)),
        }
    }

    /// Runs a source with so many units: turns from its start until one ends the run. It needs a
    /// shipper that took no box.
    ///
    /// `Ended`, `Fault` and `Budget` come exactly where the source means it, where no call on files
    /// or shipper failed; the boxes that it means are then shipped. On every ending the files that
    /// were opened are closed.
    pub fn run<F: Files, P: Shipper>(
        alloc: Global,
        files: &mut F,
        shipper: &mut P,
        name: &FileName,
        coding: Coding,
        budget: u32,
    ) -> Ending
        requires none { P.stands shipper.old [] }
        ensures exact { IfSome (F.state files.old).held (λ held.
            Runs (Holds (P.stands shipper.new) held) [] result
            (meaning held coding budget name.now)) }
        ensures kept { KeepsAll (F.state files.old) (F.state files.new) }
        ensures breaks { BreaksAt result (P.broken shipper.old) (P.broken shipper.new) }
        ensures origin { P.origin shipper.new ≡ P.origin shipper.old }
        ensures read { CountsFault (ending_read result) (F.state files.old).faults
            (F.state files.new).faults }
        ensures shipped { CountsFault (ending_shipped result) (P.faults shipper.old)
            (P.faults shipper.new) }
    {
        fonts_begin_so();
        match Control::start(alloc, files, name, coding, budget) {
            Ok(mut control) => {
                let halt = control.turns(files, shipper);
                control.end(files, halt)
            }
            Err(ending) => ending,
        }
    }
}
