//! Turns, over what is kept of the world.

ghost use Rattle.std.specs.Prelude.{◌≡◌, ◌≤◌, ◌<◌, [], List, Bool, Some, Err, IfOk, IfSome, IsSome, OnOk, OnErr};
ghost use Rattle.ts_base.specs.Agreement.{Agrees, Counts, CountsFault, IsUncounted, Uncounted, with_fault};
ghost use Rattle.ts_outside.specs.States.{Held, FilesState, KeepsAll};
ghost use Rattle.jlist_builder.specs.Entries.{Entry};
ghost use Rattle.open_lists.specs.Standing.{StandFor};
ghost use Rattle.shipping.specs.Boxes.{BeginsWith};
ghost use Rattle.known_fonts.specs.Standing.{AreAsHeld};
ghost use Rattle.mouth.specs.Sizes.{size};
ghost use Rattle.mouth.specs.Keeping.{numbers, reading, place_in, AreOpen, AreTold, LeavesOthers};
ghost use Rattle.expander.specs.Holding.{Goes};
ghost use Rattle.dvi_writer.specs.Reading.{Asked};
ghost use Rattle.mouth.specs.Opening.{before_lines};
ghost use Rattle.control_faults.specs.TurnFaults.{of_gullet, read_cause, sink_cause};
ghost use Rattle.main_control.specs.Endings.{ending_at as the_ending_at, ending_of, ending_read, ending_shipped, halt_read, halt_shipped, stopped_as};
ghost use Rattle.main_control.specs.Worlds.{world, stopped, scene_of};
ghost use Rattle.main_control.specs.Turn.{is_idle as the_idle, ended, quiet_done, acted, turn_of};
ghost use Rattle.main_control.specs.Run.{run_of, first_scene};
ghost use Rattle.main_control.specs.Standing.{Sets, Steps, Runs, BreaksStep, BreaksHalt, IsEnding, IsGoing, IsBegun, StayHeld, Holds, Ships};

use crate::command::{Command, QuietCommand, command_of};
use crate::ending::{Ending, Halt, ending_at};
use assignments::meant;
use control_faults::{FaultKind, TurnFault};
use dvi_writer::FontTable;
use env_groups::{Env, IntKey, IntParam};
use expander::{Gullet, GulletFault, environments_stay_fit};
use font_store::Fonts;
use input_codings::Coding;
use known_fonts::fonts_begin_so;
use mouth::Place;
use open_lists::OpenLists;
use open_lists::laws::glyphs_stay_of_fonts;
use shipping::Shipper;
use std::alloc::Global;
use std::marker::Model;
use ts_outside::{FileName, Files};

/// What is kept of the world while a run goes on. Contracts see neither what is left of the files
/// nor the boxes that were shipped.
#[derive(Drop)]
pub(crate) struct Control {
    pub(crate) alloc: Global,
    pub(crate) gullet: Gullet,
    pub(crate) env: Env,
    pub(crate) fonts: Fonts,
    pub(crate) table: FontTable,
    pub(crate) lists: OpenLists,
}

impl Model for Control {
    ghost use Rattle.main_control.specs.Bodies.{Body, body_code};

    ghost Value = { Body };

    ghost coded = { body_code };

    ghost view = { λ c. record {
      gullet = c.gullet;
      nest = c.env;
      fonts = c.fonts;
      table = c.table;
      lists = c.lists;
    } };
}

// How a run ends where its main file isn't opened.
#[tactic(auto, using(crate::proofs::Joins::start_unshipped))]
fn start_ending(name: &FileName, fault: GulletFault) -> Ending
    ensures unshipped { IsUncounted (ending_shipped result) }
    ensures ending { result ≡ the_ending_at (before_lines name.now) (of_gullet fault) }
{
    let place = Place {
        file: name.same_copy(),
        line: 0,
    };
    ending_at(place, TurnFault::from(fault))
}

impl Control {
    /// Opens the main file, with the environment of the start, without a font, and with the main
    /// list alone.
    pub(crate) fn start<F: Files>(
        alloc: Global,
        files: &mut F,
        name: &FileName,
        coding: Coding,
        budget: u32,
    ) -> Result<Control, Ending>
        ensures exact { IfSome (F.state files.old).held (λ held.
            Agrees (λ c. scene_of c (F.state files.new) []) ending_read result
            (with_fault stopped_as (first_scene held coding budget name.now))) }
        ensures begun { IfOk result IsBegun }
        ensures opened { IfOk result (λ c. AreOpen c.gullet (F.state files.new)) }
        ensures going { IfOk result IsGoing }
        ensures told { IfOk result (λ c. IsSome (F.state files.old).held
            → AreTold c.gullet (F.state files.new)) }
        ensures others { IfOk result (λ c.
            LeavesOthers [] (F.state files.old) (numbers c.gullet) (F.state files.new)) }
        ensures refused { OnErr result (KeepsAll (F.state files.old) (F.state files.new)) }
        ensures unshipped { Uncounted ending_shipped result }
        ensures counted { Counts ending_read result (F.state files.old).faults
            (F.state files.new).faults }
    {
        environments_stay_fit();
        fonts_begin_so();
        glyphs_stay_of_fonts();
        let Ok(env) = Env::new(alloc) else {
            return Err(Ending::NoMemory);
        };
        match Gullet::start(alloc, files, name, coding, budget) {
            Ok(gullet) => Ok(Control {
                alloc,
                gullet,
                env,
                fonts: Fonts::new(alloc),
                table: FontTable::new(alloc),
                lists: OpenLists::new(alloc),
            }),
            Err(fault) => Err(start_ending(name, fault)),
        }
    }

    // Carries out a command that ships nothing.
    #[tactic(auto, unfolding(crate::specs::Turn::quiet_done))]
    fn do_quiet<F: Files>(&mut self, files: &mut F, command: QuietCommand) -> Result<(), TurnFault>
        requires opened { AreOpen self.old.gullet (F.state files.old) }
        requires going { IsGoing self.old }
        ensures exact { AreTold self.old.gullet (F.state files.old)
            → (entries : List (List Entry)) → StandFor self.old.lists entries
            → Sets self.new (F.state files.new) result
            (quiet_done command (scene_of self.old (F.state files.old) entries)) }
        ensures goes { Goes self.old.gullet (F.state files.old) self.new.gullet
            (F.state files.new) }
        ensures going { OnOk result (IsGoing self.new) }
        ensures begins { BeginsWith self.new.table self.old.table }
        ensures held { StayHeld (F.state files.old) self.old self.new }
        ensures unshipped { Uncounted sink_cause result }
        ensures size { OnOk result (size (reading self.new.gullet (F.state files.new))
            ≤ size (reading self.old.gullet (F.state files.old))) }
        ensures counted { Counts read_cause result (F.state files.old).faults
            (F.state files.new).faults }
    {
        match command {
            QuietCommand::Text(command) => self.do_text(files, command),
            QuietCommand::Assign(command) => self.assign(files, command),
            QuietCommand::Put(c) => self.put_in_box(c),
            QuietCommand::PutNumbered => self.put_numbered_in_box(files),
            QuietCommand::Inhibit => {
                self.inhibit();
                Ok(())
            }
            QuietCommand::Space => self.space(),
            QuietCommand::ShipOut => self.want_box(files),
        }
    }

    // Whether `\deadcycles` is 0.
    fn is_idle(&self) -> bool
        ensures { result ≡ the_idle self.now.nest }
    {
        match self.env.get_int(IntKey::Param(IntParam::DeadCycles)) {
            Ok(n) => n == 0,
            Err(_) => false,
        }
    }

    // How turns halt at `\end`.
    #[tactic(auto, using(crate::proofs::Joins::ended_in_box))]
    fn end_halt(&self) -> Halt
        ensures exact { (state : FilesState) → (entries : List (List Entry))
            → (boxes : List Asked) → ended (scene_of self.now state entries) boxes
            ≡ Err (stopped (ending_of (place_in self.now.gullet) result) boxes) }
        ensures quiet { IsUncounted (halt_read result) }
        ensures unshipped { IsUncounted (halt_shipped result) }
        ensures whole { (old : Bool) → BreaksHalt result old old }
    {
        if self.is_in_hbox() {
            return Halt::Refused(TurnFault::Kind(FaultKind::NotInMode));
        }
        if self.is_idle() {
            Halt::Ended
        } else {
            Halt::Refused(TurnFault::Kind(FaultKind::NotBuilt))
        }
    }

    // The group of a command.
    fn act<F: Files, P: Shipper>(
        &mut self,
        files: &mut F,
        shipper: &mut P,
        command: Command,
    ) -> Result<(), Halt>
        requires opened { AreOpen self.old.gullet (F.state files.old) }
        requires going { IsGoing self.old }
        requires ships { Ships (P.stands shipper.old) self.old.table }
        ensures exact { AreTold self.old.gullet (F.state files.old) → (held : List Held)
            → AreAsHeld held self.old.fonts
            → (entries : List (List Entry)) → StandFor self.old.lists entries
            → (boxes : List Asked) → Holds (P.stands shipper.old) held boxes
            → Steps (Holds (P.stands shipper.new) held) self.new (F.state files.new) boxes
            result (acted command (scene_of self.old (F.state files.old) entries) boxes) }
        ensures goes { Goes self.old.gullet (F.state files.old) self.new.gullet
            (F.state files.new) }
        ensures going { OnOk result (IsGoing self.new) }
        ensures ships { OnOk result (Ships (P.stands shipper.new) self.new.table) }
        ensures held { StayHeld (F.state files.old) self.old self.new }
        ensures breaks { BreaksStep result (P.broken shipper.old) (P.broken shipper.new) }
        ensures origin { P.origin shipper.new ≡ P.origin shipper.old }
        ensures read { Counts halt_read result (F.state files.old).faults
            (F.state files.new).faults }
        ensures shipped { Counts halt_shipped result (P.faults shipper.old)
            (P.faults shipper.new) }
        ensures size { OnOk result (size (reading self.new.gullet (F.state files.new))
            ≤ size (reading self.old.gullet (F.state files.old))) }
    {
        match command {
            Command::Quiet(command) => Ok(self.do_quiet(files, command)?),
            Command::CloseBrace => self.close_brace(shipper),
            Command::End => Err(self.end_halt()),
        }
    }

    /// Takes the next unexpandable token, and has its whole effect.
    pub(crate) fn step<F: Files, P: Shipper>(
        &mut self,
        files: &mut F,
        shipper: &mut P,
    ) -> Result<(), Halt>
        requires opened { AreOpen self.old.gullet (F.state files.old) }
        requires going { IsGoing self.old }
        requires ships { Ships (P.stands shipper.old) self.old.table }
        ensures exact { AreTold self.old.gullet (F.state files.old) → (held : List Held)
            → AreAsHeld held self.old.fonts
            → (entries : List (List Entry)) → StandFor self.old.lists entries
            → (boxes : List Asked) → Holds (P.stands shipper.old) held boxes
            → Steps (Holds (P.stands shipper.new) held) self.new (F.state files.new) boxes
            result (turn_of (world (scene_of self.old (F.state files.old) entries) boxes)) }
        ensures goes { Goes self.old.gullet (F.state files.old) self.new.gullet
            (F.state files.new) }
        ensures going { OnOk result (IsGoing self.new) }
        ensures ships { OnOk result (Ships (P.stands shipper.new) self.new.table) }
        ensures held { StayHeld (F.state files.old) self.old self.new }
        ensures breaks { BreaksStep result (P.broken shipper.old) (P.broken shipper.new) }
        ensures origin { P.origin shipper.new ≡ P.origin shipper.old }
        ensures read { Counts halt_read result (F.state files.old).faults
            (F.state files.new).faults }
        ensures shipped { Counts halt_shipped result (P.faults shipper.old)
            (P.faults shipper.new) }
        ensures size { OnOk result (size (reading self.new.gullet (F.state files.new))
            < size (reading self.old.gullet (F.state files.old))) }
    {
        let token = self.take(files)?;
        let command = command_of(&meant(&token, &self.env));
        self.cut_before(&command);
        self.act(files, shipper, command)
    }

    /// Takes turns until one isn't followed by another.
    pub(crate) fn turns<F: Files, P: Shipper>(&mut self, files: &mut F, shipper: &mut P) -> Halt
        requires opened { AreOpen self.old.gullet (F.state files.old) }
        requires going { IsGoing self.old }
        requires ships { Ships (P.stands shipper.old) self.old.table }
        ensures exact { AreTold self.old.gullet (F.state files.old) → (held : List Held)
            → (F.state files.old).held ≡ Some held → AreAsHeld held self.old.fonts
            → (entries : List (List Entry)) → StandFor self.old.lists entries
            → (boxes : List Asked) → Holds (P.stands shipper.old) held boxes
            → Runs (Holds (P.stands shipper.new) held) boxes
            (ending_of (place_in self.new.gullet) result)
            (run_of (world (scene_of self.old (F.state files.old) entries) boxes)) }
        ensures opened { AreOpen self.new.gullet (F.state files.new) }
        ensures others { LeavesOthers (numbers self.old.gullet) (F.state files.old)
            (numbers self.new.gullet) (F.state files.new) }
        ensures breaks { BreaksHalt result (P.broken shipper.old) (P.broken shipper.new) }
        ensures origin { P.origin shipper.new ≡ P.origin shipper.old }
        ensures read { CountsFault (halt_read result) (F.state files.old).faults
            (F.state files.new).faults }
        ensures shipped { CountsFault (halt_shipped result) (P.faults shipper.old)
            (P.faults shipper.new) }
    {
        loop {
            match self.step(files, shipper) {
                Ok(()) => {}
                Err(halt) => return halt,
            }
        }
    }

    // How the run ends here.
    fn ending(&self, halt: Halt) -> Ending
        ensures { IsEnding (ending_of (place_in self.now.gullet) halt) result }
    {
        let fault = match halt {
            Halt::Ended => return Ending::Ended,
            Halt::Refused(TurnFault::ReadFault) => return Ending::ReadFault,
            Halt::Refused(TurnFault::SinkFault) => return Ending::SinkFault,
            Halt::Refused(fault) => fault,
        };
        match self.gullet.place() {
            Ok(place) => ending_at(place, fault),
            Err(_) => Ending::NoMemory,
        }
    }

    /// Closes the files that are open, and returns how the run ends.
    pub(crate) fn end<F: Files>(self, files: &mut F, halt: Halt) -> Ending
        requires opened { AreOpen self.gullet (F.state files.old) }
        ensures ending { IsEnding (ending_of (place_in self.gullet) halt) result }
        ensures others { LeavesOthers (numbers self.gullet) (F.state files.old) []
            (F.state files.new) }
        ensures counted { (F.state files.new).faults ≡ (F.state files.old).faults }
    {
        let ending = self.ending(halt);
        let Control {
            alloc: _,
            gullet,
            env: _,
            fonts: _,
            table: _,
            lists: _,
        } = self;
        gullet.close_all(files);
        ending
    }
}
