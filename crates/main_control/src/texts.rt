//! Commands that touch what is read and the environments alone, and the cut before a command.

ghost use Rattle.std.specs.Prelude.{◌≡◌, ◌≤◌, ◌<◌, List, Ok, OnOk};
ghost use Rattle.ts_base.specs.Agreement.{Counts, Uncounted};
ghost use Rattle.jlist_builder.specs.Entries.{Entry};
ghost use Rattle.ts_outside.specs.States.{FilesState};
ghost use Rattle.mouth.specs.Sizes.{size};
ghost use Rattle.mouth.specs.Keeping.{reading, AgreesAt, AreOpen, AreTold};
ghost use Rattle.expander.specs.Holding.{Goes};
ghost use Rattle.open_lists.specs.Standing.{StandFor};
ghost use Rattle.control_faults.specs.TurnFaults.{read_cause, sink_cause};
ghost use Rattle.assignments.specs.Reads.{next_token};
ghost use Rattle.main_control.specs.Worlds.{text_of, scene_of};
ghost use Rattle.main_control.specs.Groups.{text_done};
ghost use Rattle.main_control.specs.Lists.{cut_by};
ghost use Rattle.main_control.specs.Standing.{IsGoing, IsApart, KeepsFonts, Stands};

use crate::command::{Command, TextCommand};
use crate::control::Control;
use assignments::{change_group, ignore_spaces, take_next};
use control_faults::TurnFault;
use open_lists::laws::glyphs_stay_of_fonts;
use tok_lists::Token;
use ts_outside::Files;

impl Control {
    /// Takes the next unexpandable token.
    pub(crate) fn take<F: Files>(&mut self, files: &mut F) -> Result<Token, TurnFault>
        requires opened { AreOpen self.old.gullet (F.state files.old) }
        requires going { IsGoing self.old }
        ensures exact { AreTold self.old.gullet (F.state files.old)
            → AgreesAt (λ token. (token, text_of self.new (F.state files.new))) read_cause
            self.new.gullet result (next_token (text_of self.old (F.state files.old))) }
        ensures goes { Goes self.old.gullet (F.state files.old) self.new.gullet
            (F.state files.new) }
        ensures going { OnOk result (IsGoing self.new) }
        ensures apart { IsApart self.old self.new }
        ensures unshipped { Uncounted sink_cause result }
        ensures size { OnOk result (size (reading self.new.gullet (F.state files.new))
            < size (reading self.old.gullet (F.state files.old))) }
        ensures counted { Counts read_cause result (F.state files.old).faults
            (F.state files.new).faults }
    {
        take_next(&mut self.gullet, files, &mut self.env)
    }

    /// Ends the run of characters in the innermost list, where a command does that.
    pub(crate) fn cut_before(&mut self, command: &Command)
        requires going { IsGoing self.old }
        ensures exact { (state : FilesState) → (entries : List (List Entry))
            → StandFor self.old.lists entries → Stands self.new state
            (Ok (cut_by command.now (scene_of self.old state entries))) }
        ensures gullet { self.new.gullet ≡ self.old.gullet }
        ensures going { IsGoing self.new }
        ensures kept { KeepsFonts self.old self.new }
    {
        glyphs_stay_of_fonts();
        if command.cuts() {
            self.lists.cut();
        }
    }

    /// Carries out what touches what is read and the environments alone.
    #[tactic(auto, unfolding(crate::specs::Groups::text_done))]
    pub(crate) fn do_text<F: Files>(
        &mut self,
        files: &mut F,
        command: TextCommand,
    ) -> Result<(), TurnFault>
        requires opened { AreOpen self.old.gullet (F.state files.old) }
        requires going { IsGoing self.old }
        ensures exact { AreTold self.old.gullet (F.state files.old)
            → AgreesAt (λ _. text_of self.new (F.state files.new)) read_cause self.new.gullet
            result (text_done command (text_of self.old (F.state files.old))) }
        ensures goes { Goes self.old.gullet (F.state files.old) self.new.gullet
            (F.state files.new) }
        ensures going { OnOk result (IsGoing self.new) }
        ensures apart { IsApart self.old self.new }
        ensures unshipped { Uncounted sink_cause result }
        ensures size { OnOk result (size (reading self.new.gullet (F.state files.new))
            ≤ size (reading self.old.gullet (F.state files.old))) }
        ensures counted { Counts read_cause result (F.state files.old).faults
            (F.state files.new).faults }
    {
        match command {
            TextCommand::Nothing => Ok(()),
            TextCommand::Group(grouping) => change_group(&mut self.env, grouping),
            TextCommand::Refuse(kind) => Err(TurnFault::Kind(kind)),
            TextCommand::IgnoreSpaces => {
                ignore_spaces(self.alloc, &mut self.gullet, files, &mut self.env)
            }
        }
    }
}
