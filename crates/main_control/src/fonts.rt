//! Assignments, with the fonts.

ghost use Rattle.std.specs.Prelude.{◌≡◌, ◌≤◌, List, OnOk};
ghost use Rattle.ts_base.specs.Agreement.{Counts, Uncounted};
ghost use Rattle.ts_outside.specs.States.{FilesState};
ghost use Rattle.jlist_builder.specs.Entries.{Entry};
ghost use Rattle.mouth.specs.Sizes.{size};
ghost use Rattle.mouth.specs.Keeping.{reading, AreOpen, AreTold};
ghost use Rattle.expander.specs.Holding.{Goes};
ghost use Rattle.open_lists.specs.Standing.{StandFor};
ghost use Rattle.shipping.specs.Boxes.{BeginsWith};
ghost use Rattle.control_faults.specs.TurnFaults.{read_cause, sink_cause};
ghost use Rattle.main_control.specs.Worlds.{scene_of};
ghost use Rattle.main_control.specs.Fonts.{font_loaded, load_done, select_done, prepared_done, assign_done};
ghost use Rattle.main_control.specs.Standing.{IsGoing, KeepsFonts, Sets, StayHeld};

use crate::control::Control;
use assignments::{Assignment, Command, Prefixes, carry_out, read_prefixes};
use box_tree::FontNo;
use control_faults::{FaultKind, TurnFault};
use font_commands::{define_font, use_font};
use open_lists::laws::glyphs_stay_of_fonts;
use ts_outside::Files;

impl Control {
    // Loads a font, and makes a name that of it.
    fn load_font<F: Files>(&mut self, files: &mut F, is_global: bool) -> Result<(), TurnFault>
        requires opened { AreOpen self.old.gullet (F.state files.old) }
        requires going { IsGoing self.old }
        ensures exact { AreTold self.old.gullet (F.state files.old)
            → (entries : List (List Entry)) → StandFor self.old.lists entries
            → Sets self.new (F.state files.new) result
            (font_loaded is_global (scene_of self.old (F.state files.old) entries)) }
        ensures goes { Goes self.old.gullet (F.state files.old) self.new.gullet
            (F.state files.new) }
        ensures going { OnOk result (IsGoing self.new) }
        ensures begins { BeginsWith self.new.table self.old.table }
        ensures held { StayHeld (F.state files.old) self.old self.new }
        ensures unshipped { Uncounted sink_cause result }
        ensures size { OnOk result (size (reading self.new.gullet (F.state files.new))
            ≤ size (reading self.old.gullet (F.state files.old))) }
        ensures counted { Counts read_cause result (F.state files.old).faults
            (F.state files.new).faults }
    {
        glyphs_stay_of_fonts();
        define_font(
            self.alloc,
            &mut self.gullet,
            files,
            &mut self.env,
            &mut self.fonts,
            &mut self.table,
            is_global,
        )
    }

    // Loads a font, unless it is to be long.
    fn load<F: Files>(&mut self, files: &mut F, prefixes: Prefixes) -> Result<(), TurnFault>
        requires opened { AreOpen self.old.gullet (F.state files.old) }
        requires going { IsGoing self.old }
        ensures exact { AreTold self.old.gullet (F.state files.old)
            → (entries : List (List Entry)) → StandFor self.old.lists entries
            → Sets self.new (F.state files.new) result
            (load_done prefixes (scene_of self.old (F.state files.old) entries)) }
        ensures goes { Goes self.old.gullet (F.state files.old) self.new.gullet
            (F.state files.new) }
        ensures going { OnOk result (IsGoing self.new) }
        ensures begins { BeginsWith self.new.table self.old.table }
        ensures held { StayHeld (F.state files.old) self.old self.new }
        ensures unshipped { Uncounted sink_cause result }
        ensures size { OnOk result (size (reading self.new.gullet (F.state files.new))
            ≤ size (reading self.old.gullet (F.state files.old))) }
        ensures counted { Counts read_cause result (F.state files.old).faults
            (F.state files.new).faults }
    {
        if prefixes.is_long {
            return Err(TurnFault::Kind(FaultKind::NotInMode));
        }
        self.load_font(files, prefixes.is_global)
    }

    // Selects a font, unless it is to be long.
    fn select(&mut self, prefixes: Prefixes, font: FontNo) -> Result<(), TurnFault>
        requires going { IsGoing self.old }
        ensures exact { (state : FilesState) → (entries : List (List Entry))
            → StandFor self.old.lists entries
            → Sets self.new state result
            (select_done prefixes font (scene_of self.old state entries)) }
        ensures gullet { self.new.gullet ≡ self.old.gullet }
        ensures going { OnOk result (IsGoing self.new) }
        ensures kept { KeepsFonts self.old self.new }
        ensures unread { Uncounted read_cause result }
        ensures unshipped { Uncounted sink_cause result }
    {
        if prefixes.is_long {
            return Err(TurnFault::Kind(FaultKind::NotInMode));
        }
        use_font(&mut self.env, &self.fonts, font, prefixes.is_global)
    }

    // What an assignment does after its prefixes.
    fn perform<F: Files>(
        &mut self,
        files: &mut F,
        prefixes: Prefixes,
        assignment: Assignment,
    ) -> Result<(), TurnFault>
        requires opened { AreOpen self.old.gullet (F.state files.old) }
        requires going { IsGoing self.old }
        ensures exact { AreTold self.old.gullet (F.state files.old)
            → (entries : List (List Entry)) → StandFor self.old.lists entries
            → Sets self.new (F.state files.new) result
            (prepared_done prefixes assignment (scene_of self.old (F.state files.old) entries)) }
        ensures goes { Goes self.old.gullet (F.state files.old) self.new.gullet
            (F.state files.new) }
        ensures going { OnOk result (IsGoing self.new) }
        ensures begins { BeginsWith self.new.table self.old.table }
        ensures held { StayHeld (F.state files.old) self.old self.new }
        ensures unshipped { Uncounted sink_cause result }
        ensures size { OnOk result (size (reading self.new.gullet (F.state files.new))
            ≤ size (reading self.old.gullet (F.state files.old))) }
        ensures counted { Counts read_cause result (F.state files.old).faults
            (F.state files.new).faults }
    {
        match assignment {
            Assignment::LoadFont => self.load(files, prefixes),
            Assignment::SelectFont(font) => self.select(prefixes, font),
            _ => carry_out(
                self.alloc,
                &mut self.gullet,
                files,
                &mut self.env,
                prefixes,
                assignment,
            ),
        }
    }

    /// Carries out an assignment, with the prefixes before it, of which a command is the first.
    #[tactic(auto, unfolding(crate::specs::Fonts::assign_done))]
    pub(crate) fn assign<F: Files>(
        &mut self,
        files: &mut F,
        command: Command,
    ) -> Result<(), TurnFault>
        requires opened { AreOpen self.old.gullet (F.state files.old) }
        requires going { IsGoing self.old }
        ensures exact { AreTold self.old.gullet (F.state files.old)
            → (entries : List (List Entry)) → StandFor self.old.lists entries
            → Sets self.new (F.state files.new) result
            (assign_done command (scene_of self.old (F.state files.old) entries)) }
        ensures goes { Goes self.old.gullet (F.state files.old) self.new.gullet
            (F.state files.new) }
        ensures going { OnOk result (IsGoing self.new) }
        ensures begins { BeginsWith self.new.table self.old.table }
        ensures held { StayHeld (F.state files.old) self.old self.new }
        ensures unshipped { Uncounted sink_cause result }
        ensures size { OnOk result (size (reading self.new.gullet (F.state files.new))
            ≤ size (reading self.old.gullet (F.state files.old))) }
        ensures counted { Counts read_cause result (F.state files.old).faults
            (F.state files.new).faults }
    {
        let (prefixes, assignment) = read_prefixes(
            &mut self.gullet,
            files,
            &mut self.env,
            command,
        )?;
        self.perform(files, prefixes, assignment)
    }
}
