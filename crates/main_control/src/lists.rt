//! Commands of open lists that ship nothing.

ghost use Rattle.std.specs.Prelude.{◌≡◌, ◌≤◌, List, true, Ok, OnOk};
ghost use Rattle.ts_base.specs.Agreement.{Counts, Uncounted};
ghost use Rattle.ts_outside.specs.States.{FilesState};
ghost use Rattle.jlist_builder.specs.Entries.{Entry};
ghost use Rattle.mouth.specs.Sizes.{size};
ghost use Rattle.mouth.specs.Keeping.{reading, AreOpen, AreTold};
ghost use Rattle.expander.specs.Holding.{Goes};
ghost use Rattle.open_lists.specs.Standing.{StandFor, IsInHbox};
ghost use Rattle.control_faults.specs.TurnFaults.{read_cause, sink_cause};
ghost use Rattle.main_control.specs.Worlds.{scene_of};
ghost use Rattle.main_control.specs.Lists.{is_in_hbox as the_in_hbox, in_hbox, char_added, numbered_added, inhibited, spaced, hbox_unless, box_wanted};
ghost use Rattle.main_control.specs.Standing.{IsGoing, Stands, Sets, KeepsFonts};

use crate::command::no_box;
use crate::control::Control;
use assignments::{meant, take_solid};
use control_faults::{FaultKind, TurnFault};
use env_groups::Mode;
use jis_codes::Char;
use list_commands::{begin_hbox, put_char, read_char};
use open_lists::BoxContext;
use open_lists::laws::glyphs_stay_of_fonts;
use ts_outside::Files;

impl Control {
    /// Returns whether the innermost list is that of an `\hbox`.
    pub(crate) fn is_in_hbox(&self) -> bool
        ensures lists { (state : FilesState) → (entries : List (List Entry))
            → result ≡ the_in_hbox (scene_of self.now state entries) }
        ensures hbox { result ≡ true → IsInHbox self.now.lists.inner }
    {
        matches!(self.lists.situation().mode, Mode::Restricted)
    }

    /// Adds a character to the innermost list.
    pub(crate) fn put(&mut self, c: Char) -> Result<(), TurnFault>
        requires going { IsGoing self.old }
        ensures exact { (state : FilesState) → (entries : List (List Entry))
            → StandFor self.old.lists entries
            → Sets self.new state result (char_added c (scene_of self.old state entries)) }
        ensures gullet { self.new.gullet ≡ self.old.gullet }
        ensures going { OnOk result (IsGoing self.new) }
        ensures kept { KeepsFonts self.old self.new }
        ensures unread { Uncounted read_cause result }
        ensures unshipped { Uncounted sink_cause result }
    {
        put_char(&self.env, &self.fonts, &mut self.lists, c)
    }

    /// Adds the character of a number: `\char`.
    pub(crate) fn put_numbered<F: Files>(&mut self, files: &mut F) -> Result<(), TurnFault>
        requires opened { AreOpen self.old.gullet (F.state files.old) }
        requires going { IsGoing self.old }
        ensures exact { AreTold self.old.gullet (F.state files.old)
            → (entries : List (List Entry)) → StandFor self.old.lists entries
            → Sets self.new (F.state files.new) result
            (numbered_added (scene_of self.old (F.state files.old) entries)) }
        ensures goes { Goes self.old.gullet (F.state files.old) self.new.gullet
            (F.state files.new) }
        ensures going { OnOk result (IsGoing self.new) }
        ensures kept { KeepsFonts self.old self.new }
        ensures unshipped { Uncounted sink_cause result }
        ensures size { OnOk result (size (reading self.new.gullet (F.state files.new))
            ≤ size (reading self.old.gullet (F.state files.old))) }
        ensures counted { Counts read_cause result (F.state files.old).faults
            (F.state files.new).faults }
    {
        let c = read_char(&mut self.gullet, files, &mut self.env)?;
        self.put(c)
    }

    /// Adds a character to the list of an `\hbox`.
    pub(crate) fn put_in_box(&mut self, c: Char) -> Result<(), TurnFault>
        requires going { IsGoing self.old }
        ensures exact { (state : FilesState) → (entries : List (List Entry))
            → StandFor self.old.lists entries → Sets self.new state result
            (in_hbox (char_added c) (scene_of self.old state entries)) }
        ensures gullet { self.new.gullet ≡ self.old.gullet }
        ensures going { OnOk result (IsGoing self.new) }
        ensures kept { KeepsFonts self.old self.new }
        ensures unread { Uncounted read_cause result }
        ensures unshipped { Uncounted sink_cause result }
    {
        if self.is_in_hbox() {
            self.put(c)
        } else {
            Err(TurnFault::Kind(FaultKind::NotBuilt))
        }
    }

    /// Adds the character of a number to the list of an `\hbox`: `\char`.
    pub(crate) fn put_numbered_in_box<F: Files>(&mut self, files: &mut F) -> Result<(), TurnFault>
        requires opened { AreOpen self.old.gullet (F.state files.old) }
        requires going { IsGoing self.old }
        ensures exact { AreTold self.old.gullet (F.state files.old)
            → (entries : List (List Entry)) → StandFor self.old.lists entries
            → Sets self.new (F.state files.new) result
            (in_hbox numbered_added (scene_of self.old (F.state files.old) entries)) }
        ensures goes { Goes self.old.gullet (F.state files.old) self.new.gullet
            (F.state files.new) }
        ensures going { OnOk result (IsGoing self.new) }
        ensures kept { KeepsFonts self.old self.new }
        ensures unshipped { Uncounted sink_cause result }
        ensures size { OnOk result (size (reading self.new.gullet (F.state files.new))
            ≤ size (reading self.old.gullet (F.state files.old))) }
        ensures counted { Counts read_cause result (F.state files.old).faults
            (F.state files.new).faults }
    {
        if self.is_in_hbox() {
            self.put_numbered(files)
        } else {
            Err(TurnFault::Kind(FaultKind::NotBuilt))
        }
    }

    /// Passes over a space in a vertical list.
    pub(crate) fn space(&self) -> Result<(), TurnFault>
        ensures exact { (state : FilesState) → (entries : List (List Entry))
            → StandFor self.now.lists entries
            → Sets self.now state result (spaced (scene_of self.now state entries)) }
        ensures unread { Uncounted read_cause result }
        ensures unshipped { Uncounted sink_cause result }
    {
        if self.is_in_hbox() {
            Err(TurnFault::Kind(FaultKind::NotBuilt))
        } else {
            Ok(())
        }
    }

    /// Adds an inhibit to the innermost list: `\inhibitglue`.
    pub(crate) fn inhibit(&mut self)
        requires going { IsGoing self.old }
        ensures exact { (state : FilesState) → (entries : List (List Entry))
            → StandFor self.old.lists entries
            → Stands self.new state (Ok (inhibited (scene_of self.old state entries))) }
        ensures gullet { self.new.gullet ≡ self.old.gullet }
        ensures going { IsGoing self.new }
        ensures kept { KeepsFonts self.old self.new }
    {
        glyphs_stay_of_fonts();
        self.lists.inhibit();
    }

    // Begins the box that is shipped at its end, unless something else stands there.
    fn begin_box<F: Files>(
        &mut self,
        files: &mut F,
        refusal: Option<FaultKind>,
    ) -> Result<(), TurnFault>
        requires opened { AreOpen self.old.gullet (F.state files.old) }
        requires going { IsGoing self.old }
        ensures exact { AreTold self.old.gullet (F.state files.old)
            → (entries : List (List Entry)) → StandFor self.old.lists entries
            → Sets self.new (F.state files.new) result
            (hbox_unless refusal (scene_of self.old (F.state files.old) entries)) }
        ensures goes { Goes self.old.gullet (F.state files.old) self.new.gullet
            (F.state files.new) }
        ensures going { OnOk result (IsGoing self.new) }
        ensures kept { KeepsFonts self.old self.new }
        ensures unshipped { Uncounted sink_cause result }
        ensures size { OnOk result (size (reading self.new.gullet (F.state files.new))
            ≤ size (reading self.old.gullet (F.state files.old))) }
        ensures counted { Counts read_cause result (F.state files.old).faults
            (F.state files.new).faults }
    {
        match refusal {
            Some(kind) => Err(TurnFault::Kind(kind)),
            None => begin_hbox(
                self.alloc,
                &mut self.gullet,
                files,
                &mut self.env,
                &mut self.lists,
                BoxContext::ShipOut,
            ),
        }
    }

    /// Begins the box that is shipped at its end: `\shipout`.
    #[tactic(auto, unfolding(crate::specs::Lists::box_wanted))]
    pub(crate) fn want_box<F: Files>(&mut self, files: &mut F) -> Result<(), TurnFault>
        requires opened { AreOpen self.old.gullet (F.state files.old) }
        requires going { IsGoing self.old }
        ensures exact { AreTold self.old.gullet (F.state files.old)
            → (entries : List (List Entry)) → StandFor self.old.lists entries
            → Sets self.new (F.state files.new) result
            (box_wanted (scene_of self.old (F.state files.old) entries)) }
        ensures goes { Goes self.old.gullet (F.state files.old) self.new.gullet
            (F.state files.new) }
        ensures going { OnOk result (IsGoing self.new) }
        ensures kept { KeepsFonts self.old self.new }
        ensures unshipped { Uncounted sink_cause result }
        ensures size { OnOk result (size (reading self.new.gullet (F.state files.new))
            ≤ size (reading self.old.gullet (F.state files.old))) }
        ensures counted { Counts read_cause result (F.state files.old).faults
            (F.state files.new).faults }
    {
        let token = take_solid(&mut self.gullet, files, &mut self.env)?;
        let refusal = no_box(&meant(&token, &self.env));
        self.begin_box(files, refusal)
    }
}
