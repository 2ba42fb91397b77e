//! Boxes that end, and are shipped.

ghost use Rattle.std.specs.Prelude.{◌≡◌, List, OnOk};
ghost use Rattle.ts_base.specs.Agreement.{Counts, Uncounted};
ghost use Rattle.ts_outside.specs.States.{Held, FilesState};
ghost use Rattle.box_tree.specs.Sound.{IsSound};
ghost use Rattle.jlist_builder.specs.Entries.{Entry};
ghost use Rattle.mouth.specs.Keeping.{AgreesAt};
ghost use Rattle.open_lists.specs.Standing.{StandFor, IsInHbox};
ghost use Rattle.open_lists.specs.Glyphs.{IsBoxOf};
ghost use Rattle.dvi_writer.specs.Reading.{Asked};
ghost use Rattle.known_fonts.specs.Standing.{AreAsHeld};
ghost use Rattle.control_faults.specs.TurnFaults.{read_cause, sink_cause};
ghost use Rattle.main_control.specs.Endings.{halt_read, halt_shipped};
ghost use Rattle.main_control.specs.Worlds.{text_of, scene_of};
ghost use Rattle.main_control.specs.Boxes.{count_at, page_counts as the_page_counts, revived, box_shipped, box_used, box_ended, brace_ended};
ghost use Rattle.main_control.specs.Standing.{IsGoing, IsApart, KeepsFonts, Holds, Ships, Steps, BreaksStep};

use crate::control::Control;
use crate::ending::Halt;
use box_tree::SharedBox;
use control_faults::{FaultKind, TurnFault};
use env_groups::{Env, GroupKind, IntKey, IntParam};
use expander::environments_stay_fit;
use known_fonts::{definitions_go_on, shipped_fonts_are_there, shipped_glyphs_are_as_held};
use list_commands::end_hbox;
use open_lists::{BoxContext, EndedBox};
use shipping::Shipper;

fn count_of(env: &Env, n: u32) -> i32
    ensures { result ≡ count_at env.now n }
{
    match env.get_int(IntKey::Register(n)) {
        Ok(count) => count as i32,
        Err(_) => 0,
    }
}

// `\count0` to `\count9`.
#[tactic(auto, unfolding(crate::specs::Boxes::page_counts))]
fn page_counts(env: &Env) -> [i32; 10]
    ensures { result ≡ the_page_counts env.now }
{
    [
        count_of(env, 0),
        count_of(env, 1),
        count_of(env, 2),
        count_of(env, 3),
        count_of(env, 4),
        count_of(env, 5),
        count_of(env, 6),
        count_of(env, 7),
        count_of(env, 8),
        count_of(env, 9),
    ]
}

impl Control {
    // Ships a box, with the counts and fonts as they are now (TeX: The Program, section 638).
    fn ship<P: Shipper>(&mut self, shipper: &mut P, node: &SharedBox) -> Result<(), Halt>
        requires going { IsGoing self.old }
        requires ships { Ships (P.stands shipper.old) self.old.table }
        requires sound { IsSound node.now }
        requires fonts { IsBoxOf self.old.fonts node.now }
        ensures exact { (state : FilesState) → (held : List Held) → AreAsHeld held self.old.fonts
            → (entries : List (List Entry)) → StandFor self.old.lists entries
            → (boxes : List Asked) → Holds (P.stands shipper.old) held boxes
            → Steps (Holds (P.stands shipper.new) held) self.new state boxes result
            (box_shipped (scene_of self.old state entries) node.now boxes) }
        ensures gullet { self.new.gullet ≡ self.old.gullet }
        ensures going { OnOk result (IsGoing self.new) }
        ensures ships { OnOk result (Ships (P.stands shipper.new) self.new.table) }
        ensures kept { KeepsFonts self.old self.new }
        ensures breaks { BreaksStep result (P.broken shipper.old) (P.broken shipper.new) }
        ensures origin { P.origin shipper.new ≡ P.origin shipper.old }
        ensures unread { Uncounted halt_read result }
        ensures shipped { Counts halt_shipped result (P.faults shipper.old)
            (P.faults shipper.new) }
    {
        shipped_fonts_are_there();
        shipped_glyphs_are_as_held();
        definitions_go_on();
        if let Err(fault) = shipper.ship(node, &page_counts(&self.env), &self.table) {
            return Err(Halt::Refused(TurnFault::from(fault)));
        }
        self.revive()?;
        Ok(())
    }

    // Sets `\deadcycles` to 0, globally.
    fn revive(&mut self) -> Result<(), TurnFault>
        requires going { IsGoing self.old }
        ensures exact { (state : FilesState) → AgreesAt (λ _. text_of self.new state) read_cause
            self.new.gullet result (revived (text_of self.old state)) }
        ensures gullet { self.new.gullet ≡ self.old.gullet }
        ensures going { OnOk result (IsGoing self.new) }
        ensures apart { IsApart self.old self.new }
        ensures unread { Uncounted read_cause result }
        ensures unshipped { Uncounted sink_cause result }
    {
        environments_stay_fit();
        self.env
            .set_int(IntKey::Param(IntParam::DeadCycles), 0, true)?;
        Ok(())
    }

    // Does with a box that has ended what is to be done with it.
    fn use_box<P: Shipper>(&mut self, shipper: &mut P, ended: &EndedBox) -> Result<(), Halt>
        requires going { IsGoing self.old }
        requires ships { Ships (P.stands shipper.old) self.old.table }
        requires sound { IsSound ended.now.node }
        requires fonts { IsBoxOf self.old.fonts ended.now.node }
        ensures exact { (state : FilesState) → (held : List Held) → AreAsHeld held self.old.fonts
            → (entries : List (List Entry)) → StandFor self.old.lists entries
            → (boxes : List Asked) → Holds (P.stands shipper.old) held boxes
            → Steps (Holds (P.stands shipper.new) held) self.new state boxes result
            (box_used (scene_of self.old state entries) ended.now.context ended.now.node boxes) }
        ensures gullet { self.new.gullet ≡ self.old.gullet }
        ensures going { OnOk result (IsGoing self.new) }
        ensures ships { OnOk result (Ships (P.stands shipper.new) self.new.table) }
        ensures kept { KeepsFonts self.old self.new }
        ensures breaks { BreaksStep result (P.broken shipper.old) (P.broken shipper.new) }
        ensures origin { P.origin shipper.new ≡ P.origin shipper.old }
        ensures unread { Uncounted halt_read result }
        ensures shipped { Counts halt_shipped result (P.faults shipper.old)
            (P.faults shipper.new) }
    {
        match ended.context {
            BoxContext::ShipOut => self.ship(shipper, &ended.node),
            BoxContext::Append(_) | BoxContext::Register(_, _) => {
                Err(Halt::Refused(TurnFault::Kind(FaultKind::NotBuilt)))
            }
        }
    }

    // Ends the list of an `\hbox`, which is the innermost one.
    #[tactic(auto, unfolding(crate::specs::Boxes::box_ended))]
    fn end_box<P: Shipper>(&mut self, shipper: &mut P) -> Result<(), Halt>
        requires going { IsGoing self.old }
        requires ships { Ships (P.stands shipper.old) self.old.table }
        requires hbox { IsInHbox self.old.lists.inner }
        ensures exact { (state : FilesState) → (held : List Held) → AreAsHeld held self.old.fonts
            → (entries : List (List Entry)) → StandFor self.old.lists entries
            → (boxes : List Asked) → Holds (P.stands shipper.old) held boxes
            → Steps (Holds (P.stands shipper.new) held) self.new state boxes result
            (box_ended (scene_of self.old state entries) boxes) }
        ensures gullet { self.new.gullet ≡ self.old.gullet }
        ensures going { OnOk result (IsGoing self.new) }
        ensures ships { OnOk result (Ships (P.stands shipper.new) self.new.table) }
        ensures kept { KeepsFonts self.old self.new }
        ensures breaks { BreaksStep result (P.broken shipper.old) (P.broken shipper.new) }
        ensures origin { P.origin shipper.new ≡ P.origin shipper.old }
        ensures unread { Uncounted halt_read result }
        ensures shipped { Counts halt_shipped result (P.faults shipper.old)
            (P.faults shipper.new) }
    {
        let ended = end_hbox(self.alloc, &mut self.env, &mut self.lists)?;
        self.use_box(shipper, &ended)
    }

    /// Ends a group of braces, or the list of a box where no such group is inside it.
    #[tactic(auto, unfolding(crate::specs::Boxes::brace_ended))]
    pub(crate) fn close_brace<P: Shipper>(&mut self, shipper: &mut P) -> Result<(), Halt>
        requires going { IsGoing self.old }
        requires ships { Ships (P.stands shipper.old) self.old.table }
        ensures exact { (state : FilesState) → (held : List Held) → AreAsHeld held self.old.fonts
            → (entries : List (List Entry)) → StandFor self.old.lists entries
            → (boxes : List Asked) → Holds (P.stands shipper.old) held boxes
            → Steps (Holds (P.stands shipper.new) held) self.new state boxes result
            (brace_ended (scene_of self.old state entries) boxes) }
        ensures gullet { self.new.gullet ≡ self.old.gullet }
        ensures going { OnOk result (IsGoing self.new) }
        ensures ships { OnOk result (Ships (P.stands shipper.new) self.new.table) }
        ensures kept { KeepsFonts self.old self.new }
        ensures breaks { BreaksStep result (P.broken shipper.old) (P.broken shipper.new) }
        ensures origin { P.origin shipper.new ≡ P.origin shipper.old }
        ensures unread { Uncounted halt_read result }
        ensures shipped { Counts halt_shipped result (P.faults shipper.old)
            (P.faults shipper.new) }
    {
        environments_stay_fit();
        match self.env.close(GroupKind::Simple) {
            Ok(()) => Ok(()),
            Err(_) if self.is_in_hbox() => self.end_box(shipper),
            Err(fault) => Err(Halt::Refused(TurnFault::from(fault))),
        }
    }
}
