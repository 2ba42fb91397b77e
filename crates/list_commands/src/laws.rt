//! Laws of commands of open lists. The lemmas that proofs cite for them stand in
//! `proofs/Leaving.antt`.

ghost use Rattle.std.specs.Prelude.{◌≤◌, IfOk};
ghost use Rattle.mouth.specs.Sizes.{size};
ghost use Rattle.expander.specs.Worlds.{World};
ghost use Rattle.open_lists.specs.declared.plan.BoxContext.{BoxContext};
ghost use Rattle.open_lists.specs.Lists.{OpenLists};
ghost use Rattle.list_commands.specs.Boxes.{hbox_started, hbox_closed};
ghost use Rattle.list_commands.specs.Characters.{char_read};

use assignments::readings_leave_less;

/// What is left where the list of an `\hbox` begins or ends, or a number of a character is read, is
/// no more than what was there.
#[tactic(auto, using(crate::proofs::Leaving::started_leaves, crate::proofs::Leaving::closed_leaves, crate::proofs::Leaving::char_leaves))]
pub fn list_commands_leave_less()
    ensures started { (context : BoxContext) (lists : OpenLists) (w : World)
        → IfOk (hbox_started context lists w) (λ r. size r.1.at ≤ size w.at) }
    ensures closed { (lists : OpenLists) (w : World)
        → IfOk (hbox_closed lists w) (λ r. size r.1.1.at ≤ size w.at) }
    ensures read { (w : World) → IfOk (char_read w) (λ c. size c.1.at ≤ size w.at) }
{
    readings_leave_less();
}
