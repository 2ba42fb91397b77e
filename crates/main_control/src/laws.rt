//! Laws of the meaning of a source. The lemmas that proofs cite for them stand in
//! `proofs/Falls.antt`.

ghost use Rattle.std.specs.Prelude.{◌≡◌, ◌<◌, Ok};
ghost use Rattle.main_control.specs.Worlds.{World};
ghost use Rattle.main_control.specs.Turn.{turn_of};
ghost use Rattle.main_control.specs.Run.{rank, after_turn, run_of};

use assignments::{assignments_leave_less, readings_leave_less};
use font_commands::font_commands_leave_less;
use list_commands::list_commands_leave_less;

/// A run is a turn, and then the run from the world after it; and each turn that doesn't end the
/// run leaves less.
pub fn a_run_is_turn_after_turn()
    ensures turns { (w : World) → run_of w ≡ after_turn run_of (turn_of w) }
    ensures lowers { (w next : World) → turn_of w ≡ Ok next → rank next < rank w }
{
    readings_leave_less();
    assignments_leave_less();
    font_commands_leave_less();
    list_commands_leave_less();
}
