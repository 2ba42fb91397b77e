//! Laws of the commands of fonts. The lemmas that proofs cite for them stand in
//! `proofs/Leaving.antt`.

ghost use Rattle.std.specs.Prelude.{◌≤◌, Bool, List, IfOk};
ghost use Rattle.ts_outside.specs.States.{Held};
ghost use Rattle.box_tree.specs.declared.item.FontNo.{FontNo};
ghost use Rattle.mouth.specs.Sizes.{size};
ghost use Rattle.font_store.specs.declared.fonts.Font.{Font};
ghost use Rattle.expander.specs.Worlds.{World};
ghost use Rattle.font_commands.specs.Fonts.{font_defined, font_used};

use assignments::readings_leave_less;

/// What `\font` leaves is no more than what was there, and so it is of the name of a font.
#[tactic(auto, using(crate::proofs::Leaving::defined_leaves, crate::proofs::Leaving::used_leaves))]
pub fn font_commands_leave_less()
    ensures defined { (held : List Held) (is_global : Bool) (fonts : List Font) (w : World)
        → IfOk (font_defined held is_global fonts w) (λ r. size r.1.at ≤ size w.at) }
    ensures used { (font : FontNo) (is_global : Bool) (fonts : List Font) (w : World)
        → IfOk (font_used font is_global fonts w) (λ v. size v.at ≤ size w.at) }
{
    readings_leave_less();
}
