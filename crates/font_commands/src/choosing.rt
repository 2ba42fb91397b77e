//! The name of a font selects it.

ghost use Rattle.std.specs.Prelude.{◌≡◌, List};
ghost use Rattle.ts_base.specs.Agreement.{Agrees, Uncounted};
ghost use Rattle.tok_lists.specs.declared.spelling.Spelling.{Spelling};
ghost use Rattle.expander.specs.Holding.{AreFit};
ghost use Rattle.control_faults.specs.TurnFaults.{read_cause, sink_cause};
ghost use Rattle.assignments.specs.Beside.{IsBeside};
ghost use Rattle.known_fonts.specs.Standing.{AreNumbered};
ghost use Rattle.font_commands.specs.Fonts.{font_chosen};

use box_tree::FontNo;
use control_faults::{FaultKind, TurnFault};
use env_groups::Env;
use expander::environments_stay_fit;
use font_store::Fonts;
use known_fonts::select_font;

/// Selects the font that a name means (TeX: The Program, section 1217; pTeX). `NotBuilt` comes
/// exactly where there is no font of this number, which no name means. Refused, it leaves all as it
/// was.
#[tactic(auto, using(crate::proofs::Answering::env_refuses, crate::proofs::Answering::env_quiet, crate::proofs::Answering::env_unshipped, crate::proofs::Standing::selected_beside, crate::proofs::Standing::same_beside))]
pub fn use_font(
    env: &mut Env,
    fonts: &Fonts,
    font: FontNo,
    is_global: bool,
) -> Result<(), TurnFault>
    requires numbered { AreNumbered env.old fonts.now }
    ensures exact { Agrees (λ _. env.new) read_cause result
        (font_chosen font is_global fonts.now env.old) }
    ensures numbered { AreNumbered env.new fonts.now }
    ensures fit { (names : List Spelling) → AreFit names env.old → AreFit names env.new }
    ensures beside { IsBeside env.old env.new }
    ensures quiet { Uncounted read_cause result }
    ensures unshipped { Uncounted sink_cause result }
{
    environments_stay_fit();
    if usize::from(font.0) >= fonts.len() {
        return Err(TurnFault::Kind(FaultKind::NotBuilt));
    }
    Ok(select_font(env, fonts, font, is_global)?)
}
