//! Fonts that are selected.

ghost use Rattle.std.specs.Prelude.{◌≡◌, ◌<◌, length, Ok, OnErr};
ghost use Rattle.ts_base.specs.Agreement.{Agrees, Uncounted, with_fault};
ghost use Rattle.env_groups.specs.Environments.{env_cause};
ghost use Rattle.known_fonts.specs.Selecting.{font_selected};
ghost use Rattle.known_fonts.specs.Standing.{AreNumbered};

use crate::metrics::slot_of;
use box_tree::FontNo;
use env_groups::{Env, EnvFault};
use font_store::Fonts;

/// Selects a font by its metric: the European one, or the Japanese one of yoko or of tate lines
/// (The TeXbook, chapter 4; pTeX). Only memory can be wanting. Refused, it leaves all as it was.
pub fn select_font(env: &mut Env, fonts: &Fonts, font: FontNo, global: bool) -> Result<(), EnvFault>
    requires numbered { AreNumbered env.old fonts.now }
    requires added { font.0 < length fonts.now }
    ensures exact { Agrees (λ _. env.new) env_cause result
        (Ok (font_selected env.old fonts.now font global)) }
    ensures numbered { AreNumbered env.new fonts.now }
    ensures refused { OnErr result (env.new ≡ env.old) }
{
    env.set_font(slot_of(fonts.metric(font)), font, global)
}
