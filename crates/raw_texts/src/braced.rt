//! Token lists in braces.

ghost use Rattle.std.specs.Prelude.{◌≡◌, ◌<◌, OnOk, IfOk};
ghost use Rattle.ts_base.specs.Agreement.{Counts};
ghost use Rattle.mouth.specs.Keeping.{reading, AgreesAt, AreOpen, AreTold, IsReadable};
ghost use Rattle.mouth.specs.Sizes.{unread, size};
ghost use Rattle.raw_texts.specs.Faults.{macro_cause};
ghost use Rattle.raw_texts.specs.Runs.{Leaves};
ghost use Rattle.raw_texts.specs.Holding.{AreTokens};
ghost use Rattle.raw_texts.specs.Braced.{braced};

use crate::fault::MacroFault;
use crate::group::Group;
use crate::meanings::{begins_group, meaning_of};
use crate::passing::{Past, read_past};
use crate::text::read_text;
use env_groups::Env;
use mouth::Mouth;
use std::alloc::Global;
use tok_lists::SharedTokens;
use ts_outside::Files;

/// Reads a token list in braces without expansion (The TeXbook, chapters 20 and 24; TeX: The
/// Program, sections 403 and 473). Its `{` may stand after spaces and `\relax`, and may be a name
/// that means it; `NoBrace` comes exactly where another token stands there. Its `}` is a
/// character, and `FileEnded` comes where a file ends between the two.
#[tactic(auto, unfolding(crate::specs::Braced::braced))]
pub fn read_braced<F: Files>(
    alloc: Global,
    mouth: &mut Mouth,
    files: &mut F,
    env: &Env,
) -> Result<SharedTokens, MacroFault>
    requires opened { AreOpen mouth.old (F.state files.old) }
    requires readable { IsReadable mouth.old }
    ensures exact { AreTold mouth.old (F.state files.old)
        → AgreesAt (λ tokens. (tokens, reading mouth.new (F.state files.new))) macro_cause
        mouth.new result (braced env.now (reading mouth.old (F.state files.old))) }
    ensures leaves { Leaves mouth.old (F.state files.old) mouth.new (F.state files.new) }
    ensures readable { OnOk result (IsReadable mouth.new) }
    ensures tokens { IfOk result (AreTokens mouth.new.names) }
    ensures unread { OnOk result (unread (reading mouth.new (F.state files.new))
        < unread (reading mouth.old (F.state files.old))) }
    ensures size { OnOk result (size (reading mouth.new (F.state files.new))
        < size (reading mouth.old (F.state files.old))) }
    ensures counted { Counts macro_cause result (F.state files.old).faults
        (F.state files.new).faults }
{
    let token = read_past(mouth, files, env, Past::Blanks)?;
    if !begins_group(&meaning_of(&token, env)) {
        return Err(MacroFault::NoBrace);
    }
    let mut group = Group::new(alloc, true);
    read_text(mouth, files, env, &mut group)?;
    Ok(SharedTokens::new(alloc, group.tokens())?)
}
