//! Undelimited arguments.

ghost use Rattle.std.specs.Prelude.{◌≡◌, ◌<◌, OnOk, IfOk, Err, Ok};
ghost use Rattle.ts_base.specs.Agreement.{Counts, Uncounted};
ghost use Rattle.mouth.specs.Reading.{Reading};
ghost use Rattle.mouth.specs.Keeping.{reading, AgreesAt, AreOpen, AreTold, IsReadable, IsToken};
ghost use Rattle.mouth.specs.Sizes.{unread, size};
ghost use Rattle.raw_texts.specs.Faults.{macro_cause};
ghost use Rattle.raw_texts.specs.Runs.{Leaves};
ghost use Rattle.raw_texts.specs.Holding.{AreTokens};
ghost use Rattle.macros.specs.Undelimited.{undelimited};

use env_groups::Env;
use mouth::Mouth;
use raw_texts::{Brace, MacroFault, Past, brace_of, is_par, read_group, read_past};
use std::alloc::Global;
use tok_lists::SharedTokens;
use ts_outside::Files;

/// Reads an undelimited argument (The TeXbook, chapter 20): the first token that isn't a space, or
/// the tokens of a group. `UseMismatch` comes exactly where it begins with a `}`, and
/// `ArgParagraph` exactly where the name `\par` stands in it and the macro isn't long.
#[tactic(auto, unfolding(crate::specs::Undelimited::undelimited))]
pub(crate) fn read_undelimited<F: Files>(
    alloc: Global,
    mouth: &mut Mouth,
    files: &mut F,
    env: &Env,
    long: bool,
) -> Result<SharedTokens, MacroFault>
    requires opened { AreOpen mouth.old (F.state files.old) }
    requires readable { IsReadable mouth.old }
    ensures exact { AreTold mouth.old (F.state files.old)
        → AgreesAt (λ tokens. (tokens, reading mouth.new (F.state files.new))) macro_cause
        mouth.new result (undelimited env.now long (reading mouth.old (F.state files.old))) }
    ensures leaves { Leaves mouth.old (F.state files.old) mouth.new (F.state files.new) }
    ensures readable { OnOk result (IsReadable mouth.new) }
    ensures tokens { IfOk result (AreTokens mouth.new.names) }
    ensures unread { OnOk result (unread (reading mouth.new (F.state files.new))
        < unread (reading mouth.old (F.state files.old))) }
    ensures size { OnOk result (size (reading mouth.new (F.state files.new))
        < size (reading mouth.old (F.state files.old))) }
    ensures counted { Counts macro_cause result (F.state files.old).faults
        (F.state files.new).faults }
{
    let token = read_past(mouth, files, env, Past::Spaces)?;
    match brace_of(&token) {
        Brace::Begin => {
            let tokens = read_group(alloc, mouth, files, env, long)?;
            Ok(SharedTokens::new(alloc, tokens.as_slice())?)
        }
        Brace::End => Err(MacroFault::UseMismatch),
        Brace::Neither => {
            if long {
                return Ok(SharedTokens::new(alloc, &[token])?);
            }
            if is_par(&token) {
                return Err(MacroFault::ArgParagraph);
            }
            Ok(SharedTokens::new(alloc, &[token])?)
        }
    }
}
