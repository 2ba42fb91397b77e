//! Names that are needed.

ghost use Rattle.std.specs.Prelude.{◌≡◌, ◌<◌, length, OnOk, IfOk};
ghost use Rattle.ts_base.specs.Agreement.{Counts};
ghost use Rattle.mouth.specs.Keeping.{reading, AgreesAt, AreOpen, AreTold, IsReadable};
ghost use Rattle.mouth.specs.Sizes.{unread, size};
ghost use Rattle.raw_texts.specs.Faults.{macro_cause};
ghost use Rattle.raw_texts.specs.Runs.{Leaves};
ghost use Rattle.raw_texts.specs.Passing.{named};

use crate::fault::MacroFault;
use crate::passing::{Past, read_past};
use env_groups::Env;
use mouth::Mouth;
use tok_lists::{NameNo, Token};
use ts_outside::Files;

/// Reads the name that a definition or an assignment gives a meaning to (TeX: The Program, section
/// 1215): the first token that isn't a space. `NoName` comes exactly where it is no name.
#[tactic(auto, unfolding(crate::specs::Passing::named))]
pub fn read_name<F: Files>(
    mouth: &mut Mouth,
    files: &mut F,
    env: &Env,
) -> Result<NameNo, MacroFault>
    requires opened { AreOpen mouth.old (F.state files.old) }
    requires readable { IsReadable mouth.old }
    ensures exact { AreTold mouth.old (F.state files.old)
        → AgreesAt (λ name. (name, reading mouth.new (F.state files.new))) macro_cause
        mouth.new result (named env.now (reading mouth.old (F.state files.old))) }
    ensures leaves { Leaves mouth.old (F.state files.old) mouth.new (F.state files.new) }
    ensures readable { OnOk result (IsReadable mouth.new) }
    ensures held { IfOk result (λ name. name.0 < length mouth.new.names) }
    ensures unread { OnOk result (unread (reading mouth.new (F.state files.new))
        < unread (reading mouth.old (F.state files.old))) }
    ensures size { OnOk result (size (reading mouth.new (F.state files.new))
        < size (reading mouth.old (F.state files.old))) }
    ensures counted { Counts macro_cause result (F.state files.old).faults
        (F.state files.new).faults }
{
    match read_past(mouth, files, env, Past::Spaces)? {
        Token::Name(name) => Ok(name),
        _ => Err(MacroFault::NoName),
    }
}
