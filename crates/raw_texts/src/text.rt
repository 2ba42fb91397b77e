//! Texts in which no file may end.

ghost use Rattle.std.specs.Prelude.{◌<◌, OnOk};
ghost use Rattle.ts_base.specs.Agreement.{Counts};
ghost use Rattle.mouth.specs.Keeping.{reading, AgreesAt, AreOpen, AreTold, IsReadable};
ghost use Rattle.mouth.specs.Sizes.{unread, size};
ghost use Rattle.raw_texts.specs.Faults.{macro_cause};
ghost use Rattle.raw_texts.specs.Runs.{run_inside, Leaves};

use crate::fault::MacroFault;
use crate::machine::Machine;
use crate::run::read_on;
use env_groups::Env;
use mouth::Mouth;
use ts_outside::Files;

/// Reads tokens without expansion until a machine has taken its last one, and `FileEnded` comes
/// where a file ends before that.
#[tactic(auto, unfolding(mouth::specs::Sizes::unread))]
pub fn read_text<F: Files, M: Machine>(
    mouth: &mut Mouth,
    files: &mut F,
    env: &Env,
    machine: &mut M,
) -> Result<(), MacroFault>
    requires opened { AreOpen mouth.old (F.state files.old) }
    requires readable { IsReadable mouth.old }
    requires holds { M.holds mouth.old.names machine.old }
    ensures exact { AreTold mouth.old (F.state files.old)
        → AgreesAt (λ _. (machine.new, reading mouth.new (F.state files.new))) macro_cause
        mouth.new result
        (run_inside env.now M.step machine.old (reading mouth.old (F.state files.old))) }
    ensures leaves { Leaves mouth.old (F.state files.old) mouth.new (F.state files.new) }
    ensures readable { OnOk result (IsReadable mouth.new) }
    ensures holds { OnOk result (M.holds mouth.new.names machine.new) }
    ensures unread { OnOk result (unread (reading mouth.new (F.state files.new))
        < unread (reading mouth.old (F.state files.old))) }
    ensures size { OnOk result (size (reading mouth.new (F.state files.new))
        < size (reading mouth.old (F.state files.old))) }
    ensures counted { Counts macro_cause result (F.state files.old).faults
        (F.state files.new).faults }
{
    mouth.enter_text()?;
    read_on(mouth, files, env, machine)?;
    mouth.leave_text();
    Ok(())
}
