//! How the size of a font is said.

ghost use Rattle.std.specs.Prelude.{◌≡◌, ◌≤◌, OnOk};
ghost use Rattle.ts_base.specs.Agreement.{Counts, Uncounted};
ghost use Rattle.mouth.specs.Keeping.{reading, AgreesAt, AreOpen, AreTold, IsReadable};
ghost use Rattle.mouth.specs.Sizes.{size};
ghost use Rattle.expander.specs.Holding.{AreFit, Goes};
ghost use Rattle.control_faults.specs.TurnFaults.{read_cause, sink_cause};
ghost use Rattle.assignments.specs.Worlds.{world_of};
ghost use Rattle.assignments.specs.Beside.{IsBeside};
ghost use Rattle.font_commands.specs.Sizings.{scale_said, size_said};

use assignments::{read_dimension, read_integer, read_keyword};
use control_faults::TurnFault;
use env_groups::Env;
use expander::Gullet;
use known_fonts::Sizing;
use scan_syntax::Word;
use ts_outside::Files;

// Reads a scale in thousandths after `scaled`, where that is there.
#[tactic(auto, unfolding(crate::specs::Sizings::scale_said))]
fn read_scale<F: Files>(
    gullet: &mut Gullet,
    files: &mut F,
    env: &mut Env,
) -> Result<Sizing, TurnFault>
    requires opened { AreOpen gullet.old (F.state files.old) }
    requires readable { IsReadable gullet.old }
    requires fit { AreFit gullet.old.names env.old }
    ensures exact { AreTold gullet.old (F.state files.old)
        → AgreesAt (λ sizing. (sizing, world_of gullet.new (F.state files.new) env.new)) read_cause
        gullet.new result (scale_said (world_of gullet.old (F.state files.old) env.old)) }
    ensures goes { Goes gullet.old (F.state files.old) gullet.new (F.state files.new) }
    ensures readable { OnOk result (IsReadable gullet.new) }
    ensures fit { AreFit gullet.new.names env.new }
    ensures beside { IsBeside env.old env.new }
    ensures size { OnOk result (size (reading gullet.new (F.state files.new))
        ≤ size (reading gullet.old (F.state files.old))) }
    ensures unshipped { Uncounted sink_cause result }
    ensures counted { Counts read_cause result (F.state files.old).faults
        (F.state files.new).faults }
{
    if read_keyword(gullet, files, env, Word::Scaled)? {
        let n = read_integer(gullet, files, env)?;
        return Ok(Sizing::Scaled(n));
    }
    Ok(Sizing::Design)
}

/// Reads how the size of a font is said: a dimension after `at`, a scale in thousandths after
/// `scaled`, or nothing (TeX: The Program, section 1258).
#[tactic(auto, unfolding(crate::specs::Sizings::size_said))]
pub(crate) fn read_sizing<F: Files>(
    gullet: &mut Gullet,
    files: &mut F,
    env: &mut Env,
) -> Result<Sizing, TurnFault>
    requires opened { AreOpen gullet.old (F.state files.old) }
    requires readable { IsReadable gullet.old }
    requires fit { AreFit gullet.old.names env.old }
    ensures exact { AreTold gullet.old (F.state files.old)
        → AgreesAt (λ sizing. (sizing, world_of gullet.new (F.state files.new) env.new)) read_cause
        gullet.new result (size_said (world_of gullet.old (F.state files.old) env.old)) }
    ensures goes { Goes gullet.old (F.state files.old) gullet.new (F.state files.new) }
    ensures readable { OnOk result (IsReadable gullet.new) }
    ensures fit { AreFit gullet.new.names env.new }
    ensures beside { IsBeside env.old env.new }
    ensures size { OnOk result (size (reading gullet.new (F.state files.new))
        ≤ size (reading gullet.old (F.state files.old))) }
    ensures unshipped { Uncounted sink_cause result }
    ensures counted { Counts read_cause result (F.state files.old).faults
        (F.state files.new).faults }
{
    if read_keyword(gullet, files, env, Word::At)? {
        let d = read_dimension(gullet, files, env)?;
        return Ok(Sizing::At(d));
    }
    read_scale(gullet, files, env)
}
