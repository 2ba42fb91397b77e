//! The name of a font is read.

ghost use Rattle.std.specs.Prelude.{◌≡◌, ◌≤◌, OnOk, IfOk};
ghost use Rattle.ts_base.specs.Agreement.{Agrees, Counts, Uncounted, with_fault};
ghost use Rattle.mouth.specs.Keeping.{reading, AgreesAt, AreOpen, AreTold, IsReadable};
ghost use Rattle.mouth.specs.Sizes.{size};
ghost use Rattle.expander.specs.Holding.{AreFit, Goes};
ghost use Rattle.control_faults.specs.TurnFaults.{read_cause, sink_cause};
ghost use Rattle.assignments.specs.Worlds.{world_of};
ghost use Rattle.assignments.specs.Beside.{IsBeside};
ghost use Rattle.control_faults.specs.declared.turn_fault.TurnFault.TheVariants.{Kind as TheKind};
ghost use Rattle.known_fonts.specs.Names.{IsMetricName};
ghost use Rattle.font_commands.specs.Names.{name_found, font_name};

use assignments::scan;
use control_faults::{FaultKind, TurnFault};
use env_groups::Env;
use expander::Gullet;
use known_fonts::FontName;
use scan_syntax::{Value, Want};
use std::alloc::Global;
use ts_outside::Files;

// The name of a font that a scan found.
fn name_in(alloc: Global, value: Value) -> Result<FontName, TurnFault>
    ensures exact { Agrees (λ n. n.spelt) read_cause result
        (with_fault TheKind (name_found value)) }
    ensures named { IfOk result (λ n. IsMetricName n.spelt n.file) }
    ensures quiet { Uncounted read_cause result }
    ensures unshipped { Uncounted sink_cause result }
{
    match value {
        Value::FileName(name) => FontName::new(alloc, name),
        _ => Err(TurnFault::Kind(FaultKind::NoName)),
    }
}

/// Reads the name of a font. `NoName` comes exactly where it is none of a file, or none with the
/// ending of a metric file, before anything after it is looked for.
#[tactic(auto, unfolding(crate::specs::Names::font_name), using(crate::proofs::Answering::checked_agrees, crate::proofs::Answering::counts_none))]
pub(crate) fn read_font_name<F: Files>(
    alloc: Global,
    gullet: &mut Gullet,
    files: &mut F,
    env: &mut Env,
) -> Result<FontName, TurnFault>
    requires opened { AreOpen gullet.old (F.state files.old) }
    requires readable { IsReadable gullet.old }
    requires fit { AreFit gullet.old.names env.old }
    ensures exact { AreTold gullet.old (F.state files.old)
        → AgreesAt (λ n. (n.spelt, world_of gullet.new (F.state files.new) env.new)) read_cause
        gullet.new result (font_name (world_of gullet.old (F.state files.old) env.old)) }
    ensures goes { Goes gullet.old (F.state files.old) gullet.new (F.state files.new) }
    ensures readable { OnOk result (IsReadable gullet.new) }
    ensures fit { AreFit gullet.new.names env.new }
    ensures beside { IsBeside env.old env.new }
    ensures named { IfOk result (λ n. IsMetricName n.spelt n.file) }
    ensures size { OnOk result (size (reading gullet.new (F.state files.new))
        ≤ size (reading gullet.old (F.state files.old))) }
    ensures unshipped { Uncounted sink_cause result }
    ensures counted { Counts read_cause result (F.state files.old).faults
        (F.state files.new).faults }
{
    let value = scan(gullet, files, env, Want::FileName)?;
    name_in(alloc, value)
}
