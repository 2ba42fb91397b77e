//! Assignments with their prefixes.

ghost use Rattle.std.specs.Prelude.{◌≡◌, ◌≤◌, OnOk};
ghost use Rattle.ts_base.specs.Agreement.{Counts, Uncounted};
ghost use Rattle.mouth.specs.Keeping.{reading, AgreesAt, AreOpen, AreTold, IsReadable};
ghost use Rattle.mouth.specs.Sizes.{size};
ghost use Rattle.expander.specs.Holding.{AreFit, Goes};
ghost use Rattle.control_faults.specs.TurnFaults.{read_cause, sink_cause};
ghost use Rattle.assignments.specs.Worlds.{world_of};
ghost use Rattle.assignments.specs.Beside.{IsBeside};
ghost use Rattle.assignments.specs.Assignments.{done, carried_out, misplaces_long as the_misplaces_long, prefixes_of as the_prefixes_of, ready_as, ready, assigned};

use crate::calculations::calculate;
use crate::command::{Assignment, Command, Prefixes, command_in};
use crate::namings::{define, let_name, name_number};
use crate::seeking::{Sought, seek};
use crate::settings::{set_switch, set_target};
use crate::variable::{Target, Variable};
use control_faults::{FaultKind, TurnFault};
use env_groups::{Env, IntKey, IntParam};
use expander::Gullet;
use std::alloc::Global;
use ts_outside::Files;

/// `\deadcycles`.
const DEAD_CYCLES: Target = Target::Known(Variable::Int(IntKey::Param(IntParam::DeadCycles)));

/// No prefix.
const NONE: Prefixes = Prefixes {
    is_global: false,
    is_long: false,
};

// The prefixes that were passed over.
fn prefixes_of(sought: Sought) -> Prefixes
    ensures { result ≡ the_prefixes_of sought }
{
    match sought {
        Sought::Assignment(prefixes) => prefixes,
        _ => NONE,
    }
}

// Whether `\long` stands before an assignment that is built and defines no macro.
fn misplaces_long(prefixes: Prefixes, assignment: &Assignment) -> bool
    ensures { result ≡ the_misplaces_long prefixes assignment.now }
{
    prefixes.is_long && assignment.is_built() && !matches!(assignment, Assignment::Define(_))
}

// What an assignment does after its prefixes.
#[tactic(auto, using(crate::proofs::Refusals::env_agrees), unfolding(crate::specs::Settings::switched))]
fn perform<F: Files>(
    alloc: Global,
    gullet: &mut Gullet,
    files: &mut F,
    env: &mut Env,
    prefixes: Prefixes,
    assignment: Assignment,
) -> Result<(), TurnFault>
    requires opened { AreOpen gullet.old (F.state files.old) }
    requires readable { IsReadable gullet.old }
    requires fit { AreFit gullet.old.names env.old }
    ensures exact { AreTold gullet.old (F.state files.old)
        → AgreesAt (λ _. world_of gullet.new (F.state files.new) env.new) read_cause
        gullet.new result
        (done prefixes assignment (world_of gullet.old (F.state files.old) env.old)) }
    ensures goes { Goes gullet.old (F.state files.old) gullet.new (F.state files.new) }
    ensures readable { OnOk result (IsReadable gullet.new) }
    ensures fit { AreFit gullet.new.names env.new }
    ensures beside { IsBeside env.old env.new }
    ensures size { OnOk result (size (reading gullet.new (F.state files.new))
        ≤ size (reading gullet.old (F.state files.old))) }
    ensures unshipped { Uncounted sink_cause result }
    ensures counted { Counts read_cause result (F.state files.old).faults
        (F.state files.new).faults }
{
    let global = prefixes.is_global;
    match assignment {
        Assignment::Set(target) => set_target(alloc, gullet, files, env, target, global),
        Assignment::DeadCycles => set_target(alloc, gullet, files, env, DEAD_CYCLES, true),
        Assignment::Switch(param, on) => set_switch(env, param, on, global),
        Assignment::Calculate(operation) => calculate(gullet, files, env, operation, global),
        Assignment::Let => let_name(gullet, files, env, global),
        Assignment::Shorthand(shorthand) => name_number(gullet, files, env, shorthand, global),
        Assignment::Define(defining) => define(gullet, files, env, defining, prefixes),
        _ => Err(TurnFault::Kind(FaultKind::NotBuilt)),
    }
}

/// Carries out an assignment after its prefixes (TeX: The Program, sections 1211 to 1240).
/// `NotBuilt` comes exactly where it has no step here, and `NotInMode` for its prefixes exactly
/// where `\long` stands before what defines no macro, before any part of it is read.
#[tactic(auto, unfolding(crate::specs::Assignments::carried_out))]
pub fn carry_out<F: Files>(
    alloc: Global,
    gullet: &mut Gullet,
    files: &mut F,
    env: &mut Env,
    prefixes: Prefixes,
    assignment: Assignment,
) -> Result<(), TurnFault>
    requires opened { AreOpen gullet.old (F.state files.old) }
    requires readable { IsReadable gullet.old }
    requires fit { AreFit gullet.old.names env.old }
    ensures exact { AreTold gullet.old (F.state files.old)
        → AgreesAt (λ _. world_of gullet.new (F.state files.new) env.new) read_cause
        gullet.new result
        (carried_out prefixes assignment (world_of gullet.old (F.state files.old) env.old)) }
    ensures goes { Goes gullet.old (F.state files.old) gullet.new (F.state files.new) }
    ensures readable { OnOk result (IsReadable gullet.new) }
    ensures fit { AreFit gullet.new.names env.new }
    ensures beside { IsBeside env.old env.new }
    ensures size { OnOk result (size (reading gullet.new (F.state files.new))
        ≤ size (reading gullet.old (F.state files.old))) }
    ensures unshipped { Uncounted sink_cause result }
    ensures counted { Counts read_cause result (F.state files.old).faults
        (F.state files.new).faults }
{
    if misplaces_long(prefixes, &assignment) {
        return Err(TurnFault::Kind(FaultKind::NotInMode));
    }
    perform(alloc, gullet, files, env, prefixes, assignment)
}

/// Reads the prefixes before an assignment, of which a command is the first, or the assignment
/// itself (TeX: The Program, section 1211). `NotInMode` comes exactly where something other than an
/// assignment stands there.
#[tactic(auto, unfolding(crate::specs::Assignments::ready))]
pub fn read_prefixes<F: Files>(
    gullet: &mut Gullet,
    files: &mut F,
    env: &mut Env,
    command: Command,
) -> Result<(Prefixes, Assignment), TurnFault>
    requires opened { AreOpen gullet.old (F.state files.old) }
    requires readable { IsReadable gullet.old }
    requires fit { AreFit gullet.old.names env.old }
    ensures exact { AreTold gullet.old (F.state files.old)
        → AgreesAt (λ found. (found, world_of gullet.new (F.state files.new) env.new)) read_cause
        gullet.new result (ready command (world_of gullet.old (F.state files.old) env.old)) }
    ensures goes { Goes gullet.old (F.state files.old) gullet.new (F.state files.new) }
    ensures readable { OnOk result (IsReadable gullet.new) }
    ensures fit { AreFit gullet.new.names env.new }
    ensures beside { IsBeside env.old env.new }
    ensures size { OnOk result (size (reading gullet.new (F.state files.new))
        ≤ size (reading gullet.old (F.state files.old))) }
    ensures unshipped { Uncounted sink_cause result }
    ensures counted { Counts read_cause result (F.state files.old).faults
        (F.state files.new).faults }
{
    let prefix = match command {
        Command::Prefix(prefix) => prefix,
        Command::Assigns(assignment) => return Ok((NONE, assignment)),
        Command::Other => return Err(TurnFault::Kind(FaultKind::NotInMode)),
    };
    let sought = Sought::Assignment(NONE.with(prefix));
    let (sought, token) = seek(gullet, files, env, sought)?;
    match command_in(&token, env) {
        Command::Assigns(assignment) => Ok((prefixes_of(sought), assignment)),
        Command::Prefix(_) | Command::Other => Err(TurnFault::Kind(FaultKind::NotInMode)),
    }
}

/// Carries out an assignment, with the prefixes before it, of which a command is the first.
#[tactic(auto, unfolding(crate::specs::Assignments::assigned))]
pub fn assign<F: Files>(
    alloc: Global,
    gullet: &mut Gullet,
    files: &mut F,
    env: &mut Env,
    command: Command,
) -> Result<(), TurnFault>
    requires opened { AreOpen gullet.old (F.state files.old) }
    requires readable { IsReadable gullet.old }
    requires fit { AreFit gullet.old.names env.old }
    ensures exact { AreTold gullet.old (F.state files.old)
        → AgreesAt (λ _. world_of gullet.new (F.state files.new) env.new) read_cause
        gullet.new result (assigned command (world_of gullet.old (F.state files.old) env.old)) }
    ensures goes { Goes gullet.old (F.state files.old) gullet.new (F.state files.new) }
    ensures readable { OnOk result (IsReadable gullet.new) }
    ensures fit { AreFit gullet.new.names env.new }
    ensures beside { IsBeside env.old env.new }
    ensures size { OnOk result (size (reading gullet.new (F.state files.new))
        ≤ size (reading gullet.old (F.state files.old))) }
    ensures unshipped { Uncounted sink_cause result }
    ensures counted { Counts read_cause result (F.state files.old).faults
        (F.state files.new).faults }
{
    let (prefixes, assignment) = read_prefixes(gullet, files, env, command)?;
    carry_out(alloc, gullet, files, env, prefixes, assignment)
}
