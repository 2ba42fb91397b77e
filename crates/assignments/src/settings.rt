//! Registers, parameters and codes are set.

ghost use Rattle.std.specs.Prelude.{◌≡◌, ◌≤◌, List, OnOk};
ghost use Rattle.ts_base.specs.Agreement.{Agrees, Counts, Uncounted};
ghost use Rattle.mouth.specs.Keeping.{reading, AgreesAt, AreOpen, AreTold, IsReadable};
ghost use Rattle.mouth.specs.Sizes.{size};
ghost use Rattle.expander.specs.Holding.{AreFit, Goes};
ghost use Rattle.control_faults.specs.TurnFaults.{read_cause, sink_cause};
ghost use Rattle.assignments.specs.Worlds.{world_of};
ghost use Rattle.assignments.specs.Beside.{IsBeside};
ghost use Rattle.tok_lists.specs.declared.spelling.Spelling.{Spelling};
ghost use Rattle.env_groups.specs.declared.key.IntKey.TheVariants.{Param};
ghost use Rattle.assignments.specs.Variables.{variable};
ghost use Rattle.assignments.specs.Settings.{value_set, target_set, int_stored, switch_number as the_switch_number};

use crate::storing::{store_code, store_dim, store_glue, store_int, store_toks};
use crate::token_lists::read_list;
use crate::values::{read_dimension, read_equals, read_glue, read_integer};
use crate::variable::{Target, Variable, variable_at};
use control_faults::TurnFault;
use env_groups::{Env, IntKey, IntParam};
use expander::Gullet;
use std::alloc::Global;
use ts_outside::Files;

/// Returns what is to be set. Its number is read where it isn't known.
#[tactic(auto, unfolding(crate::specs::Variables::variable))]
pub(crate) fn read_variable<F: Files>(
    gullet: &mut Gullet,
    files: &mut F,
    env: &mut Env,
    target: Target,
) -> Result<Variable, TurnFault>
    requires opened { AreOpen gullet.old (F.state files.old) }
    requires readable { IsReadable gullet.old }
    requires fit { AreFit gullet.old.names env.old }
    ensures exact { AreTold gullet.old (F.state files.old)
        → AgreesAt (λ read. (read, world_of gullet.new (F.state files.new) env.new)) read_cause
        gullet.new result (variable target (world_of gullet.old (F.state files.old) env.old)) }
    ensures goes { Goes gullet.old (F.state files.old) gullet.new (F.state files.new) }
    ensures readable { OnOk result (IsReadable gullet.new) }
    ensures fit { AreFit gullet.new.names env.new }
    ensures beside { IsBeside env.old env.new }
    ensures size { OnOk result (size (reading gullet.new (F.state files.new))
        ≤ size (reading gullet.old (F.state files.old))) }
    ensures unshipped { Uncounted sink_cause result }
    ensures counted { Counts read_cause result (F.state files.old).faults
        (F.state files.new).faults }
{
    match target {
        Target::Known(variable) => Ok(variable),
        Target::OfNumber(kind) => {
            let n = read_integer(gullet, files, env)?;
            Ok(variable_at(kind, n)?)
        }
    }
}

// Reads a value and sets it.
#[tactic(auto, using(crate::proofs::Refusals::env_agrees), unfolding(crate::specs::Settings::value_set))]
fn set_value<F: Files>(
    alloc: Global,
    gullet: &mut Gullet,
    files: &mut F,
    env: &mut Env,
    variable: Variable,
    global: bool,
) -> Result<(), TurnFault>
    requires opened { AreOpen gullet.old (F.state files.old) }
    requires readable { IsReadable gullet.old }
    requires fit { AreFit gullet.old.names env.old }
    ensures exact { AreTold gullet.old (F.state files.old)
        → AgreesAt (λ _. world_of gullet.new (F.state files.new) env.new) read_cause
        gullet.new result
        (value_set variable global (world_of gullet.old (F.state files.old) env.old)) }
    ensures goes { Goes gullet.old (F.state files.old) gullet.new (F.state files.new) }
    ensures readable { OnOk result (IsReadable gullet.new) }
    ensures fit { AreFit gullet.new.names env.new }
    ensures beside { IsBeside env.old env.new }
    ensures size { OnOk result (size (reading gullet.new (F.state files.new))
        ≤ size (reading gullet.old (F.state files.old))) }
    ensures unshipped { Uncounted sink_cause result }
    ensures counted { Counts read_cause result (F.state files.old).faults
        (F.state files.new).faults }
{
    match variable {
        Variable::Int(key) => {
            let value = read_integer(gullet, files, env)?;
            store_int(env, key, value, global)
        }
        Variable::Dim(key) => {
            let value = read_dimension(gullet, files, env)?;
            store_dim(env, key, value, global)
        }
        Variable::Glue(key) => {
            let value = read_glue(gullet, files, env)?;
            store_glue(env, key, value, global)
        }
        Variable::Toks(key) => {
            let value = read_list(alloc, gullet, files, env)?;
            store_toks(env, key, value, global)
        }
        Variable::Code(key) => {
            let value = read_integer(gullet, files, env)?;
            store_code(env, key, value, global)
        }
    }
}

/// Reads a number where one follows, an optional `=` and a value, and sets it (TeX: The Program,
/// sections 1224 to 1234).
#[tactic(auto, unfolding(crate::specs::Settings::target_set))]
pub(crate) fn set_target<F: Files>(
    alloc: Global,
    gullet: &mut Gullet,
    files: &mut F,
    env: &mut Env,
    target: Target,
    global: bool,
) -> Result<(), TurnFault>
    requires opened { AreOpen gullet.old (F.state files.old) }
    requires readable { IsReadable gullet.old }
    requires fit { AreFit gullet.old.names env.old }
    ensures exact { AreTold gullet.old (F.state files.old)
        → AgreesAt (λ _. world_of gullet.new (F.state files.new) env.new) read_cause
        gullet.new result
        (target_set target global (world_of gullet.old (F.state files.old) env.old)) }
    ensures goes { Goes gullet.old (F.state files.old) gullet.new (F.state files.new) }
    ensures readable { OnOk result (IsReadable gullet.new) }
    ensures fit { AreFit gullet.new.names env.new }
    ensures beside { IsBeside env.old env.new }
    ensures size { OnOk result (size (reading gullet.new (F.state files.new))
        ≤ size (reading gullet.old (F.state files.old))) }
    ensures unshipped { Uncounted sink_cause result }
    ensures counted { Counts read_cause result (F.state files.old).faults
        (F.state files.new).faults }
{
    let variable = read_variable(gullet, files, env, target)?;
    read_equals(gullet, files, env)?;
    set_value(alloc, gullet, files, env, variable, global)
}

fn switch_number(on: bool) -> i64
    ensures { result ≡ the_switch_number on }
{
    if on { 1 } else { 0 }
}

/// Sets a switch of spacing (pTeX).
pub(crate) fn set_switch(
    env: &mut Env,
    param: IntParam,
    on: bool,
    global: bool,
) -> Result<(), TurnFault>
    ensures exact { Agrees (λ _. env.new) read_cause result
        (int_stored env.old (Param param) (the_switch_number on) global) }
    ensures fit { (names : List Spelling) → AreFit names env.old → AreFit names env.new }
    ensures beside { IsBeside env.old env.new }
    ensures quiet { Uncounted read_cause result }
    ensures unshipped { Uncounted sink_cause result }
{
    store_int(env, IntKey::Param(param), switch_number(on), global)
}
