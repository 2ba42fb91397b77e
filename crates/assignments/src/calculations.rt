//! `\advance`, `\multiply` and `\divide` (TeX: The Program, sections 1236 to 1240).

ghost use Rattle.std.specs.Prelude.{◌≡◌, ◌≤◌, List, IfSome, OnOk};
ghost use Rattle.ts_base.specs.Agreement.{Agrees, Counts, Uncounted};
ghost use Rattle.mouth.specs.Keeping.{reading, AgreesAt, AreOpen, AreTold, IsReadable};
ghost use Rattle.mouth.specs.Sizes.{size};
ghost use Rattle.expander.specs.Holding.{AreFit, Goes};
ghost use Rattle.control_faults.specs.TurnFaults.{read_cause, sink_cause};
ghost use Rattle.assignments.specs.Worlds.{world_of};
ghost use Rattle.assignments.specs.Beside.{IsBeside};
ghost use Rattle.tok_lists.specs.declared.spelling.Spelling.{Spelling};
ghost use Rattle.box_tree.specs.Bounds.{IsDimen};
ghost use Rattle.env_groups.specs.Bounds.{IsInt, HasSetDimens};
ghost use Rattle.arithmetic.specs.Results.{dimen_advanced, glue_advanced};
ghost use Rattle.assignments.specs.Calculations.{numeric as the_numeric, numeric_in as the_numeric_in, adds as the_adds, integer_result as the_integer_result, dimen_result as the_dimen_result, glue_result as the_glue_result, int_changed, dim_changed, glue_changed, int_calculated, dim_calculated, glue_calculated, variable_calculated, numeric_token, calculated};

use crate::command::{Assignment, Command, Operation, command_in};
use crate::reads::take_next;
use crate::settings::read_variable;
use crate::storing::{store_dim, store_glue, store_int};
use crate::values::{read_dimension, read_glue, read_integer, read_keyword};
use crate::variable::{Numbered, Target, Variable};
use arithmetic::{
    advance_dimen, advance_glue, advance_integer, divide_dimen, divide_glue, divide_integer,
    multiply_dimen, multiply_glue, multiply_integer,
};
use control_faults::{FaultKind, TurnFault};
use env_groups::{DimKey, Env, GlueKey, IntKey};
use expander::Gullet;
use scan_syntax::Word;
use ts_geometry::{Glue, Sp};
use ts_outside::Files;

// What holds an integer, a dimension or glue.
fn numeric(target: Target) -> Result<Target, FaultKind>
    ensures { result ≡ the_numeric target }
{
    match target {
        Target::Known(Variable::Int(_) | Variable::Dim(_) | Variable::Glue(_))
        | Target::OfNumber(Numbered::Count | Numbered::Dimen | Numbered::Skip) => Ok(target),
        Target::Known(Variable::Toks(_) | Variable::Code(_))
        | Target::OfNumber(Numbered::Toks | Numbered::Code(_)) => Err(FaultKind::NotInMode),
    }
}

fn numeric_in(command: Command) -> Result<Target, FaultKind>
    ensures { result ≡ the_numeric_in command }
{
    match command {
        Command::Assigns(Assignment::Set(target)) => numeric(target),
        _ => Err(FaultKind::NotInMode),
    }
}

fn adds(operation: Operation) -> bool
    ensures { result ≡ the_adds operation }
{
    matches!(operation, Operation::Advance)
}

fn integer_result(operation: Operation, old: i64, by: i64) -> Option<i64>
    requires old { IsInt old }
    requires by { IsInt by }
    ensures value { result ≡ the_integer_result operation old by }
    ensures within { IfSome result IsInt }
{
    match operation {
        Operation::Advance => advance_integer(old, by),
        Operation::Multiply => multiply_integer(old, by),
        Operation::Divide => divide_integer(old, by),
    }
}

// A dimension times or by an integer, in scaled points.
fn dimen_result(operation: Operation, old: Sp, by: i64) -> Option<Sp>
    requires old { IsDimen old }
    requires by { IsInt by }
    ensures value { result ≡ the_dimen_result operation old by }
    ensures within { IfSome result IsDimen }
{
    match operation {
        Operation::Divide => divide_dimen(old, by),
        Operation::Advance | Operation::Multiply => multiply_dimen(old, by),
    }
}

// Glue times or by an integer, in scaled points.
fn glue_result(operation: Operation, old: Glue, by: i64) -> Option<Glue>
    requires old { HasSetDimens old }
    requires by { IsInt by }
    ensures value { result ≡ the_glue_result operation old by }
    ensures within { IfSome result HasSetDimens }
{
    match operation {
        Operation::Divide => divide_glue(old, by),
        Operation::Advance | Operation::Multiply => multiply_glue(old, by),
    }
}

#[tactic(auto, using(crate::proofs::Refusals::env_refuses, crate::proofs::Refusals::env_quiet, crate::proofs::Refusals::env_unshipped))]
fn change_int(
    env: &mut Env,
    operation: Operation,
    key: IntKey,
    by: i64,
    global: bool,
) -> Result<(), TurnFault>
    requires by { IsInt by }
    ensures exact { Agrees (λ _. env.new) read_cause result
        (int_changed env.old key (λ old. the_integer_result operation old by) global) }
    ensures fit { (names : List Spelling) → AreFit names env.old → AreFit names env.new }
    ensures beside { IsBeside env.old env.new }
    ensures quiet { Uncounted read_cause result }
    ensures unshipped { Uncounted sink_cause result }
{
    let old = env.get_int(key)?;
    let value = integer_result(operation, old, by).ok_or(TurnFault::Kind(FaultKind::Arithmetic))?;
    store_int(env, key, value, global)
}

#[tactic(auto, using(crate::proofs::Refusals::env_refuses, crate::proofs::Refusals::env_quiet, crate::proofs::Refusals::env_unshipped))]
fn change_dim(
    env: &mut Env,
    operation: Operation,
    key: DimKey,
    by: i64,
    global: bool,
) -> Result<(), TurnFault>
    requires by { IsInt by }
    ensures exact { Agrees (λ _. env.new) read_cause result
        (dim_changed env.old key (λ old. the_dimen_result operation old by) global) }
    ensures fit { (names : List Spelling) → AreFit names env.old → AreFit names env.new }
    ensures beside { IsBeside env.old env.new }
    ensures quiet { Uncounted read_cause result }
    ensures unshipped { Uncounted sink_cause result }
{
    let old = env.get_dim(key)?;
    let value = dimen_result(operation, old, by).ok_or(TurnFault::Kind(FaultKind::Arithmetic))?;
    store_dim(env, key, value, global)
}

#[tactic(auto, using(crate::proofs::Refusals::env_refuses, crate::proofs::Refusals::env_quiet, crate::proofs::Refusals::env_unshipped))]
fn change_glue(
    env: &mut Env,
    operation: Operation,
    key: GlueKey,
    by: i64,
    global: bool,
) -> Result<(), TurnFault>
    requires by { IsInt by }
    ensures exact { Agrees (λ _. env.new) read_cause result
        (glue_changed env.old key (λ old. the_glue_result operation old by) global) }
    ensures fit { (names : List Spelling) → AreFit names env.old → AreFit names env.new }
    ensures beside { IsBeside env.old env.new }
    ensures quiet { Uncounted read_cause result }
    ensures unshipped { Uncounted sink_cause result }
{
    let old = env.get_glue(key)?;
    let value = glue_result(operation, old, by).ok_or(TurnFault::Kind(FaultKind::Arithmetic))?;
    store_glue(env, key, value, global)
}

#[tactic(auto, using(crate::proofs::Refusals::env_refuses, crate::proofs::Refusals::env_quiet, crate::proofs::Refusals::env_unshipped))]
fn add_dim(env: &mut Env, key: DimKey, by: Sp, global: bool) -> Result<(), TurnFault>
    requires by { IsDimen by }
    ensures exact { Agrees (λ _. env.new) read_cause result
        (dim_changed env.old key (λ old. dimen_advanced old by) global) }
    ensures fit { (names : List Spelling) → AreFit names env.old → AreFit names env.new }
    ensures beside { IsBeside env.old env.new }
    ensures quiet { Uncounted read_cause result }
    ensures unshipped { Uncounted sink_cause result }
{
    let old = env.get_dim(key)?;
    let value = advance_dimen(old, by).ok_or(TurnFault::Kind(FaultKind::Arithmetic))?;
    store_dim(env, key, value, global)
}

#[tactic(auto, using(crate::proofs::Refusals::env_refuses, crate::proofs::Refusals::env_quiet, crate::proofs::Refusals::env_unshipped))]
fn add_glue(env: &mut Env, key: GlueKey, by: Glue, global: bool) -> Result<(), TurnFault>
    requires by { HasSetDimens by }
    ensures exact { Agrees (λ _. env.new) read_cause result
        (glue_changed env.old key (λ old. glue_advanced old by) global) }
    ensures fit { (names : List Spelling) → AreFit names env.old → AreFit names env.new }
    ensures beside { IsBeside env.old env.new }
    ensures quiet { Uncounted read_cause result }
    ensures unshipped { Uncounted sink_cause result }
{
    let old = env.get_glue(key)?;
    let value = advance_glue(old, by).ok_or(TurnFault::Kind(FaultKind::Arithmetic))?;
    store_glue(env, key, value, global)
}

#[tactic(auto, using(crate::proofs::Refusals::env_agrees))]
fn calculate_int<F: Files>(
    gullet: &mut Gullet,
    files: &mut F,
    env: &mut Env,
    operation: Operation,
    key: IntKey,
    global: bool,
) -> Result<(), TurnFault>
    requires opened { AreOpen gullet.old (F.state files.old) }
    requires readable { IsReadable gullet.old }
    requires fit { AreFit gullet.old.names env.old }
    ensures exact { AreTold gullet.old (F.state files.old)
        → AgreesAt (λ _. world_of gullet.new (F.state files.new) env.new) read_cause
        gullet.new result
        (int_calculated operation key global (world_of gullet.old (F.state files.old) env.old)) }
    ensures goes { Goes gullet.old (F.state files.old) gullet.new (F.state files.new) }
    ensures readable { OnOk result (IsReadable gullet.new) }
    ensures fit { AreFit gullet.new.names env.new }
    ensures beside { IsBeside env.old env.new }
    ensures size { OnOk result (size (reading gullet.new (F.state files.new))
        ≤ size (reading gullet.old (F.state files.old))) }
    ensures unshipped { Uncounted sink_cause result }
    ensures counted { Counts read_cause result (F.state files.old).faults
        (F.state files.new).faults }
{
    let by = read_integer(gullet, files, env)?;
    change_int(env, operation, key, by, global)
}

// A dimension is added to a dimension.
#[tactic(auto, using(crate::proofs::Refusals::env_agrees))]
fn calculate_dim<F: Files>(
    gullet: &mut Gullet,
    files: &mut F,
    env: &mut Env,
    operation: Operation,
    key: DimKey,
    global: bool,
) -> Result<(), TurnFault>
    requires opened { AreOpen gullet.old (F.state files.old) }
    requires readable { IsReadable gullet.old }
    requires fit { AreFit gullet.old.names env.old }
    ensures exact { AreTold gullet.old (F.state files.old)
        → AgreesAt (λ _. world_of gullet.new (F.state files.new) env.new) read_cause
        gullet.new result
        (dim_calculated operation key global (world_of gullet.old (F.state files.old) env.old)) }
    ensures goes { Goes gullet.old (F.state files.old) gullet.new (F.state files.new) }
    ensures readable { OnOk result (IsReadable gullet.new) }
    ensures fit { AreFit gullet.new.names env.new }
    ensures beside { IsBeside env.old env.new }
    ensures size { OnOk result (size (reading gullet.new (F.state files.new))
        ≤ size (reading gullet.old (F.state files.old))) }
    ensures unshipped { Uncounted sink_cause result }
    ensures counted { Counts read_cause result (F.state files.old).faults
        (F.state files.new).faults }
{
    if adds(operation) {
        let by = read_dimension(gullet, files, env)?;
        return add_dim(env, key, by, global);
    }
    let by = read_integer(gullet, files, env)?;
    change_dim(env, operation, key, by, global)
}

// Glue is added to glue.
#[tactic(auto, using(crate::proofs::Refusals::env_agrees))]
fn calculate_glue<F: Files>(
    gullet: &mut Gullet,
    files: &mut F,
    env: &mut Env,
    operation: Operation,
    key: GlueKey,
    global: bool,
) -> Result<(), TurnFault>
    requires opened { AreOpen gullet.old (F.state files.old) }
    requires readable { IsReadable gullet.old }
    requires fit { AreFit gullet.old.names env.old }
    ensures exact { AreTold gullet.old (F.state files.old)
        → AgreesAt (λ _. world_of gullet.new (F.state files.new) env.new) read_cause
        gullet.new result
        (glue_calculated operation key global (world_of gullet.old (F.state files.old) env.old)) }
    ensures goes { Goes gullet.old (F.state files.old) gullet.new (F.state files.new) }
    ensures readable { OnOk result (IsReadable gullet.new) }
    ensures fit { AreFit gullet.new.names env.new }
    ensures beside { IsBeside env.old env.new }
    ensures size { OnOk result (size (reading gullet.new (F.state files.new))
        ≤ size (reading gullet.old (F.state files.old))) }
    ensures unshipped { Uncounted sink_cause result }
    ensures counted { Counts read_cause result (F.state files.old).faults
        (F.state files.new).faults }
{
    if adds(operation) {
        let by = read_glue(gullet, files, env)?;
        return add_glue(env, key, by, global);
    }
    let by = read_integer(gullet, files, env)?;
    change_glue(env, operation, key, by, global)
}

fn calculate_variable<F: Files>(
    gullet: &mut Gullet,
    files: &mut F,
    env: &mut Env,
    operation: Operation,
    variable: Variable,
    global: bool,
) -> Result<(), TurnFault>
    requires opened { AreOpen gullet.old (F.state files.old) }
    requires readable { IsReadable gullet.old }
    requires fit { AreFit gullet.old.names env.old }
    ensures exact { AreTold gullet.old (F.state files.old)
        → AgreesAt (λ _. world_of gullet.new (F.state files.new) env.new) read_cause
        gullet.new result (variable_calculated operation variable global
        (world_of gullet.old (F.state files.old) env.old)) }
    ensures goes { Goes gullet.old (F.state files.old) gullet.new (F.state files.new) }
    ensures readable { OnOk result (IsReadable gullet.new) }
    ensures fit { AreFit gullet.new.names env.new }
    ensures beside { IsBeside env.old env.new }
    ensures size { OnOk result (size (reading gullet.new (F.state files.new))
        ≤ size (reading gullet.old (F.state files.old))) }
    ensures unshipped { Uncounted sink_cause result }
    ensures counted { Counts read_cause result (F.state files.old).faults
        (F.state files.new).faults }
{
    match variable {
        Variable::Int(key) => calculate_int(gullet, files, env, operation, key, global),
        Variable::Dim(key) => calculate_dim(gullet, files, env, operation, key, global),
        Variable::Glue(key) => calculate_glue(gullet, files, env, operation, key, global),
        Variable::Toks(_) | Variable::Code(_) => Err(TurnFault::Kind(FaultKind::NotInMode)),
    }
}

// What holds an integer, a dimension or glue, by the next token.
#[tactic(auto, unfolding(crate::specs::Calculations::numeric_token))]
fn take_numeric<F: Files>(
    gullet: &mut Gullet,
    files: &mut F,
    env: &mut Env,
) -> Result<Target, TurnFault>
    requires opened { AreOpen gullet.old (F.state files.old) }
    requires readable { IsReadable gullet.old }
    requires fit { AreFit gullet.old.names env.old }
    ensures exact { AreTold gullet.old (F.state files.old)
        → AgreesAt (λ target. (target, world_of gullet.new (F.state files.new) env.new)) read_cause
        gullet.new result (numeric_token (world_of gullet.old (F.state files.old) env.old)) }
    ensures goes { Goes gullet.old (F.state files.old) gullet.new (F.state files.new) }
    ensures readable { OnOk result (IsReadable gullet.new) }
    ensures fit { AreFit gullet.new.names env.new }
    ensures beside { IsBeside env.old env.new }
    ensures size { OnOk result (size (reading gullet.new (F.state files.new))
        ≤ size (reading gullet.old (F.state files.old))) }
    ensures unshipped { Uncounted sink_cause result }
    ensures counted { Counts read_cause result (F.state files.old).faults
        (F.state files.new).faults }
{
    let token = take_next(gullet, files, env)?;
    Ok(numeric_in(command_in(&token, env))?)
}

/// Calculates: the next token, with no space passed over, tells what; then comes a number where one
/// follows, an optional `by`, and the operand. `NotInMode` comes exactly where the token tells no
/// integer, dimension or glue, and `Arithmetic` exactly where there is no result.
#[tactic(auto, unfolding(crate::specs::Calculations::calculated))]
pub(crate) fn calculate<F: Files>(
    gullet: &mut Gullet,
    files: &mut F,
    env: &mut Env,
    operation: Operation,
    global: bool,
) -> Result<(), TurnFault>
    requires opened { AreOpen gullet.old (F.state files.old) }
    requires readable { IsReadable gullet.old }
    requires fit { AreFit gullet.old.names env.old }
    ensures exact { AreTold gullet.old (F.state files.old)
        → AgreesAt (λ _. world_of gullet.new (F.state files.new) env.new) read_cause
        gullet.new result
        (calculated operation global (world_of gullet.old (F.state files.old) env.old)) }
    ensures goes { Goes gullet.old (F.state files.old) gullet.new (F.state files.new) }
    ensures readable { OnOk result (IsReadable gullet.new) }
    ensures fit { AreFit gullet.new.names env.new }
    ensures beside { IsBeside env.old env.new }
    ensures size { OnOk result (size (reading gullet.new (F.state files.new))
        ≤ size (reading gullet.old (F.state files.old))) }
    ensures unshipped { Uncounted sink_cause result }
    ensures counted { Counts read_cause result (F.state files.old).faults
        (F.state files.new).faults }
{
    let target = take_numeric(gullet, files, env)?;
    let variable = read_variable(gullet, files, env, target)?;
    read_keyword(gullet, files, env, Word::By)?;
    calculate_variable(gullet, files, env, operation, variable, global)
}
