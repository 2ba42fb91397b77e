//! Values that commands read, each with its range.

ghost use Rattle.std.specs.Prelude.{◌≡◌, ◌≤◌, IfOk, OnOk};
ghost use Rattle.ts_base.specs.Agreement.{Counts, Uncounted};
ghost use Rattle.mouth.specs.Keeping.{reading, AgreesAt, AreOpen, AreTold, IsReadable};
ghost use Rattle.mouth.specs.Sizes.{size};
ghost use Rattle.expander.specs.Holding.{AreFit, Goes};
ghost use Rattle.control_faults.specs.TurnFaults.{read_cause, sink_cause};
ghost use Rattle.assignments.specs.Worlds.{world_of};
ghost use Rattle.assignments.specs.Beside.{IsBeside};
ghost use Rattle.box_tree.specs.Bounds.{IsDimen};
ghost use Rattle.scan_syntax.specs.Bounds.{IsWithinBounds};
ghost use Rattle.env_groups.specs.Bounds.{IsInt, HasSetDimens};
ghost use Rattle.assignments.specs.Values.{whole_integer as the_whole_integer, whole_dimen as the_whole_dimen, whole_glue as the_whole_glue, is_dimen as the_is_dimen, integer, dimension, glue, equals, is_there as the_is_there, keyword, register};

use crate::reads::scan;
use crate::variable::register_number;
use control_faults::{FaultKind, TurnFault};
use env_groups::Env;
use expander::Gullet;
use scan_syntax::{Value, Want, Word};
use ts_geometry::{Glue, MAX_DIMEN, Sp};
use ts_outside::Files;

fn is_dimen(d: Sp) -> bool
    ensures { result ≡ the_is_dimen d }
{
    -MAX_DIMEN.0 <= d.0 && d.0 <= MAX_DIMEN.0
}

// The integer that a scan found.
fn whole_integer(value: &Value) -> Result<i64, FaultKind>
    requires { IsWithinBounds value.now }
    ensures value { result ≡ the_whole_integer value.now }
    ensures within { IfOk result IsInt }
{
    match value {
        Value::Integer(n) => Ok(*n),
        _ => Err(FaultKind::NoNumber),
    }
}

// The dimension that a scan found, in scaled points.
fn whole_dimen(value: &Value) -> Result<Sp, FaultKind>
    ensures value { result ≡ the_whole_dimen value.now }
    ensures within { IfOk result IsDimen }
{
    match value {
        Value::Dimen(d) if is_dimen(*d) => Ok(*d),
        Value::Dimen(_) => Err(FaultKind::DimenRange),
        _ => Err(FaultKind::NoNumber),
    }
}

// The glue that a scan found, in scaled points.
fn whole_glue(value: &Value) -> Result<Glue, FaultKind>
    requires { IsWithinBounds value.now }
    ensures value { result ≡ the_whole_glue value.now }
    ensures within { IfOk result HasSetDimens }
{
    match value {
        Value::Glue(g) => Ok(*g),
        _ => Err(FaultKind::NoNumber),
    }
}

/// Reads an integer.
#[tactic(auto, unfolding(crate::specs::Values::integer))]
pub fn read_integer<F: Files>(
    gullet: &mut Gullet,
    files: &mut F,
    env: &mut Env,
) -> Result<i64, TurnFault>
    requires opened { AreOpen gullet.old (F.state files.old) }
    requires readable { IsReadable gullet.old }
    requires fit { AreFit gullet.old.names env.old }
    ensures exact { AreTold gullet.old (F.state files.old)
        → AgreesAt (λ value. (value, world_of gullet.new (F.state files.new) env.new)) read_cause
        gullet.new result (integer (world_of gullet.old (F.state files.old) env.old)) }
    ensures goes { Goes gullet.old (F.state files.old) gullet.new (F.state files.new) }
    ensures readable { OnOk result (IsReadable gullet.new) }
    ensures fit { AreFit gullet.new.names env.new }
    ensures beside { IsBeside env.old env.new }
    ensures within { IfOk result IsInt }
    ensures size { OnOk result (size (reading gullet.new (F.state files.new))
        ≤ size (reading gullet.old (F.state files.old))) }
    ensures unshipped { Uncounted sink_cause result }
    ensures counted { Counts read_cause result (F.state files.old).faults
        (F.state files.new).faults }
{
    let value = scan(gullet, files, env, Want::Integer)?;
    Ok(whole_integer(&value)?)
}

/// Reads a dimension, in scaled points.
#[tactic(auto, unfolding(crate::specs::Values::dimension))]
pub fn read_dimension<F: Files>(
    gullet: &mut Gullet,
    files: &mut F,
    env: &mut Env,
) -> Result<Sp, TurnFault>
    requires opened { AreOpen gullet.old (F.state files.old) }
    requires readable { IsReadable gullet.old }
    requires fit { AreFit gullet.old.names env.old }
    ensures exact { AreTold gullet.old (F.state files.old)
        → AgreesAt (λ value. (value, world_of gullet.new (F.state files.new) env.new)) read_cause
        gullet.new result (dimension (world_of gullet.old (F.state files.old) env.old)) }
    ensures goes { Goes gullet.old (F.state files.old) gullet.new (F.state files.new) }
    ensures readable { OnOk result (IsReadable gullet.new) }
    ensures fit { AreFit gullet.new.names env.new }
    ensures beside { IsBeside env.old env.new }
    ensures within { IfOk result IsDimen }
    ensures size { OnOk result (size (reading gullet.new (F.state files.new))
        ≤ size (reading gullet.old (F.state files.old))) }
    ensures unshipped { Uncounted sink_cause result }
    ensures counted { Counts read_cause result (F.state files.old).faults
        (F.state files.new).faults }
{
    let value = scan(gullet, files, env, Want::Dimen)?;
    Ok(whole_dimen(&value)?)
}

/// Reads glue, in scaled points.
#[tactic(auto, unfolding(crate::specs::Values::glue))]
pub(crate) fn read_glue<F: Files>(
    gullet: &mut Gullet,
    files: &mut F,
    env: &mut Env,
) -> Result<Glue, TurnFault>
    requires opened { AreOpen gullet.old (F.state files.old) }
    requires readable { IsReadable gullet.old }
    requires fit { AreFit gullet.old.names env.old }
    ensures exact { AreTold gullet.old (F.state files.old)
        → AgreesAt (λ value. (value, world_of gullet.new (F.state files.new) env.new)) read_cause
        gullet.new result (glue (world_of gullet.old (F.state files.old) env.old)) }
    ensures goes { Goes gullet.old (F.state files.old) gullet.new (F.state files.new) }
    ensures readable { OnOk result (IsReadable gullet.new) }
    ensures fit { AreFit gullet.new.names env.new }
    ensures beside { IsBeside env.old env.new }
    ensures within { IfOk result HasSetDimens }
    ensures size { OnOk result (size (reading gullet.new (F.state files.new))
        ≤ size (reading gullet.old (F.state files.old))) }
    ensures unshipped { Uncounted sink_cause result }
    ensures counted { Counts read_cause result (F.state files.old).faults
        (F.state files.new).faults }
{
    let value = scan(gullet, files, env, Want::Glue)?;
    Ok(whole_glue(&value)?)
}

/// Passes over spaces and at most one `=`.
#[tactic(auto, unfolding(crate::specs::Values::equals))]
pub fn read_equals<F: Files>(
    gullet: &mut Gullet,
    files: &mut F,
    env: &mut Env,
) -> Result<(), TurnFault>
    requires opened { AreOpen gullet.old (F.state files.old) }
    requires readable { IsReadable gullet.old }
    requires fit { AreFit gullet.old.names env.old }
    ensures exact { AreTold gullet.old (F.state files.old)
        → AgreesAt (λ _. world_of gullet.new (F.state files.new) env.new) read_cause
        gullet.new result (equals (world_of gullet.old (F.state files.old) env.old)) }
    ensures goes { Goes gullet.old (F.state files.old) gullet.new (F.state files.new) }
    ensures readable { OnOk result (IsReadable gullet.new) }
    ensures fit { AreFit gullet.new.names env.new }
    ensures beside { IsBeside env.old env.new }
    ensures size { OnOk result (size (reading gullet.new (F.state files.new))
        ≤ size (reading gullet.old (F.state files.old))) }
    ensures unshipped { Uncounted sink_cause result }
    ensures counted { Counts read_cause result (F.state files.old).faults
        (F.state files.new).faults }
{
    scan(gullet, files, env, Want::Equals)?;
    Ok(())
}

fn is_there(value: &Value) -> bool
    ensures { result ≡ the_is_there value.now }
{
    matches!(value, Value::Keyword(true))
}

/// Returns whether a keyword is there, which is then passed over.
#[tactic(auto, unfolding(crate::specs::Values::keyword))]
pub fn read_keyword<F: Files>(
    gullet: &mut Gullet,
    files: &mut F,
    env: &mut Env,
    word: Word,
) -> Result<bool, TurnFault>
    requires opened { AreOpen gullet.old (F.state files.old) }
    requires readable { IsReadable gullet.old }
    requires fit { AreFit gullet.old.names env.old }
    ensures exact { AreTold gullet.old (F.state files.old)
        → AgreesAt (λ there. (there, world_of gullet.new (F.state files.new) env.new)) read_cause
        gullet.new result (keyword word (world_of gullet.old (F.state files.old) env.old)) }
    ensures goes { Goes gullet.old (F.state files.old) gullet.new (F.state files.new) }
    ensures readable { OnOk result (IsReadable gullet.new) }
    ensures fit { AreFit gullet.new.names env.new }
    ensures beside { IsBeside env.old env.new }
    ensures size { OnOk result (size (reading gullet.new (F.state files.new))
        ≤ size (reading gullet.old (F.state files.old))) }
    ensures unshipped { Uncounted sink_cause result }
    ensures counted { Counts read_cause result (F.state files.old).faults
        (F.state files.new).faults }
{
    let value = scan(gullet, files, env, Want::Keyword(word))?;
    Ok(is_there(&value))
}

/// Reads the number of a register.
#[tactic(auto, unfolding(crate::specs::Values::register))]
pub(crate) fn read_register<F: Files>(
    gullet: &mut Gullet,
    files: &mut F,
    env: &mut Env,
) -> Result<u32, TurnFault>
    requires opened { AreOpen gullet.old (F.state files.old) }
    requires readable { IsReadable gullet.old }
    requires fit { AreFit gullet.old.names env.old }
    ensures exact { AreTold gullet.old (F.state files.old)
        → AgreesAt (λ number. (number, world_of gullet.new (F.state files.new) env.new)) read_cause
        gullet.new result (register (world_of gullet.old (F.state files.old) env.old)) }
    ensures goes { Goes gullet.old (F.state files.old) gullet.new (F.state files.new) }
    ensures readable { OnOk result (IsReadable gullet.new) }
    ensures fit { AreFit gullet.new.names env.new }
    ensures beside { IsBeside env.old env.new }
    ensures size { OnOk result (size (reading gullet.new (F.state files.new))
        ≤ size (reading gullet.old (F.state files.old))) }
    ensures unshipped { Uncounted sink_cause result }
    ensures counted { Counts read_cause result (F.state files.old).faults
        (F.state files.new).faults }
{
    let n = read_integer(gullet, files, env)?;
    Ok(register_number(n)?)
}
