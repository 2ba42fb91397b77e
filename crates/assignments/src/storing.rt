//! What is stored in the environment.

ghost use Rattle.std.specs.Prelude.{◌≡◌, length, List, Ok};
ghost use Rattle.ts_base.specs.Agreement.{Agrees, Uncounted};
ghost use Rattle.box_tree.specs.Bounds.{IsDimen};
ghost use Rattle.tok_lists.specs.declared.spelling.Spelling.{Spelling};
ghost use Rattle.tok_lists.specs.Names.{HasNoParam};
ghost use Rattle.env_groups.specs.Bounds.{IsInt, HasSetDimens};
ghost use Rattle.env_groups.specs.Macros.{IsMeaning};
ghost use Rattle.env_groups.specs.Environments.{meaning_set};
ghost use Rattle.expander.specs.Holding.{AreFit, IsFit, IsPlainList};
ghost use Rattle.control_faults.specs.TurnFaults.{read_cause, sink_cause};
ghost use Rattle.assignments.specs.Beside.{IsBeside};
ghost use Rattle.assignments.specs.Settings.{int_stored, dim_stored, glue_stored, toks_stored, code_stored};

use control_faults::TurnFault;
use env_groups::{CodeKey, DimKey, Env, GlueKey, IntKey, Meaning, ToksKey};
use tok_lists::{NameNo, SharedTokens};
use ts_geometry::{Glue, Sp};

/// Stores an integer.
#[tactic(auto, using(crate::proofs::Refusals::env_refuses, crate::proofs::Refusals::env_quiet, crate::proofs::Refusals::env_unshipped, crate::proofs::Fitting::int_fits, crate::proofs::Beside::int_beside, crate::proofs::Beside::same_beside))]
pub(crate) fn store_int(
    env: &mut Env,
    key: IntKey,
    value: i64,
    global: bool,
) -> Result<(), TurnFault>
    requires { IsInt value }
    ensures exact { Agrees (λ _. env.new) read_cause result
        (int_stored env.old key value global) }
    ensures fit { (names : List Spelling) → AreFit names env.old
        → AreFit names env.new }
    ensures beside { IsBeside env.old env.new }
    ensures quiet { Uncounted read_cause result }
    ensures unshipped { Uncounted sink_cause result }
{
    Ok(env.set_int(key, value, global)?)
}

/// Stores a dimension, in scaled points.
#[tactic(auto, using(crate::proofs::Refusals::env_refuses, crate::proofs::Refusals::env_quiet, crate::proofs::Refusals::env_unshipped, crate::proofs::Fitting::dim_fits, crate::proofs::Beside::dim_beside, crate::proofs::Beside::same_beside))]
pub(crate) fn store_dim(
    env: &mut Env,
    key: DimKey,
    value: Sp,
    global: bool,
) -> Result<(), TurnFault>
    requires { IsDimen value }
    ensures exact { Agrees (λ _. env.new) read_cause result
        (dim_stored env.old key value global) }
    ensures fit { (names : List Spelling) → AreFit names env.old
        → AreFit names env.new }
    ensures beside { IsBeside env.old env.new }
    ensures quiet { Uncounted read_cause result }
    ensures unshipped { Uncounted sink_cause result }
{
    Ok(env.set_dim(key, value, global)?)
}

/// Stores glue, in scaled points.
#[tactic(auto, using(crate::proofs::Refusals::env_refuses, crate::proofs::Refusals::env_quiet, crate::proofs::Refusals::env_unshipped, crate::proofs::Fitting::glue_fits, crate::proofs::Beside::glue_beside, crate::proofs::Beside::same_beside))]
pub(crate) fn store_glue(
    env: &mut Env,
    key: GlueKey,
    value: Glue,
    global: bool,
) -> Result<(), TurnFault>
    requires { HasSetDimens value }
    ensures exact { Agrees (λ _. env.new) read_cause result
        (glue_stored env.old key value global) }
    ensures fit { (names : List Spelling) → AreFit names env.old
        → AreFit names env.new }
    ensures beside { IsBeside env.old env.new }
    ensures quiet { Uncounted read_cause result }
    ensures unshipped { Uncounted sink_cause result }
{
    Ok(env.set_glue(key, value, global)?)
}

/// Stores a list of tokens.
#[tactic(auto, using(crate::proofs::Refusals::env_refuses, crate::proofs::Refusals::env_quiet, crate::proofs::Refusals::env_unshipped, crate::proofs::Fitting::toks_fits, crate::proofs::Beside::toks_beside, crate::proofs::Beside::same_beside))]
pub(crate) fn store_toks(
    env: &mut Env,
    key: ToksKey,
    value: SharedTokens,
    global: bool,
) -> Result<(), TurnFault>
    requires { HasNoParam value }
    ensures exact { Agrees (λ _. env.new) read_cause result
        (toks_stored env.old key value global) }
    ensures fit { (names : List Spelling) → IsPlainList names value → AreFit names env.old
        → AreFit names env.new }
    ensures beside { IsBeside env.old env.new }
    ensures quiet { Uncounted read_cause result }
    ensures unshipped { Uncounted sink_cause result }
{
    Ok(env.set_toks(key, value, global)?)
}

/// Stores a code.
#[tactic(auto, using(crate::proofs::Refusals::env_refuses, crate::proofs::Refusals::env_quiet, crate::proofs::Refusals::env_unshipped, crate::proofs::Fitting::code_fits, crate::proofs::Beside::code_beside, crate::proofs::Beside::same_beside))]
pub(crate) fn store_code(
    env: &mut Env,
    key: CodeKey,
    value: i64,
    global: bool,
) -> Result<(), TurnFault>
    ensures exact { Agrees (λ _. env.new) read_cause result
        (code_stored env.old key value global) }
    ensures fit { (names : List Spelling) → AreFit names env.old
        → AreFit names env.new }
    ensures beside { IsBeside env.old env.new }
    ensures quiet { Uncounted read_cause result }
    ensures unshipped { Uncounted sink_cause result }
{
    Ok(env.set_code(key, value, global)?)
}

/// Stores the meaning of a name.
#[tactic(auto, using(crate::proofs::Refusals::set_refuses, crate::proofs::Refusals::env_quiet, crate::proofs::Refusals::env_unshipped, crate::proofs::Fitting::meaning_fits, crate::proofs::Beside::meaning_beside, crate::proofs::Beside::same_beside))]
pub fn store_meaning(
    env: &mut Env,
    name: NameNo,
    value: Meaning,
    global: bool,
) -> Result<(), TurnFault>
    requires { IsMeaning (length env.old.fonts) value }
    ensures exact { Agrees (λ _. env.new) read_cause result
        (Ok (meaning_set env.old name.0 value global)) }
    ensures fit { (names : List Spelling) → IsFit names value → AreFit names env.old
        → AreFit names env.new }
    ensures beside { IsBeside env.old env.new }
    ensures quiet { Uncounted read_cause result }
    ensures unshipped { Uncounted sink_cause result }
{
    Ok(env.set_meaning(name, value, global)?)
}
