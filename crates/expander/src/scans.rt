//! What a scan leaves and finds.

ghost use Rattle.std.specs.Prelude.{◌≡◌, ◌+◌, length, IfOk, OnOk};
ghost use Rattle.ts_base.specs.Agreement.{Uncounted};
ghost use Rattle.ts_outside.specs.States.{FilesState};
ghost use Rattle.env_groups.specs.Environments.{Nest};
ghost use Rattle.mouth.specs.Keeping.{reading, AgreesAt, KeepsFiles};
ghost use Rattle.mouth.specs.Sizes.{size};
ghost use Rattle.scan_numbers.specs.Contexts.{around};
ghost use Rattle.scan_numbers.specs.Tokens.{is_space as the_is_space};
ghost use Rattle.expander.specs.Faults.{step_cause};
ghost use Rattle.expander.specs.Worlds.{world, put};
ghost use Rattle.expander.specs.Holding.{IsListed, IsPlainList};
ghost use Rattle.expander.specs.Scanning.{given_back};
ghost use Rattle.scan_syntax.specs.Bounds.{IsWithinBounds};

use crate::fault::StepFault;
use crate::steps::push;
use env_groups::Env;
use mouth::Mouth;
use scan_numbers::{Context, is_space};
use scan_syntax::Value;
use std::alloc::Global;
use tok_lists::{Names, SharedTokens, Token, Tokens};

/// Returns whether a token is a space, explicit or implicit.
pub(crate) fn is_space_in(token: &Token, names: &Names, env: &Env) -> bool
    ensures { result ≡ the_is_space token.now (around env.now names.now) }
{
    is_space(token, &Context::new(env, names))
}

// Puts back what a scan left.
fn put_list(alloc: Global, mouth: &mut Mouth, tokens: &Tokens) -> Result<(), StepFault>
    requires known { IsPlainList mouth.old.names tokens.now }
    ensures exact { (state : FilesState) → AgreesAt (λ _. reading mouth.new state) step_cause
        mouth.new result (put tokens.now (reading mouth.old state)) }
    ensures files { KeepsFiles mouth.old mouth.new }
    ensures names { mouth.new.names ≡ mouth.old.names }
    ensures quiet { Uncounted step_cause result }
    ensures size { OnOk result ((state : FilesState) → size (reading mouth.new state)
        ≡ size (reading mouth.old state) + length tokens.now) }
{
    let list = SharedTokens::new(alloc, tokens.as_slice())?;
    push(mouth, &list)
}

/// Puts back what a scan left, and gives what it found.
pub(crate) fn give_back(
    alloc: Global,
    mouth: &mut Mouth,
    value: Value,
    tokens: &Tokens,
) -> Result<Value, StepFault>
    requires known { IsPlainList mouth.old.names tokens.now }
    requires listed { IsListed (IsPlainList mouth.old.names) value }
    requires within { IsWithinBounds value }
    ensures exact { (state : FilesState) (nest : Nest)
        → AgreesAt (λ found. (found, world (reading mouth.new state) nest)) step_cause
        mouth.new result (given_back value tokens.now nest (reading mouth.old state)) }
    ensures listed { IfOk result (IsListed (IsPlainList mouth.new.names)) }
    ensures within { IfOk result IsWithinBounds }
    ensures files { KeepsFiles mouth.old mouth.new }
    ensures names { mouth.new.names ≡ mouth.old.names }
    ensures quiet { Uncounted step_cause result }
    ensures size { OnOk result ((state : FilesState) → size (reading mouth.new state)
        ≡ size (reading mouth.old state) + length tokens.now) }
{
    put_list(alloc, mouth, tokens)?;
    Ok(value)
}
