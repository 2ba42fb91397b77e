//! What the gullet gives to a command.

ghost use Rattle.std.specs.Prelude.{◌≡◌, ◌≤◌, ◌<◌, ◌+◌, OnOk, IfOk};
ghost use Rattle.ts_base.specs.Agreement.{Counts, Uncounted};
ghost use Rattle.ts_outside.specs.States.{FilesState};
ghost use Rattle.env_groups.specs.Environments.{Nest};
ghost use Rattle.mouth.specs.Keeping.{reading, AgreesAt, AreOpen, AreTold, IsReadable, IsToken, KeepsFiles};
ghost use Rattle.mouth.specs.Sizes.{size};
ghost use Rattle.raw_texts.specs.Holding.{AreTokens};
ghost use Rattle.macros.specs.Definitions.{IsDefined};
ghost use Rattle.scan_syntax.specs.Bounds.{IsWithinBounds};
ghost use Rattle.expander.specs.Holding.{AreFit, Goes};
ghost use Rattle.control_faults.specs.TurnFaults.{read_cause, sink_cause};
ghost use Rattle.assignments.specs.Worlds.{world_of};
ghost use Rattle.assignments.specs.Beside.{IsBeside};
ghost use Rattle.assignments.specs.Reads.{next_token, raw_token, scanned, macro_read, braces_read, put_back as the_put_back};

use control_faults::TurnFault;
use env_groups::{Env, MacroDef};
use expander::{Gullet, expansions_leave_less};
use scan_syntax::{Value, Want};
use std::alloc::Global;
use tok_lists::{SharedTokens, Token};
use ts_outside::Files;

/// Takes the next unexpandable token.
#[tactic(auto, unfolding(crate::specs::Reads::next_token), using(crate::proofs::Refusals::gullet_refuses, crate::proofs::Refusals::gullet_unshipped))]
pub fn take_next<F: Files>(
    gullet: &mut Gullet,
    files: &mut F,
    env: &mut Env,
) -> Result<Token, TurnFault>
    requires opened { AreOpen gullet.old (F.state files.old) }
    requires readable { IsReadable gullet.old }
    requires fit { AreFit gullet.old.names env.old }
    ensures exact { AreTold gullet.old (F.state files.old)
        → AgreesAt (λ token. (token, world_of gullet.new (F.state files.new) env.new)) read_cause
        gullet.new result (next_token (world_of gullet.old (F.state files.old) env.old)) }
    ensures goes { Goes gullet.old (F.state files.old) gullet.new (F.state files.new) }
    ensures readable { OnOk result (IsReadable gullet.new) }
    ensures fit { AreFit gullet.new.names env.new }
    ensures beside { IsBeside env.old env.new }
    ensures token { IfOk result (IsToken gullet.new.names) }
    ensures size { OnOk result (size (reading gullet.new (F.state files.new))
        < size (reading gullet.old (F.state files.old))) }
    ensures unshipped { Uncounted sink_cause result }
    ensures counted { Counts read_cause result (F.state files.old).faults
        (F.state files.new).faults }
{
    Ok(gullet.next(files, env)?)
}

/// Takes the next token without expansion.
#[tactic(auto, unfolding(crate::specs::Reads::raw_token), using(crate::proofs::Refusals::gullet_refuses, crate::proofs::Refusals::gullet_unshipped))]
pub(crate) fn take_raw<F: Files>(
    gullet: &mut Gullet,
    files: &mut F,
    env: &mut Env,
) -> Result<Token, TurnFault>
    requires opened { AreOpen gullet.old (F.state files.old) }
    requires readable { IsReadable gullet.old }
    requires fit { AreFit gullet.old.names env.old }
    ensures exact { AreTold gullet.old (F.state files.old)
        → AgreesAt (λ token. (token, world_of gullet.new (F.state files.new) env.new)) read_cause
        gullet.new result (raw_token (world_of gullet.old (F.state files.old) env.old)) }
    ensures goes { Goes gullet.old (F.state files.old) gullet.new (F.state files.new) }
    ensures readable { OnOk result (IsReadable gullet.new) }
    ensures fit { AreFit gullet.new.names env.new }
    ensures beside { IsBeside env.old env.new }
    ensures token { IfOk result (IsToken gullet.new.names) }
    ensures size { OnOk result (size (reading gullet.new (F.state files.new))
        < size (reading gullet.old (F.state files.old))) }
    ensures unshipped { Uncounted sink_cause result }
    ensures counted { Counts read_cause result (F.state files.old).faults
        (F.state files.new).faults }
{
    Ok(gullet.raw(files, env)?)
}

/// Scans.
#[tactic(auto, unfolding(crate::specs::Reads::scanned), using(crate::proofs::Refusals::gullet_refuses, crate::proofs::Refusals::gullet_unshipped))]
pub fn scan<F: Files>(
    gullet: &mut Gullet,
    files: &mut F,
    env: &mut Env,
    want: Want,
) -> Result<Value, TurnFault>
    requires opened { AreOpen gullet.old (F.state files.old) }
    requires readable { IsReadable gullet.old }
    requires fit { AreFit gullet.old.names env.old }
    ensures exact { AreTold gullet.old (F.state files.old)
        → AgreesAt (λ value. (value, world_of gullet.new (F.state files.new) env.new)) read_cause
        gullet.new result (scanned want (world_of gullet.old (F.state files.old) env.old)) }
    ensures goes { Goes gullet.old (F.state files.old) gullet.new (F.state files.new) }
    ensures readable { OnOk result (IsReadable gullet.new) }
    ensures fit { AreFit gullet.new.names env.new }
    ensures beside { IsBeside env.old env.new }
    ensures within { IfOk result IsWithinBounds }
    ensures size { OnOk result (size (reading gullet.new (F.state files.new))
        ≤ size (reading gullet.old (F.state files.old))) }
    ensures unshipped { Uncounted sink_cause result }
    ensures counted { Counts read_cause result (F.state files.old).faults
        (F.state files.new).faults }
{
    Ok(gullet.scan(files, env, want)?)
}

/// Reads a macro's parameter text and body.
#[tactic(auto, unfolding(crate::specs::Reads::macro_read), using(crate::proofs::Refusals::gullet_refuses, crate::proofs::Refusals::gullet_unshipped))]
pub(crate) fn read_macro<F: Files>(
    gullet: &mut Gullet,
    files: &mut F,
    env: &mut Env,
    is_expanded: bool,
) -> Result<MacroDef, TurnFault>
    requires opened { AreOpen gullet.old (F.state files.old) }
    requires readable { IsReadable gullet.old }
    requires fit { AreFit gullet.old.names env.old }
    ensures exact { AreTold gullet.old (F.state files.old)
        → AgreesAt (λ definition. (definition, world_of gullet.new (F.state files.new) env.new))
        read_cause gullet.new result
        (macro_read is_expanded (world_of gullet.old (F.state files.old) env.old)) }
    ensures goes { Goes gullet.old (F.state files.old) gullet.new (F.state files.new) }
    ensures readable { OnOk result (IsReadable gullet.new) }
    ensures fit { AreFit gullet.new.names env.new }
    ensures beside { IsBeside env.old env.new }
    ensures defined { IfOk result (IsDefined gullet.new.names) }
    ensures size { OnOk result (size (reading gullet.new (F.state files.new))
        < size (reading gullet.old (F.state files.old))) }
    ensures unshipped { Uncounted sink_cause result }
    ensures counted { Counts read_cause result (F.state files.old).faults
        (F.state files.new).faults }
{
    Ok(gullet.definition(files, env, is_expanded)?)
}

/// Reads a list of tokens in braces.
#[tactic(auto, unfolding(crate::specs::Reads::braces_read), using(crate::proofs::Refusals::gullet_refuses, crate::proofs::Refusals::gullet_unshipped))]
pub(crate) fn read_braces<F: Files>(
    gullet: &mut Gullet,
    files: &mut F,
    env: &mut Env,
) -> Result<SharedTokens, TurnFault>
    requires opened { AreOpen gullet.old (F.state files.old) }
    requires readable { IsReadable gullet.old }
    requires fit { AreFit gullet.old.names env.old }
    ensures exact { AreTold gullet.old (F.state files.old)
        → AgreesAt (λ tokens. (tokens, world_of gullet.new (F.state files.new) env.new)) read_cause
        gullet.new result (braces_read (world_of gullet.old (F.state files.old) env.old)) }
    ensures goes { Goes gullet.old (F.state files.old) gullet.new (F.state files.new) }
    ensures readable { OnOk result (IsReadable gullet.new) }
    ensures fit { AreFit gullet.new.names env.new }
    ensures beside { IsBeside env.old env.new }
    ensures tokens { IfOk result (AreTokens gullet.new.names) }
    ensures size { OnOk result (size (reading gullet.new (F.state files.new))
        < size (reading gullet.old (F.state files.old))) }
    ensures unshipped { Uncounted sink_cause result }
    ensures counted { Counts read_cause result (F.state files.old).faults
        (F.state files.new).faults }
{
    Ok(gullet.balanced(files, env)?)
}

/// Puts a token back, which is met again.
#[tactic(auto, unfolding(crate::specs::Reads::put_back), using(crate::proofs::Refusals::gullet_refuses, crate::proofs::Refusals::gullet_unshipped, crate::proofs::Leaving::push_size))]
pub fn put_back(alloc: Global, gullet: &mut Gullet, token: Token) -> Result<(), TurnFault>
    requires token { IsToken gullet.old.names token }
    ensures exact { (state : FilesState) (nest : Nest)
        → AgreesAt (λ _. world_of gullet.new state nest) read_cause gullet.new result
        (the_put_back token (world_of gullet.old state nest)) }
    ensures files { KeepsFiles gullet.old gullet.new }
    ensures names { gullet.new.names ≡ gullet.old.names }
    ensures size { OnOk result ((state : FilesState)
        → size (reading gullet.new state) ≡ size (reading gullet.old state) + 1) }
    ensures quiet { Uncounted read_cause result }
    ensures unshipped { Uncounted sink_cause result }
{
    expansions_leave_less();
    let list = SharedTokens::new(alloc, &[token])?;
    Ok(gullet.push(&list)?)
}
