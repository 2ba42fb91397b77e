//! Token lists that are read to be set.

ghost use Rattle.std.specs.Prelude.{◌≡◌, ◌≤◌, List, IfOk, OnOk};
ghost use Rattle.ts_base.specs.Agreement.{Counts, Uncounted};
ghost use Rattle.mouth.specs.Keeping.{reading, AgreesAt, AreOpen, AreTold, IsReadable, IsToken};
ghost use Rattle.mouth.specs.Sizes.{size};
ghost use Rattle.expander.specs.Holding.{AreFit, Goes};
ghost use Rattle.control_faults.specs.TurnFaults.{read_cause, sink_cause};
ghost use Rattle.assignments.specs.Worlds.{world_of};
ghost use Rattle.assignments.specs.Beside.{IsBeside};
ghost use Rattle.ts_base.specs.Agreement.{with_fault};
ghost use Rattle.tok_lists.specs.declared.spelling.Spelling.{Spelling};
ghost use Rattle.env_groups.specs.Environments.{toks_at};
ghost use Rattle.raw_texts.specs.Meanings.{means_category};
ghost use Rattle.expander.specs.Holding.{IsPlainList};
ghost use Rattle.control_faults.specs.TurnFaults.{of_env};
ghost use Rattle.assignments.specs.Settings.{list_copied, list_from, token_list};

use crate::command::meant;
use crate::reads::{put_back, read_braces};
use crate::seeking::take_solid;
use crate::values::read_register;
use control_faults::{FaultKind, TurnFault};
use env_groups::{Env, Meaning, Prim, ToksKey, ToksParam};
use expander::Gullet;
use std::alloc::Global;
use tok_lists::{SharedTokens, Token};
use ts_outside::Files;

fn begins_group(meaning: &Meaning) -> bool
    ensures { result ≡ means_category 1 meaning.now }
{
    matches!(meaning, Meaning::Letter(Token::Char(_, 1)))
}

// The list of a register or of `\output`.
#[tactic(auto, using(crate::proofs::Fitting::toks_fit, crate::proofs::Refusals::env_unshipped))]
fn held_list(env: &Env, key: ToksKey) -> Result<SharedTokens, TurnFault>
    ensures value { result ≡ with_fault of_env (toks_at env.now key) }
    ensures plain { (names : List Spelling) → AreFit names env.now
        → IfOk result (IsPlainList names) }
    ensures unshipped { Uncounted sink_cause result }
{
    Ok(env.get_toks(key)?)
}

// Copies the list of a register or of `\output`. `NoBrace` comes exactly where the meaning is that
// of neither.
fn copy_list<F: Files>(
    gullet: &mut Gullet,
    files: &mut F,
    env: &mut Env,
    meaning: &Meaning,
) -> Result<SharedTokens, TurnFault>
    requires opened { AreOpen gullet.old (F.state files.old) }
    requires readable { IsReadable gullet.old }
    requires fit { AreFit gullet.old.names env.old }
    ensures exact { AreTold gullet.old (F.state files.old)
        → AgreesAt (λ tokens. (tokens, world_of gullet.new (F.state files.new) env.new)) read_cause
        gullet.new result
        (list_copied meaning.now (world_of gullet.old (F.state files.old) env.old)) }
    ensures goes { Goes gullet.old (F.state files.old) gullet.new (F.state files.new) }
    ensures readable { OnOk result (IsReadable gullet.new) }
    ensures fit { AreFit gullet.new.names env.new }
    ensures beside { IsBeside env.old env.new }
    ensures plain { IfOk result (IsPlainList gullet.new.names) }
    ensures size { OnOk result (size (reading gullet.new (F.state files.new))
        ≤ size (reading gullet.old (F.state files.old))) }
    ensures unshipped { Uncounted sink_cause result }
    ensures counted { Counts read_cause result (F.state files.old).faults
        (F.state files.new).faults }
{
    let key = match meaning {
        Meaning::Toks(n) => ToksKey::Register(*n),
        Meaning::Primitive(Prim::Toks) => ToksKey::Register(read_register(gullet, files, env)?),
        Meaning::Primitive(Prim::Output) => ToksKey::Param(ToksParam::Output),
        _ => return Err(TurnFault::Kind(FaultKind::NoBrace)),
    };
    held_list(env, key)
}

// Reads a list in braces that begins with this token, or copies that of a register.
fn list_after<F: Files>(
    alloc: Global,
    gullet: &mut Gullet,
    files: &mut F,
    env: &mut Env,
    token: Token,
) -> Result<SharedTokens, TurnFault>
    requires opened { AreOpen gullet.old (F.state files.old) }
    requires readable { IsReadable gullet.old }
    requires fit { AreFit gullet.old.names env.old }
    requires token { IsToken gullet.old.names token }
    ensures exact { AreTold gullet.old (F.state files.old)
        → AgreesAt (λ tokens. (tokens, world_of gullet.new (F.state files.new) env.new)) read_cause
        gullet.new result (list_from (token, world_of gullet.old (F.state files.old) env.old)) }
    ensures goes { Goes gullet.old (F.state files.old) gullet.new (F.state files.new) }
    ensures readable { OnOk result (IsReadable gullet.new) }
    ensures fit { AreFit gullet.new.names env.new }
    ensures beside { IsBeside env.old env.new }
    ensures plain { IfOk result (IsPlainList gullet.new.names) }
    ensures size { OnOk result (size (reading gullet.new (F.state files.new))
        ≤ size (reading gullet.old (F.state files.old))) }
    ensures unshipped { Uncounted sink_cause result }
    ensures counted { Counts read_cause result (F.state files.old).faults
        (F.state files.new).faults }
{
    let meaning = meant(&token, env);
    if begins_group(&meaning) {
        put_back(alloc, gullet, token)?;
        return read_braces(gullet, files, env);
    }
    copy_list(gullet, files, env, &meaning)
}

/// Reads a token list: in braces, whose `{` may be a name that means it, or that of a register
/// (TeX: The Program, sections 1226 and 1227). `NoBrace` comes exactly where neither begins.
#[tactic(auto, unfolding(crate::specs::Settings::token_list))]
pub(crate) fn read_list<F: Files>(
    alloc: Global,
    gullet: &mut Gullet,
    files: &mut F,
    env: &mut Env,
) -> Result<SharedTokens, TurnFault>
    requires opened { AreOpen gullet.old (F.state files.old) }
    requires readable { IsReadable gullet.old }
    requires fit { AreFit gullet.old.names env.old }
    ensures exact { AreTold gullet.old (F.state files.old)
        → AgreesAt (λ tokens. (tokens, world_of gullet.new (F.state files.new) env.new)) read_cause
        gullet.new result (token_list (world_of gullet.old (F.state files.old) env.old)) }
    ensures goes { Goes gullet.old (F.state files.old) gullet.new (F.state files.new) }
    ensures readable { OnOk result (IsReadable gullet.new) }
    ensures fit { AreFit gullet.new.names env.new }
    ensures beside { IsBeside env.old env.new }
    ensures plain { IfOk result (IsPlainList gullet.new.names) }
    ensures size { OnOk result (size (reading gullet.new (F.state files.new))
        ≤ size (reading gullet.old (F.state files.old))) }
    ensures unshipped { Uncounted sink_cause result }
    ensures counted { Counts read_cause result (F.state files.old).faults
        (F.state files.new).faults }
{
    let token = take_solid(gullet, files, env)?;
    list_after(alloc, gullet, files, env, token)
}
