//! The tokens before the first parameter.

ghost use Rattle.std.specs.Prelude.{◌≡◌, ◌<◌, ◌≤◌, [], length, take, slice_range, OnOk};
ghost use Rattle.ts_base.specs.Agreement.{Counts};
ghost use Rattle.mouth.specs.Keeping.{reading, AgreesAt, AreOpen, AreTold, IsReadable};
ghost use Rattle.mouth.specs.Sizes.{unread, size};
ghost use Rattle.raw_texts.specs.Faults.{macro_cause};
ghost use Rattle.raw_texts.specs.Runs.{Leaves};
ghost use Rattle.macros.specs.Calls.{met};

use crate::same::is_same;
use env_groups::Env;
use mouth::Mouth;
use raw_texts::{Machine, MacroFault, Progress, read_on};
use std::marker::Model;
use tok_lists::{SharedTokens, Token};
use ts_outside::Files;

/// What meets the tokens of a part of a parameter text. Contracts see those that are left.
#[derive(Drop)]
struct Prefix {
    params: SharedTokens,
    from: usize,
    to: usize,
}

impl Model for Prefix {
    ghost use Rattle.std.specs.Prelude.{List, slice_range, ◌≤◌, length};
    ghost use Rattle.tok_lists.specs.declared.token.Token.{Token};
    ghost use Rattle.macros.specs.Searches.{IsWithin};

    ghost Value = { List Token };

    ghost view = { λ p. slice_range p.params p.from p.to };

    ghost invariant = { λ p. IsWithin p.params p.from p.to };
}

impl Machine for Prefix {
    ghost use Rattle.macros.specs.Calls.{prefix_step};

    ghost step = { prefix_step };

    ghost holds = { λ _ _. Unit {0} };

    fn feed(&mut self, token: Token, _env: &Env) -> Result<Progress, MacroFault> {
        if self.from == self.to {
            return Ok(Progress::Done);
        }
        if !is_same(&token, &self.params.as_slice()[self.from]) {
            return Err(MacroFault::UseMismatch);
        }
        self.from += 1;
        if self.from == self.to {
            return Ok(Progress::Done);
        }
        Ok(Progress::On)
    }

    ghost grows = { λ _ _ _ _ _. tt };
}

/// Meets the first tokens of a parameter text, so many. `UseMismatch` comes exactly at the first
/// token that differs.
#[tactic(auto, using(crate::proofs::Prefixes::met_some, std::proofs::lemmas::Grind::common_steps))]
pub(crate) fn read_prefix<F: Files>(
    mouth: &mut Mouth,
    files: &mut F,
    env: &Env,
    params: &SharedTokens,
    to: usize,
) -> Result<(), MacroFault>
    requires opened { AreOpen mouth.old (F.state files.old) }
    requires readable { IsReadable mouth.old }
    requires most { to ≤ length params.now }
    ensures exact { AreTold mouth.old (F.state files.old)
        → AgreesAt (λ _. reading mouth.new (F.state files.new)) macro_cause
        mouth.new result (met env.now (slice_range params.now 0 to)
        (reading mouth.old (F.state files.old))) }
    ensures leaves { Leaves mouth.old (F.state files.old) mouth.new (F.state files.new) }
    ensures readable { OnOk result (IsReadable mouth.new) }
    ensures unread { OnOk result (unread (reading mouth.new (F.state files.new))
        ≤ unread (reading mouth.old (F.state files.old))) }
    ensures size { OnOk result (size (reading mouth.new (F.state files.new))
        ≤ size (reading mouth.old (F.state files.old))) }
    ensures counted { Counts macro_cause result (F.state files.old).faults
        (F.state files.new).faults }
{
    if to == 0 {
        return Ok(());
    }
    let mut prefix = Prefix {
        params: params.same_copy(),
        from: 0,
        to,
    };
    read_on(mouth, files, env, &mut prefix)?;
    Ok(())
}
