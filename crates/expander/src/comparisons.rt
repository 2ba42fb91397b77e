//! Tests that compare two tokens.

ghost use Rattle.std.specs.Prelude.{◌≡◌, ◌≤◌, OnOk};
ghost use Rattle.ts_base.specs.Agreement.{Counts};
ghost use Rattle.mouth.specs.Keeping.{reading, AgreesAt, AreOpen, AreTold, IsReadable};
ghost use Rattle.mouth.specs.Sizes.{size};
ghost use Rattle.expander.specs.Faults.{step_cause};
ghost use Rattle.expander.specs.Holding.{Goes};
ghost use Rattle.expander.specs.Comparisons.{mean_same as the_mean_same, if_x as the_if_x};

use crate::conditionals::decide;
use crate::fault::StepFault;
use crate::steps::take_plain;
use env_groups::Env;
use mouth::Mouth;
use raw_texts::mean_the_same;
use tok_lists::Token;
use ts_outside::Files;

fn mean_same(first: &Token, second: &Token, env: &Env) -> bool
    ensures { result ≡ the_mean_same env.now first.now second.now }
{
    mean_the_same(first, second, env)
}

/// Opens an `\ifx` and decides it: the next two tokens are read without expansion, and compared by
/// what they mean (TeX: The Program, section 507).
#[tactic(auto, using(crate::proofs::Chains::goes_then))]
pub(crate) fn if_x<F: Files>(mouth: &mut Mouth, files: &mut F, env: &Env) -> Result<(), StepFault>
    requires opened { AreOpen mouth.old (F.state files.old) }
    requires readable { IsReadable mouth.old }
    ensures exact { AreTold mouth.old (F.state files.old)
        → AgreesAt (λ _. reading mouth.new (F.state files.new)) step_cause mouth.new result
        (the_if_x env.now (reading mouth.old (F.state files.old))) }
    ensures goes { Goes mouth.old (F.state files.old) mouth.new (F.state files.new) }
    ensures readable { OnOk result (IsReadable mouth.new) }
    ensures size { OnOk result (size (reading mouth.new (F.state files.new))
        ≤ size (reading mouth.old (F.state files.old))) }
    ensures counted { Counts step_cause result (F.state files.old).faults
        (F.state files.new).faults }
{
    let number = mouth.open_conditional()?;
    let first = take_plain(mouth, files, env)?;
    let second = take_plain(mouth, files, env)?;
    let yes = mean_same(&first, &second, env);
    decide(mouth, files, env, number, yes)
}
