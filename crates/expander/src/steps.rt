//! Steps of the mouth, with the faults of expansions.

ghost use Rattle.std.specs.Prelude.{◌≡◌, ◌≤◌, ◌<◌, ◌+◌, length, OnOk, IfOk};
ghost use Rattle.ts_base.specs.Agreement.{Counts, Uncounted, with_fault};
ghost use Rattle.ts_outside.specs.States.{FilesState};
ghost use Rattle.tok_lists.specs.Names.{AreHeld, HasNoParam};
ghost use Rattle.mouth.specs.Changes.{begun};
ghost use Rattle.mouth.specs.Keeping.{reading, AgreesAt, AreOpen, AreTold, IsReadable, IsToken, KeepsFiles};
ghost use Rattle.mouth.specs.Sizes.{size};
ghost use Rattle.expander.specs.Faults.{step_cause, of_mouth};
ghost use Rattle.expander.specs.Worlds.{token_from, plain_from, put as the_put};
ghost use Rattle.expander.specs.Holding.{Goes};

use crate::fault::StepFault;
use env_groups::Env;
use mouth::Mouth;
use tok_lists::{SharedTokens, Token};
use ts_outside::Files;

/// Takes the next token without expansion; a Kept token shows that it was kept.
pub(crate) fn take<F: Files>(
    mouth: &mut Mouth,
    files: &mut F,
    env: &Env,
) -> Result<Token, StepFault>
    requires opened { AreOpen mouth.old (F.state files.old) }
    requires readable { IsReadable mouth.old }
    ensures exact { AreTold mouth.old (F.state files.old)
        → AgreesAt (λ token. (token, reading mouth.new (F.state files.new))) step_cause mouth.new
        result (token_from env.now (reading mouth.old (F.state files.old))) }
    ensures goes { Goes mouth.old (F.state files.old) mouth.new (F.state files.new) }
    ensures readable { OnOk result (IsReadable mouth.new) }
    ensures token { IfOk result (IsToken mouth.new.names) }
    ensures size { OnOk result (size (reading mouth.new (F.state files.new))
        < size (reading mouth.old (F.state files.old))) }
    ensures counted { Counts step_cause result (F.state files.old).faults
        (F.state files.new).faults }
{
    Ok(mouth.next(files, env)?)
}

/// Takes the next token without expansion, as its plain name where it is Kept.
pub(crate) fn take_plain<F: Files>(
    mouth: &mut Mouth,
    files: &mut F,
    env: &Env,
) -> Result<Token, StepFault>
    requires opened { AreOpen mouth.old (F.state files.old) }
    requires readable { IsReadable mouth.old }
    ensures exact { AreTold mouth.old (F.state files.old)
        → AgreesAt (λ token. (token, reading mouth.new (F.state files.new))) step_cause mouth.new
        result (plain_from env.now (reading mouth.old (F.state files.old))) }
    ensures goes { Goes mouth.old (F.state files.old) mouth.new (F.state files.new) }
    ensures readable { OnOk result (IsReadable mouth.new) }
    ensures token { IfOk result (IsToken mouth.new.names) }
    ensures size { OnOk result (size (reading mouth.new (F.state files.new))
        < size (reading mouth.old (F.state files.old))) }
    ensures counted { Counts step_cause result (F.state files.old).faults
        (F.state files.new).faults }
{
    Ok(mouth.next_plain(files, env)?)
}

/// Begins an expansion, which spends its unit first.
pub(crate) fn begin(mouth: &mut Mouth) -> Result<(), StepFault>
    ensures exact { (state : FilesState) → AgreesAt (λ _. reading mouth.new state) step_cause
        mouth.new result (with_fault of_mouth (begun (reading mouth.old state))) }
    ensures files { KeepsFiles mouth.old mouth.new }
    ensures names { mouth.new.names ≡ mouth.old.names }
    ensures quiet { Uncounted step_cause result }
    ensures size { OnOk result ((state : FilesState) → size (reading mouth.new state)
        + 100000000000 ≡ size (reading mouth.old state)) }
{
    Ok(mouth.begin()?)
}

/// Puts a list in front.
pub(crate) fn push(mouth: &mut Mouth, list: &SharedTokens) -> Result<(), StepFault>
    requires no_param { HasNoParam list.now }
    requires held { AreHeld mouth.old.names list.now }
    ensures exact { (state : FilesState) → AgreesAt (λ _. reading mouth.new state) step_cause
        mouth.new result (the_put list.now (reading mouth.old state)) }
    ensures files { KeepsFiles mouth.old mouth.new }
    ensures names { mouth.new.names ≡ mouth.old.names }
    ensures quiet { Uncounted step_cause result }
    ensures size { (state : FilesState) → size (reading mouth.new state)
        ≤ size (reading mouth.old state) + 1000000 }
    ensures grows { OnOk result ((state : FilesState) → size (reading mouth.new state)
        ≡ size (reading mouth.old state) + length list.now) }
{
    Ok(mouth.push_list(list)?)
}
