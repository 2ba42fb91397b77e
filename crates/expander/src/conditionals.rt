//! How conditionals open, go on and end.

ghost use Rattle.std.specs.Prelude.{◌≡◌, ◌≤◌, ◌<◌, ◌+◌, ◌-◌, length, OnOk};
ghost use Rattle.ts_base.specs.Agreement.{Counts, Uncounted, with_fault};
ghost use Rattle.ts_outside.specs.States.{FilesState};
ghost use Rattle.mouth.specs.Keeping.{reading, AgreesAt, AreOpen, AreTold, IsReadable, IsToken, KeepsFiles};
ghost use Rattle.mouth.specs.Sizes.{size};
ghost use Rattle.raw_texts.specs.Skipping.{skipped};
ghost use Rattle.expander.specs.Faults.{step_cause, of_text};
ghost use Rattle.expander.specs.Holding.{Goes, HaveRelax};
ghost use Rattle.expander.specs.Conditionals.{innermost as the_innermost, allows as the_allows, branch_ended, put_back as the_put_back, limb_met, after_false, passed_over, decided};
ghost use Rattle.expander.specs.Questions.{asked};

use crate::action::Question;
use crate::actions::answer;
use crate::fault::StepFault;
use crate::steps::push;
use env_groups::Env;
use mouth::{Allowed, Mouth};
use raw_texts::{Ended, Limb, MacroFault, Until, skip_text};
use std::alloc::Global;
use tok_lists::{NameNo, SharedTokens, Token};
use ts_outside::Files;

/// The number of the name `\relax`.
const RELAX: u32 = 69;

// What is allowed in the innermost conditional.
fn innermost(mouth: &Mouth) -> Option<Allowed>
    ensures { result ≡ the_innermost mouth.now.conditionals }
{
    let conditionals = mouth.conditionals();
    conditionals
        .get(conditionals.len().saturating_sub(1))
        .copied()
}

fn allows(allowed: Allowed, limb: Limb) -> bool
    ensures { result ≡ the_allows allowed limb }
{
    match (allowed, limb) {
        (Allowed::Or, Limb::Or | Limb::Else | Limb::Fi) => true,
        (Allowed::Else, Limb::Else | Limb::Fi) => true,
        (Allowed::Fi, Limb::Fi) => true,
        _ => false,
    }
}

/// Skips text, and returns with what it ended.
pub(crate) fn skip<F: Files>(
    mouth: &mut Mouth,
    files: &mut F,
    env: &Env,
    until: Until,
) -> Result<Ended, StepFault>
    requires opened { AreOpen mouth.old (F.state files.old) }
    requires readable { IsReadable mouth.old }
    ensures exact { AreTold mouth.old (F.state files.old)
        → AgreesAt (λ ended. (ended, reading mouth.new (F.state files.new))) step_cause mouth.new
        result (with_fault of_text (skipped env.now until
        (reading mouth.old (F.state files.old)))) }
    ensures goes { Goes mouth.old (F.state files.old) mouth.new (F.state files.new) }
    ensures readable { OnOk result (IsReadable mouth.new) }
    ensures size { OnOk result (size (reading mouth.new (F.state files.new))
        < size (reading mouth.old (F.state files.old))) }
    ensures counted { Counts step_cause result (F.state files.old).faults
        (F.state files.new).faults }
{
    Ok(skip_text(mouth, files, env, until)?)
}

// Ends the branch that was taken: text is skipped up to the `\fi`.
fn end_branch<F: Files>(
    mouth: &mut Mouth,
    files: &mut F,
    env: &Env,
    limb: Limb,
) -> Result<(), StepFault>
    requires opened { AreOpen mouth.old (F.state files.old) }
    requires readable { IsReadable mouth.old }
    ensures exact { AreTold mouth.old (F.state files.old)
        → AgreesAt (λ _. reading mouth.new (F.state files.new)) step_cause mouth.new result
        (branch_ended env.now limb (reading mouth.old (F.state files.old))) }
    ensures goes { Goes mouth.old (F.state files.old) mouth.new (F.state files.new) }
    ensures readable { OnOk result (IsReadable mouth.new) }
    ensures size { OnOk result (size (reading mouth.new (F.state files.new))
        ≤ size (reading mouth.old (F.state files.old))) }
    ensures counted { Counts step_cause result (F.state files.old).faults
        (F.state files.new).faults }
{
    if !matches!(limb, Limb::Fi) {
        skip(mouth, files, env, Until::Fi)?;
    }
    mouth.close_conditional();
    Ok(())
}

// Puts a token back after a `\relax` that isn't expanded.
fn put_back(alloc: Global, mouth: &mut Mouth, token: Token) -> Result<(), StepFault>
    requires relax { HaveRelax mouth.old.names }
    requires token { IsToken mouth.old.names token }
    ensures exact { (state : FilesState) → AgreesAt (λ _. reading mouth.new state) step_cause
        mouth.new result (the_put_back token (reading mouth.old state)) }
    ensures files { KeepsFiles mouth.old mouth.new }
    ensures names { mouth.new.names ≡ mouth.old.names }
    ensures quiet { Uncounted step_cause result }
    ensures size { (state : FilesState) → size (reading mouth.new state)
        ≤ size (reading mouth.old state) + 1000000 }
{
    let list = SharedTokens::new(alloc, &[Token::Kept(NameNo(RELAX)), token])?;
    push(mouth, &list)
}

/// Goes on at an `\else`, an `\or` or a `\fi`, whose unit is spent (TeX: The Program, section 510).
/// While the test of the innermost conditional is being read it is put back after a `\relax` that
/// isn't expanded; `ExtraCond` comes exactly where no open conditional allows it.
pub(crate) fn meet_limb<F: Files>(
    alloc: Global,
    mouth: &mut Mouth,
    files: &mut F,
    env: &Env,
    token: Token,
    limb: Limb,
) -> Result<(), StepFault>
    requires opened { AreOpen mouth.old (F.state files.old) }
    requires readable { IsReadable mouth.old }
    requires relax { HaveRelax mouth.old.names }
    requires token { IsToken mouth.old.names token }
    ensures exact { AreTold mouth.old (F.state files.old)
        → AgreesAt (λ _. reading mouth.new (F.state files.new)) step_cause mouth.new result
        (limb_met env.now token limb (reading mouth.old (F.state files.old))) }
    ensures goes { Goes mouth.old (F.state files.old) mouth.new (F.state files.new) }
    ensures readable { OnOk result (IsReadable mouth.new) }
    ensures size { OnOk result (size (reading mouth.new (F.state files.new))
        ≤ size (reading mouth.old (F.state files.old)) + 1000000) }
    ensures counted { Counts step_cause result (F.state files.old).faults
        (F.state files.new).faults }
{
    match innermost(mouth) {
        None => Err(StepFault::Text(MacroFault::ExtraCond)),
        Some(Allowed::Test) => put_back(alloc, mouth, token),
        Some(allowed) => {
            if allows(allowed, limb) {
                end_branch(mouth, files, env, limb)
            } else {
                Err(StepFault::Text(MacroFault::ExtraCond))
            }
        }
    }
}

/// Passes over so many conditionals, the innermost first, each up to its `\fi`.
#[tactic(auto, using(crate::proofs::Chains::goes_then))]
pub(crate) fn pass_over<F: Files>(
    mouth: &mut Mouth,
    files: &mut F,
    env: &Env,
    count: usize,
) -> Result<(), StepFault>
    requires opened { AreOpen mouth.old (F.state files.old) }
    requires readable { IsReadable mouth.old }
    ensures exact { AreTold mouth.old (F.state files.old)
        → AgreesAt (λ _. reading mouth.new (F.state files.new)) step_cause mouth.new result
        (passed_over env.now count (reading mouth.old (F.state files.old))) }
    ensures goes { Goes mouth.old (F.state files.old) mouth.new (F.state files.new) }
    ensures readable { OnOk result (IsReadable mouth.new) }
    ensures size { OnOk result (size (reading mouth.new (F.state files.new))
        ≤ size (reading mouth.old (F.state files.old))) }
    ensures counted { Counts step_cause result (F.state files.old).faults
        (F.state files.new).faults }
{
    let mut left = count;
    while left > 0 {
        end_branch(mouth, files, env, Limb::Else)?;
        left -= 1;
    }
    Ok(())
}

/// Returns how many conditionals are open in that of a number.
pub(crate) fn inner_count(mouth: &Mouth, number: usize) -> usize
    ensures { result ≡ length mouth.now.conditionals - number - 1 }
{
    mouth
        .conditionals()
        .len()
        .saturating_sub(number)
        .saturating_sub(1)
}

/// Goes on where text ended that was skipped after a false test of the conditional of a number: its
/// `\else` lets the second branch be read, and its `\fi` ends the conditional.
pub(crate) fn end_false(mouth: &mut Mouth, number: usize, ended: Ended)
    ensures exact { (state : FilesState) → reading mouth.new state
        ≡ after_false number ended (reading mouth.old state) }
    ensures files { KeepsFiles mouth.old mouth.new }
    ensures names { mouth.new.names ≡ mouth.old.names }
    ensures size { (state : FilesState) → size (reading mouth.new state)
        ≡ size (reading mouth.old state) }
{
    match ended {
        Ended::Fi => mouth.close_conditional(),
        _ => mouth.change_conditional(number, Allowed::Fi),
    }
}

/// Goes on after the test of the conditional of a number (TeX: The Program, sections 498, 500 and
/// 509). After a false test the conditionals that are open in it are passed over, and then text is
/// skipped up to its `\else` or `\fi`.
pub(crate) fn decide<F: Files>(
    mouth: &mut Mouth,
    files: &mut F,
    env: &Env,
    number: usize,
    yes: bool,
) -> Result<(), StepFault>
    requires opened { AreOpen mouth.old (F.state files.old) }
    requires readable { IsReadable mouth.old }
    ensures exact { AreTold mouth.old (F.state files.old)
        → AgreesAt (λ _. reading mouth.new (F.state files.new)) step_cause mouth.new result
        (decided env.now number yes (reading mouth.old (F.state files.old))) }
    ensures goes { Goes mouth.old (F.state files.old) mouth.new (F.state files.new) }
    ensures readable { OnOk result (IsReadable mouth.new) }
    ensures size { OnOk result (size (reading mouth.new (F.state files.new))
        ≤ size (reading mouth.old (F.state files.old))) }
    ensures counted { Counts step_cause result (F.state files.old).faults
        (F.state files.new).faults }
{
    if yes {
        mouth.change_conditional(number, Allowed::Else);
        return Ok(());
    }
    let inner = inner_count(mouth, number);
    pass_over(mouth, files, env, inner)?;
    let ended = skip(mouth, files, env, Until::Else)?;
    end_false(mouth, number, ended);
    Ok(())
}

/// Opens a conditional and decides its test, which reads no token (TeX: The Program, section 498).
/// After a false test text is skipped up to its `\else` or `\fi`.
pub(crate) fn ask<F: Files>(
    mouth: &mut Mouth,
    files: &mut F,
    env: &Env,
    question: Question,
) -> Result<(), StepFault>
    requires opened { AreOpen mouth.old (F.state files.old) }
    requires readable { IsReadable mouth.old }
    ensures exact { AreTold mouth.old (F.state files.old)
        → AgreesAt (λ _. reading mouth.new (F.state files.new)) step_cause mouth.new result
        (asked env.now question (reading mouth.old (F.state files.old))) }
    ensures goes { Goes mouth.old (F.state files.old) mouth.new (F.state files.new) }
    ensures readable { OnOk result (IsReadable mouth.new) }
    ensures size { OnOk result (size (reading mouth.new (F.state files.new))
        ≤ size (reading mouth.old (F.state files.old))) }
    ensures counted { Counts step_cause result (F.state files.old).faults
        (F.state files.new).faults }
{
    let number = mouth.open_conditional()?;
    decide(mouth, files, env, number, answer(env.situation(), question))
}
