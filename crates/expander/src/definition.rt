//! Macro definitions, also those whose body is expanded.

ghost use Rattle.std.specs.Prelude.{◌≡◌, ◌≤◌, ◌<◌, OnOk, IfOk};
ghost use Rattle.ts_base.specs.Agreement.{Counts};
ghost use Rattle.mouth.specs.Keeping.{reading, AgreesAt, AreOpen, AreTold, IsReadable};
ghost use Rattle.mouth.specs.Sizes.{size};
ghost use Rattle.macros.specs.Bodies.{IsBody};
ghost use Rattle.macros.specs.Definitions.{IsDefined};
ghost use Rattle.expander.specs.Faults.{step_cause};
ghost use Rattle.expander.specs.Worlds.{world};
ghost use Rattle.expander.specs.Leaving.{but_meanings};
ghost use Rattle.expander.specs.Holding.{AreFit, Goes};
ghost use Rattle.expander.specs.Definitions.{part, the_stored, next_part, expanded, expanded_definition, definition_of};

use crate::actions::{is_expandable, is_the};
use crate::expansion::{expand, plain, scan};
use crate::fault::StepFault;
use crate::numbers::value_shown;
use crate::steps::{begin, take};
use env_groups::{Env, MacroDef};
use macros::{Body, macro_of, read_definition, read_heading};
use mouth::Mouth;
use raw_texts::{Machine, Progress};
use scan_syntax::Want;
use std::alloc::Global;
use ts_outside::Files;

// Stores what `\the` gives as it is (TeX: The Program, section 478).
#[tactic(auto, using(crate::proofs::Fitting::fit_still, crate::proofs::Chains::goes_then))]
fn store_the<F: Files>(
    alloc: Global,
    mouth: &mut Mouth,
    files: &mut F,
    env: &mut Env,
    body: &mut Body,
) -> Result<Progress, StepFault>
    requires opened { AreOpen mouth.old (F.state files.old) }
    requires readable { IsReadable mouth.old }
    requires fit { AreFit mouth.old.names env.old }
    requires body { IsBody mouth.old.names body.old }
    ensures exact { AreTold mouth.old (F.state files.old)
        → AgreesAt (λ progress. part progress body.new
        (world (reading mouth.new (F.state files.new)) env.new)) step_cause mouth.new result
        (the_stored body.old (world (reading mouth.old (F.state files.old)) env.old)) }
    ensures goes { Goes mouth.old (F.state files.old) mouth.new (F.state files.new) }
    ensures readable { OnOk result (IsReadable mouth.new) }
    ensures fit { AreFit mouth.new.names env.new }
    ensures kept { but_meanings env.new ≡ but_meanings env.old }
    ensures body { OnOk result (IsBody mouth.new.names body.new) }
    ensures size { OnOk result (size (reading mouth.new (F.state files.new))
        ≤ size (reading mouth.old (F.state files.old))) }
    ensures counted { Counts step_cause result (F.state files.old).faults
        (F.state files.new).faults }
{
    begin(mouth)?;
    let value = scan(alloc, mouth, files, env, Want::Internal)?;
    let list = value_shown(alloc, &value)?;
    body.store(list.as_slice())?;
    mouth.end();
    Ok(Progress::On)
}

// Takes the next part of a body that is expanded: an expandable token is expanded once, what `\the`
// gives is stored, and any other token is fed, a Kept one as its plain name (TeX: The Program,
// sections 477 to 479).
#[tactic(auto, using(crate::proofs::Fitting::fit_still, crate::proofs::Chains::goes_then))]
fn take_part<F: Files>(
    alloc: Global,
    mouth: &mut Mouth,
    files: &mut F,
    env: &mut Env,
    body: &mut Body,
) -> Result<Progress, StepFault>
    requires opened { AreOpen mouth.old (F.state files.old) }
    requires readable { IsReadable mouth.old }
    requires fit { AreFit mouth.old.names env.old }
    requires body { IsBody mouth.old.names body.old }
    ensures exact { AreTold mouth.old (F.state files.old)
        → AgreesAt (λ progress. part progress body.new
        (world (reading mouth.new (F.state files.new)) env.new)) step_cause mouth.new result
        (next_part body.old (world (reading mouth.old (F.state files.old)) env.old)) }
    ensures goes { Goes mouth.old (F.state files.old) mouth.new (F.state files.new) }
    ensures readable { OnOk result (IsReadable mouth.new) }
    ensures fit { AreFit mouth.new.names env.new }
    ensures kept { but_meanings env.new ≡ but_meanings env.old }
    ensures body { OnOk result (IsBody mouth.new.names body.new) }
    ensures size { OnOk result (size (reading mouth.new (F.state files.new))
        < size (reading mouth.old (F.state files.old))) }
    ensures counted { Counts step_cause result (F.state files.old).faults
        (F.state files.new).faults }
{
    let token = take(mouth, files, env)?;
    if is_the(&token, env) && !body.is_hashed() {
        return store_the(alloc, mouth, files, env, body);
    }
    if is_expandable(&token, env) {
        expand(alloc, mouth, files, env, token)?;
        return Ok(Progress::On);
    }
    Ok(body.feed(plain(token), env)?)
}

// Takes the parts of a body that is expanded, up to its last `}`.
fn take_parts<F: Files>(
    alloc: Global,
    mouth: &mut Mouth,
    files: &mut F,
    env: &mut Env,
    body: &mut Body,
) -> Result<(), StepFault>
    requires opened { AreOpen mouth.old (F.state files.old) }
    requires readable { IsReadable mouth.old }
    requires fit { AreFit mouth.old.names env.old }
    requires body { IsBody mouth.old.names body.old }
    ensures exact { AreTold mouth.old (F.state files.old)
        → AgreesAt (λ _. (body.new, world (reading mouth.new (F.state files.new)) env.new))
        step_cause mouth.new result
        (expanded body.old (world (reading mouth.old (F.state files.old)) env.old)) }
    ensures goes { Goes mouth.old (F.state files.old) mouth.new (F.state files.new) }
    ensures readable { OnOk result (IsReadable mouth.new) }
    ensures fit { AreFit mouth.new.names env.new }
    ensures kept { but_meanings env.new ≡ but_meanings env.old }
    ensures body { OnOk result (IsBody mouth.new.names body.new) }
    ensures size { OnOk result (size (reading mouth.new (F.state files.new))
        < size (reading mouth.old (F.state files.old))) }
    ensures counted { Counts step_cause result (F.state files.old).faults
        (F.state files.new).faults }
{
    loop {
        match take_part(alloc, mouth, files, env, body)? {
            Progress::Done => return Ok(()),
            Progress::On => {}
        }
    }
}

// Reads a definition whose body is expanded. Its parameter text isn't.
#[tactic(auto, using(crate::proofs::Fitting::fit_still, crate::proofs::Chains::goes_then))]
fn read_expanded<F: Files>(
    alloc: Global,
    mouth: &mut Mouth,
    files: &mut F,
    env: &mut Env,
) -> Result<MacroDef, StepFault>
    requires opened { AreOpen mouth.old (F.state files.old) }
    requires readable { IsReadable mouth.old }
    requires fit { AreFit mouth.old.names env.old }
    ensures exact { AreTold mouth.old (F.state files.old)
        → AgreesAt (λ definition. (
          definition,
          world (reading mouth.new (F.state files.new)) env.new,
        )) step_cause mouth.new result
        (expanded_definition (world (reading mouth.old (F.state files.old)) env.old)) }
    ensures goes { Goes mouth.old (F.state files.old) mouth.new (F.state files.new) }
    ensures readable { OnOk result (IsReadable mouth.new) }
    ensures fit { AreFit mouth.new.names env.new }
    ensures kept { but_meanings env.new ≡ but_meanings env.old }
    ensures defined { IfOk result (IsDefined mouth.new.names) }
    ensures size { OnOk result (size (reading mouth.new (F.state files.new))
        < size (reading mouth.old (F.state files.old))) }
    ensures counted { Counts step_cause result (F.state files.old).faults
        (F.state files.new).faults }
{
    mouth.enter_text()?;
    let heading = read_heading(alloc, mouth, files, env)?;
    let mut body = Body::new(alloc, heading);
    take_parts(alloc, mouth, files, env, &mut body)?;
    mouth.leave_text();
    Ok(macro_of(alloc, &mut body)?)
}

/// Reads a macro definition whose name was taken, with its body expanded or not (The TeXbook,
/// chapter 20; TeX: The Program, sections 473 to 479).
#[tactic(auto, using(crate::proofs::Fitting::fit_still))]
pub(crate) fn read_macro<F: Files>(
    alloc: Global,
    mouth: &mut Mouth,
    files: &mut F,
    env: &mut Env,
    is_expanded: bool,
) -> Result<MacroDef, StepFault>
    requires opened { AreOpen mouth.old (F.state files.old) }
    requires readable { IsReadable mouth.old }
    requires fit { AreFit mouth.old.names env.old }
    ensures exact { AreTold mouth.old (F.state files.old)
        → AgreesAt (λ definition. (
          definition,
          world (reading mouth.new (F.state files.new)) env.new,
        )) step_cause mouth.new result
        (definition_of is_expanded (world (reading mouth.old (F.state files.old)) env.old)) }
    ensures goes { Goes mouth.old (F.state files.old) mouth.new (F.state files.new) }
    ensures readable { OnOk result (IsReadable mouth.new) }
    ensures fit { AreFit mouth.new.names env.new }
    ensures kept { but_meanings env.new ≡ but_meanings env.old }
    ensures defined { IfOk result (IsDefined mouth.new.names) }
    ensures size { OnOk result (size (reading mouth.new (F.state files.new))
        < size (reading mouth.old (F.state files.old))) }
    ensures counted { Counts step_cause result (F.state files.old).faults
        (F.state files.new).faults }
{
    if is_expanded {
        return read_expanded(alloc, mouth, files, env);
    }
    Ok(read_definition(alloc, mouth, files, env)?)
}
