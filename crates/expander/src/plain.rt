//! Expansions that expand no further token.

ghost use Rattle.std.specs.Prelude.{◌≡◌, ◌≤◌, ◌+◌, [], ◌∷◌, OnOk, IfOk};
ghost use Rattle.ts_base.specs.Agreement.{Counts, Uncounted};
ghost use Rattle.ts_outside.specs.States.{FilesState};
ghost use Rattle.tok_lists.specs.Names.{AreHeld, HasNoParam};
ghost use Rattle.mouth.specs.Keeping.{reading, AgreesAt, AreOpen, AreTold, IsReadable, IsToken, KeepsFiles};
ghost use Rattle.mouth.specs.Sizes.{size};
ghost use Rattle.env_groups.specs.Macros.{IsMacro};
ghost use Rattle.expander.specs.Faults.{step_cause};
ghost use Rattle.expander.specs.Worlds.{put as the_put};
ghost use Rattle.expander.specs.Holding.{Goes, HaveRelax, IsCallable};
ghost use Rattle.expander.specs.Plain.{body_put, called, kept as the_kept, spelt as the_spelt, no_expand as the_no_expand, string as the_string, work as the_work, acted};

use crate::action::Action;
use crate::actions::is_expandable;
use crate::comparisons::if_x;
use crate::conditionals::{ask, meet_limb};
use crate::fault::StepFault;
use crate::steps::{begin, push, take_plain};
use env_groups::{Env, MacroDef};
use macros::read_call;
use mouth::Mouth;
use print_values::{character, name};
use std::alloc::Global;
use tok_lists::{Names, SharedTokens, Token};
use ts_base::NoMemory;
use ts_outside::Files;

// Puts the body of a macro in the place of its call.
fn put_body<F: Files>(
    alloc: Global,
    mouth: &mut Mouth,
    files: &mut F,
    env: &Env,
    definition: &MacroDef,
) -> Result<(), StepFault>
    requires opened { AreOpen mouth.old (F.state files.old) }
    requires readable { IsReadable mouth.old }
    requires sound { IsMacro definition.now }
    requires callable { IsCallable mouth.old.names definition.now }
    ensures exact { AreTold mouth.old (F.state files.old)
        → AgreesAt (λ _. reading mouth.new (F.state files.new)) step_cause mouth.new result
        (body_put env.now definition.now (reading mouth.old (F.state files.old))) }
    ensures goes { Goes mouth.old (F.state files.old) mouth.new (F.state files.new) }
    ensures readable { OnOk result (IsReadable mouth.new) }
    ensures size { OnOk result (size (reading mouth.new (F.state files.new))
        ≤ size (reading mouth.old (F.state files.old)) + 1000000) }
    ensures counted { Counts step_cause result (F.state files.old).faults
        (F.state files.new).faults }
{
    let args = read_call(alloc, mouth, files, env, definition)?;
    mouth.push_call(&definition.body, args)?;
    Ok(())
}

/// Expands a macro call whose name was taken: its unit is spent first, and then the body comes in
/// its place with the arguments put in (The TeXbook, chapter 20).
#[tactic(auto, unfolding(crate::specs::Plain::called))]
pub(crate) fn expand_call<F: Files>(
    alloc: Global,
    mouth: &mut Mouth,
    files: &mut F,
    env: &Env,
    definition: &MacroDef,
) -> Result<(), StepFault>
    requires opened { AreOpen mouth.old (F.state files.old) }
    requires readable { IsReadable mouth.old }
    requires sound { IsMacro definition.now }
    requires callable { IsCallable mouth.old.names definition.now }
    ensures exact { AreTold mouth.old (F.state files.old)
        → AgreesAt (λ _. reading mouth.new (F.state files.new)) step_cause mouth.new result
        (called env.now definition.now (reading mouth.old (F.state files.old))) }
    ensures goes { Goes mouth.old (F.state files.old) mouth.new (F.state files.new) }
    ensures readable { OnOk result (IsReadable mouth.new) }
    ensures size { OnOk result (size (reading mouth.new (F.state files.new))
        ≤ size (reading mouth.old (F.state files.old))) }
    ensures counted { Counts step_cause result (F.state files.old).faults
        (F.state files.new).faults }
{
    begin(mouth)?;
    put_body(alloc, mouth, files, env, definition)?;
    mouth.end();
    Ok(())
}

/// Puts one token in front.
pub(crate) fn put(alloc: Global, mouth: &mut Mouth, token: Token) -> Result<(), StepFault>
    requires token { IsToken mouth.old.names token }
    ensures exact { (state : FilesState) → AgreesAt (λ _. reading mouth.new state) step_cause
        mouth.new result (the_put (token ∷ []) (reading mouth.old state)) }
    ensures files { KeepsFiles mouth.old mouth.new }
    ensures names { mouth.new.names ≡ mouth.old.names }
    ensures quiet { Uncounted step_cause result }
    ensures size { (state : FilesState) → size (reading mouth.new state)
        ≤ size (reading mouth.old state) + 1000000 }
{
    let list = SharedTokens::new(alloc, &[token])?;
    push(mouth, &list)
}

fn kept(token: Token, env: &Env) -> Token
    ensures { result ≡ the_kept env.now token }
{
    let Token::Name(name) = token else {
        return token;
    };
    if is_expandable(&token, env) {
        Token::Kept(name)
    } else {
        token
    }
}

fn no_expand<F: Files>(
    alloc: Global,
    mouth: &mut Mouth,
    files: &mut F,
    env: &Env,
) -> Result<(), StepFault>
    requires opened { AreOpen mouth.old (F.state files.old) }
    requires readable { IsReadable mouth.old }
    ensures exact { AreTold mouth.old (F.state files.old)
        → AgreesAt (λ _. reading mouth.new (F.state files.new)) step_cause mouth.new result
        (the_no_expand env.now (reading mouth.old (F.state files.old))) }
    ensures goes { Goes mouth.old (F.state files.old) mouth.new (F.state files.new) }
    ensures readable { OnOk result (IsReadable mouth.new) }
    ensures size { OnOk result (size (reading mouth.new (F.state files.new))
        ≤ size (reading mouth.old (F.state files.old)) + 1000000) }
    ensures counted { Counts step_cause result (F.state files.old).faults
        (F.state files.new).faults }
{
    let token = take_plain(mouth, files, env)?;
    put(alloc, mouth, kept(token, env))
}

// A token as it is spelt.
fn spelt(alloc: Global, names: &Names, token: Token) -> Result<SharedTokens, NoMemory>
    requires token { IsToken names.now token }
    ensures value { IfOk result (λ tokens. tokens ≡ the_spelt names.now token) }
    ensures plain { IfOk result HasNoParam }
    ensures held { IfOk result (AreHeld names.now) }
{
    match token {
        Token::Char(code, _) => SharedTokens::new(alloc, &[character(code)]),
        Token::Ja(_) => SharedTokens::new(alloc, &[token]),
        Token::Name(n) | Token::Kept(n) => name(alloc, names.spelling(n)),
        Token::Param(_) => Ok(SharedTokens::default()),
    }
}

fn string<F: Files>(
    alloc: Global,
    mouth: &mut Mouth,
    files: &mut F,
    env: &Env,
) -> Result<(), StepFault>
    requires opened { AreOpen mouth.old (F.state files.old) }
    requires readable { IsReadable mouth.old }
    ensures exact { AreTold mouth.old (F.state files.old)
        → AgreesAt (λ _. reading mouth.new (F.state files.new)) step_cause mouth.new result
        (the_string env.now (reading mouth.old (F.state files.old))) }
    ensures goes { Goes mouth.old (F.state files.old) mouth.new (F.state files.new) }
    ensures readable { OnOk result (IsReadable mouth.new) }
    ensures size { OnOk result (size (reading mouth.new (F.state files.new))
        ≤ size (reading mouth.old (F.state files.old)) + 1000000) }
    ensures counted { Counts step_cause result (F.state files.old).faults
        (F.state files.new).faults }
{
    let token = take_plain(mouth, files, env)?;
    let list = spelt(alloc, mouth.names(), token)?;
    push(mouth, &list)
}

// Does what a token does that is expanded, after its unit is spent.
fn work<F: Files>(
    alloc: Global,
    mouth: &mut Mouth,
    files: &mut F,
    env: &Env,
    token: Token,
    action: Action,
) -> Result<(), StepFault>
    requires opened { AreOpen mouth.old (F.state files.old) }
    requires readable { IsReadable mouth.old }
    requires relax { HaveRelax mouth.old.names }
    requires token { IsToken mouth.old.names token }
    ensures exact { AreTold mouth.old (F.state files.old)
        → AgreesAt (λ _. reading mouth.new (F.state files.new)) step_cause mouth.new result
        (the_work env.now token action (reading mouth.old (F.state files.old))) }
    ensures goes { Goes mouth.old (F.state files.old) mouth.new (F.state files.new) }
    ensures readable { OnOk result (IsReadable mouth.new) }
    ensures size { OnOk result (size (reading mouth.new (F.state files.new))
        ≤ size (reading mouth.old (F.state files.old)) + 1000000) }
    ensures counted { Counts step_cause result (F.state files.old).faults
        (F.state files.new).faults }
{
    match action {
        Action::NoExpand => no_expand(alloc, mouth, files, env),
        Action::String => string(alloc, mouth, files, env),
        Action::EndInput => {
            mouth.end_after_line();
            Ok(())
        }
        Action::Ends(limb) => meet_limb(alloc, mouth, files, env, token, limb),
        Action::Asks(question) => ask(mouth, files, env, question),
        Action::IfX => if_x(mouth, files, env),
        _ => Ok(()),
    }
}

/// Expands a token that was taken, where it expands no further one: its unit is spent first.
#[tactic(auto, unfolding(crate::specs::Plain::acted))]
pub(crate) fn act<F: Files>(
    alloc: Global,
    mouth: &mut Mouth,
    files: &mut F,
    env: &Env,
    token: Token,
    action: Action,
) -> Result<(), StepFault>
    requires opened { AreOpen mouth.old (F.state files.old) }
    requires readable { IsReadable mouth.old }
    requires relax { HaveRelax mouth.old.names }
    requires token { IsToken mouth.old.names token }
    ensures exact { AreTold mouth.old (F.state files.old)
        → AgreesAt (λ _. reading mouth.new (F.state files.new)) step_cause mouth.new result
        (acted env.now token action (reading mouth.old (F.state files.old))) }
    ensures goes { Goes mouth.old (F.state files.old) mouth.new (F.state files.new) }
    ensures readable { OnOk result (IsReadable mouth.new) }
    ensures size { OnOk result (size (reading mouth.new (F.state files.new))
        ≤ size (reading mouth.old (F.state files.old))) }
    ensures counted { Counts step_cause result (F.state files.old).faults
        (F.state files.new).faults }
{
    begin(mouth)?;
    work(alloc, mouth, files, env, token, action)?;
    mouth.end();
    Ok(())
}
