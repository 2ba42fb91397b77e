//! Meanings are given to names.

ghost use Rattle.std.specs.Prelude.{◌≡◌, ◌≤◌, ℕ, List, length, IfOk, OnOk};
ghost use Rattle.ts_base.specs.Agreement.{Counts, Uncounted};
ghost use Rattle.mouth.specs.Keeping.{reading, AgreesAt, AreOpen, AreTold, IsReadable, IsToken};
ghost use Rattle.mouth.specs.Sizes.{size};
ghost use Rattle.expander.specs.Holding.{AreFit, Goes};
ghost use Rattle.control_faults.specs.TurnFaults.{read_cause, sink_cause};
ghost use Rattle.assignments.specs.Worlds.{world_of};
ghost use Rattle.assignments.specs.Beside.{IsBeside};
ghost use Rattle.tok_lists.specs.declared.spelling.Spelling.{Spelling};
ghost use Rattle.env_groups.specs.Macros.{IsMeaning};
ghost use Rattle.raw_texts.specs.Meanings.{meaning_of as the_meaning_of};
ghost use Rattle.macros.specs.Definitions.{IsDefined};
ghost use Rattle.expander.specs.Holding.{IsFit};
ghost use Rattle.assignments.specs.Namings.{is_equals as the_is_equals, value_after, let_value, let_done, shorthand_of as the_shorthand_of, shorthand_meaning, shorthand_done, macro_meaning as the_macro_meaning, macro_done};

use crate::command::{Defining, Prefixes, Shorthand};
use crate::reads::{read_macro, take_raw};
use crate::seeking::{Sought, means_space, read_name, seek};
use crate::storing::store_meaning;
use crate::values::{read_equals, read_integer};
use crate::variable::{character_number, register_number};
use control_faults::{FaultKind, TurnFault};
use env_groups::{Env, MacroDef, Meaning, Prim};
use expander::Gullet;
use raw_texts::meaning_of;
use tok_lists::Token;
use ts_outside::Files;

fn is_equals(token: &Token) -> bool
    ensures { result ≡ the_is_equals token.now }
{
    matches!(token, Token::Char(b'=', 12))
}

// The meaning of a token, which is given to another name.
#[tactic(auto, using(crate::proofs::Fitting::token_fits))]
fn given_meaning(token: &Token, env: &Env) -> Meaning
    ensures value { result ≡ the_meaning_of env.now token.now }
    ensures sound { IsMeaning (length env.now.fonts) result }
    ensures fit { (names : List Spelling) → AreFit names env.now → IsToken names token.now
        → IsFit names result }
{
    match token {
        Token::Name(name) | Token::Kept(name) => env.get_meaning(*name),
        _ => Meaning::Letter(*token),
    }
}

// Passes over a `=` and one space after it.
fn pass_equals<F: Files>(
    gullet: &mut Gullet,
    files: &mut F,
    env: &mut Env,
    token: Token,
) -> Result<Token, TurnFault>
    requires opened { AreOpen gullet.old (F.state files.old) }
    requires readable { IsReadable gullet.old }
    requires fit { AreFit gullet.old.names env.old }
    requires token { IsToken gullet.old.names token }
    ensures exact { AreTold gullet.old (F.state files.old)
        → AgreesAt (λ found. (found, world_of gullet.new (F.state files.new) env.new)) read_cause
        gullet.new result (value_after (token, world_of gullet.old (F.state files.old) env.old)) }
    ensures goes { Goes gullet.old (F.state files.old) gullet.new (F.state files.new) }
    ensures readable { OnOk result (IsReadable gullet.new) }
    ensures fit { AreFit gullet.new.names env.new }
    ensures beside { IsBeside env.old env.new }
    ensures token { IfOk result (IsToken gullet.new.names) }
    ensures size { OnOk result (size (reading gullet.new (F.state files.new))
        ≤ size (reading gullet.old (F.state files.old))) }
    ensures unshipped { Uncounted sink_cause result }
    ensures counted { Counts read_cause result (F.state files.old).faults
        (F.state files.new).faults }
{
    if !is_equals(&token) {
        return Ok(token);
    }
    let next = take_raw(gullet, files, env)?;
    if means_space(&meaning_of(&next, env)) {
        return take_raw(gullet, files, env);
    }
    Ok(next)
}

// Takes the token whose meaning a `\let` gives (TeX: The Program, section 1221).
#[tactic(auto, unfolding(crate::specs::Namings::let_value))]
fn take_value<F: Files>(
    gullet: &mut Gullet,
    files: &mut F,
    env: &mut Env,
) -> Result<Token, TurnFault>
    requires opened { AreOpen gullet.old (F.state files.old) }
    requires readable { IsReadable gullet.old }
    requires fit { AreFit gullet.old.names env.old }
    ensures exact { AreTold gullet.old (F.state files.old)
        → AgreesAt (λ token. (token, world_of gullet.new (F.state files.new) env.new)) read_cause
        gullet.new result (let_value (world_of gullet.old (F.state files.old) env.old)) }
    ensures goes { Goes gullet.old (F.state files.old) gullet.new (F.state files.new) }
    ensures readable { OnOk result (IsReadable gullet.new) }
    ensures fit { AreFit gullet.new.names env.new }
    ensures beside { IsBeside env.old env.new }
    ensures token { IfOk result (IsToken gullet.new.names) }
    ensures size { OnOk result (size (reading gullet.new (F.state files.new))
        ≤ size (reading gullet.old (F.state files.old))) }
    ensures unshipped { Uncounted sink_cause result }
    ensures counted { Counts read_cause result (F.state files.old).faults
        (F.state files.new).faults }
{
    let (_, token) = seek(gullet, files, env, Sought::Value)?;
    pass_equals(gullet, files, env, token)
}

/// Gives a name the meaning of a token: `\let`.
#[tactic(auto, using(crate::proofs::Refusals::env_agrees), unfolding(crate::specs::Namings::let_done, crate::specs::Namings::meaning_stored))]
pub(crate) fn let_name<F: Files>(
    gullet: &mut Gullet,
    files: &mut F,
    env: &mut Env,
    global: bool,
) -> Result<(), TurnFault>
    requires opened { AreOpen gullet.old (F.state files.old) }
    requires readable { IsReadable gullet.old }
    requires fit { AreFit gullet.old.names env.old }
    ensures exact { AreTold gullet.old (F.state files.old)
        → AgreesAt (λ _. world_of gullet.new (F.state files.new) env.new) read_cause
        gullet.new result (let_done global (world_of gullet.old (F.state files.old) env.old)) }
    ensures goes { Goes gullet.old (F.state files.old) gullet.new (F.state files.new) }
    ensures readable { OnOk result (IsReadable gullet.new) }
    ensures fit { AreFit gullet.new.names env.new }
    ensures beside { IsBeside env.old env.new }
    ensures size { OnOk result (size (reading gullet.new (F.state files.new))
        ≤ size (reading gullet.old (F.state files.old))) }
    ensures unshipped { Uncounted sink_cause result }
    ensures counted { Counts read_cause result (F.state files.old).faults
        (F.state files.new).faults }
{
    let name = read_name(gullet, files, env)?;
    let token = take_value(gullet, files, env)?;
    let meaning = given_meaning(&token, env);
    store_meaning(env, name, meaning, global)
}

fn shorthand_of(shorthand: Shorthand, n: i64) -> Result<Meaning, FaultKind>
    ensures value { result ≡ the_shorthand_of shorthand n }
    ensures sound { (fonts : ℕ) → IfOk result (IsMeaning fonts) }
    ensures fit { (names : List Spelling) → IfOk result (IsFit names) }
{
    match shorthand {
        Shorthand::Char => Ok(Meaning::Code(character_number(n)?)),
        Shorthand::Count => Ok(Meaning::Count(register_number(n)?)),
        Shorthand::Dimen => Ok(Meaning::Dimen(register_number(n)?)),
        Shorthand::Skip => Ok(Meaning::Skip(register_number(n)?)),
        Shorthand::Toks => Ok(Meaning::Toks(register_number(n)?)),
    }
}

// Reads the number for which a name is to stand.
#[tactic(auto, unfolding(crate::specs::Namings::shorthand_meaning))]
fn read_shorthand<F: Files>(
    gullet: &mut Gullet,
    files: &mut F,
    env: &mut Env,
    shorthand: Shorthand,
) -> Result<Meaning, TurnFault>
    requires opened { AreOpen gullet.old (F.state files.old) }
    requires readable { IsReadable gullet.old }
    requires fit { AreFit gullet.old.names env.old }
    ensures exact { AreTold gullet.old (F.state files.old)
        → AgreesAt (λ meaning. (meaning, world_of gullet.new (F.state files.new) env.new))
        read_cause gullet.new result
        (shorthand_meaning shorthand (world_of gullet.old (F.state files.old) env.old)) }
    ensures goes { Goes gullet.old (F.state files.old) gullet.new (F.state files.new) }
    ensures readable { OnOk result (IsReadable gullet.new) }
    ensures fit { AreFit gullet.new.names env.new }
    ensures beside { IsBeside env.old env.new }
    ensures sound { (fonts : ℕ) → IfOk result (IsMeaning fonts) }
    ensures holds { (names : List Spelling) → IfOk result (IsFit names) }
    ensures size { OnOk result (size (reading gullet.new (F.state files.new))
        ≤ size (reading gullet.old (F.state files.old))) }
    ensures unshipped { Uncounted sink_cause result }
    ensures counted { Counts read_cause result (F.state files.old).faults
        (F.state files.new).faults }
{
    read_equals(gullet, files, env)?;
    let n = read_integer(gullet, files, env)?;
    Ok(shorthand_of(shorthand, n)?)
}

/// Makes a name stand for a number: `\chardef` and its kin. While the number is read, the name
/// means `\relax` (TeX: The Program, section 1224).
#[tactic(auto, using(crate::proofs::Refusals::env_agrees), unfolding(crate::specs::Namings::shorthand_done, crate::specs::Namings::meaning_stored))]
pub(crate) fn name_number<F: Files>(
    gullet: &mut Gullet,
    files: &mut F,
    env: &mut Env,
    shorthand: Shorthand,
    global: bool,
) -> Result<(), TurnFault>
    requires opened { AreOpen gullet.old (F.state files.old) }
    requires readable { IsReadable gullet.old }
    requires fit { AreFit gullet.old.names env.old }
    ensures exact { AreTold gullet.old (F.state files.old)
        → AgreesAt (λ _. world_of gullet.new (F.state files.new) env.new) read_cause
        gullet.new result
        (shorthand_done shorthand global (world_of gullet.old (F.state files.old) env.old)) }
    ensures goes { Goes gullet.old (F.state files.old) gullet.new (F.state files.new) }
    ensures readable { OnOk result (IsReadable gullet.new) }
    ensures fit { AreFit gullet.new.names env.new }
    ensures beside { IsBeside env.old env.new }
    ensures size { OnOk result (size (reading gullet.new (F.state files.new))
        ≤ size (reading gullet.old (F.state files.old))) }
    ensures unshipped { Uncounted sink_cause result }
    ensures counted { Counts read_cause result (F.state files.old).faults
        (F.state files.new).faults }
{
    let name = read_name(gullet, files, env)?;
    store_meaning(env, name, Meaning::Primitive(Prim::Relax), global)?;
    let meaning = read_shorthand(gullet, files, env, shorthand)?;
    store_meaning(env, name, meaning, global)
}

#[tactic(auto, using(crate::proofs::Fitting::macro_sound, crate::proofs::Fitting::macro_fits))]
fn macro_meaning(is_long: bool, definition: MacroDef) -> Meaning
    ensures value { result ≡ the_macro_meaning is_long definition }
    ensures sound { (fonts : ℕ) (names : List Spelling) → IsDefined names definition
        → IsMeaning fonts result }
    ensures fit { (names : List Spelling) → IsDefined names definition → IsFit names result }
{
    Meaning::Macro(MacroDef {
        long: is_long,
        ..definition
    })
}

/// Defines a macro: `\def`, `\edef`, `\gdef` and `\xdef`.
#[tactic(auto, using(crate::proofs::Refusals::env_agrees), unfolding(crate::specs::Namings::macro_done, crate::specs::Namings::meaning_stored))]
pub(crate) fn define<F: Files>(
    gullet: &mut Gullet,
    files: &mut F,
    env: &mut Env,
    defining: Defining,
    prefixes: Prefixes,
) -> Result<(), TurnFault>
    requires opened { AreOpen gullet.old (F.state files.old) }
    requires readable { IsReadable gullet.old }
    requires fit { AreFit gullet.old.names env.old }
    ensures exact { AreTold gullet.old (F.state files.old)
        → AgreesAt (λ _. world_of gullet.new (F.state files.new) env.new) read_cause
        gullet.new result
        (macro_done defining prefixes (world_of gullet.old (F.state files.old) env.old)) }
    ensures goes { Goes gullet.old (F.state files.old) gullet.new (F.state files.new) }
    ensures readable { OnOk result (IsReadable gullet.new) }
    ensures fit { AreFit gullet.new.names env.new }
    ensures beside { IsBeside env.old env.new }
    ensures size { OnOk result (size (reading gullet.new (F.state files.new))
        ≤ size (reading gullet.old (F.state files.old))) }
    ensures unshipped { Uncounted sink_cause result }
    ensures counted { Counts read_cause result (F.state files.old).faults
        (F.state files.new).faults }
{
    let name = read_name(gullet, files, env)?;
    let definition = read_macro(gullet, files, env, defining.is_expanded)?;
    let meaning = macro_meaning(prefixes.is_long, definition);
    store_meaning(env, name, meaning, defining.is_global || prefixes.is_global)
}
