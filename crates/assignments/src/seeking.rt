//! Tokens that are passed over before one that is sought.

ghost use Rattle.std.specs.Prelude.{◌≡◌, ◌≤◌, ◌<◌, length, IfOk, OnOk};
ghost use Rattle.ts_base.specs.Agreement.{Counts, Uncounted};
ghost use Rattle.mouth.specs.Keeping.{reading, AgreesAt, AreOpen, AreTold, IsReadable, IsToken};
ghost use Rattle.mouth.specs.Sizes.{size};
ghost use Rattle.expander.specs.Holding.{AreFit, Goes};
ghost use Rattle.control_faults.specs.TurnFaults.{read_cause, sink_cause};
ghost use Rattle.assignments.specs.Worlds.{world_of};
ghost use Rattle.assignments.specs.Beside.{IsBeside};
ghost use Rattle.raw_texts.specs.Meanings.{means_category, is_blank as the_is_blank};
ghost use Rattle.assignments.specs.Seeking.{with_prefix as the_with_prefix, passed_if as the_passed_if, passed as the_passed, taken, found, name, name_of as the_name_of, solid_token, spaces_ignored};

use crate::command::{Command, Prefixes, command_of, meant};
use crate::reads::{put_back, take_next, take_raw};
use control_faults::{FaultKind, TurnFault};
use env_groups::{Env, Meaning, Prim};
use expander::Gullet;
use raw_texts::{is_space, meaning_of};
use std::alloc::Global;
use tok_lists::{NameNo, Token};
use ts_outside::Files;

/// What is sought.
#[derive(Clone, Copy, Debug, PartialEq, Eq)]
pub(crate) enum Sought {
    /// A name to which a meaning is given: spaces are passed over, without expansion.
    Name,
    /// The value of a `\let`: spaces are passed over, also by `\let`, without expansion.
    Value,
    /// A token that is no space, also none by `\let`, with expansion.
    NonSpace,
    /// A token that is neither a space nor `\relax`, with expansion.
    Solid,
    /// An assignment: spaces, `\relax` and prefixes are passed over, with expansion. These are the
    /// prefixes so far.
    Assignment(Prefixes),
}

pub(crate) fn means_space(meaning: &Meaning) -> bool
    ensures { result ≡ means_category 10 meaning.now }
{
    match meaning {
        Meaning::Letter(token) => is_space(token),
        _ => false,
    }
}

// Whether a meaning is that of a space or of `\relax`.
fn is_blank(meaning: &Meaning) -> bool
    ensures { result ≡ the_is_blank meaning.now }
{
    match meaning {
        Meaning::Letter(token) => is_space(token),
        Meaning::Primitive(prim) => matches!(prim, Prim::Relax),
        _ => false,
    }
}

fn with_prefix(prefixes: Prefixes, command: Command) -> Option<Sought>
    ensures { result ≡ the_with_prefix prefixes command }
{
    match command {
        Command::Prefix(prefix) => Some(Sought::Assignment(prefixes.with(prefix))),
        Command::Assigns(_) | Command::Other => None,
    }
}

fn passed_if(passes: bool, what: Sought) -> Option<Sought>
    ensures { result ≡ the_passed_if passes what }
{
    if passes { Some(what) } else { None }
}

// What is sought after a token that is passed over; nothing where it isn't.
#[tactic(auto, unfolding(crate::specs::Seeking::passed))]
fn passed(what: Sought, token: &Token, env: &Env) -> Option<Sought>
    ensures { result ≡ the_passed env.now what token.now }
{
    match what {
        Sought::Name => passed_if(is_space(token), what),
        Sought::Value => passed_if(means_space(&meaning_of(token, env)), what),
        Sought::NonSpace => passed_if(means_space(&meant(token, env)), what),
        Sought::Solid => passed_if(is_blank(&meant(token, env)), what),
        Sought::Assignment(prefixes) => {
            let meaning = meant(token, env);
            if is_blank(&meaning) {
                return Some(what);
            }
            with_prefix(prefixes, command_of(&meaning))
        }
    }
}

// Takes a token in the form in which it is sought.
fn take<F: Files>(
    gullet: &mut Gullet,
    files: &mut F,
    env: &mut Env,
    what: Sought,
) -> Result<Token, TurnFault>
    requires opened { AreOpen gullet.old (F.state files.old) }
    requires readable { IsReadable gullet.old }
    requires fit { AreFit gullet.old.names env.old }
    ensures exact { AreTold gullet.old (F.state files.old)
        → AgreesAt (λ token. (token, world_of gullet.new (F.state files.new) env.new)) read_cause
        gullet.new result (taken what (world_of gullet.old (F.state files.old) env.old)) }
    ensures goes { Goes gullet.old (F.state files.old) gullet.new (F.state files.new) }
    ensures readable { OnOk result (IsReadable gullet.new) }
    ensures fit { AreFit gullet.new.names env.new }
    ensures beside { IsBeside env.old env.new }
    ensures token { IfOk result (IsToken gullet.new.names) }
    ensures size { OnOk result (size (reading gullet.new (F.state files.new))
        < size (reading gullet.old (F.state files.old))) }
    ensures unshipped { Uncounted sink_cause result }
    ensures counted { Counts read_cause result (F.state files.old).faults
        (F.state files.new).faults }
{
    match what {
        Sought::Name | Sought::Value => take_raw(gullet, files, env),
        Sought::NonSpace | Sought::Solid | Sought::Assignment(_) => take_next(gullet, files, env),
    }
}

/// Returns the first token that isn't passed over, and what is then sought.
pub(crate) fn seek<F: Files>(
    gullet: &mut Gullet,
    files: &mut F,
    env: &mut Env,
    what: Sought,
) -> Result<(Sought, Token), TurnFault>
    requires opened { AreOpen gullet.old (F.state files.old) }
    requires readable { IsReadable gullet.old }
    requires fit { AreFit gullet.old.names env.old }
    ensures exact { AreTold gullet.old (F.state files.old)
        → AgreesAt (λ seen. (seen, world_of gullet.new (F.state files.new) env.new)) read_cause
        gullet.new result (found what (world_of gullet.old (F.state files.old) env.old)) }
    ensures goes { Goes gullet.old (F.state files.old) gullet.new (F.state files.new) }
    ensures readable { OnOk result (IsReadable gullet.new) }
    ensures fit { AreFit gullet.new.names env.new }
    ensures beside { IsBeside env.old env.new }
    ensures token { IfOk result (λ found. IsToken gullet.new.names found.1) }
    ensures size { OnOk result (size (reading gullet.new (F.state files.new))
        < size (reading gullet.old (F.state files.old))) }
    ensures unshipped { Uncounted sink_cause result }
    ensures counted { Counts read_cause result (F.state files.old).faults
        (F.state files.new).faults }
{
    let mut sought = what;
    loop {
        let token = take(gullet, files, env, sought)?;
        match passed(sought, &token, env) {
            Some(next) => sought = next,
            None => return Ok((sought, token)),
        }
    }
}

fn name_of(token: Token) -> Result<NameNo, FaultKind>
    ensures { result ≡ the_name_of token }
{
    match token {
        Token::Name(name) => Ok(name),
        _ => Err(FaultKind::NoName),
    }
}

/// Reads the name to which a meaning is given (TeX: The Program, section 1215). `NoName` comes
/// exactly where the first token that isn't a space is no name.
#[tactic(auto, unfolding(crate::specs::Seeking::name))]
pub fn read_name<F: Files>(
    gullet: &mut Gullet,
    files: &mut F,
    env: &mut Env,
) -> Result<NameNo, TurnFault>
    requires opened { AreOpen gullet.old (F.state files.old) }
    requires readable { IsReadable gullet.old }
    requires fit { AreFit gullet.old.names env.old }
    ensures exact { AreTold gullet.old (F.state files.old)
        → AgreesAt (λ number. (number, world_of gullet.new (F.state files.new) env.new)) read_cause
        gullet.new result (name (world_of gullet.old (F.state files.old) env.old)) }
    ensures goes { Goes gullet.old (F.state files.old) gullet.new (F.state files.new) }
    ensures readable { OnOk result (IsReadable gullet.new) }
    ensures fit { AreFit gullet.new.names env.new }
    ensures beside { IsBeside env.old env.new }
    ensures held { IfOk result (λ number. number.0 < length gullet.new.names) }
    ensures size { OnOk result (size (reading gullet.new (F.state files.new))
        < size (reading gullet.old (F.state files.old))) }
    ensures unshipped { Uncounted sink_cause result }
    ensures counted { Counts read_cause result (F.state files.old).faults
        (F.state files.new).faults }
{
    let (_, token) = seek(gullet, files, env, Sought::Name)?;
    Ok(name_of(token)?)
}

/// Takes the next token that is neither a space nor `\relax`, with expansion.
#[tactic(auto, unfolding(crate::specs::Seeking::solid_token))]
pub fn take_solid<F: Files>(
    gullet: &mut Gullet,
    files: &mut F,
    env: &mut Env,
) -> Result<Token, TurnFault>
    requires opened { AreOpen gullet.old (F.state files.old) }
    requires readable { IsReadable gullet.old }
    requires fit { AreFit gullet.old.names env.old }
    ensures exact { AreTold gullet.old (F.state files.old)
        → AgreesAt (λ token. (token, world_of gullet.new (F.state files.new) env.new)) read_cause
        gullet.new result (solid_token (world_of gullet.old (F.state files.old) env.old)) }
    ensures goes { Goes gullet.old (F.state files.old) gullet.new (F.state files.new) }
    ensures readable { OnOk result (IsReadable gullet.new) }
    ensures fit { AreFit gullet.new.names env.new }
    ensures beside { IsBeside env.old env.new }
    ensures token { IfOk result (IsToken gullet.new.names) }
    ensures size { OnOk result (size (reading gullet.new (F.state files.new))
        < size (reading gullet.old (F.state files.old))) }
    ensures unshipped { Uncounted sink_cause result }
    ensures counted { Counts read_cause result (F.state files.old).faults
        (F.state files.new).faults }
{
    let (_, token) = seek(gullet, files, env, Sought::Solid)?;
    Ok(token)
}

/// Passes over spaces, also those by `\let`, with expansion, and puts the first other token back:
/// `\ignorespaces` (The TeXbook, chapter 24; TeX: The Program, section 1045).
#[tactic(auto, unfolding(crate::specs::Seeking::spaces_ignored))]
pub fn ignore_spaces<F: Files>(
    alloc: Global,
    gullet: &mut Gullet,
    files: &mut F,
    env: &mut Env,
) -> Result<(), TurnFault>
    requires opened { AreOpen gullet.old (F.state files.old) }
    requires readable { IsReadable gullet.old }
    requires fit { AreFit gullet.old.names env.old }
    ensures exact { AreTold gullet.old (F.state files.old)
        → AgreesAt (λ _. world_of gullet.new (F.state files.new) env.new) read_cause
        gullet.new result (spaces_ignored (world_of gullet.old (F.state files.old) env.old)) }
    ensures goes { Goes gullet.old (F.state files.old) gullet.new (F.state files.new) }
    ensures readable { OnOk result (IsReadable gullet.new) }
    ensures fit { AreFit gullet.new.names env.new }
    ensures beside { IsBeside env.old env.new }
    ensures size { OnOk result (size (reading gullet.new (F.state files.new))
        ≤ size (reading gullet.old (F.state files.old))) }
    ensures unshipped { Uncounted sink_cause result }
    ensures counted { Counts read_cause result (F.state files.old).faults
        (F.state files.new).faults }
{
    let (_, token) = seek(gullet, files, env, Sought::NonSpace)?;
    put_back(alloc, gullet, token)
}
