//! Expansion: one token, and the next unexpandable one.

ghost use Rattle.std.specs.Prelude.{◌≡◌, ◌≤◌, ◌<◌, ◌+◌, [], OnOk, IfOk};
ghost use Rattle.ts_base.specs.Agreement.{Counts};
ghost use Rattle.mouth.specs.Keeping.{reading, AgreesAt, AreOpen, AreTold, IsReadable, IsToken};
ghost use Rattle.mouth.specs.Tokens.{plain as the_plain};
ghost use Rattle.mouth.specs.Sizes.{size};
ghost use Rattle.scan_syntax.specs.Bounds.{IsWithinBounds};
ghost use Rattle.expander.specs.Faults.{step_cause};
ghost use Rattle.expander.specs.Worlds.{world};
ghost use Rattle.expander.specs.Leaving.{but_meanings};
ghost use Rattle.expander.specs.Holding.{AreFit, Goes, IsListed, IsPlainList};
ghost use Rattle.expander.specs.Scanning.{form_of};
ghost use Rattle.expander.specs.Steps.{Next, PastSpaces, Expand, Scan as ScanCall, acts, goes_further, wanted, relation_read, expand_next as the_expand_next, expand_after as the_expand_after, print_scanned as the_print_scanned, test_scanned as the_test_scanned, compare_with as the_compare_with, compare_scanned as the_compare_scanned, compare_tokens as the_compare_tokens, Chars as CharsCall, make_name as the_make_name, input as the_input};
ghost use Rattle.expander.specs.Expansion.{run};

use crate::action::{Action, Aspect, Front, Further, NumberTest, Printing, Relation};
use crate::actions::{front_of, is_expandable};
use crate::choices::{amount_in, holds, relation_of, test_number};
use crate::conditionals::decide;
use crate::faces::{are_alike, face_of};
use crate::fault::StepFault;
use crate::naming::{char_of, end_of_name, open_named, put_name};
use crate::numbers::{integer_in, put_shown, want_of};
use crate::plain::{act, expand_call, put};
use crate::scans::{give_back, is_space_in};
use crate::steps::{begin, take, take_plain};
use env_groups::Env;
use jis_codes::Chars;
use mouth::Mouth;
use scan_syntax::{Fed, Scan, ScanFault, ScanKind, Value, Want};
use std::alloc::Global;
use tok_lists::Token;
use ts_base::NoMemory;
use ts_outside::Files;

// The plain name of a Kept token, and any other token as it is.
pub(crate) fn plain(token: Token) -> Token
    ensures { result ≡ the_plain token }
{
    match token {
        Token::Kept(name) => Token::Name(name),
        _ => token,
    }
}

/// Expands a token that was taken once. `Undefined` comes exactly where it is an undefined name,
/// which takes no unit; any other expansion spends its unit first.
#[cycle(expand)]
#[tactic(auto, using(crate::proofs::Unguarded::expand_is, crate::proofs::Fitting::fit_still, crate::proofs::Fitting::fit_relax), unfolding(crate::specs::Steps::expand_step))]
pub(crate) fn expand<F: Files>(
    alloc: Global,
    mouth: &mut Mouth,
    files: &mut F,
    env: &mut Env,
    token: Token,
) -> Result<(), StepFault>
    requires opened { AreOpen mouth.old (F.state files.old) }
    requires readable { IsReadable mouth.old }
    requires fit { AreFit mouth.old.names env.old }
    requires token { IsToken mouth.old.names token }
    ensures exact { AreTold mouth.old (F.state files.old)
        → AgreesAt (λ _. world (reading mouth.new (F.state files.new)) env.new) step_cause
        mouth.new result (run (Expand token)
        (world (reading mouth.old (F.state files.old)) env.old)) }
    ensures goes { Goes mouth.old (F.state files.old) mouth.new (F.state files.new) }
    ensures readable { OnOk result (IsReadable mouth.new) }
    ensures fit { AreFit mouth.new.names env.new }
    ensures kept { but_meanings env.new ≡ but_meanings env.old }
    ensures size { OnOk result (size (reading mouth.new (F.state files.new))
        ≤ size (reading mouth.old (F.state files.old))) }
    ensures counted { Counts step_cause result (F.state files.old).faults
        (F.state files.new).faults }
{
    match front_of(&token, env) {
        Front::Undefined => Err(StepFault::Undefined),
        Front::Call(definition) => expand_call(alloc, mouth, files, env, &definition),
        Front::Acts(action) => expand_primitive(alloc, mouth, files, env, token, action),
    }
}

#[cycle(expand)]
#[tactic(auto, using(crate::proofs::Fitting::fit_still, crate::proofs::Fitting::fit_relax))]
fn expand_primitive<F: Files>(
    alloc: Global,
    mouth: &mut Mouth,
    files: &mut F,
    env: &mut Env,
    token: Token,
    action: Action,
) -> Result<(), StepFault>
    requires opened { AreOpen mouth.old (F.state files.old) }
    requires readable { IsReadable mouth.old }
    requires fit { AreFit mouth.old.names env.old }
    requires token { IsToken mouth.old.names token }
    ensures exact { AreTold mouth.old (F.state files.old)
        → AgreesAt (λ _. world (reading mouth.new (F.state files.new)) env.new) step_cause
        mouth.new result (acts run token action
        (world (reading mouth.old (F.state files.old)) env.old)) }
    ensures goes { Goes mouth.old (F.state files.old) mouth.new (F.state files.new) }
    ensures readable { OnOk result (IsReadable mouth.new) }
    ensures fit { AreFit mouth.new.names env.new }
    ensures kept { but_meanings env.new ≡ but_meanings env.old }
    ensures size { OnOk result (size (reading mouth.new (F.state files.new))
        ≤ size (reading mouth.old (F.state files.old))) }
    ensures counted { Counts step_cause result (F.state files.old).faults
        (F.state files.new).faults }
{
    match action {
        Action::Unexpandable => Ok(()),
        Action::Further(further) => {
            begin(mouth)?;
            expand_further(alloc, mouth, files, env, further)?;
            mouth.end();
            Ok(())
        }
        _ => act(alloc, mouth, files, env, token, action),
    }
}

// Does what a primitive does that expands further tokens, after its unit is spent.
#[cycle(expand)]
#[tactic(auto, using(crate::proofs::Fitting::fit_still, crate::proofs::Fitting::fit_relax))]
fn expand_further<F: Files>(
    alloc: Global,
    mouth: &mut Mouth,
    files: &mut F,
    env: &mut Env,
    further: Further,
) -> Result<(), StepFault>
    requires opened { AreOpen mouth.old (F.state files.old) }
    requires readable { IsReadable mouth.old }
    requires fit { AreFit mouth.old.names env.old }
    ensures exact { AreTold mouth.old (F.state files.old)
        → AgreesAt (λ _. world (reading mouth.new (F.state files.new)) env.new) step_cause
        mouth.new result (goes_further run further
        (world (reading mouth.old (F.state files.old)) env.old)) }
    ensures goes { Goes mouth.old (F.state files.old) mouth.new (F.state files.new) }
    ensures readable { OnOk result (IsReadable mouth.new) }
    ensures fit { AreFit mouth.new.names env.new }
    ensures kept { but_meanings env.new ≡ but_meanings env.old }
    ensures size { OnOk result (size (reading mouth.new (F.state files.new))
        ≤ size (reading mouth.old (F.state files.old)) + 70000000000) }
    ensures counted { Counts step_cause result (F.state files.old).faults
        (F.state files.new).faults }
{
    match further {
        Further::ExpandAfter => expand_after(alloc, mouth, files, env),
        Further::Prints(printing) => print_scanned(alloc, mouth, files, env, printing),
        Further::Tests(test) => test_scanned(alloc, mouth, files, env, test),
        Further::IfNum => compare_scanned(alloc, mouth, files, env, Want::Integer),
        Further::IfDim => compare_scanned(alloc, mouth, files, env, Want::Dimen),
        Further::Compares(aspect) => compare_tokens(alloc, mouth, files, env, aspect),
        Further::CsName => make_name(alloc, mouth, files, env),
        Further::Input => input(alloc, mouth, files, env),
    }
}

// Expands the token after the next one once, and puts the next one before what that gives.
#[cycle(expand)]
#[tactic(auto, using(crate::proofs::Fitting::fit_still, crate::proofs::Fitting::fit_relax, crate::proofs::Chains::goes_then))]
fn expand_after<F: Files>(
    alloc: Global,
    mouth: &mut Mouth,
    files: &mut F,
    env: &mut Env,
) -> Result<(), StepFault>
    requires opened { AreOpen mouth.old (F.state files.old) }
    requires readable { IsReadable mouth.old }
    requires fit { AreFit mouth.old.names env.old }
    ensures exact { AreTold mouth.old (F.state files.old)
        → AgreesAt (λ _. world (reading mouth.new (F.state files.new)) env.new) step_cause
        mouth.new result (the_expand_after run
        (world (reading mouth.old (F.state files.old)) env.old)) }
    ensures goes { Goes mouth.old (F.state files.old) mouth.new (F.state files.new) }
    ensures readable { OnOk result (IsReadable mouth.new) }
    ensures fit { AreFit mouth.new.names env.new }
    ensures kept { but_meanings env.new ≡ but_meanings env.old }
    ensures size { OnOk result (size (reading mouth.new (F.state files.new))
        ≤ size (reading mouth.old (F.state files.old)) + 2000000) }
    ensures counted { Counts step_cause result (F.state files.old).faults
        (F.state files.new).faults }
{
    let first = take_plain(mouth, files, env)?;
    expand_next(alloc, mouth, files, env)?;
    put(alloc, mouth, first)
}

// Expands the next token once where it is expandable, and else puts it back.
#[cycle(expand)]
#[tactic(auto, using(crate::proofs::Fitting::fit_still, crate::proofs::Fitting::fit_relax, crate::proofs::Chains::goes_then))]
fn expand_next<F: Files>(
    alloc: Global,
    mouth: &mut Mouth,
    files: &mut F,
    env: &mut Env,
) -> Result<(), StepFault>
    requires opened { AreOpen mouth.old (F.state files.old) }
    requires readable { IsReadable mouth.old }
    requires fit { AreFit mouth.old.names env.old }
    ensures exact { AreTold mouth.old (F.state files.old)
        → AgreesAt (λ _. world (reading mouth.new (F.state files.new)) env.new) step_cause
        mouth.new result (the_expand_next run
        (world (reading mouth.old (F.state files.old)) env.old)) }
    ensures goes { Goes mouth.old (F.state files.old) mouth.new (F.state files.new) }
    ensures readable { OnOk result (IsReadable mouth.new) }
    ensures fit { AreFit mouth.new.names env.new }
    ensures kept { but_meanings env.new ≡ but_meanings env.old }
    ensures size { OnOk result (size (reading mouth.new (F.state files.new))
        ≤ size (reading mouth.old (F.state files.old)) + 1000000) }
    ensures counted { Counts step_cause result (F.state files.old).faults
        (F.state files.new).faults }
{
    let token = take(mouth, files, env)?;
    if is_expandable(&token, env) {
        expand(alloc, mouth, files, env, token)
    } else {
        put(alloc, mouth, plain(token))
    }
}

/// Returns the next unexpandable token: tokens at the front are expanded until one isn't
/// expandable.
#[cycle(expand)]
#[tactic(auto, using(crate::proofs::Fitting::fit_still, crate::proofs::Fitting::fit_relax, crate::proofs::Chains::goes_then))]
pub(crate) fn next_token<F: Files>(
    alloc: Global,
    mouth: &mut Mouth,
    files: &mut F,
    env: &mut Env,
) -> Result<Token, StepFault>
    requires opened { AreOpen mouth.old (F.state files.old) }
    requires readable { IsReadable mouth.old }
    requires fit { AreFit mouth.old.names env.old }
    ensures exact { AreTold mouth.old (F.state files.old)
        → AgreesAt (λ token. (token, world (reading mouth.new (F.state files.new)) env.new))
        step_cause mouth.new result (run Next
        (world (reading mouth.old (F.state files.old)) env.old)) }
    ensures goes { Goes mouth.old (F.state files.old) mouth.new (F.state files.new) }
    ensures readable { OnOk result (IsReadable mouth.new) }
    ensures fit { AreFit mouth.new.names env.new }
    ensures kept { but_meanings env.new ≡ but_meanings env.old }
    ensures token { IfOk result (IsToken mouth.new.names) }
    ensures size { OnOk result (size (reading mouth.new (F.state files.new))
        < size (reading mouth.old (F.state files.old))) }
    ensures counted { Counts step_cause result (F.state files.old).faults
        (F.state files.new).faults }
{
    loop {
        let token = take(mouth, files, env)?;
        if !is_expandable(&token, env) {
            return Ok(token);
        }
        expand(alloc, mouth, files, env, token)?;
    }
}

// Returns the next unexpandable token that is no space, explicit or implicit.
#[cycle(expand)]
#[tactic(auto, using(crate::proofs::Fitting::fit_still, crate::proofs::Fitting::fit_relax, crate::proofs::Chains::goes_then))]
fn next_past_spaces<F: Files>(
    alloc: Global,
    mouth: &mut Mouth,
    files: &mut F,
    env: &mut Env,
) -> Result<Token, StepFault>
    requires opened { AreOpen mouth.old (F.state files.old) }
    requires readable { IsReadable mouth.old }
    requires fit { AreFit mouth.old.names env.old }
    ensures exact { AreTold mouth.old (F.state files.old)
        → AgreesAt (λ token. (token, world (reading mouth.new (F.state files.new)) env.new))
        step_cause mouth.new result (run PastSpaces
        (world (reading mouth.old (F.state files.old)) env.old)) }
    ensures goes { Goes mouth.old (F.state files.old) mouth.new (F.state files.new) }
    ensures readable { OnOk result (IsReadable mouth.new) }
    ensures fit { AreFit mouth.new.names env.new }
    ensures kept { but_meanings env.new ≡ but_meanings env.old }
    ensures token { IfOk result (IsToken mouth.new.names) }
    ensures size { OnOk result (size (reading mouth.new (F.state files.new))
        < size (reading mouth.old (F.state files.old))) }
    ensures counted { Counts step_cause result (F.state files.old).faults
        (F.state files.new).faults }
{
    loop {
        let token = next_token(alloc, mouth, files, env)?;
        if !is_space_in(&token, mouth.names(), env) {
            return Ok(token);
        }
    }
}

// Takes a token in the form in which it is wanted.
#[cycle(expand)]
#[tactic(auto, using(crate::proofs::Fitting::fit_still, crate::proofs::Fitting::fit_relax))]
fn take_wanted<F: Files>(
    alloc: Global,
    mouth: &mut Mouth,
    files: &mut F,
    env: &mut Env,
    raw: bool,
) -> Result<Token, StepFault>
    requires opened { AreOpen mouth.old (F.state files.old) }
    requires readable { IsReadable mouth.old }
    requires fit { AreFit mouth.old.names env.old }
    ensures exact { AreTold mouth.old (F.state files.old)
        → AgreesAt (λ token. (token, world (reading mouth.new (F.state files.new)) env.new))
        step_cause mouth.new result (wanted run (form_of raw)
        (world (reading mouth.old (F.state files.old)) env.old)) }
    ensures goes { Goes mouth.old (F.state files.old) mouth.new (F.state files.new) }
    ensures readable { OnOk result (IsReadable mouth.new) }
    ensures fit { AreFit mouth.new.names env.new }
    ensures kept { but_meanings env.new ≡ but_meanings env.old }
    ensures token { IfOk result (IsToken mouth.new.names) }
    ensures size { OnOk result (size (reading mouth.new (F.state files.new))
        < size (reading mouth.old (F.state files.old))) }
    ensures counted { Counts step_cause result (F.state files.old).faults
        (F.state files.new).faults }
{
    if raw {
        let token = take_plain(mouth, files, env)?;
        return Ok(token);
    }
    next_token(alloc, mouth, files, env)
}

/// Scans: the tokens that a scan wants are expanded, or taken as they are, one after the other, and
/// what it leaves is put back. Returns what it found. `Scan` comes exactly where the tokens so far
/// have that fault (The TeXbook, chapter 24).
#[cycle(expand)]
#[tactic(auto, using(crate::proofs::Fitting::fit_still, crate::proofs::Fitting::fit_relax, crate::proofs::Chains::goes_then, crate::proofs::Turns::turned_first))]
pub(crate) fn scan<F: Files>(
    alloc: Global,
    mouth: &mut Mouth,
    files: &mut F,
    env: &mut Env,
    want: Want,
) -> Result<Value, StepFault>
    requires opened { AreOpen mouth.old (F.state files.old) }
    requires readable { IsReadable mouth.old }
    requires fit { AreFit mouth.old.names env.old }
    ensures exact { AreTold mouth.old (F.state files.old)
        → AgreesAt (λ value. (value, world (reading mouth.new (F.state files.new)) env.new))
        step_cause mouth.new result (run (ScanCall want [])
        (world (reading mouth.old (F.state files.old)) env.old)) }
    ensures goes { Goes mouth.old (F.state files.old) mouth.new (F.state files.new) }
    ensures readable { OnOk result (IsReadable mouth.new) }
    ensures fit { AreFit mouth.new.names env.new }
    ensures kept { but_meanings env.new ≡ but_meanings env.old }
    ensures listed { IfOk result (IsListed (IsPlainList mouth.new.names)) }
    ensures within { IfOk result IsWithinBounds }
    ensures size { OnOk result (size (reading mouth.new (F.state files.new))
        ≤ size (reading mouth.old (F.state files.old))) }
    ensures counted { Counts step_cause result (F.state files.old).faults
        (F.state files.new).faults }
{
    let mut scan = Scan::new(alloc, want);
    let mut raw = false;
    loop {
        let token = take_wanted(alloc, mouth, files, env, raw)?;
        match scan.feed(token, env, mouth.names()) {
            Ok(Fed::Expanded) => raw = false,
            Ok(Fed::Raw) => raw = true,
            Ok(Fed::Done(value, tokens)) => return give_back(alloc, mouth, value, &tokens),
            Err(ScanFault::Kind(kind)) => return Err(StepFault::Scan(kind)),
            Err(ScanFault::NoMemory) => return Err(StepFault::from(NoMemory)),
        }
    }
}

/// Scans a value and puts what it is printed as in front: `\number`, `\romannumeral`, `\the`,
/// `\jis`, `\euc`, `\sjis` and `\kuten` (The TeXbook, chapter 20; pTeX). `CodeRange` comes exactly
/// where a number is that of no Japanese character in the coding.
#[cycle(expand)]
#[tactic(auto, using(crate::proofs::Fitting::fit_still, crate::proofs::Fitting::fit_relax, crate::proofs::Chains::goes_then))]
pub(crate) fn print_scanned<F: Files>(
    alloc: Global,
    mouth: &mut Mouth,
    files: &mut F,
    env: &mut Env,
    printing: Printing,
) -> Result<(), StepFault>
    requires opened { AreOpen mouth.old (F.state files.old) }
    requires readable { IsReadable mouth.old }
    requires fit { AreFit mouth.old.names env.old }
    ensures exact { AreTold mouth.old (F.state files.old)
        → AgreesAt (λ _. world (reading mouth.new (F.state files.new)) env.new) step_cause
        mouth.new result (the_print_scanned run printing
        (world (reading mouth.old (F.state files.old)) env.old)) }
    ensures goes { Goes mouth.old (F.state files.old) mouth.new (F.state files.new) }
    ensures readable { OnOk result (IsReadable mouth.new) }
    ensures fit { AreFit mouth.new.names env.new }
    ensures kept { but_meanings env.new ≡ but_meanings env.old }
    ensures size { OnOk result (size (reading mouth.new (F.state files.new))
        ≤ size (reading mouth.old (F.state files.old)) + 2000000) }
    ensures counted { Counts step_cause result (F.state files.old).faults
        (F.state files.new).faults }
{
    let value = scan(alloc, mouth, files, env, want_of(printing))?;
    put_shown(alloc, mouth, printing, &value)
}

// Reads a relation after spaces. `NoNumber` comes exactly where another token stands there.
#[cycle(expand)]
#[tactic(auto, using(crate::proofs::Fitting::fit_still, crate::proofs::Fitting::fit_relax))]
fn read_relation<F: Files>(
    alloc: Global,
    mouth: &mut Mouth,
    files: &mut F,
    env: &mut Env,
) -> Result<Relation, StepFault>
    requires opened { AreOpen mouth.old (F.state files.old) }
    requires readable { IsReadable mouth.old }
    requires fit { AreFit mouth.old.names env.old }
    ensures exact { AreTold mouth.old (F.state files.old)
        → AgreesAt (λ relation. (
          relation,
          world (reading mouth.new (F.state files.new)) env.new,
        )) step_cause mouth.new result (relation_read run
        (world (reading mouth.old (F.state files.old)) env.old)) }
    ensures goes { Goes mouth.old (F.state files.old) mouth.new (F.state files.new) }
    ensures readable { OnOk result (IsReadable mouth.new) }
    ensures fit { AreFit mouth.new.names env.new }
    ensures kept { but_meanings env.new ≡ but_meanings env.old }
    ensures size { OnOk result (size (reading mouth.new (F.state files.new))
        < size (reading mouth.old (F.state files.old))) }
    ensures counted { Counts step_cause result (F.state files.old).faults
        (F.state files.new).faults }
{
    let token = next_past_spaces(alloc, mouth, files, env)?;
    match relation_of(&token) {
        Some(relation) => Ok(relation),
        None => Err(StepFault::Scan(ScanKind::NoNumber)),
    }
}

// Opens a conditional whose test is of an integer, which is scanned: `\ifodd`, `\ifcase`,
// `\ifvoid`, `\ifhbox` and `\ifvbox` (TeX: The Program, sections 504, 505 and 509).
#[cycle(expand)]
#[tactic(auto, using(crate::proofs::Fitting::fit_still, crate::proofs::Fitting::fit_relax, crate::proofs::Chains::goes_then))]
fn test_scanned<F: Files>(
    alloc: Global,
    mouth: &mut Mouth,
    files: &mut F,
    env: &mut Env,
    test: NumberTest,
) -> Result<(), StepFault>
    requires opened { AreOpen mouth.old (F.state files.old) }
    requires readable { IsReadable mouth.old }
    requires fit { AreFit mouth.old.names env.old }
    ensures exact { AreTold mouth.old (F.state files.old)
        → AgreesAt (λ _. world (reading mouth.new (F.state files.new)) env.new) step_cause
        mouth.new result (the_test_scanned run test
        (world (reading mouth.old (F.state files.old)) env.old)) }
    ensures goes { Goes mouth.old (F.state files.old) mouth.new (F.state files.new) }
    ensures readable { OnOk result (IsReadable mouth.new) }
    ensures fit { AreFit mouth.new.names env.new }
    ensures kept { but_meanings env.new ≡ but_meanings env.old }
    ensures size { OnOk result (size (reading mouth.new (F.state files.new))
        ≤ size (reading mouth.old (F.state files.old)) + 1000000) }
    ensures counted { Counts step_cause result (F.state files.old).faults
        (F.state files.new).faults }
{
    let number = mouth.open_conditional()?;
    let value = scan(alloc, mouth, files, env, Want::Integer)?;
    test_number(mouth, files, env, number, test, integer_in(&value))
}

// Decides the conditional of a number, of whose values the first was scanned: its relation and its
// second value are.
#[cycle(expand)]
#[tactic(auto, using(crate::proofs::Fitting::fit_still, crate::proofs::Fitting::fit_relax, crate::proofs::Chains::goes_then))]
fn compare_with<F: Files>(
    alloc: Global,
    mouth: &mut Mouth,
    files: &mut F,
    env: &mut Env,
    want: Want,
    number: usize,
    first: i64,
) -> Result<(), StepFault>
    requires opened { AreOpen mouth.old (F.state files.old) }
    requires readable { IsReadable mouth.old }
    requires fit { AreFit mouth.old.names env.old }
    ensures exact { AreTold mouth.old (F.state files.old)
        → AgreesAt (λ _. world (reading mouth.new (F.state files.new)) env.new) step_cause
        mouth.new result (the_compare_with run want number first
        (world (reading mouth.old (F.state files.old)) env.old)) }
    ensures goes { Goes mouth.old (F.state files.old) mouth.new (F.state files.new) }
    ensures readable { OnOk result (IsReadable mouth.new) }
    ensures fit { AreFit mouth.new.names env.new }
    ensures kept { but_meanings env.new ≡ but_meanings env.old }
    ensures size { OnOk result (size (reading mouth.new (F.state files.new))
        ≤ size (reading mouth.old (F.state files.old)) + 1000000) }
    ensures counted { Counts step_cause result (F.state files.old).faults
        (F.state files.new).faults }
{
    let relation = read_relation(alloc, mouth, files, env)?;
    let second = scan(alloc, mouth, files, env, want)?;
    let yes = holds(first, relation, amount_in(&second));
    decide(mouth, files, env, number, yes)
}

// Opens a conditional whose test compares two values, which are scanned: `\ifnum` and `\ifdim`
// (TeX: The Program, section 503).
#[cycle(expand)]
#[tactic(auto, using(crate::proofs::Fitting::fit_still, crate::proofs::Fitting::fit_relax, crate::proofs::Chains::goes_then))]
fn compare_scanned<F: Files>(
    alloc: Global,
    mouth: &mut Mouth,
    files: &mut F,
    env: &mut Env,
    want: Want,
) -> Result<(), StepFault>
    requires opened { AreOpen mouth.old (F.state files.old) }
    requires readable { IsReadable mouth.old }
    requires fit { AreFit mouth.old.names env.old }
    ensures exact { AreTold mouth.old (F.state files.old)
        → AgreesAt (λ _. world (reading mouth.new (F.state files.new)) env.new) step_cause
        mouth.new result (the_compare_scanned run want
        (world (reading mouth.old (F.state files.old)) env.old)) }
    ensures goes { Goes mouth.old (F.state files.old) mouth.new (F.state files.new) }
    ensures readable { OnOk result (IsReadable mouth.new) }
    ensures fit { AreFit mouth.new.names env.new }
    ensures kept { but_meanings env.new ≡ but_meanings env.old }
    ensures size { OnOk result (size (reading mouth.new (F.state files.new))
        ≤ size (reading mouth.old (F.state files.old)) + 2000000) }
    ensures counted { Counts step_cause result (F.state files.old).faults
        (F.state files.new).faults }
{
    let number = mouth.open_conditional()?;
    let first = scan(alloc, mouth, files, env, want)?;
    compare_with(alloc, mouth, files, env, want, number, amount_in(&first))
}

// Opens a conditional whose test compares the next two unexpandable tokens: `\if` and `\ifcat`
// (TeX: The Program, section 506).
#[cycle(expand)]
#[tactic(auto, using(crate::proofs::Fitting::fit_still, crate::proofs::Fitting::fit_relax, crate::proofs::Chains::goes_then))]
fn compare_tokens<F: Files>(
    alloc: Global,
    mouth: &mut Mouth,
    files: &mut F,
    env: &mut Env,
    aspect: Aspect,
) -> Result<(), StepFault>
    requires opened { AreOpen mouth.old (F.state files.old) }
    requires readable { IsReadable mouth.old }
    requires fit { AreFit mouth.old.names env.old }
    ensures exact { AreTold mouth.old (F.state files.old)
        → AgreesAt (λ _. world (reading mouth.new (F.state files.new)) env.new) step_cause
        mouth.new result (the_compare_tokens run aspect
        (world (reading mouth.old (F.state files.old)) env.old)) }
    ensures goes { Goes mouth.old (F.state files.old) mouth.new (F.state files.new) }
    ensures readable { OnOk result (IsReadable mouth.new) }
    ensures fit { AreFit mouth.new.names env.new }
    ensures kept { but_meanings env.new ≡ but_meanings env.old }
    ensures size { OnOk result (size (reading mouth.new (F.state files.new))
        ≤ size (reading mouth.old (F.state files.old))) }
    ensures counted { Counts step_cause result (F.state files.old).faults
        (F.state files.new).faults }
{
    let number = mouth.open_conditional()?;
    let first = next_token(alloc, mouth, files, env)?;
    let first = face_of(env, mouth.names(), &first);
    let second = next_token(alloc, mouth, files, env)?;
    let second = face_of(env, mouth.names(), &second);
    decide(mouth, files, env, number, are_alike(aspect, first, second))
}

// Reads the characters of a name, up to what means `\endcsname`. `CsnameEnd` comes exactly where
// something else stands before it.
#[cycle(expand)]
#[tactic(auto, using(crate::proofs::Fitting::fit_still, crate::proofs::Fitting::fit_relax, crate::proofs::Chains::goes_then))]
fn read_chars<F: Files>(
    alloc: Global,
    mouth: &mut Mouth,
    files: &mut F,
    env: &mut Env,
) -> Result<Chars, StepFault>
    requires opened { AreOpen mouth.old (F.state files.old) }
    requires readable { IsReadable mouth.old }
    requires fit { AreFit mouth.old.names env.old }
    ensures exact { AreTold mouth.old (F.state files.old)
        → AgreesAt (λ chars. (chars, world (reading mouth.new (F.state files.new)) env.new))
        step_cause mouth.new result (run (CharsCall [])
        (world (reading mouth.old (F.state files.old)) env.old)) }
    ensures goes { Goes mouth.old (F.state files.old) mouth.new (F.state files.new) }
    ensures readable { OnOk result (IsReadable mouth.new) }
    ensures fit { AreFit mouth.new.names env.new }
    ensures kept { but_meanings env.new ≡ but_meanings env.old }
    ensures size { OnOk result (size (reading mouth.new (F.state files.new))
        < size (reading mouth.old (F.state files.old))) }
    ensures counted { Counts step_cause result (F.state files.old).faults
        (F.state files.new).faults }
{
    let mut chars = Chars::new(alloc);
    loop {
        let token = next_token(alloc, mouth, files, env)?;
        let Some(c) = char_of(&token) else {
            return end_of_name(token, env, chars);
        };
        chars.push(c)?;
    }
}

// Makes a name of the characters up to an `\endcsname`, and puts it in front (TeX: The Program,
// section 372).
#[cycle(expand)]
#[tactic(auto, using(crate::proofs::Fitting::fit_still, crate::proofs::Fitting::fit_relax, crate::proofs::Chains::goes_then))]
fn make_name<F: Files>(
    alloc: Global,
    mouth: &mut Mouth,
    files: &mut F,
    env: &mut Env,
) -> Result<(), StepFault>
    requires opened { AreOpen mouth.old (F.state files.old) }
    requires readable { IsReadable mouth.old }
    requires fit { AreFit mouth.old.names env.old }
    ensures exact { AreTold mouth.old (F.state files.old)
        → AgreesAt (λ _. world (reading mouth.new (F.state files.new)) env.new) step_cause
        mouth.new result (the_make_name run
        (world (reading mouth.old (F.state files.old)) env.old)) }
    ensures goes { Goes mouth.old (F.state files.old) mouth.new (F.state files.new) }
    ensures readable { OnOk result (IsReadable mouth.new) }
    ensures fit { AreFit mouth.new.names env.new }
    ensures kept { but_meanings env.new ≡ but_meanings env.old }
    ensures size { OnOk result (size (reading mouth.new (F.state files.new))
        ≤ size (reading mouth.old (F.state files.old)) + 1000000) }
    ensures counted { Counts step_cause result (F.state files.old).faults
        (F.state files.new).faults }
{
    let chars = read_chars(alloc, mouth, files, env)?;
    put_name(alloc, mouth, env, chars.as_slice())
}

// Opens the file whose name is scanned (The TeXbook, chapters 20 and 25).
#[cycle(expand)]
#[tactic(auto, using(crate::proofs::Fitting::fit_still, crate::proofs::Fitting::fit_relax, crate::proofs::Chains::goes_then))]
fn input<F: Files>(
    alloc: Global,
    mouth: &mut Mouth,
    files: &mut F,
    env: &mut Env,
) -> Result<(), StepFault>
    requires opened { AreOpen mouth.old (F.state files.old) }
    requires readable { IsReadable mouth.old }
    requires fit { AreFit mouth.old.names env.old }
    ensures exact { AreTold mouth.old (F.state files.old)
        → AgreesAt (λ _. world (reading mouth.new (F.state files.new)) env.new) step_cause
        mouth.new result (the_input run
        (world (reading mouth.old (F.state files.old)) env.old)) }
    ensures goes { Goes mouth.old (F.state files.old) mouth.new (F.state files.new) }
    ensures readable { OnOk result (IsReadable mouth.new) }
    ensures fit { AreFit mouth.new.names env.new }
    ensures kept { but_meanings env.new ≡ but_meanings env.old }
    ensures size { OnOk result (size (reading mouth.new (F.state files.new))
        ≤ size (reading mouth.old (F.state files.old)) + 66000000000) }
    ensures counted { Counts step_cause result (F.state files.old).faults
        (F.state files.new).faults }
{
    let name = scan(alloc, mouth, files, env, Want::FileName)?;
    open_named(alloc, mouth, files, &name)
}
