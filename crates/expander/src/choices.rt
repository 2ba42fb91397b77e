//! Tests of numbers.

ghost use Rattle.std.specs.Prelude.{◌≡◌, ◌≤◌, OnOk};
ghost use Rattle.ts_base.specs.Agreement.{Counts};
ghost use Rattle.mouth.specs.Keeping.{reading, AgreesAt, AreOpen, AreTold, IsReadable};
ghost use Rattle.mouth.specs.Sizes.{size};
ghost use Rattle.expander.specs.Faults.{step_cause};
ghost use Rattle.expander.specs.Holding.{Goes};
ghost use Rattle.expander.specs.Choices.{relation_of as the_relation, holds as the_holds, amount_in as the_amount, is_odd as the_odd, box_in as the_box_in, is_horizontal as the_horizontal, box_answer as the_box_answer, register_answer as the_register_answer, is_or as the_or, case_number as the_case_number, is_first as the_first, fewer as the_fewer, case_after, cases_before, case_chosen, number_tested};

use crate::action::{BoxTest, NumberTest, Relation};
use crate::conditionals::{decide, end_false, inner_count, pass_over, skip};
use crate::fault::StepFault;
use box_tree::{BoxKind, SharedBox};
use env_groups::Env;
use mouth::{Allowed, Mouth};
use raw_texts::{Ended, Until};
use scan_syntax::{ScanKind, Value};
use tok_lists::Token;
use ts_outside::Files;

/// Returns the relation that a token is: a character `<`, `=` or `>` of category 12.
pub(crate) fn relation_of(token: &Token) -> Option<Relation>
    ensures { result ≡ the_relation token.now }
{
    match token {
        Token::Char(b'<', 12) => Some(Relation::Less),
        Token::Char(b'=', 12) => Some(Relation::Equal),
        Token::Char(b'>', 12) => Some(Relation::Greater),
        _ => None,
    }
}

/// Returns the integer, or the dimension in scaled points, that a scan found.
pub(crate) fn amount_in(value: &Value) -> i64
    ensures { result ≡ the_amount value.now }
{
    match value {
        Value::Integer(n) => *n,
        Value::Dimen(length) => length.0,
        _ => 0,
    }
}

/// Returns whether two integers, or two dimensions, stand so to each other.
pub(crate) fn holds(first: i64, relation: Relation, second: i64) -> bool
    ensures { result ≡ the_holds relation first second }
{
    match relation {
        Relation::Less => first < second,
        Relation::Equal => first == second,
        Relation::Greater => first > second,
    }
}

fn is_odd(n: i64) -> bool
    ensures { result ≡ the_odd n }
{
    n.unsigned_abs() % 2 == 1
}

// The box of a register.
fn box_in(env: &Env, n: i64) -> Result<Option<SharedBox>, ScanKind>
    ensures { result ≡ the_box_in env.now n }
{
    let Ok(n) = u32::try_from(n) else {
        return Err(ScanKind::RegisterRange);
    };
    match env.get_box(n) {
        Ok(held) => Ok(held),
        Err(_) => Err(ScanKind::RegisterRange),
    }
}

fn is_horizontal(kind: BoxKind) -> bool
    ensures { result ≡ the_horizontal kind }
{
    matches!(kind, BoxKind::Horizontal)
}

fn box_answer(test: BoxTest, held: &Option<SharedBox>) -> bool
    ensures { result ≡ the_box_answer test held.now }
{
    match (test, held) {
        (BoxTest::Void, None) => true,
        (BoxTest::HBox, Some(held)) => is_horizontal(held.get().kind),
        (BoxTest::VBox, Some(held)) => !is_horizontal(held.get().kind),
        _ => false,
    }
}

fn register_answer(env: &Env, test: BoxTest, n: i64) -> Result<bool, ScanKind>
    ensures { result ≡ the_register_answer env.now test n }
{
    match box_in(env, n) {
        Ok(held) => Ok(box_answer(test, &held)),
        Err(kind) => Err(kind),
    }
}

fn is_or(ended: Ended) -> bool
    ensures { result ≡ the_or ended }
{
    matches!(ended, Ended::Or)
}

// How many cases stand before that of a number; there is none of a number below 0.
fn case_number(n: i64) -> Option<u64>
    ensures { result ≡ the_case_number n }
{
    u64::try_from(n).ok()
}

fn is_first(cases: Option<u64>) -> bool
    ensures { result ≡ the_first cases }
{
    matches!(cases, Some(0))
}

fn fewer(cases: Option<u64>) -> Option<u64>
    ensures { result ≡ the_fewer cases }
{
    match cases {
        Some(n) => Some(n.saturating_sub(1)),
        None => None,
    }
}

// Skips so many cases, or all up to the `\else` or `\fi` where there are fewer.
fn skip_cases<F: Files>(
    mouth: &mut Mouth,
    files: &mut F,
    env: &Env,
    number: usize,
    cases: Option<u64>,
) -> Result<(), StepFault>
    requires opened { AreOpen mouth.old (F.state files.old) }
    requires readable { IsReadable mouth.old }
    ensures exact { AreTold mouth.old (F.state files.old)
        → AgreesAt (λ _. reading mouth.new (F.state files.new)) step_cause mouth.new result
        (case_after env.now number (cases_before cases (reading mouth.old (F.state files.old)))
        (reading mouth.old (F.state files.old))) }
    ensures goes { Goes mouth.old (F.state files.old) mouth.new (F.state files.new) }
    ensures readable { OnOk result (IsReadable mouth.new) }
    ensures size { OnOk result (size (reading mouth.new (F.state files.new))
        ≤ size (reading mouth.old (F.state files.old))) }
    ensures counted { Counts step_cause result (F.state files.old).faults
        (F.state files.new).faults }
{
    let mut left = cases;
    while !is_first(left) {
        let ended = skip(mouth, files, env, Until::Or)?;
        if !is_or(ended) {
            end_false(mouth, number, ended);
            return Ok(());
        }
        left = fewer(left);
    }
    mouth.change_conditional(number, Allowed::Or);
    Ok(())
}

// Goes on with the case of a number (TeX: The Program, section 509).
fn choose<F: Files>(
    mouth: &mut Mouth,
    files: &mut F,
    env: &Env,
    number: usize,
    cases: Option<u64>,
) -> Result<(), StepFault>
    requires opened { AreOpen mouth.old (F.state files.old) }
    requires readable { IsReadable mouth.old }
    ensures exact { AreTold mouth.old (F.state files.old)
        → AgreesAt (λ _. reading mouth.new (F.state files.new)) step_cause mouth.new result
        (case_chosen env.now number cases (reading mouth.old (F.state files.old))) }
    ensures goes { Goes mouth.old (F.state files.old) mouth.new (F.state files.new) }
    ensures readable { OnOk result (IsReadable mouth.new) }
    ensures size { OnOk result (size (reading mouth.new (F.state files.new))
        ≤ size (reading mouth.old (F.state files.old))) }
    ensures counted { Counts step_cause result (F.state files.old).faults
        (F.state files.new).faults }
{
    if is_first(cases) {
        mouth.change_conditional(number, Allowed::Or);
        return Ok(());
    }
    let inner = inner_count(mouth, number);
    pass_over(mouth, files, env, inner)?;
    skip_cases(mouth, files, env, number, cases)
}

/// Decides the test of the conditional of a number by the integer that was scanned for it (TeX: The
/// Program, sections 504, 505 and 509). `RegisterRange` comes exactly where no box register has
/// its number.
pub(crate) fn test_number<F: Files>(
    mouth: &mut Mouth,
    files: &mut F,
    env: &Env,
    number: usize,
    test: NumberTest,
    n: i64,
) -> Result<(), StepFault>
    requires opened { AreOpen mouth.old (F.state files.old) }
    requires readable { IsReadable mouth.old }
    ensures exact { AreTold mouth.old (F.state files.old)
        → AgreesAt (λ _. reading mouth.new (F.state files.new)) step_cause mouth.new result
        (number_tested env.now number test n (reading mouth.old (F.state files.old))) }
    ensures goes { Goes mouth.old (F.state files.old) mouth.new (F.state files.new) }
    ensures readable { OnOk result (IsReadable mouth.new) }
    ensures size { OnOk result (size (reading mouth.new (F.state files.new))
        ≤ size (reading mouth.old (F.state files.old))) }
    ensures counted { Counts step_cause result (F.state files.old).faults
        (F.state files.new).faults }
{
    match test {
        NumberTest::Odd => decide(mouth, files, env, number, is_odd(n)),
        NumberTest::Case => choose(mouth, files, env, number, case_number(n)),
        NumberTest::Register(test) => match register_answer(env, test, n) {
            Ok(yes) => decide(mouth, files, env, number, yes),
            Err(kind) => Err(StepFault::Scan(kind)),
        },
    }
}
