//! Names that are made of characters, and files that are opened by name.

ghost use Rattle.std.specs.Prelude.{◌≡◌, ◌≤◌, ◌<◌, ◌+◌, length, List, Ok, Err, OnOk, IfOk, if◌then◌else◌};
ghost use Rattle.ts_base.specs.Agreement.{Agrees, Counts, Uncounted, with_fault};
ghost use Rattle.ts_outside.specs.States.{FilesState};
ghost use Rattle.tok_lists.specs.declared.spelling.Spelling.{Spelling};
ghost use Rattle.tok_lists.specs.Names.{Grew};
ghost use Rattle.mouth.specs.Changes.{named};
ghost use Rattle.mouth.specs.Keeping.{reading, AgreesAt, AreOpen, AreTold, IsReadable, KeepsFiles};
ghost use Rattle.mouth.specs.Opening.{with_file};
ghost use Rattle.mouth.specs.Sizes.{size};
ghost use Rattle.expander.specs.declared.fault.StepFault.TheVariants as faults;
ghost use Rattle.expander.specs.Faults.{step_cause, of_mouth};
ghost use Rattle.expander.specs.Worlds.{world};
ghost use Rattle.expander.specs.Leaving.{but_meanings};
ghost use Rattle.expander.specs.Holding.{AreFit, Goes};
ghost use Rattle.expander.specs.Naming.{char_of as the_char_of, is_end_prim as the_end_prim, ends_name as the_ends_name, with_relax, spelling_of, name_put};
ghost use Rattle.expander.specs.Inputs.{name_in as the_name_in, source_name as the_source_name, file_opened};

use crate::fault::StepFault;
use crate::plain::put;
use env_groups::{Env, Meaning, Prim};
use jis_codes::{Char, Chars};
use mouth::Mouth;
use scan_syntax::{ScanKind, Value};
use std::alloc::Global;
use tok_lists::{NameNo, Token};
use ts_base::NoMemory;
use ts_outside::{FileName, Files, NameFault};

/// Returns the character that a token is, where it is an explicit one.
pub(crate) fn char_of(token: &Token) -> Option<Char>
    ensures { result ≡ the_char_of token.now }
{
    match token {
        Token::Char(code, _) => Some(Char::One(*code)),
        Token::Ja(cell) => Some(Char::Ja(*cell)),
        _ => None,
    }
}

fn is_end_prim(prim: Prim) -> bool
    ensures { result ≡ the_end_prim prim }
{
    matches!(prim, Prim::EndCsName)
}

fn ends_name(token: &Token, env: &Env) -> bool
    ensures { result ≡ the_ends_name env.now token.now }
{
    let Token::Name(name) = token else {
        return false;
    };
    match env.get_meaning(*name) {
        Meaning::Primitive(prim) => is_end_prim(prim),
        _ => false,
    }
}

/// Returns the characters of a name that a token ends. `CsnameEnd` comes exactly where it doesn't
/// mean `\endcsname`.
pub(crate) fn end_of_name(token: Token, env: &Env, chars: Chars) -> Result<Chars, StepFault>
    ensures { result ≡ (if the_ends_name env.now token then Ok chars else Err faults.CsnameEnd) }
{
    if ends_name(&token, env) {
        Ok(chars)
    } else {
        Err(StepFault::CsnameEnd)
    }
}

// Gives an undefined name the meaning of `\relax`, in the innermost group.
#[tactic(auto, using(crate::proofs::Fitting::fit_after_meaning))]
fn define_as_relax(env: &mut Env, name: NameNo) -> Result<(), NoMemory>
    ensures value { OnOk result (env.new ≡ with_relax name.0 env.old) }
    ensures fit { (names : List Spelling) → AreFit names env.old → AreFit names env.new }
    ensures kept { but_meanings env.new ≡ but_meanings env.old }
{
    if let Meaning::Undefined = env.get_meaning(name) {
        return match env.set_meaning(name, Meaning::Primitive(Prim::Relax), false) {
            Ok(()) => Ok(()),
            Err(_) => Err(NoMemory),
        };
    }
    Ok(())
}

// The number of a spelling.
fn intern(mouth: &mut Mouth, chars: &[Char]) -> Result<NameNo, StepFault>
    ensures exact { (state : FilesState) → AgreesAt (λ n. (n.0, reading mouth.new state))
        step_cause mouth.new result
        (with_fault of_mouth (named (spelling_of chars.now) (reading mouth.old state))) }
    ensures held { IfOk result (λ n. n.0 < length mouth.new.names) }
    ensures files { KeepsFiles mouth.old mouth.new }
    ensures names { Grew mouth.old.names mouth.new.names }
    ensures quiet { Uncounted step_cause result }
    ensures size { (state : FilesState) → size (reading mouth.new state)
        ≡ size (reading mouth.old state) }
{
    Ok(mouth.intern(false, chars)?)
}

/// Puts the name of these characters in front, which is a new one where they spell none yet (TeX:
/// The Program, section 372). An undefined name gets the meaning of `\relax`, in the innermost
/// group.
#[tactic(auto, using(crate::proofs::Fitting::fit_still))]
pub(crate) fn put_name(
    alloc: Global,
    mouth: &mut Mouth,
    env: &mut Env,
    chars: &[Char],
) -> Result<(), StepFault>
    requires fit { AreFit mouth.old.names env.old }
    ensures exact { (state : FilesState) → AgreesAt (λ _. world (reading mouth.new state) env.new)
        step_cause mouth.new result
        (name_put chars.now (world (reading mouth.old state) env.old)) }
    ensures fit { AreFit mouth.new.names env.new }
    ensures kept { but_meanings env.new ≡ but_meanings env.old }
    ensures files { KeepsFiles mouth.old mouth.new }
    ensures names { Grew mouth.old.names mouth.new.names }
    ensures quiet { Uncounted step_cause result }
    ensures size { (state : FilesState) → size (reading mouth.new state)
        ≤ size (reading mouth.old state) + 1000000 }
{
    let name = intern(mouth, chars)?;
    define_as_relax(env, name)?;
    put(alloc, mouth, Token::Name(name))
}

// The name that a scan found.
fn name_in(value: &Value) -> &[u8]
    ensures { result.now ≡ the_name_in value.now }
{
    match value {
        Value::FileName(name) => name.bytes(),
        _ => &[],
    }
}

// The name of a source, with its ending.
fn source_name(alloc: Global, name: &[u8]) -> Result<FileName, StepFault>
    ensures exact { Agrees (λ name. name) step_cause result
        (with_fault (λ kind. faults.Scan kind) (the_source_name name.now)) }
    ensures quiet { Uncounted step_cause result }
{
    match FileName::with_ending(alloc, name, b".tex") {
        Ok(name) => Ok(name),
        Err(NameFault::BadName) => Err(StepFault::Scan(ScanKind::NoName)),
        Err(NameFault::NoMemory) => Err(StepFault::from(NoMemory)),
    }
}

// Opens a file above the others.
fn open<F: Files>(mouth: &mut Mouth, files: &mut F, name: &FileName) -> Result<(), StepFault>
    requires opened { AreOpen mouth.old (F.state files.old) }
    requires readable { IsReadable mouth.old }
    ensures exact { AreTold mouth.old (F.state files.old)
        → AgreesAt (λ _. reading mouth.new (F.state files.new)) step_cause mouth.new result
        (with_fault of_mouth (with_file name.now (reading mouth.old (F.state files.old)))) }
    ensures goes { Goes mouth.old (F.state files.old) mouth.new (F.state files.new) }
    ensures readable { OnOk result (IsReadable mouth.new) }
    ensures names { mouth.new.names ≡ mouth.old.names }
    ensures size { OnOk result (size (reading mouth.new (F.state files.new))
        ≤ size (reading mouth.old (F.state files.old)) + 65536000000) }
    ensures counted { Counts step_cause result (F.state files.old).faults
        (F.state files.new).faults }
{
    Ok(mouth.open(files, name)?)
}

/// Opens the file whose name was scanned, with the ending `.tex` where no dot stands in its part
/// after the last slash (The TeXbook, chapters 20 and 25). `NoName` comes exactly where that is no
/// name of a file, `InputsFull` where 15 files are open, and `FileMissing` where it isn't held.
pub(crate) fn open_named<F: Files>(
    alloc: Global,
    mouth: &mut Mouth,
    files: &mut F,
    value: &Value,
) -> Result<(), StepFault>
    requires opened { AreOpen mouth.old (F.state files.old) }
    requires readable { IsReadable mouth.old }
    ensures exact { AreTold mouth.old (F.state files.old)
        → AgreesAt (λ _. reading mouth.new (F.state files.new)) step_cause mouth.new result
        (file_opened (the_name_in value.now) (reading mouth.old (F.state files.old))) }
    ensures goes { Goes mouth.old (F.state files.old) mouth.new (F.state files.new) }
    ensures readable { OnOk result (IsReadable mouth.new) }
    ensures names { mouth.new.names ≡ mouth.old.names }
    ensures size { OnOk result (size (reading mouth.new (F.state files.new))
        ≤ size (reading mouth.old (F.state files.old)) + 65536000000) }
    ensures counted { Counts step_cause result (F.state files.old).faults
        (F.state files.new).faults }
{
    let name = source_name(alloc, name_in(value))?;
    open(mouth, files, &name)
}
