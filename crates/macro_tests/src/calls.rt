//! Definitions and calls in files in memory.

ghost use Rattle.std.specs.Prelude.{IfOk, OnOk};
ghost use Rattle.mouth.specs.Keeping.{AreOpen, IsReadable};
ghost use Rattle.macros.specs.Definitions.{IsDefined};

use env_groups::Env;
use input_codings::Coding;
use macros::{Body, macro_of, read_call, read_definition, read_heading};
use mouth::{Mouth, MouthFault};
use raw_texts::MacroFault;
use std::alloc::Global;
use std::process::Abort;
use std::test::Fail;
use tok_lists::{Args, SharedTokens, Token};
use ts_base::{List, NoMemory};
use ts_outside::{FileName, Files, MemFile, MemFiles};

// A definition without its name in the file `a`, and a call after it, or in the file `b`.
#[derive(Clone, Copy)]
struct Row<'a> {
    a: &'a [u8],
    b: &'a [u8],
    shown: &'a [u8],
    fault: Option<MacroFault>,
    line: u32,
}

fn show(codes: &mut List<u8>, tokens: &SharedTokens) -> Result<(), NoMemory> {
    for token in tokens.as_slice() {
        let code = match token {
            Token::Char(code, _) => *code,
            _ => b'\\',
        };
        codes.push(code)?;
    }
    codes.push(b'|')
}

// The codes of characters, a backslash for a name, and a bar after each argument.
fn shown(alloc: Global, args: &Args) -> Result<List<u8>, NoMemory> {
    let mut codes = List::new(alloc);
    for tokens in args.as_slice() {
        show(&mut codes, tokens)?;
    }
    Ok(codes)
}

fn open_other<F: Files>(
    alloc: Global,
    mouth: &mut Mouth,
    files: &mut F,
    is_empty: bool,
) -> Result<(), MacroFault>
    requires opened { AreOpen mouth.old (F.state files.old) }
    requires readable { IsReadable mouth.old }
    ensures opened { AreOpen mouth.new (F.state files.new) }
    ensures readable { IsReadable mouth.new }
{
    if is_empty {
        return Ok(());
    }
    let Ok(name) = FileName::new(alloc, b"b") else {
        return Err(MacroFault::Mouth(MouthFault::NoMemory));
    };
    mouth.open(files, &name)?;
    Ok(())
}

fn called<F: Files>(
    alloc: Global,
    mouth: &mut Mouth,
    files: &mut F,
    env: &Env,
    is_whole: bool,
) -> Result<List<u8>, MacroFault>
    requires opened { AreOpen mouth.old (F.state files.old) }
    requires readable { IsReadable mouth.old }
    ensures { AreOpen mouth.new (F.state files.new) }
{
    let definition = read_definition(alloc, mouth, files, env)?;
    open_other(alloc, mouth, files, is_whole)?;
    let args = read_call(alloc, mouth, files, env, &definition)?;
    Ok(shown(alloc, &args)?)
}

fn file_of(alloc: Global, name: &[u8], text: &[u8]) -> Result<MemFile, Fail> {
    Ok(MemFile {
        name: FileName::new(alloc, name)?,
        bytes: text.to_vec(alloc)?,
    })
}

// The body of a definition whose parameter text is read, and into which tokens were stored.
fn stored<F: Files>(
    alloc: Global,
    mouth: &mut Mouth,
    files: &mut F,
    env: &Env,
    list: &[Token],
) -> Result<List<u8>, MacroFault>
    requires opened { AreOpen mouth.old (F.state files.old) }
    requires readable { IsReadable mouth.old }
    ensures { AreOpen mouth.new (F.state files.new) }
{
    let heading = read_heading(alloc, mouth, files, env)?;
    let mut body = Body::new(alloc, heading);
    body.store(list)?;
    let definition = macro_of(alloc, &mut body)?;
    let mut codes = List::new(alloc);
    show(&mut codes, &definition.body)?;
    Ok(codes)
}

fn tokens_are_stored_as_they_are(rt: &impl Abort, alloc: Global, env: &Env) -> Result<(), Fail> {
    let held = vec![in alloc; file_of(alloc, b"a", b"#1{")?]?;
    let mut files = MemFiles::new(alloc, held, Vec::new(alloc), Vec::new(alloc));
    let name = FileName::new(alloc, b"a")?;
    let mut mouth = Mouth::start(alloc, &mut files, &name, Coding::Euc, 0)?;
    let list = [
        Token::Char(b'{', 1),
        Token::Char(b'#', 6),
        Token::Char(b'1', 12),
    ];
    let answer = stored(alloc, &mut mouth, &mut files, env, &list);
    mouth.close_all(&mut files);
    assert_eq!(rt; answer?.as_slice(), b"{#1|".as_slice());
    Ok(())
}

// The arguments of the call, or the fault; and the line of the place after it.
fn outcome_of(
    alloc: Global,
    a: &[u8],
    b: &[u8],
    env: &Env,
) -> Result<(Result<List<u8>, MacroFault>, u32), Fail> {
    let held = vec![in alloc; file_of(alloc, b"a", a)?, file_of(alloc, b"b", b)?]?;
    let cuts = vec![in alloc; 3usize]?;
    let mut files = MemFiles::new(alloc, held, cuts, Vec::new(alloc));
    let name = FileName::new(alloc, b"a")?;
    let mut mouth = Mouth::start(alloc, &mut files, &name, Coding::Euc, 0)?;
    let answer = called(alloc, &mut mouth, &mut files, env, b.is_empty());
    let place = mouth.place();
    mouth.close_all(&mut files);
    Ok((answer, place.line))
}

fn check_all(rt: &impl Abort, alloc: Global, env: &Env, rows: &[Row]) -> Result<(), Fail> {
    for row in rows {
        let (answer, line) = outcome_of(alloc, row.a, row.b, env)?;
        match answer {
            Ok(codes) => {
                assert_eq!(rt; codes.as_slice(), row.shown);
                assert_eq!(rt; row.fault, None);
            }
            Err(fault) => assert_eq!(rt; row.fault, Some(fault)),
        }
        assert_eq!(rt; line, row.line);
    }
    Ok(())
}

fn call_of<'a>(a: &'a [u8], shown: &'a [u8]) -> Row<'a> {
    Row {
        a,
        b: b"",
        shown,
        fault: None,
        line: 1,
    }
}

fn fault_of<'a>(a: &'a [u8], b: &'a [u8], fault: MacroFault, line: u32) -> Row<'a> {
    Row {
        a,
        b,
        shown: b"",
        fault: Some(fault),
        line,
    }
}

fn calls_of_each_shape(rt: &impl Abort, alloc: Global, env: &Env) -> Result<(), Fail> {
    let rows = [
        call_of(b"{}x", b""),
        call_of(b"#1#2{} a {bc}", b"a|bc|"),
        call_of(b"#1+{}{a}+", b"a|"),
        call_of(b"#1+{}{a}{b}+", b"{a}{b}|"),
        call_of(b"#1+{}{a+}b+", b"{a+}b|"),
        call_of(b"#1+{}+", b"|"),
        call_of(b"#1\\x {}ab\\x ", b"ab|"),
        call_of(b"#1 {}ab c", b"ab|"),
        call_of(b"a#1aab#2{}axaaaby", b"xa|y|"),
        call_of(b"#1\\par b{}x\\par b", b"x|"),
        call_of(b"#1#{}ab{", b"ab|"),
        call_of(b"#1#2#3#4#5#6#7#8#9{##9}123456789", b"1|2|3|4|5|6|7|8|9|"),
    ];
    check_all(rt, alloc, env, &rows)
}

fn faults_of_calls_and_definitions(rt: &impl Abort, alloc: Global, env: &Env) -> Result<(), Fail> {
    let ended = MacroFault::Mouth(MouthFault::FileEnded);
    let rows = [
        fault_of(b"+{}-", b"", MacroFault::UseMismatch, 1),
        fault_of(b"#1{}}", b"", MacroFault::UseMismatch, 1),
        fault_of(b"#1+{}a}+", b"", MacroFault::UseMismatch, 1),
        fault_of(b"#1{}\n\n", b"", MacroFault::ArgParagraph, 2),
        fault_of(b"#1{}{a\\par}", b"", MacroFault::ArgParagraph, 1),
        fault_of(b"#1\\par b{}x\\par \nc", b"", MacroFault::ArgParagraph, 2),
        fault_of(b"#2{}", b"", MacroFault::BadParameter, 1),
        fault_of(b"##{}", b"", MacroFault::BadParameter, 1),
        fault_of(b"#1{#2}", b"", MacroFault::BadParameter, 1),
        fault_of(b"}", b"", MacroFault::NoBrace, 1),
        fault_of(b"{\n%", b"", ended, 2),
        fault_of(b"#1{}\n", b"{x\n", ended, 1),
    ];
    check_all(rt, alloc, env, &rows)
}

fn check(rt: &impl Abort, alloc: Global, env: &Env) -> Result<(), Fail> {
    calls_of_each_shape(rt, alloc, env)?;
    faults_of_calls_and_definitions(rt, alloc, env)?;
    tokens_are_stored_as_they_are(rt, alloc, env)
}

#[test]
fn calls_and_definitions(rt: HostRuntime) -> Result<(), Fail> {
    let env = Env::new(rt.alloc())?;
    check(&rt, rt.alloc(), &env)
}
