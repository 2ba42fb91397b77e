//! Texts of a file in memory.

ghost use Rattle.mouth.specs.Keeping.{AreOpen, IsReadable};

use env_groups::{Env, Meaning};
use input_codings::Coding;
use mouth::{Mouth, MouthFault};
use raw_texts::{
    Ended, MacroFault, Past, Until, mean_the_same, read_braced, read_name, read_past, skip_text,
};
use std::alloc::Global;
use std::process::Abort;
use std::test::Fail;
use tok_lists::{NameNo, Token};
use ts_base::{List, NoMemory};
use ts_outside::{FileName, Files, MemFile, MemFiles};

// What is read.
#[derive(Clone, Copy)]
enum Job {
    Skip(Until),
    Braced,
    Past(Past),
    Name,
}

#[derive(Clone, Copy)]
struct Row<'a> {
    text: &'a [u8],
    job: Job,
    shown: &'a [u8],
    fault: Option<MacroFault>,
    line: u32,
}

// The codes of characters, and a backslash for a name.
fn shown(alloc: Global, tokens: &[Token]) -> Result<List<u8>, NoMemory> {
    let mut codes = List::new(alloc);
    for token in tokens {
        let code = match token {
            Token::Char(code, _) => *code,
            _ => b'\\',
        };
        codes.push(code)?;
    }
    Ok(codes)
}

fn word_of(ended: Ended) -> &'static [u8] {
    match ended {
        Ended::Or => b"or",
        Ended::Else => b"else",
        Ended::Fi => b"fi",
    }
}

fn found<F: Files>(
    alloc: Global,
    mouth: &mut Mouth,
    files: &mut F,
    env: &Env,
    job: Job,
) -> Result<List<u8>, MacroFault>
    requires opened { AreOpen mouth.old (F.state files.old) }
    requires readable { IsReadable mouth.old }
    ensures { AreOpen mouth.new (F.state files.new) }
{
    match job {
        Job::Skip(until) => {
            let ended = skip_text(mouth, files, env, until)?;
            Ok(List::from_slice(alloc, word_of(ended))?)
        }
        Job::Braced => {
            let list = read_braced(alloc, mouth, files, env)?;
            Ok(shown(alloc, list.as_slice())?)
        }
        Job::Past(past) => {
            let token = read_past(mouth, files, env, past)?;
            Ok(shown(alloc, &[token])?)
        }
        Job::Name => {
            let name = read_name(mouth, files, env)?;
            Ok(shown(alloc, &[Token::Name(name)])?)
        }
    }
}

// What is found in a file of this text, and the line of the place after it.
fn outcome_of(
    alloc: Global,
    text: &[u8],
    env: &Env,
    job: Job,
) -> Result<(Result<List<u8>, MacroFault>, u32), Fail> {
    let file = MemFile {
        name: FileName::new(alloc, b"a")?,
        bytes: text.to_vec(alloc)?,
    };
    let held = vec![in alloc; file]?;
    let cuts = vec![in alloc; 3usize]?;
    let mut files = MemFiles::new(alloc, held, cuts, Vec::new(alloc));
    let name = FileName::new(alloc, b"a")?;
    let mut mouth = Mouth::start(alloc, &mut files, &name, Coding::Euc, 0)?;
    let answer = found(alloc, &mut mouth, &mut files, env, job);
    let place = mouth.place();
    mouth.close_all(&mut files);
    Ok((answer, place.line))
}

fn check_all(rt: &impl Abort, alloc: Global, env: &Env, rows: &[Row]) -> Result<(), Fail> {
    for row in rows {
        let (answer, line) = outcome_of(alloc, row.text, env, row.job)?;
        match answer {
            Ok(codes) => {
                assert_eq!(rt; codes.as_slice(), row.shown);
                assert_eq!(rt; row.fault, None);
            }
            Err(fault) => assert_eq!(rt; row.fault, Some(fault)),
        }
        assert_eq!(rt; line, row.line);
    }
    Ok(())
}

fn row_of<'a>(
    text: &'a [u8],
    job: Job,
    shown: &'a [u8],
    fault: Option<MacroFault>,
    line: u32,
) -> Row<'a> {
    Row {
        text,
        job,
        shown,
        fault,
        line,
    }
}

fn texts_end_where_they_should(rt: &impl Abort, alloc: Global, env: &Env) -> Result<(), Fail> {
    let ended = Some(MacroFault::Mouth(MouthFault::FileEnded));
    let skip = Job::Skip(Until::Else);
    let extra = Some(MacroFault::ExtraCond);
    let rows = [
        row_of(b"\\iftrue\\else\\or\\fi a\n\\else", skip, b"else", None, 2),
        row_of(b"x\\or", skip, b"", extra, 1),
        row_of(b"a\n%", skip, b"", ended, 2),
        row_of(
            b"\\or\\else\\ifx\\fi\\fi",
            Job::Skip(Until::Fi),
            b"fi",
            None,
            1,
        ),
        row_of(
            b"\\ifcase\\or\\fi\\or",
            Job::Skip(Until::Or),
            b"or",
            None,
            1,
        ),
        row_of(b"  \\relax{a{b}}c", Job::Braced, b"a{b}", None, 1),
        row_of(b"\\b a\\b}", Job::Braced, b"a\\", None, 1),
        row_of(b"%\n a", Job::Braced, b"", Some(MacroFault::NoBrace), 2),
        row_of(b"{a\nb", Job::Braced, b"", ended, 2),
        row_of(b"  \\relax", Job::Past(Past::Spaces), b"\\", None, 1),
        row_of(b" \\par", Job::Name, b"\\", None, 1),
        row_of(b" 1", Job::Name, b"", Some(MacroFault::NoName), 1),
    ];
    check_all(rt, alloc, env, &rows)
}

fn meanings_are_compared(rt: &impl Abort, env: &Env) {
    let brace = Token::Char(b'{', 1);
    let name = |number: u32| Token::Name(NameNo(number));
    assert!(rt; mean_the_same(&name(138), &brace, env));
    assert!(rt; mean_the_same(&name(139), &name(140), env));
    assert!(rt; !mean_the_same(&name(69), &name(72), env));
    assert!(rt; !mean_the_same(&brace, &Token::Char(b'{', 12), env));
}

// The first name that comes means `{`.
fn check(rt: &impl Abort, alloc: Global, env: &mut Env) -> Result<(), Fail> {
    env.set_meaning(NameNo(138), Meaning::Letter(Token::Char(b'{', 1)), false)?;
    meanings_are_compared(rt, env);
    texts_end_where_they_should(rt, alloc, env)
}

#[test]
fn texts_and_meanings(rt: HostRuntime) -> Result<(), Fail> {
    let mut env = Env::new(rt.alloc())?;
    check(&rt, rt.alloc(), &mut env)
}
