//! Sources that are expanded, in memory.

ghost use Rattle.tok_lists.specs.StartNames.{start_names};
ghost use Rattle.expander.specs.Holding.{AreFit};

use crate::bench::{Ending, ending_of, held, prepared, text_of};
use env_groups::Env;
use expander::{Gullet, GulletFault};
use input_codings::Coding;
use std::alloc::Global;
use std::test::Fail;
use tok_lists::Tokens;
use ts_base::NoMemory;
use ts_outside::{FileName, Files};

/// Expands the source of a file that is held.
pub(crate) fn expand_file<F: Files>(
    alloc: Global,
    files: &mut F,
    env: &mut Env,
    budget: u32,
    tokens: &mut Tokens,
) -> Result<Ending, Fail>
    requires fit { AreFit start_names env.old }
{
    let name = FileName::new(alloc, b"a").or(Err("name"))?;
    let mut gullet = Gullet::start(alloc, files, &name, Coding::Euc, budget).or(Err("start"))?;
    let ending = ending_of(&mut gullet, files, env, tokens).or(Err("memory"))?;
    gullet.close_all(files);
    Ok(ending)
}

// Whether a source gives these tokens, and then this fault at this line.
fn is_expanded(alloc: Global, env: &mut Env, row: &Row) -> Result<bool, Fail>
    requires fit { AreFit start_names env.old }
{
    let mut files = held(alloc, row.source.as_bytes()).or(Err("memory"))?;
    let mut tokens = Tokens::new(alloc);
    let ending = expand_file(alloc, &mut files, env, row.budget, &mut tokens)?;
    let text = text_of(alloc, &tokens).or(Err("memory"))?;
    Ok(
        ending.fault == Some(row.fault)
            && ending.line == row.line
            && text.as_slice() == row.tokens.as_bytes(),
    )
}

struct Row {
    source: &'static str,
    budget: u32,
    // as `text_of` writes them
    tokens: &'static str,
    fault: GulletFault,
    line: u32,
}

const ROWS: &[Row] = &[
    Row {
        source: "\\iftrue a\\else b\\fi c\n",
        budget: 3,
        tokens: "ac ",
        fault: GulletFault::NoEnd,
        line: 1,
    },
    Row {
        source: "\n\\iffalse a\\iftrue\\else\\fi\\else b\\fi\n",
        budget: 1,
        tokens: "Nib",
        fault: GulletFault::Budget,
        line: 2,
    },
    Row {
        source: "\\string\\fi\\noexpand\\fi\\noexpand x\\q",
        budget: 3,
        tokens: "=\\=f=iK0x",
        fault: GulletFault::Undefined,
        line: 1,
    },
    Row {
        source: "\\expandafter x\\ifhmode y\\else z\\endinput\\fi\n\\q",
        budget: 9,
        tokens: "xz",
        fault: GulletFault::NoEnd,
        line: 1,
    },
    Row {
        source: "\\ifydir\\ifvmode\\ifinner\\else x\\fi\\fi\\fi\\else",
        budget: 9,
        tokens: "x",
        fault: GulletFault::ExtraCond,
        line: 1,
    },
    Row {
        source: "\\iffalse\\or\\fi",
        budget: 9,
        tokens: "",
        fault: GulletFault::ExtraCond,
        line: 1,
    },
    Row {
        source: "\\iftrue\\else x\n",
        budget: 9,
        tokens: "",
        fault: GulletFault::FileEnded,
        line: 1,
    },
];

const SCANS: &[Row] = &[
    Row {
        source: "\\kuten 1026 \\jis 1 q",
        budget: 2,
        tokens: "=4=2=1=4=6",
        fault: GulletFault::CodeRange,
        line: 1,
    },
    Row {
        source: "\\number-007 x\n",
        budget: 1,
        tokens: "=-=7x ",
        fault: GulletFault::NoEnd,
        line: 1,
    },
    Row {
        source: "\\romannumeral 14 \\romannumeral-1 y\n",
        budget: 2,
        tokens: "=x=i=vy ",
        fault: GulletFault::NoEnd,
        line: 1,
    },
    Row {
        source: "\\the\\count0 \\the\\dimen1 z\n",
        budget: 2,
        tokens: "=0=0=.=0=p=tz ",
        fault: GulletFault::NoEnd,
        line: 1,
    },
    Row {
        source: "\\number 1\\iftrue 2\\fi 3\n",
        budget: 3,
        tokens: "=1=2=3",
        fault: GulletFault::NoEnd,
        line: 1,
    },
    Row {
        source: "\\number`a\\fi",
        budget: 9,
        tokens: "",
        fault: GulletFault::ExtraCond,
        line: 1,
    },
    Row {
        source: "\nx\\number y",
        budget: 9,
        tokens: "Nix",
        fault: GulletFault::NoNumber,
        line: 2,
    },
    Row {
        source: "\\ifnum1<2y\\else n\\fi\\ifnum-1>0n\\fi\\ifnum 3 = 3 e\\fi%",
        budget: 5,
        tokens: "ye",
        fault: GulletFault::NoEnd,
        line: 1,
    },
    Row {
        source: "\\ifnum1=1\\fi x%",
        budget: 3,
        tokens: "Kfx",
        fault: GulletFault::NoEnd,
        line: 1,
    },
    Row {
        source: "\\ifnum2<1\\iftrue x\\else y\\fi\\else z\\fi\n\\ifnum1 x",
        budget: 4,
        tokens: "z",
        fault: GulletFault::NoNumber,
        line: 2,
    },
    Row {
        source: "\\ifdim1pt<1.5pt y\\fi\\ifdim\\dimen0>0sp z\\fi%",
        budget: 3,
        tokens: "y",
        fault: GulletFault::NoEnd,
        line: 1,
    },
    Row {
        source: "\\ifodd-3y\\else n\\fi\\ifodd0n\\else e\\fi%",
        budget: 4,
        tokens: "ye",
        fault: GulletFault::NoEnd,
        line: 1,
    },
    Row {
        source: "\\ifcase2a\\or b\\or c\\or d\\else e\\fi\\ifcase0a\\or b\\fi\\ifcase-1a\\or b\\else e\\fi\\ifcase9a\\or b\\fi z%",
        budget: 7,
        tokens: "caez",
        fault: GulletFault::NoEnd,
        line: 1,
    },
    Row {
        source: "\\ifhbox1h\\fi\\ifvbox2v\\fi\\ifvoid1n\\fi\\ifhbox2n\\fi\\ifvbox1n\\fi%",
        budget: 7,
        tokens: "hv",
        fault: GulletFault::NoEnd,
        line: 1,
    },
    Row {
        source: "\\ifvoid255 y\\fi\\ifhbox0n\\else e\\fi\\ifvbox 0n\\fi\n\\ifvoid256 ",
        budget: 6,
        tokens: "ye",
        fault: GulletFault::RegisterRange,
        line: 2,
    },
];

const NAMES: &[Row] = &[
    Row {
        source: "\\csname relax\\endcsname\\csname z z\\endcsname\\csname z z\\endcsname%",
        budget: 3,
        tokens: "NfNQNQ",
        fault: GulletFault::NoEnd,
        line: 1,
    },
    Row {
        source: "\\csname a\\relax\\endcsname",
        budget: 1,
        tokens: "",
        fault: GulletFault::CsnameEnd,
        line: 1,
    },
    Row {
        source: "\\if aay\\else n\\fi\\if abn\\fi\\ifcat aby\\fi\\ifcat a1n\\else e\\fi%",
        budget: 7,
        tokens: "yye",
        fault: GulletFault::NoEnd,
        line: 1,
    },
    Row {
        source: "\\if\\relax\\par y\\fi\\ifcat\\relax1n\\else e\\fi\\if\\noexpand\\q\\relax z\\fi%",
        budget: 7,
        tokens: "yez",
        fault: GulletFault::NoEnd,
        line: 1,
    },
    Row {
        source: "\\if\\noexpand~\\noexpand~y\\fi\\ifcat\\noexpand~\\relax n\\else e\\fi\\if\\noexpand~~",
        budget: 9,
        tokens: "ye",
        fault: GulletFault::Undefined,
        line: 1,
    },
    Row {
        source: "\\ifcat \u{1}\u{2}y\\fi\\ifcat \u{1}\u{3}n\\else e\\fi\\if \u{1}\u{2}n\\else e\\fi%",
        budget: 6,
        tokens: "yee",
        fault: GulletFault::NoEnd,
        line: 1,
    },
    Row {
        source: "\\if\\iftrue aay\\fi\\fi\\if\\iftrue abn\\else n\\fi n\\else e\\fi%",
        budget: 7,
        tokens: "ye",
        fault: GulletFault::NoEnd,
        line: 1,
    },
    Row {
        source: "x\\input b y%",
        budget: 1,
        tokens: "xb y",
        fault: GulletFault::NoEnd,
        line: 1,
    },
    Row {
        source: "\\input b\\input b ",
        budget: 2,
        tokens: "",
        fault: GulletFault::FileMissing,
        line: 1,
    },
    Row {
        source: "\n\\input c.x ",
        budget: 15,
        tokens: "Ni",
        fault: GulletFault::InputsFull,
        line: 1,
    },
];

// The number of the first row that comes to something else.
fn first_wrong(alloc: Global, rows: &[Row]) -> Result<Option<usize>, Fail> {
    for i in 0..rows.len() {
        let mut env = prepared(alloc).or(Err("memory"))?;
        if !is_expanded(alloc, &mut env, &rows[i])? {
            return Ok(Some(i));
        }
    }
    Ok(None)
}

#[test]
fn primitives_are_expanded(rt: HostRuntime) -> Result<(), Fail> {
    assert_eq!(rt; first_wrong(rt.alloc(), ROWS)?, None);
    Ok(())
}

#[test]
fn numbers_are_scanned_and_printed(rt: HostRuntime) -> Result<(), Fail> {
    assert_eq!(rt; first_wrong(rt.alloc(), SCANS)?, None);
    Ok(())
}

#[test]
fn names_are_made_compared_and_opened(rt: HostRuntime) -> Result<(), Fail> {
    assert_eq!(rt; first_wrong(rt.alloc(), NAMES)?, None);
    Ok(())
}

// A source that opens a file with a name of so many letters.
fn long_input(alloc: Global, count: u32) -> Result<Vec<u8>, NoMemory> {
    let mut text = b"\\input ".to_vec(alloc)?;
    for _ in 0..count {
        text.push(b'x')?;
    }
    text.push(b'\n')?;
    Ok(text)
}

fn fault_of_name(alloc: Global, env: &mut Env, count: u32) -> Result<Option<GulletFault>, Fail>
    requires fit { AreFit start_names env.old }
{
    let source = long_input(alloc, count).or(Err("memory"))?;
    let mut files = held(alloc, &source).or(Err("memory"))?;
    let mut tokens = Tokens::new(alloc);
    let ending = expand_file(alloc, &mut files, env, 1, &mut tokens)?;
    Ok(ending.fault)
}

fn long_name_fault(alloc: Global, count: u32) -> Result<Option<GulletFault>, Fail> {
    let mut env = prepared(alloc).or(Err("memory"))?;
    fault_of_name(alloc, &mut env, count)
}

#[test]
fn a_name_and_its_ending_have_255_bytes(rt: HostRuntime) -> Result<(), Fail> {
    assert_eq!(rt;
        long_name_fault(rt.alloc(), 251)?,
        Some(GulletFault::FileMissing)
    );
    assert_eq!(rt;
        long_name_fault(rt.alloc(), 252)?,
        Some(GulletFault::NoName)
    );
    Ok(())
}
