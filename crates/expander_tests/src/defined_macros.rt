//! Macros that are defined and called, in memory.

ghost use Rattle.std.specs.Prelude.{◌≡◌, OnOk, List};
ghost use Rattle.tok_lists.specs.declared.spelling.Spelling.{Spelling};
ghost use Rattle.tok_lists.specs.StartNames.{start_names};
ghost use Rattle.env_groups.specs.Macros.{IsMacro};
ghost use Rattle.mouth.specs.Keeping.{AreOpen, IsReadable};
ghost use Rattle.macros.specs.Definitions.{IsDefined};
ghost use Rattle.expander.specs.Holding.{AreFit};

use crate::bench::{Ending, ending_of, held, prepared, text_of};
use env_groups::{Env, MacroDef, Meaning};
use expander::{Gullet, GulletFault, environments_stay_fit};
use input_codings::Coding;
use std::alloc::Global;
use std::test::Fail;
use tok_lists::{NameNo, Token, Tokens};
use ts_base::NoMemory;
use ts_outside::{FileName, Files};

// What is read first after the macros, and shown with a bar after each list.
#[derive(Clone, Copy)]
enum First {
    Nothing,
    // A definition that is expanded: its parameter text and its body.
    Expanded,
    // A token list in braces.
    Balanced,
}

// A source that begins with so many macros, each a name and its definition.
struct Row {
    source: &'static str,
    macros: u8,
    first: First,
    budget: u32,
    // as `text_of` writes them
    tokens: &'static str,
    fault: GulletFault,
    line: u32,
}

fn set_macro(env: &mut Env, name: NameNo, definition: MacroDef) -> Result<(), GulletFault>
    requires sound { IsMacro definition }
    ensures fit { (names : List Spelling) → IsDefined names definition → AreFit names env.old
        → AreFit names env.new }
{
    environments_stay_fit();
    match env.set_meaning(name, Meaning::Macro(definition), false) {
        Ok(()) => Ok(()),
        Err(_) => Err(GulletFault::NoMemory),
    }
}

fn define<F: Files>(gullet: &mut Gullet, files: &mut F, env: &mut Env) -> Result<(), GulletFault>
    requires opened { AreOpen gullet.old (F.state files.old) }
    requires readable { IsReadable gullet.old }
    requires fit { AreFit gullet.old.names env.old }
    ensures opened { AreOpen gullet.new (F.state files.new) }
    ensures readable { OnOk result (IsReadable gullet.new) }
    ensures fit { AreFit gullet.new.names env.new }
{
    let Token::Name(name) = gullet.raw(files, env)? else {
        return Err(GulletFault::NoName);
    };
    let definition = gullet.definition(files, env, false)?;
    set_macro(env, name, definition)
}

fn define_all<F: Files>(
    gullet: &mut Gullet,
    files: &mut F,
    env: &mut Env,
    count: u8,
) -> Result<(), GulletFault>
    requires opened { AreOpen gullet.old (F.state files.old) }
    requires readable { IsReadable gullet.old }
    requires fit { AreFit gullet.old.names env.old }
    ensures opened { AreOpen gullet.new (F.state files.new) }
    ensures readable { OnOk result (IsReadable gullet.new) }
    ensures fit { AreFit gullet.new.names env.new }
{
    for _ in 0..count {
        define(gullet, files, env)?;
    }
    Ok(())
}

// Appends the tokens of a list, and a bar.
fn append(tokens: &mut Tokens, list: &[Token]) -> Result<(), GulletFault> {
    for token in list {
        tokens.push(*token).or(Err(GulletFault::NoMemory))?;
    }
    tokens
        .push(Token::Char(b'|', 0))
        .or(Err(GulletFault::NoMemory))
}

fn read_first<F: Files>(
    gullet: &mut Gullet,
    files: &mut F,
    env: &mut Env,
    first: First,
    tokens: &mut Tokens,
) -> Result<(), GulletFault>
    requires opened { AreOpen gullet.old (F.state files.old) }
    requires readable { IsReadable gullet.old }
    requires fit { AreFit gullet.old.names env.old }
    ensures opened { AreOpen gullet.new (F.state files.new) }
    ensures readable { OnOk result (IsReadable gullet.new) }
    ensures fit { AreFit gullet.new.names env.new }
{
    match first {
        First::Nothing => Ok(()),
        First::Expanded => {
            let definition = gullet.definition(files, env, true)?;
            append(tokens, definition.params.as_slice())?;
            append(tokens, definition.body.as_slice())
        }
        First::Balanced => {
            let list = gullet.balanced(files, env)?;
            append(tokens, list.as_slice())
        }
    }
}

fn begin_row<F: Files>(
    gullet: &mut Gullet,
    files: &mut F,
    env: &mut Env,
    row: &Row,
    tokens: &mut Tokens,
) -> Result<(), GulletFault>
    requires opened { AreOpen gullet.old (F.state files.old) }
    requires readable { IsReadable gullet.old }
    requires fit { AreFit gullet.old.names env.old }
    ensures opened { AreOpen gullet.new (F.state files.new) }
    ensures readable { OnOk result (IsReadable gullet.new) }
    ensures fit { AreFit gullet.new.names env.new }
{
    define_all(gullet, files, env, row.macros)?;
    read_first(gullet, files, env, row.first, tokens)
}

fn row_ending<F: Files>(
    gullet: &mut Gullet,
    files: &mut F,
    env: &mut Env,
    row: &Row,
    tokens: &mut Tokens,
) -> Result<Ending, NoMemory>
    requires opened { AreOpen gullet.old (F.state files.old) }
    requires readable { IsReadable gullet.old }
    requires fit { AreFit gullet.old.names env.old }
    ensures opened { AreOpen gullet.new (F.state files.new) }
{
    if let Err(fault) = begin_row(gullet, files, env, row, tokens) {
        return Ok(Ending {
            fault: Some(fault),
            line: gullet.place()?.line,
        });
    }
    ending_of(gullet, files, env, tokens)
}

fn run_row<F: Files>(
    alloc: Global,
    files: &mut F,
    env: &mut Env,
    row: &Row,
    tokens: &mut Tokens,
) -> Result<Ending, Fail>
    requires fit { AreFit start_names env.old }
{
    let name = FileName::new(alloc, b"a").or(Err("name"))?;
    let mut gullet = Gullet::start(alloc, files, &name, Coding::Euc, row.budget).or(Err("start"))?;
    let ending = row_ending(&mut gullet, files, env, row, tokens).or(Err("memory"))?;
    gullet.close_all(files);
    Ok(ending)
}

fn is_row(alloc: Global, env: &mut Env, row: &Row) -> Result<bool, Fail>
    requires fit { AreFit start_names env.old }
{
    let mut files = held(alloc, row.source.as_bytes()).or(Err("memory"))?;
    let mut tokens = Tokens::new(alloc);
    let ending = run_row(alloc, &mut files, env, row, &mut tokens)?;
    let text = text_of(alloc, &tokens).or(Err("memory"))?;
    Ok(
        ending.fault == Some(row.fault)
            && ending.line == row.line
            && text.as_slice() == row.tokens.as_bytes(),
    )
}

const ROWS: &[Row] = &[
    Row {
        source: "\\a#1{#1#1}\\a{xy}\n",
        macros: 1,
        first: First::Nothing,
        budget: 1,
        tokens: "xyxy ",
        fault: GulletFault::NoEnd,
        line: 1,
    },
    Row {
        source: "\\a#1{#1#1}\\a{xy}\n",
        macros: 1,
        first: First::Nothing,
        budget: 0,
        tokens: "",
        fault: GulletFault::Budget,
        line: 1,
    },
    Row {
        source: "\\a{\\a}\\a",
        macros: 1,
        first: First::Nothing,
        budget: 100,
        tokens: "",
        fault: GulletFault::Budget,
        line: 1,
    },
    Row {
        source: "\\a#1{[#1]}\\b#1{<#1>}\\c{xy}\\expandafter\\expandafter\\expandafter\
            \\a\\expandafter\\b\\c%",
        macros: 3,
        first: First::Nothing,
        budget: 7,
        tokens: "=[=<=]x=>y",
        fault: GulletFault::NoEnd,
        line: 1,
    },
    Row {
        source: "\\a{x}\\b{x}\\ifx\\a\\b y\\else n\\fi\\ifx\\a\\par y\\else n\\fi\
            \\ifx xyY\\else N\\fi%",
        macros: 2,
        first: First::Nothing,
        budget: 6,
        tokens: "ynN",
        fault: GulletFault::NoEnd,
        line: 1,
    },
    Row {
        source: "\\a{\\b}\\b{}\\ifx\\a\\c y\\else n\\fi\\ifx\\c\\d y\\fi\\a\\q",
        macros: 2,
        first: First::Nothing,
        budget: 9,
        tokens: "ny",
        fault: GulletFault::Undefined,
        line: 1,
    },
    Row {
        source: "\\a#1{#1}#1\\b{\\a{y}\\noexpand\\a##\\iftrue z\\else w\\fi\\string\\a#1}%",
        macros: 1,
        first: First::Expanded,
        budget: 5,
        tokens: "#1NR|yNQ#z=\\=a#1|",
        fault: GulletFault::NoEnd,
        line: 1,
    },
    Row {
        source: "#1{#\\iftrue1\\fi{#1}}x%",
        macros: 0,
        first: First::Expanded,
        budget: 2,
        tokens: "#1|#1{#1}|x",
        fault: GulletFault::NoEnd,
        line: 1,
    },
    Row {
        source: "{x\n%",
        macros: 0,
        first: First::Expanded,
        budget: 0,
        tokens: "",
        fault: GulletFault::FileEnded,
        line: 2,
    },
    Row {
        source: "#1{\n#\\relax}",
        macros: 0,
        first: First::Expanded,
        budget: 0,
        tokens: "",
        fault: GulletFault::BadParameter,
        line: 2,
    },
    Row {
        source: "\\a{\\q}{\\a}",
        macros: 1,
        first: First::Expanded,
        budget: 1,
        tokens: "",
        fault: GulletFault::Undefined,
        line: 1,
    },
    Row {
        source: "{\\the\\toks0 }%",
        macros: 0,
        first: First::Expanded,
        budget: 1,
        tokens: "|#|",
        fault: GulletFault::NoEnd,
        line: 1,
    },
    Row {
        source: "#1{#\\the\\linepenalty}%",
        macros: 0,
        first: First::Expanded,
        budget: 1,
        tokens: "#1|#1=0|",
        fault: GulletFault::NoEnd,
        line: 1,
    },
    Row {
        source: "{\\the\\count0}",
        macros: 0,
        first: First::Expanded,
        budget: 0,
        tokens: "",
        fault: GulletFault::Budget,
        line: 1,
    },
    Row {
        source: "{\\input b }",
        macros: 0,
        first: First::Expanded,
        budget: 1,
        tokens: "",
        fault: GulletFault::FileEnded,
        line: 1,
    },
    Row {
        source: "\\a{\\csname\\a}\\a",
        macros: 1,
        first: First::Nothing,
        budget: 999,
        tokens: "",
        fault: GulletFault::DepthFull,
        line: 1,
    },
    Row {
        source: " \\relax{a{\\q}}b%",
        macros: 0,
        first: First::Balanced,
        budget: 0,
        tokens: "a{NQ}|b",
        fault: GulletFault::NoEnd,
        line: 1,
    },
    Row {
        source: " \\relax\n x",
        macros: 0,
        first: First::Balanced,
        budget: 0,
        tokens: "",
        fault: GulletFault::NoBrace,
        line: 2,
    },
];

// The number of the first row that comes to something else.
fn first_wrong(alloc: Global, rows: &[Row]) -> Result<Option<usize>, Fail> {
    for i in 0..rows.len() {
        let mut env = prepared(alloc).or(Err("memory"))?;
        if !is_row(alloc, &mut env, &rows[i])? {
            return Ok(Some(i));
        }
    }
    Ok(None)
}

#[test]
fn macros_are_defined_and_called(rt: HostRuntime) -> Result<(), Fail> {
    assert_eq!(rt; first_wrong(rt.alloc(), ROWS)?, None);
    Ok(())
}
