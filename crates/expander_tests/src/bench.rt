//! What runs a source in memory.

ghost use Rattle.std.specs.Prelude.{IfOk};
ghost use Rattle.tok_lists.specs.StartNames.{start_names};
ghost use Rattle.mouth.specs.Keeping.{AreOpen, IsReadable};
ghost use Rattle.expander.specs.Holding.{AreFit};

use box_tree::{BoxKind, BoxNode, Items, SetGlue, SharedBox};
use env_groups::{Env, ToksKey};
use expander::{Gullet, GulletFault, environments_stay_fit};
use std::alloc::Global;
use std::test::Fail;
use tok_lists::{SharedTokens, Token, Tokens};
use ts_base::NoMemory;
use ts_geometry::{Dir, Measures, Sp};
use ts_outside::{FileName, Files, MemFile, MemFiles};

// Gives the tokens up to the first fault, at most so many.
fn expand_all<F: Files>(
    gullet: &mut Gullet,
    files: &mut F,
    env: &mut Env,
    tokens: &mut Tokens,
) -> Result<(), GulletFault>
    requires opened { AreOpen gullet.old (F.state files.old) }
    requires readable { IsReadable gullet.old }
    requires fit { AreFit gullet.old.names env.old }
    ensures opened { AreOpen gullet.new (F.state files.new) }
{
    for _ in 0..20 {
        let token = gullet.next(files, env)?;
        if tokens.push(token).is_err() {
            return Err(GulletFault::NoMemory);
        }
    }
    Ok(())
}

// The line up to which a source was read, and why it went no further.
#[derive(Drop)]
pub(crate) struct Ending {
    pub(crate) fault: Option<GulletFault>,
    pub(crate) line: u32,
}

// Expands a source whose file is open, and closes it.
pub(crate) fn ending_of<F: Files>(
    gullet: &mut Gullet,
    files: &mut F,
    env: &mut Env,
    tokens: &mut Tokens,
) -> Result<Ending, NoMemory>
    requires opened { AreOpen gullet.old (F.state files.old) }
    requires readable { IsReadable gullet.old }
    requires fit { AreFit gullet.old.names env.old }
    ensures opened { AreOpen gullet.new (F.state files.new) }
{
    let fault = expand_all(gullet, files, env, tokens).err();
    let line = gullet.place()?.line;
    Ok(Ending { fault, line })
}

/// Returns tokens as a text: letters alone, other characters after `=`, names and kept names as
/// the character of 33 and their number modulo 90 after `N` and `K`, parameters after `#`.
pub(crate) fn text_of(alloc: Global, tokens: &Tokens) -> Result<Vec<u8>, NoMemory> {
    let mut text = Vec::new(alloc);
    for token in tokens.as_slice() {
        let (mark, code) = match token {
            Token::Char(code, 12) => (b'=', *code),
            Token::Char(code, _) => (0, *code),
            Token::Name(name) => (b'N', 33 + (name.0 % 90) as u8),
            Token::Kept(name) => (b'K', 33 + (name.0 % 90) as u8),
            Token::Param(number) => (b'#', b'0'.saturating_add(*number)),
            Token::Ja(_) => (0, b'?'),
        };
        if mark != 0 {
            text.push(mark)?;
        }
        text.push(code)?;
    }
    Ok(text)
}

fn file(alloc: Global, name: &[u8], bytes: &[u8]) -> Result<MemFile, NoMemory> {
    Ok(MemFile {
        name: FileName::new(alloc, name).or(Err(NoMemory))?,
        bytes: bytes.to_vec(alloc)?,
    })
}

// The bytes of a source, in which the characters 1, 2 and 3 stand for the EUC codes of a kana of
// each kind and of a kanji.
fn source_bytes(alloc: Global, source: &[u8]) -> Result<Vec<u8>, NoMemory> {
    let mut bytes = Vec::new(alloc);
    for byte in source {
        match byte {
            1 => bytes.extend_from_slice(&[0xA4, 0xA2])?,
            2 => bytes.extend_from_slice(&[0xA5, 0xA2])?,
            3 => bytes.extend_from_slice(&[0xB0, 0xA1])?,
            _ => bytes.push(*byte)?,
        }
    }
    Ok(bytes)
}

/// Returns files whose reads are cut to one byte.
pub(crate) fn held(alloc: Global, source: &[u8]) -> Result<MemFiles, NoMemory> {
    held_in(alloc, source, vec![in alloc; 1]?)
}

/// Returns files of which `a` is a source, `b.tex` the letter b, and `c.x` one that opens itself.
pub(crate) fn held_in(
    alloc: Global,
    source: &[u8],
    cuts: Vec<usize>,
) -> Result<MemFiles, NoMemory> {
    let files = vec![in alloc;
        file(alloc, b"a", &source_bytes(alloc, source)?)?,
        file(alloc, b"b.tex", b"b\n")?,
        file(alloc, b"c.x", b"\\input c.x \n")?,
    ]?;
    Ok(MemFiles::new(alloc, files, cuts, Vec::new(alloc)))
}

fn empty_box(alloc: Global, kind: BoxKind) -> Result<SharedBox, NoMemory> {
    let node = BoxNode {
        kind,
        dir: Dir::Yoko,
        size: Measures {
            wd: Sp(0),
            ht: Sp(0),
            dp: Sp(0),
        },
        set: SetGlue::Plain,
        items: Items::new(alloc),
    };
    SharedBox::new(alloc, node).or(Err(NoMemory))
}

fn set_box(env: &mut Env, n: u32, held: SharedBox) -> Result<(), NoMemory>
    requires fit { AreFit start_names env.old }
    ensures fit { AreFit start_names env.new }
{
    environments_stay_fit();
    env.set_box(n, Some(held), false).or(Err(NoMemory))
}

// Sets a token register to a `#`.
fn set_toks(alloc: Global, env: &mut Env) -> Result<(), NoMemory>
    requires fit { AreFit start_names env.old }
    ensures fit { AreFit start_names env.new }
{
    environments_stay_fit();
    let list = SharedTokens::new(alloc, &[Token::Char(b'#', 6)])?;
    match env.set_toks(ToksKey::Register(0), list, false) {
        Ok(()) => Ok(()),
        Err(_) => Err(NoMemory),
    }
}

/// Returns an environment in which token register 0 has a `#`, and box registers 1 and 2 a
/// horizontal and a vertical box.
pub(crate) fn prepared(alloc: Global) -> Result<Env, NoMemory>
    ensures { IfOk result (AreFit start_names) }
{
    environments_stay_fit();
    let mut env = Env::new(alloc)?;
    set_toks(alloc, &mut env)?;
    set_box(&mut env, 1, empty_box(alloc, BoxKind::Horizontal)?)?;
    set_box(&mut env, 2, empty_box(alloc, BoxKind::Vertical)?)?;
    Ok(env)
}
