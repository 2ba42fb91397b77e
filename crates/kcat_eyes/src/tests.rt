//! Lines with the codes that hold at the start.

ghost use Rattle.std.specs.Prelude.{◌≡◌, true, false, IfOk};
ghost use Rattle.kcat_eyes.specs.StartCodes.{start_cat, start_kcat};
ghost use Rattle.std.proofs.Common.{lit≤};
ghost use Rattle.kcat_eyes.specs.StartBounds.{start_bounds};

use crate::find::{Find, in_line};
use crate::state::State;
use crate::{EyeFault, Eyes, Seen};
use input_codings::Coding;
use jis_codes::{Cell, Char};
use std::alloc::Global;
use std::test::Fail;
use tok_lists::{CodeTable, NameNo, Names, Token, Tokens};
use ts_outside::{FileName, Files, MemFile, MemFiles};

struct Start;

impl CodeTable for Start {
    ghost codes = { λ _. record { cat = start_cat; kcat = start_kcat } };

    ghost bounds = { λ _. start_bounds };

    fn cat(&self, code: u8) -> u8 {
        match code {
            b'\\' => 0,
            b'{' => 1,
            b'}' => 2,
            b'\r' => 5,
            0 => 9,
            b' ' => 10,
            b'a'..=b'z' => 11,
            b'~' => 13,
            b'%' => 14,
            127 => 15,
            _ => 12,
        }
    }

    fn kcat(&self, cell: Cell) -> u8 {
        match cell.row() {
            3..=6 => 17,
            16..=84 => 16,
            _ => 18,
        }
    }
}

#[test]
fn lines(rt: HostRuntime) -> Result<(), Fail> {
    let kana = Char::Ja(Cell::new(4, 2).ok_or("no cell")?);
    let kanji = Char::Ja(Cell::new(20, 33).ok_or("no cell")?);
    let space = Token::Char(b' ', 10);
    let table: [(State, &[Char], Find); 12] = [
        (
            State::NewLine,
            &[Char::One(b' '), Char::One(b'\r')],
            Find::Paragraph,
        ),
        (
            State::MidLine,
            &[Char::One(b'\r')],
            Find::Token(space, State::NewLine, 1),
        ),
        (State::Kanji, &[Char::One(b'\r')], Find::Nothing),
        (
            State::Kanji,
            &[Char::One(b' '), kana],
            Find::Token(space, State::SkipBlanks, 1),
        ),
        (
            State::Kanji,
            &[Char::One(b'{')],
            Find::Token(Token::Char(b'{', 1), State::Kanji, 1),
        ),
        (
            State::SkipBlanks,
            &[Char::One(b' '), Char::One(b'b')],
            Find::Token(Token::Char(b'b', 11), State::MidLine, 2),
        ),
        (
            State::NewLine,
            &[Char::One(b'\\'), kanji, Char::One(b'a'), Char::One(b' ')],
            Find::Name(false, 1, 3, State::SkipBlanks),
        ),
        (
            State::MidLine,
            &[Char::One(b'\\'), Char::One(b' '), Char::One(b' ')],
            Find::Name(false, 1, 2, State::SkipBlanks),
        ),
        (
            State::MidLine,
            &[Char::One(b'~')],
            Find::Name(true, 0, 1, State::MidLine),
        ),
        (State::MidLine, &[Char::One(b'%'), kana], Find::Nothing),
        (State::MidLine, &[Char::One(127)], Find::Invalid),
        (
            State::Kanji,
            &[Char::One(b'\\')],
            Find::Name(false, 1, 1, State::MidLine),
        ),
    ];
    for (state, line, find) in table {
        assert_eq!(rt; in_line(&Start, state, line, 0), find);
    }
    Ok(())
}

// A file of these bytes in EUC, with reads cut to one byte, and the eyes on it.
fn opened(alloc: Global, bytes: &[u8]) -> Result<(MemFiles, Eyes), Fail>
    ensures open { IfOk result (λ o. (⟦<MemFiles as Files>⟧.state o.0).is_open o.1.lines.file ≡ true) }
    ensures unfailed { IfOk result (λ o. o.1.lines.failed ≡ false) }
{
    let name = FileName::new(alloc, b"a.tex")?;
    let file = MemFile {
        name: FileName::new(alloc, b"a.tex")?,
        bytes: bytes.to_vec(alloc)?,
    };
    let held = vec![in alloc; file]?;
    let mut files = MemFiles::new(alloc, held, vec![in alloc; 1usize]?, Vec::new(alloc));
    let eyes = Eyes::open(alloc, &mut files, &name, Coding::Euc)?;
    Ok((files, eyes))
}

// The tokens that are left up to the end, with the start names and the codes of the start.
fn tokens_left<F: Files>(alloc: Global, mut eyes: Eyes, files: &mut F) -> Result<Tokens, Fail>
    requires open { (F.state files.old).is_open eyes.lines.file ≡ true }
    requires unfailed { eyes.lines.failed ≡ false }
{
    let mut names = Names::new(alloc)?;
    let mut tokens = Tokens::new(alloc);
    for _ in 0..u64::MAX {
        match eyes.next(files, &Start, &mut names)? {
            Seen::Token(token) => tokens.push(token).map_err(|_| "no memory")?,
            Seen::End => break,
        }
    }
    eyes.close(files);
    Ok(tokens)
}

fn tokens_in(alloc: Global, bytes: &[u8]) -> Result<Tokens, Fail> {
    let (mut files, eyes) = opened(alloc, bytes)?;
    tokens_left(alloc, eyes, &mut files)
}

#[test]
fn tokens_of_lines(rt: HostRuntime) -> Result<(), Fail> {
    let kana_a = Token::Ja(Cell::new(4, 2).ok_or("no cell")?);
    let kana_i = Token::Ja(Cell::new(4, 4).ok_or("no cell")?);
    let space = Token::Char(b' ', 10);
    let letter = Token::Char(b'b', 11);
    let left = Token::Char(b'{', 1);
    let right = Token::Char(b'}', 2);
    let par = Token::Name(NameNo(72));
    let blank = Token::Name(NameNo(76));
    let name = Token::Name(NameNo(138));
    let other = Token::Name(NameNo(139));
    let table: [(&[u8], &[Token]); 8] = [
        (b"\\\xB4\xC1a \xA4\xA2", &[name, kana_a]),
        (b"\xA4\xA2 b", &[kana_a, space, letter, space]),
        (b"\xA4\xA2{}\xA4\xA4", &[kana_a, left, right, kana_i]),
        (b"b%b\n \n", &[letter, par]),
        (b"  \\a  b", &[name, letter, space]),
        (b"b\\\n", &[letter, name]),
        (b"~\\~\\  b", &[name, other, blank, letter, space]),
        (b"b\0b", &[letter, letter, space]),
    ];
    for (bytes, tokens) in table {
        assert_eq!(rt; tokens_in(rt.alloc(), bytes)?.as_slice(), tokens);
    }
    Ok(())
}

// A table in which every character is another one.
struct Plain;

impl CodeTable for Plain {
    ghost codes = { λ _. record { cat = λ _. 12; kcat = λ _. 18 } };

    ghost bounds = { λ _. (λ _. lit≤ tt, λ _. (lit≤ tt, lit≤ tt)) };

    fn cat(&self, _code: u8) -> u8 {
        12
    }

    fn kcat(&self, _cell: Cell) -> u8 {
        18
    }
}

// What is seen with two tables of codes, one after the other, and the number of the line.
fn seen_by_two(alloc: Global) -> Result<(Seen, Seen, u32), Fail> {
    let (mut files, mut eyes) = opened(alloc, b"~~")?;
    let mut names = Names::new(alloc)?;
    let first = eyes.next(&mut files, &Start, &mut names)?;
    let second = eyes.next(&mut files, &Plain, &mut names)?;
    Ok((first, second, eyes.line_no()))
}

// What is seen where the second line has an invalid character, and the number of that line.
fn seen_in_the_second_line(alloc: Global) -> Result<(Result<Seen, EyeFault>, u32), Fail> {
    let (mut files, mut eyes) = opened(alloc, b"%\n\x7F")?;
    let mut names = Names::new(alloc)?;
    let seen = eyes.next(&mut files, &Start, &mut names);
    Ok((seen, eyes.line_no()))
}

#[test]
fn changed_codes_and_faults(rt: HostRuntime) -> Result<(), Fail> {
    let name = Seen::Token(Token::Name(NameNo(138)));
    let other = Seen::Token(Token::Char(b'~', 12));
    assert_eq!(rt; seen_by_two(rt.alloc())?, (name, other, 1));
    assert_eq!(rt;
        seen_in_the_second_line(rt.alloc())?,
        (Err(EyeFault::BadChar), 2)
    );
    Ok(())
}

// The tokens of a file that is ended before its first line was taken.
fn ended_early(alloc: Global) -> Result<Tokens, Fail> {
    let (mut files, mut eyes) = opened(alloc, b"b b\nc")?;
    eyes.end_after_line();
    tokens_left(alloc, eyes, &mut files)
}

// What is left of a file that is ended in mid-line.
fn ended_in_mid_line(alloc: Global) -> Result<Tokens, Fail> {
    let (mut files, mut eyes) = opened(alloc, b"b b\nc")?;
    let mut names = Names::new(alloc)?;
    eyes.next(&mut files, &Start, &mut names)?;
    eyes.end_after_line();
    tokens_left(alloc, eyes, &mut files)
}

#[test]
fn a_file_ends_after_its_line(rt: HostRuntime) -> Result<(), Fail> {
    let tokens = [
        Token::Char(b'b', 11),
        Token::Char(b' ', 10),
        Token::Char(b'b', 11),
        Token::Char(b' ', 10),
    ];
    let whole = tokens.as_slice();
    let after = &whole[1..];
    let early = ended_early(rt.alloc())?;
    assert_eq!(rt; early.as_slice(), whole);
    let late = ended_in_mid_line(rt.alloc())?;
    assert_eq!(rt; late.as_slice(), after);
    Ok(())
}
