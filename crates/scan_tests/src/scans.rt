//! Scans of lists of tokens, fed one by one.

ghost use Rattle.scan_syntax.specs.Scans.{IsOpen};
ghost use Rattle.scan_syntax.specs.States.{reads};

use box_tree::{BoxKind, BoxNode, BoxSize, Items, SetGlue, SharedBox};
use env_groups::{
    DimKey, Env, EnvFault, FontFacts, FontSlot, GlueKey, IntKey, Meaning, Mode, Situation, ToksKey,
};
use jis_codes::{Char, from_euc};
use scan_syntax::{Fed, Scan, ScanFault, ScanKind, Value, Want, Word};
use std::alloc::Global;
use std::process::Abort;
use std::test::Fail;
use tok_lists::{NameNo, Names, SharedTokens, Token};
use ts_geometry::{Dir, Glue, Measures, Order, Sp};

/// What a scan finds, dimensions in scaled points.
#[derive(Clone, Copy, PartialEq, Eq)]
enum Found {
    Integer(i64),
    Dimen(i64),
    Glue(Glue),
    Toks(&'static str),
    Equals,
    BoxSize(BoxSize),
    Keyword(bool),
    FileName(&'static str),
}

/// How a scan ends.
#[derive(Clone, Copy, PartialEq, Eq)]
enum End {
    /// With a value, before this text.
    Done(Found, &'static str),
    Refused(ScanKind),
    /// It wants a further token, expanded or raw.
    Expanded,
    Raw,
}

/// With what tokens are fed.
#[derive(Drop)]
struct Bench<'a> {
    alloc: Global,
    env: &'a Env,
    names: &'a Names,
}

// A token of this byte: `#` is \count, `$` \dimen, `%` \skip, `!` \toks, `^` \catcode, `&` \wd,
// `*` \hsize, `~` \a, `_` a \count that isn't expanded, `|` a name for 65, `@` a Japanese
// character.
fn token_of(byte: u8) -> Token {
    match byte {
        b' ' => Token::Char(b' ', 10),
        b'#' => Token::Name(NameNo(45)),
        b'$' => Token::Name(NameNo(46)),
        b'%' => Token::Name(NameNo(47)),
        b'!' => Token::Name(NameNo(48)),
        b'^' => Token::Name(NameNo(56)),
        b'&' => Token::Name(NameNo(53)),
        b'*' => Token::Name(NameNo(119)),
        b'~' => Token::Name(NameNo(138)),
        b'|' => Token::Name(NameNo(139)),
        b'_' => Token::Kept(NameNo(45)),
        b'@' => japanese(),
        b'a'..=b'z' | b'A'..=b'Z' => Token::Char(byte, 11),
        _ => Token::Char(byte, 12),
    }
}

fn japanese() -> Token {
    match from_euc(0xA4A2) {
        Some(cell) => Token::Ja(cell),
        None => Token::Param(1),
    }
}

// Two names more: \a, and a name for the character 65.
fn names(alloc: Global) -> Result<Names, Fail> {
    let mut names = Names::new(alloc)?;
    names.intern(false, &[Char::One(b'a')])?;
    names.intern(false, &[Char::One(b'a'), Char::One(b'b')])?;
    Ok(names)
}

const SKIP: Glue = Glue {
    width: Sp(5),
    stretch: Sp(6),
    stretch_order: Order::Fil,
    shrink: Sp(-7),
    shrink_order: Order::Normal,
};

// Counts 1, 2, 3 and 7, dimen 1, skip 1 and a name for 65.
fn set_registers(env: &mut Env) -> Result<(), EnvFault> {
    env.set_int(IntKey::Register(1), 2, false)?;
    env.set_int(IntKey::Register(2), 3, false)?;
    env.set_int(IntKey::Register(3), 42, false)?;
    env.set_int(IntKey::Register(7), -7, false)?;
    env.set_dim(DimKey::Register(1), Sp(100), false)?;
    env.set_glue(GlueKey::Register(1), SKIP, false)?;
    env.set_meaning(NameNo(139), Meaning::Code(65), false)
}

fn set_roman(env: &mut Env) -> Result<(), EnvFault> {
    let font = env.add_font(FontFacts {
        em: Sp(1000),
        ex: Sp(501),
        zw: Sp(0),
        zh: Sp(0),
    })?;
    env.set_font(FontSlot::Roman, font, false)
}

fn set_japanese(env: &mut Env) -> Result<(), EnvFault> {
    let font = env.add_font(FontFacts {
        em: Sp(0),
        ex: Sp(0),
        zw: Sp(2000),
        zh: Sp(3000),
    })?;
    env.set_font(FontSlot::Yoko, font, false)
}

// The list of the letter a.
fn set_list(alloc: Global, env: &mut Env) -> Result<(), Fail> {
    let list = SharedTokens::new(alloc, &[Token::Char(b'a', 11)])?;
    Ok(env.set_toks(ToksKey::Register(1), list, false)?)
}

fn set_box(alloc: Global, env: &mut Env) -> Result<(), Fail> {
    let node = BoxNode {
        kind: BoxKind::Horizontal,
        dir: Dir::Yoko,
        size: Measures {
            wd: Sp(3),
            ht: Sp(5),
            dp: Sp(7),
        },
        set: SetGlue::Plain,
        items: Items::new(alloc),
    };
    let shared = SharedBox::new(alloc, node)?;
    Ok(env.set_box(1, Some(shared), false)?)
}

fn set_all(alloc: Global, env: &mut Env) -> Result<(), Fail> {
    set_registers(env)?;
    set_roman(env)?;
    set_japanese(env)?;
    set_list(alloc, env)?;
    set_box(alloc, env)
}

// Whether these are the tokens of this text.
fn are_tokens(tokens: &[Token], text: &str) -> bool {
    let bytes = text.as_bytes();
    if tokens.len() != bytes.len() {
        return false;
    }
    for k in 0..tokens.len() {
        if tokens[k] != token_of(bytes[k]) {
            return false;
        }
    }
    true
}

fn is_found(value: &Value, found: &Found) -> bool {
    match value {
        Value::Integer(n) => *found == Found::Integer(*n),
        Value::Dimen(size) => *found == Found::Dimen(size.0),
        Value::Glue(glue) => *found == Found::Glue(*glue),
        Value::Equals => *found == Found::Equals,
        Value::BoxSize(size) => *found == Found::BoxSize(*size),
        Value::Keyword(there) => *found == Found::Keyword(*there),
        Value::Toks(list) => match found {
            Found::Toks(text) => are_tokens(list.as_slice(), text),
            _ => false,
        },
        Value::FileName(name) => match found {
            Found::FileName(text) => name.bytes() == text.as_bytes(),
            _ => false,
        },
    }
}

// Whether the tokens that are put back, and what is after them, are the tokens of this text.
fn are_left(back: &[Token], after: &[u8], left: &str) -> bool {
    let bytes = left.as_bytes();
    if back.len() > bytes.len() || &bytes[back.len()..] != after {
        return false;
    }
    for k in 0..back.len() {
        if back[k] != token_of(bytes[k]) {
            return false;
        }
    }
    true
}

// Whether a scan of the text ends so.
fn ends(scan: &mut Scan, text: &[u8], end: End, bench: &Bench<'_>) -> bool
    requires { IsOpen (reads scan.old) }
{
    let mut raw = false;
    for k in 0..text.len() {
        match scan.feed(token_of(text[k]), bench.env, bench.names) {
            Ok(Fed::Expanded) => raw = false,
            Ok(Fed::Raw) => raw = true,
            Ok(Fed::Done(value, back)) => {
                return is_done(&value, back.as_slice(), &text[k + 1..], end);
            }
            Err(fault) => return is_refused(fault, end),
        }
    }
    end == (if raw { End::Raw } else { End::Expanded })
}

fn is_done(value: &Value, back: &[Token], after: &[u8], end: End) -> bool {
    match end {
        End::Done(found, left) => is_found(value, &found) && are_left(back, after, left),
        End::Refused(_) | End::Expanded | End::Raw => false,
    }
}

fn is_refused(fault: ScanFault, end: End) -> bool {
    match fault {
        ScanFault::Kind(kind) => end == End::Refused(kind),
        ScanFault::NoMemory => false,
    }
}

fn is_scanned(bench: &Bench<'_>, want: Want, text: &str, end: End) -> bool {
    let mut scan = Scan::new(bench.alloc, want);
    ends(&mut scan, text.as_bytes(), end, bench)
}

/// A kind of scan, a text that is fed, and how its scan ends.
type Row = (Want, &'static str, End);

// Integers.
const INTEGERS: &[Row] = &[
    (Want::Integer, "'777 ", End::Done(Found::Integer(511), "")),
    (
        Want::Integer,
        "\"FFFFx",
        End::Done(Found::Integer(65535), "x"),
    ),
    (Want::Integer, "`@ ", End::Done(Found::Integer(0xA4A2), "")),
    (Want::Integer, "`~x", End::Done(Found::Integer(97), "x")),
    (
        Want::Integer,
        "2147483647 ",
        End::Done(Found::Integer(2_147_483_647), ""),
    ),
    (
        Want::Integer,
        " - -+-5 a",
        End::Done(Found::Integer(-5), "a"),
    ),
    (Want::Integer, "###1 a", End::Done(Found::Integer(42), "a")),
    (Want::Integer, "-#7 ", End::Done(Found::Integer(7), "")),
    (Want::Integer, "|1", End::Done(Found::Integer(65), "1")),
    (Want::Integer, "$1 ", End::Done(Found::Integer(100), "")),
    (Want::Integer, "-%1 ", End::Done(Found::Integer(-5), "")),
    (Want::Integer, "^97 ", End::Done(Found::Integer(11), "")),
    (Want::Integer, "1_", End::Done(Found::Integer(1), "_")),
];

// Each unit with an integer and with a fraction.
const UNITS: &[Row] = &[
    (Want::Dimen, "1pt ", End::Done(Found::Dimen(65536), "")),
    (Want::Dimen, "1pc ", End::Done(Found::Dimen(786_432), "")),
    (Want::Dimen, "1in ", End::Done(Found::Dimen(4_736_286), "")),
    (Want::Dimen, "1bp ", End::Done(Found::Dimen(65781), "")),
    (Want::Dimen, "1cm ", End::Done(Found::Dimen(1_864_679), "")),
    (Want::Dimen, "1mm ", End::Done(Found::Dimen(186_467), "")),
    (Want::Dimen, "1dd ", End::Done(Found::Dimen(70124), "")),
    (Want::Dimen, "1cc ", End::Done(Found::Dimen(841_489), "")),
    (Want::Dimen, "1sp ", End::Done(Found::Dimen(1), "")),
    (Want::Dimen, "1Q ", End::Done(Found::Dimen(46616), "")),
    (Want::Dimen, "1h ", End::Done(Found::Dimen(46616), "")),
    (Want::Dimen, "1em ", End::Done(Found::Dimen(1000), "")),
    (Want::Dimen, "1EX ", End::Done(Found::Dimen(501), "")),
    (Want::Dimen, "1zw ", End::Done(Found::Dimen(2000), "")),
    (Want::Dimen, "1zh ", End::Done(Found::Dimen(3000), "")),
    (Want::Dimen, "1$1 ", End::Done(Found::Dimen(100), "")),
    (Want::Dimen, "1#3 ", End::Done(Found::Dimen(42), "")),
    (Want::Dimen, "1%1 ", End::Done(Found::Dimen(5), "")),
    (Want::Dimen, "1.5pt ", End::Done(Found::Dimen(98304), "")),
    (
        Want::Dimen,
        "1.5pc ",
        End::Done(Found::Dimen(1_179_648), ""),
    ),
    (
        Want::Dimen,
        "1.5in ",
        End::Done(Found::Dimen(7_104_430), ""),
    ),
    (Want::Dimen, "1.5bp ", End::Done(Found::Dimen(98672), "")),
    (
        Want::Dimen,
        "1.5cm ",
        End::Done(Found::Dimen(2_797_019), ""),
    ),
    (Want::Dimen, "1.5mm ", End::Done(Found::Dimen(279_701), "")),
    (Want::Dimen, "1.5dd ", End::Done(Found::Dimen(105_186), "")),
    (
        Want::Dimen,
        "1.5cc ",
        End::Done(Found::Dimen(1_262_233), ""),
    ),
    (Want::Dimen, "1,5sp ", End::Done(Found::Dimen(1), "")),
    (Want::Dimen, "1.5Q ", End::Done(Found::Dimen(69925), "")),
    (Want::Dimen, "1.5h ", End::Done(Found::Dimen(69925), "")),
    (Want::Dimen, "1.5em ", End::Done(Found::Dimen(1500), "")),
    (Want::Dimen, "1.5EX ", End::Done(Found::Dimen(751), "")),
    (Want::Dimen, "1.5zw ", End::Done(Found::Dimen(3000), "")),
    (Want::Dimen, "1.5zh ", End::Done(Found::Dimen(4500), "")),
    (Want::Dimen, "1.5$1 ", End::Done(Found::Dimen(150), "")),
    (Want::Dimen, "1.5#3 ", End::Done(Found::Dimen(63), "")),
    (Want::Dimen, "1.5%1 ", End::Done(Found::Dimen(7), "")),
];

// Dimensions.
const DIMENSIONS: &[Row] = &[
    (Want::Dimen, ".5$1 x", End::Done(Found::Dimen(50), "x")),
    (Want::Dimen, "-.5#1sp", End::Done(Found::Dimen(-1), "sp")),
    (Want::Dimen, "#7pt-", End::Done(Found::Dimen(-458_752), "-")),
    (Want::Dimen, "- %1 ", End::Done(Found::Dimen(-5), "")),
    (Want::Dimen, "* ", End::Done(Found::Dimen(30_785_863), " ")),
    (
        Want::Dimen,
        "16383.99999pt ",
        End::Done(Found::Dimen(1_073_741_823), ""),
    ),
    (Want::Dimen, "'11 pt ", End::Done(Found::Dimen(589_824), "")),
    (Want::Dimen, "&2 ", End::Done(Found::Dimen(0), "")),
];

// Glue.
const GLUE: &[Row] = &[
    (
        Want::Glue,
        "1pt plus 2fil minus 3filll x",
        End::Done(
            Found::Glue(Glue {
                width: Sp(65536),
                stretch: Sp(131_072),
                stretch_order: Order::Fil,
                shrink: Sp(196_608),
                shrink_order: Order::Filll,
            }),
            "x",
        ),
    ),
    (
        Want::Glue,
        "1pt plus 1fil l x",
        End::Done(
            Found::Glue(Glue {
                width: Sp(65536),
                stretch: Sp(65536),
                stretch_order: Order::Fill,
                shrink: Sp(0),
                shrink_order: Order::Normal,
            }),
            "x",
        ),
    ),
    (
        Want::Glue,
        "1pt plu x",
        End::Done(
            Found::Glue(Glue {
                width: Sp(65536),
                stretch: Sp(0),
                stretch_order: Order::Normal,
                shrink: Sp(0),
                shrink_order: Order::Normal,
            }),
            "plu x",
        ),
    ),
    (
        Want::Glue,
        "-1pt plus2sp;",
        End::Done(
            Found::Glue(Glue {
                width: Sp(-65536),
                stretch: Sp(2),
                stretch_order: Order::Normal,
                shrink: Sp(0),
                shrink_order: Order::Normal,
            }),
            ";",
        ),
    ),
    (Want::Glue, "%1 x", End::Done(Found::Glue(SKIP), "x")),
    (
        Want::Glue,
        "-%1 x",
        End::Done(
            Found::Glue(Glue {
                width: Sp(-5),
                stretch: Sp(-6),
                stretch_order: Order::Fil,
                shrink: Sp(7),
                shrink_order: Order::Normal,
            }),
            "x",
        ),
    ),
    (
        Want::Glue,
        "#3sp minus -%1 x",
        End::Done(
            Found::Glue(Glue {
                width: Sp(42),
                stretch: Sp(0),
                stretch_order: Order::Normal,
                shrink: Sp(-5),
                shrink_order: Order::Normal,
            }),
            "x",
        ),
    ),
    (
        Want::Glue,
        "- $1 PLUS 1FiL;",
        End::Done(
            Found::Glue(Glue {
                width: Sp(-100),
                stretch: Sp(65536),
                stretch_order: Order::Fil,
                shrink: Sp(0),
                shrink_order: Order::Normal,
            }),
            ";",
        ),
    ),
];

// Keywords.
const KEYWORDS: &[Row] = &[
    (
        Want::Keyword(Word::Scaled),
        " sCaledx",
        End::Done(Found::Keyword(true), "x"),
    ),
    (
        Want::Keyword(Word::Scaled),
        " sca x",
        End::Done(Found::Keyword(false), "sca x"),
    ),
    (
        Want::Keyword(Word::At),
        "#t",
        End::Done(Found::Keyword(false), "#t"),
    ),
    (
        Want::Keyword(Word::At),
        "at",
        End::Done(Found::Keyword(true), ""),
    ),
    (
        Want::Keyword(Word::By),
        "by",
        End::Done(Found::Keyword(true), ""),
    ),
    (
        Want::Keyword(Word::Width),
        "width",
        End::Done(Found::Keyword(true), ""),
    ),
    (
        Want::Keyword(Word::Height),
        "height",
        End::Done(Found::Keyword(true), ""),
    ),
    (
        Want::Keyword(Word::Depth),
        "depth",
        End::Done(Found::Keyword(true), ""),
    ),
];

// What \the takes, sizes of boxes, equals and names of files.
const OTHERS: &[Row] = &[
    (Want::Internal, "#3 x", End::Done(Found::Integer(42), "x")),
    (Want::Internal, "|x", End::Done(Found::Integer(65), "x")),
    (Want::Internal, "$1x", End::Done(Found::Dimen(100), "x")),
    (Want::Internal, "%1x", End::Done(Found::Glue(SKIP), "x")),
    (Want::Internal, "!1 x", End::Done(Found::Toks("a"), "x")),
    (
        Want::BoxSize,
        " to 2sp x",
        End::Done(Found::BoxSize(BoxSize::To(Sp(2))), "x"),
    ),
    (
        Want::BoxSize,
        "spreAd-$1;",
        End::Done(Found::BoxSize(BoxSize::Spread(Sp(-100))), ";"),
    ),
    (
        Want::BoxSize,
        " t;",
        End::Done(Found::BoxSize(BoxSize::Natural), "t;"),
    ),
    (
        Want::BoxSize,
        "  spr;",
        End::Done(Found::BoxSize(BoxSize::Natural), "spr;"),
    ),
    (
        Want::BoxSize,
        "_",
        End::Done(Found::BoxSize(BoxSize::Natural), "_"),
    ),
    (Want::Equals, "  =5", End::Done(Found::Equals, "5")),
    (Want::Equals, " _", End::Done(Found::Equals, "_")),
    (
        Want::FileName,
        "  ab.tex x",
        End::Done(Found::FileName("ab.tex"), "x"),
    ),
    (Want::FileName, "a_b", End::Done(Found::FileName("a"), "_b")),
];

// Faults.
const FAULTS: &[Row] = &[
    (Want::Integer, "x", End::Refused(ScanKind::NoNumber)),
    (Want::Integer, "_", End::Refused(ScanKind::NoNumber)),
    (Want::Integer, "`|", End::Refused(ScanKind::NoNumber)),
    (Want::Integer, "!1 ", End::Refused(ScanKind::NoNumber)),
    (
        Want::Integer,
        "2147483648 ",
        End::Refused(ScanKind::NumberRange),
    ),
    (
        Want::Integer,
        "#256 ",
        End::Refused(ScanKind::RegisterRange),
    ),
    (Want::Integer, "#-1 ", End::Refused(ScanKind::RegisterRange)),
    (Want::Integer, "^256 ", End::Refused(ScanKind::CodeRange)),
    (Want::Dimen, "1x", End::Refused(ScanKind::NoUnit)),
    (Want::Dimen, "1f", End::Refused(ScanKind::NoUnit)),
    (Want::Dimen, "1 .", End::Refused(ScanKind::NoUnit)),
    (Want::Dimen, "1!", End::Refused(ScanKind::NoUnit)),
    (Want::Dimen, "16384pt ", End::Refused(ScanKind::DimenRange)),
    (
        Want::Dimen,
        "9999999999p",
        End::Refused(ScanKind::NumberRange),
    ),
    (
        Want::Glue,
        "1pt plus1fillll",
        End::Refused(ScanKind::NoUnit),
    ),
    (Want::Glue, "1pt plus1fix", End::Refused(ScanKind::NoUnit)),
    (Want::Internal, " ", End::Refused(ScanKind::NoNumber)),
    (Want::Internal, "1", End::Refused(ScanKind::NoNumber)),
    (
        Want::Internal,
        "!256 ",
        End::Refused(ScanKind::RegisterRange),
    ),
    (Want::FileName, "@ ", End::Refused(ScanKind::NoName)),
    (Want::FileName, "#", End::Refused(ScanKind::NoName)),
];

// What isn't whole wants a further token: raw after a backquote alone.
const WANTS: &[Row] = &[
    (Want::Integer, "2147483648", End::Expanded),
    (Want::Dimen, "16384pt", End::Expanded),
    (Want::Glue, "1pt plus1filll", End::Expanded),
    (Want::Integer, "#1", End::Expanded),
    (Want::Integer, "-", End::Expanded),
    (Want::Integer, "-`", End::Raw),
    (Want::Glue, "1pt minus #`", End::Raw),
    (Want::Integer, "-`a", End::Expanded),
];

// Each row of a table.
fn check(rt: &impl Abort, bench: &Bench<'_>, rows: &[Row]) {
    for (want, text, end) in rows {
        assert!(rt; is_scanned(bench, *want, text, *end), "{}", text);
    }
}

// The width of a box is that which the list sees.
fn check_width(rt: &impl Abort, alloc: Global, env: &mut Env, names: &Names, dir: Dir, width: i64) {
    env.set_situation(Situation {
        mode: Mode::Outer,
        dir,
    });
    let bench = Bench { alloc, env, names };
    let end = End::Done(Found::Integer(width), "");
    check(rt, &bench, &[(Want::Integer, "&1 ", end)]);
}

fn check_tables(rt: &impl Abort, bench: &Bench<'_>) {
    for rows in [
        INTEGERS, UNITS, DIMENSIONS, GLUE, KEYWORDS, OTHERS, FAULTS, WANTS,
    ] {
        check(rt, bench, rows);
    }
}

fn check_all(rt: &impl Abort, alloc: Global, env: &mut Env, names: &Names) -> Result<(), Fail> {
    set_all(alloc, env)?;
    check_tables(rt, &Bench { alloc, env, names });
    check_width(rt, alloc, env, names, Dir::Yoko, 3);
    check_width(rt, alloc, env, names, Dir::Tate, 12);
    check_width(rt, alloc, env, names, Dir::Dtou, 12);
    Ok(())
}

#[test]
fn lists_of_tokens_give_values_wants_and_faults(rt: HostRuntime) -> Result<(), Fail> {
    let alloc = rt.alloc();
    let names = names(alloc)?;
    let mut env = Env::new(alloc)?;
    check_all(&rt, alloc, &mut env, &names)
}
