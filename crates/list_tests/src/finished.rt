//! Finished lists of few characters, written out.

ghost use Rattle.std.specs.Prelude.{◌≡◌, ◌<◌, min, IfSome};
ghost use Rattle.jlist_builder.specs.Entries.{IsOther};

use crate::plain::plain;
use box_tree::{FontNo, GlueFrom, Item, KernFrom};
use jfm_load::Japanese;
use jis_codes::{Cell, to_jis};
use jlist_builder::{HBuilder, Kinsoku};
use kanjiskip_adjust::{EndCodes, adjust};
use metric_words::begins_as_jfm;
use node_links::{ListFault, NodeList};
use sample_metrics::{JA10, LA10};
use std::alloc::Global;
use std::marker::Brand;
use std::sync::ledger::{Blank, Ledger};
use std::test::Fail;
use tfm_load::Roman;
use ts_base::Steps;
use ts_geometry::{Glue, Order, Sp};

// The size of both fonts, 10 points.
const SIZE: u32 = 655_360;

#[derive(Drop)]
struct Fonts {
    japanese: Japanese,
    roman: Roman,
}

// Codes at a list's end, the same for all characters of a kind.
#[derive(Clone, Copy, Drop)]
pub(crate) struct Sample {
    pub(crate) kanjiskip: Glue,
    pub(crate) xkanjiskip: Glue,
    pub(crate) auto: bool,
    pub(crate) autox: bool,
    pub(crate) widow: i32,
    pub(crate) xsp: u8,
    pub(crate) inhibit_xsp: u8,
}

impl EndCodes for Sample {
    ghost codes = { λ s. record {
      kanjiskip = s.kanjiskip;
      xkanjiskip = s.xkanjiskip;
      auto = s.auto;
      autox = s.autox;
      widow = s.widow;
      xsp = λ code. min s.xsp 3;
      inhibit_xsp = λ cell. min s.inhibit_xsp 3;
    } };

    fn kanjiskip(&self) -> Glue {
        self.kanjiskip
    }

    fn xkanjiskip(&self) -> Glue {
        self.xkanjiskip
    }

    fn auto(&self) -> bool {
        self.auto
    }

    fn autox(&self) -> bool {
        self.autox
    }

    fn widow(&self) -> i32 {
        self.widow
    }

    fn xsp(&self, _code: u8) -> u8 {
        self.xsp.min(3)
    }

    fn inhibit_xsp(&self, _cell: Cell) -> u8 {
        self.inhibit_xsp.min(3)
    }
}

const CODES: Sample = Sample {
    kanjiskip: Glue {
        width: Sp(7),
        stretch: Sp(1),
        stretch_order: Order::Normal,
        shrink: Sp(0),
        shrink_order: Order::Normal,
    },
    xkanjiskip: Glue {
        width: Sp(9),
        stretch: Sp(1),
        stretch_order: Order::Normal,
        shrink: Sp(0),
        shrink_order: Order::Normal,
    },
    auto: true,
    autox: true,
    widow: 500,
    xsp: 3,
    inhibit_xsp: 3,
};

// A call of the builder: a Japanese character has its row and cell, its kind, and the penalties
// before and after it.
#[derive(Clone, Copy)]
pub(crate) enum Call {
    Kanji(u8, u8, u8, i32, i32),
    Letter(u8, i32, i32),
    Kern(i64),
    Penalty(i64),
    Rule,
    Cut,
    Inhibit,
}

// What a test tells one item from another by.
#[derive(Clone, Copy, Debug, PartialEq)]
pub(crate) enum Look {
    Kanji(u16),
    Letter(u8),
    Space,
    Skip(i64),
    Kern(i64),
    Penalty(i64, bool),
    Rule,
    Other,
}

const A: Call = Call::Kanji(4, 2, 17, 0, 0);

const OPEN: Call = Call::Kanji(1, 54, 18, 0, 0);

const CLOSE: Call = Call::Kanji(1, 55, 18, 0, 0);

const COMMA: Call = Call::Kanji(1, 2, 18, 0, 0);

const F: Call = Call::Letter(b'f', 0, 0);

const I: Call = Call::Letter(b'i', 0, 0);

const X: Call = Call::Letter(b'x', 0, 0);

// Hiragana A, the brackets and the comma.
const JA: Look = Look::Kanji(0x2422);

const BEGIN: Look = Look::Kanji(0x2156);

const END: Look = Look::Kanji(0x2157);

const STOP: Look = Look::Kanji(0x2122);

const EX: Look = Look::Letter(b'x');

// The two skips, and the widow penalty alone.
const K: Look = Look::Skip(7);

const XK: Look = Look::Skip(9);

const W: Look = Look::Penalty(500, true);

fn look_of(item: &Item) -> Look {
    match item {
        Item::Kanji { cell, .. } => Look::Kanji(to_jis(*cell) as u16),
        Item::Glyph { code, .. } => Look::Letter(*code),
        Item::Glue {
            glue,
            from: GlueFrom::Skip,
        } => Look::Skip(glue.width.0),
        Item::Glue {
            from: GlueFrom::Metric,
            ..
        } => Look::Space,
        Item::Kern { width, .. } => Look::Kern(width.0),
        Item::Penalty { value, auto } => Look::Penalty(*value, *auto),
        Item::Rule { .. } => Look::Rule,
        _ => Look::Other,
    }
}

fn looks(alloc: Global, list: &NodeList) -> Result<Vec<Look>, Fail> {
    let items = list.to_items(alloc).or(Err("memory"))?;
    let mut looks = Vec::new(alloc);
    for item in items.as_slice() {
        looks.push(look_of(item))?;
    }
    Ok(looks)
}

fn bytes_of(alloc: Global, words: &[u32]) -> Result<Vec<u8>, Fail> {
    let mut bytes = Vec::new(alloc);
    for word in words {
        bytes.extend_from_slice(&word.to_be_bytes())?;
    }
    Ok(bytes)
}

fn sample_fonts(alloc: Global) -> Result<Fonts, Fail> {
    let jfm = bytes_of(alloc, &JA10)?;
    let tfm = bytes_of(alloc, &LA10)?;
    if !begins_as_jfm(&jfm) || begins_as_jfm(&tfm) {
        return Err(Fail::from("metrics"));
    }
    Ok(Fonts {
        japanese: jfm_load::read(alloc, &jfm)?,
        roman: tfm_load::read(alloc, &tfm)?,
    })
}

// The item that a call adds, if it adds an other item.
fn item_of(call: Call) -> Option<Item>
    ensures { IfSome result IsOther }
{
    match call {
        Call::Kern(width) => Some(Item::Kern {
            width: Sp(width),
            from: KernFrom::Given,
        }),
        Call::Penalty(value) => Some(Item::Penalty { value, auto: false }),
        Call::Rule => Some(Item::Rule {
            wd: None,
            ht: None,
            dp: None,
        }),
        _ => None,
    }
}

fn add<L: Ledger>(
    builder: &mut HBuilder,
    fonts: &Fonts,
    call: Call,
    steps: &mut Steps<L>,
) -> Result<(), ListFault> {
    if let Some(item) = item_of(call) {
        return builder.other(item, steps);
    }
    match call {
        Call::Kanji(row, place, kind, pre, post) => {
            let Some(cell) = Cell::new(row, place) else {
                return Ok(());
            };
            let kinsoku = Kinsoku { pre, post };
            builder.kanji(&fonts.japanese, FontNo(0), SIZE, cell, kind, kinsoku, steps)
        }
        Call::Letter(code, pre, post) => {
            let kinsoku = Kinsoku { pre, post };
            builder.roman(&fonts.roman, FontNo(1), SIZE, code, Sp(0), kinsoku, steps)?;
            Ok(())
        }
        Call::Cut => {
            builder.cut();
            Ok(())
        }
        _ => {
            builder.inhibit();
            Ok(())
        }
    }
}

// The finished list after calls.
fn finished<L: Ledger>(
    alloc: Global,
    fonts: &Fonts,
    calls: &[Call],
    para: bool,
    codes: &Sample,
    steps: &mut Steps<L>,
) -> Result<Vec<Look>, Fail> {
    let mut builder = HBuilder::new(alloc);
    for call in calls {
        add(&mut builder, fonts, *call, steps).or(Err("refused"))?;
    }
    let mut list = builder.finish(steps).or(Err("memory"))?;
    adjust(&mut list, codes, para, steps);
    looks(alloc, &list)
}

// Which rows of a table gave another list than the wanted one.
fn wrong<L: Ledger>(
    alloc: Global,
    table: &[(&[Call], bool, Sample, &[Look])],
    blank: Blank,
) -> Result<Vec<usize>, Fail>
    requires name { blank.name ≡ L.name }
    requires parts { blank.parts ≡ L.parts }
    requires some { 0 < blank.parts }
{
    let mut steps = Steps::<L>::new(blank);
    let fonts = sample_fonts(alloc)?;
    let mut wrong = Vec::new(alloc);
    for (row, (calls, para, codes, wanted)) in table.iter().enumerate() {
        let list = finished(alloc, &fonts, calls, *para, codes, &mut steps)?;
        if list.as_slice() != *wanted {
            wrong.push(row)?;
        }
    }
    Ok(wrong)
}

#[test]
fn skips_stand_where_no_metric_space_does(rt: HostRuntime) -> Result<(), Fail> {
    let no_auto = Sample {
        auto: false,
        ..CODES
    };
    let no_autox = Sample {
        autox: false,
        ..CODES
    };
    let table: [(&[Call], bool, Sample, &[Look]); 17] = [
        (&[], true, CODES, &[]),
        (&[A, A], false, CODES, &[JA, K, JA]),
        (&[A, X, A], false, CODES, &[JA, XK, EX, XK, JA]),
        (&[A, A], false, no_auto, &[JA, Look::Skip(0), JA]),
        (&[A, X, A], false, no_auto, &[JA, XK, EX, XK, JA]),
        (&[A, X, A, A], false, no_autox, &[JA, EX, JA, K, JA]),
        // the metric space takes the place of a skip
        (&[COMMA, X], false, CODES, &[STOP, Look::Space, EX]),
        (&[A, OPEN], false, CODES, &[JA, Look::Space, BEGIN]),
        (&[A, Call::Inhibit, OPEN], false, CODES, &[JA, K, BEGIN]),
        (&[COMMA, Call::Cut, X], false, CODES, &[STOP, XK, EX]),
        (
            &[OPEN, A, CLOSE],
            false,
            CODES,
            &[Look::Space, BEGIN, K, JA, K, END],
        ),
        (&[A, Call::Cut, A], false, CODES, &[JA, K, JA]),
        // a penalty leaves characters neighbours, and a kern doesn't
        (
            &[A, Call::Penalty(3), A],
            false,
            CODES,
            &[JA, Look::Penalty(3, false), K, JA],
        ),
        (
            &[A, Call::Kern(3), A],
            false,
            CODES,
            &[JA, Look::Kern(3), JA],
        ),
        // the penalty before the space
        (
            &[Call::Kanji(4, 2, 17, 0, 50), Call::Kanji(4, 2, 17, 25, 0)],
            false,
            CODES,
            &[JA, Look::Penalty(75, true), K, JA],
        ),
        // a ligature faces both sides by its own letters
        (
            &[A, F, I, A],
            false,
            CODES,
            &[JA, XK, Look::Letter(12), XK, JA],
        ),
        (&[X, X], true, CODES, &[EX, EX]),
    ];
    assert_eq!(rt;
        wrong::<Brand>(rt.alloc(), &table, Blank::new(1))?.as_slice(),
        [].as_slice()
    );
    Ok(())
}

#[test]
fn the_last_kanji_or_kana_of_a_paragraph_has_a_penalty(rt: HostRuntime) -> Result<(), Fail> {
    let no_widow = Sample { widow: 0, ..CODES };
    let table: [(&[Call], bool, Sample, &[Look]); 14] = [
        (&[A, A], true, CODES, &[JA, W, K, JA]),
        (&[A, A], true, no_widow, &[JA, K, JA]),
        // without a Japanese neighbour
        (&[A], true, CODES, &[JA]),
        (&[X, A], true, CODES, &[EX, XK, JA]),
        (
            &[A, Call::Kern(3), A],
            true,
            CODES,
            &[JA, Look::Kern(3), JA],
        ),
        // a letter or a rule after it hinders it
        (&[A, A, X], true, CODES, &[JA, K, JA, XK, EX]),
        (&[A, A, Call::Rule], true, CODES, &[JA, K, JA, Look::Rule]),
        // kerns, penalties, marks and other characters don't
        (
            &[A, A, Call::Kern(3), Call::Cut, Call::Penalty(4)],
            true,
            CODES,
            &[JA, W, K, JA, Look::Kern(3), Look::Penalty(4, false)],
        ),
        (&[A, A, CLOSE], true, CODES, &[JA, W, K, JA, K, END]),
        (
            &[CLOSE, A, CLOSE],
            true,
            CODES,
            &[END, W, Look::Space, JA, K, END],
        ),
        (&[A, A, A], true, CODES, &[JA, K, JA, W, K, JA]),
        // it is added to the penalty of the gap, which stays where the sum is 0
        (
            &[A, Call::Kanji(4, 2, 16, 25, 0)],
            true,
            CODES,
            &[JA, Look::Penalty(525, true), K, JA],
        ),
        (
            &[A, Call::Kanji(4, 2, 16, -500, 0)],
            true,
            CODES,
            &[JA, Look::Penalty(0, true), K, JA],
        ),
        // after a penalty of a command, across a cut
        (
            &[COMMA, Call::Penalty(4), Call::Cut, A],
            true,
            CODES,
            &[STOP, Look::Penalty(4, false), W, K, JA],
        ),
    ];
    assert_eq!(rt;
        wrong::<Brand>(rt.alloc(), &table, Blank::new(1))?.as_slice(),
        [].as_slice()
    );
    Ok(())
}

// The gaps before and after a letter that stands between two Japanese characters which have a skip,
// where its code and theirs are these.
fn gaps<L: Ledger>(alloc: Global, blank: Blank) -> Result<Vec<(bool, bool)>, Fail>
    requires name { blank.name ≡ L.name }
    requires parts { blank.parts ≡ L.parts }
    requires some { 0 < blank.parts }
{
    let mut steps = Steps::<L>::new(blank);
    let fonts = sample_fonts(alloc)?;
    let mut gaps = Vec::new(alloc);
    for (xsp, inhibit_xsp) in [(0, 3), (1, 3), (2, 3), (3, 3), (3, 0), (3, 1), (3, 2)] {
        let codes = Sample {
            xsp,
            inhibit_xsp,
            ..CODES
        };
        let list = finished(alloc, &fonts, &[A, X, A], false, &codes, &mut steps)?;
        let list = list.as_slice();
        let before = list.get(1) == Some(&XK);
        gaps.push((before, list.get(list.len().saturating_sub(2)) == Some(&XK)))?;
    }
    Ok(gaps)
}

#[test]
fn letters_allow_gaps_and_japanese_characters_forbid_them(rt: HostRuntime) -> Result<(), Fail> {
    let wanted = [
        (false, false),
        (true, false),
        (false, true),
        (true, true),
        (false, false),
        // forbidding the gap before a Japanese character forbids the one after the letter
        (true, false),
        (false, true),
    ];
    assert_eq!(rt;
        gaps::<Brand>(rt.alloc(), Blank::new(1))?.as_slice(),
        wanted.as_slice()
    );
    Ok(())
}

// The next draw of a generator, below 65,536.
fn draw(state: &mut u32) -> u32 {
    *state = state.wrapping_mul(1_664_525).wrapping_add(1_013_904_223);
    *state / 65_536
}

fn random_penalty(state: &mut u32) -> i32 {
    match draw(state) % 4 {
        0 => 50,
        1 => -50,
        _ => 0,
    }
}

fn random_call(state: &mut u32) -> Call {
    let pre = random_penalty(state);
    let post = random_penalty(state);
    match draw(state) % 16 {
        0 | 1 | 2 => Call::Kanji(4, 2, 17, pre, post),
        3 => Call::Kanji(1, 54, 18, pre, post),
        4 => Call::Kanji(1, 55, 18, pre, post),
        5 => Call::Kanji(1, 2, 18, pre, post),
        6 => Call::Letter(b'f', pre, post),
        7 => Call::Letter(b'i', pre, post),
        8 => Call::Letter(b'a', pre, post),
        9 => Call::Letter(b'v', pre, post),
        10 => Call::Kern(3),
        11 => Call::Penalty(4),
        12 => Call::Rule,
        13 => Call::Cut,
        _ => Call::Inhibit,
    }
}

fn random_codes(state: &mut u32) -> Sample {
    Sample {
        auto: draw(state) % 4 != 0,
        autox: draw(state) % 4 != 0,
        widow: random_penalty(state),
        xsp: (draw(state) % 4) as u8,
        inhibit_xsp: (draw(state) % 4) as u8,
        ..CODES
    }
}

// How many of 500 random lists, each in a paragraph or not, differ from what is worked out for each
// gap anew; and how many items the others have in all.
fn compared<L: Ledger>(alloc: Global, blank: Blank) -> Result<(usize, usize), Fail>
    requires name { blank.name ≡ L.name }
    requires parts { blank.parts ≡ L.parts }
    requires some { 0 < blank.parts }
{
    let mut steps = Steps::<L>::new(blank);
    let fonts = sample_fonts(alloc)?;
    let mut state = 1;
    let mut wrong: usize = 0;
    let mut same: usize = 0;
    for _ in 0..500 {
        let calls = random_calls(alloc, &mut state)?;
        let codes = random_codes(&mut state);
        let para = draw(&mut state) % 2 == 0;
        let list = finished(alloc, &fonts, calls.as_slice(), para, &codes, &mut steps)?;
        let wanted = plain(alloc, calls.as_slice(), para, &codes)?;
        if list.as_slice() == wanted.as_slice() {
            same = same.saturating_add(list.len());
        } else {
            wrong = wrong.saturating_add(1);
        }
    }
    Ok((wrong, same))
}

// Up to 12 random calls.
fn random_calls(alloc: Global, state: &mut u32) -> Result<Vec<Call>, Fail> {
    let mut calls = Vec::new(alloc);
    for _ in 0..draw(state) % 13 {
        calls.push(random_call(state))?;
    }
    Ok(calls)
}

#[test]
fn random_lists_are_as_each_gap_is_worked_out_anew(rt: HostRuntime) -> Result<(), Fail> {
    let (wrong, same) = compared::<Brand>(rt.alloc(), Blank::new(1))?;
    assert_eq!(rt; wrong, 0);
    assert!(rt; 3_000 < same);
    Ok(())
}
