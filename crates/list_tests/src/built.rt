//! Lists of few characters, written out.

ghost use Rattle.std.specs.Prelude.{◌≡◌, ◌<◌};

use box_tree::{FontNo, Item, KernFrom};
use jfm_load::Japanese;
use jis_codes::{Cell, to_jis};
use jlist_builder::{HBuilder, Kinsoku};
use metric_words::begins_as_jfm;
use node_links::{ListFault, NodeList};
use sample_metrics::{JA10, LA10};
use std::alloc::Global;
use std::marker::Brand;
use std::sync::ledger::{Blank, Ledger};
use std::test::Fail;
use tfm_load::Roman;
use ts_base::Steps;
use ts_geometry::Sp;

// The size of both fonts, 10 points.
const SIZE: u32 = 655_360;

#[derive(Drop)]
struct Fonts {
    japanese: Japanese,
    roman: Roman,
}

// A call of the builder: a character has the penalties before and after it.
#[derive(Clone, Copy)]
enum Call {
    Kanji(u8, u8, i32, i32),
    Letter(u8, i32, i32),
    Kern(i64),
    Penalty(i64),
    Cut,
    Inhibit,
}

// What a test tells one item from another by.
#[derive(Clone, Copy, Debug, PartialEq)]
enum Look {
    Kanji(u16),
    Letter(u8, u8, u8),
    Glue(i64, i64, i64),
    Kern(i64),
    Penalty(i64, bool),
    Other,
}

const A: Call = Call::Kanji(4, 2, 0, 0);

const OPEN: Call = Call::Kanji(1, 54, 0, 0);

const CLOSE: Call = Call::Kanji(1, 55, 0, 0);

const COMMA: Call = Call::Kanji(1, 2, 0, 0);

const F: Call = Call::Letter(b'f', 0, 0);

const I: Call = Call::Letter(b'i', 0, 0);

// Hiragana A, the brackets, the comma, and the ligature of f and i.
const JA: Look = Look::Kanji(0x2422);

const BEGIN: Look = Look::Kanji(0x2156);

const END: Look = Look::Kanji(0x2157);

const STOP: Look = Look::Kanji(0x2122);

const LETTER_F: Look = Look::Letter(b'f', b'f', b'f');

const LETTER_V: Look = Look::Letter(b'v', b'v', b'v');

const JOINED: Look = Look::Letter(12, b'f', b'i');

// The glue of the Japanese metric.
const HALF: Look = Look::Glue(327_680, 0, 327_680);

fn look_of(item: &Item) -> Look {
    match item {
        Item::Kanji { cell, .. } => Look::Kanji(to_jis(*cell) as u16),
        Item::Glyph {
            code,
            first,
            last,
            ..
        } => Look::Letter(*code, *first, *last),
        Item::Glue { glue, .. } => Look::Glue(glue.width.0, glue.stretch.0, glue.shrink.0),
        Item::Kern { width, .. } => Look::Kern(width.0),
        Item::Penalty { value, auto } => Look::Penalty(*value, *auto),
        _ => Look::Other,
    }
}

fn looks(alloc: Global, list: &NodeList) -> Result<Vec<Look>, Fail> {
    let items = list.to_items(alloc).or(Err("memory"))?;
    let mut looks = Vec::new(alloc);
    for item in items.as_slice() {
        looks.push(look_of(item))?;
    }
    Ok(looks)
}

fn bytes_of(alloc: Global, words: &[u32]) -> Result<Vec<u8>, Fail> {
    let mut bytes = Vec::new(alloc);
    for word in words {
        bytes.extend_from_slice(&word.to_be_bytes())?;
    }
    Ok(bytes)
}

fn sample_fonts(alloc: Global) -> Result<Fonts, Fail> {
    let jfm = bytes_of(alloc, &JA10)?;
    let tfm = bytes_of(alloc, &LA10)?;
    if !begins_as_jfm(&jfm) || begins_as_jfm(&tfm) {
        return Err(Fail::from("metrics"));
    }
    Ok(Fonts {
        japanese: jfm_load::read(alloc, &jfm)?,
        roman: tfm_load::read(alloc, &tfm)?,
    })
}

fn add<L: Ledger>(
    builder: &mut HBuilder,
    fonts: &Fonts,
    call: Call,
    steps: &mut Steps<L>,
) -> Result<bool, ListFault> {
    match call {
        Call::Kanji(row, place, pre, post) => {
            let Some(cell) = Cell::new(row, place) else {
                return Ok(false);
            };
            let kinsoku = Kinsoku { pre, post };
            builder.kanji(&fonts.japanese, FontNo(0), SIZE, cell, 16, kinsoku, steps)?;
            Ok(true)
        }
        Call::Letter(code, pre, post) => {
            let kinsoku = Kinsoku { pre, post };
            builder.roman(&fonts.roman, FontNo(1), SIZE, code, Sp(0), kinsoku, steps)
        }
        Call::Kern(width) => {
            let width = Sp(width);
            let from = KernFrom::Given;
            builder.other(Item::Kern { width, from }, steps)?;
            Ok(true)
        }
        Call::Penalty(value) => {
            builder.other(Item::Penalty { value, auto: false }, steps)?;
            Ok(true)
        }
        Call::Cut => {
            builder.cut();
            Ok(true)
        }
        Call::Inhibit => {
            builder.inhibit();
            Ok(true)
        }
    }
}

// The list that is lent after calls, and the whole one.
fn lists<L: Ledger>(
    alloc: Global,
    fonts: &Fonts,
    calls: &[Call],
    steps: &mut Steps<L>,
) -> Result<(Vec<Look>, Vec<Look>), Fail> {
    let mut builder = HBuilder::new(alloc);
    for call in calls {
        if !add(&mut builder, fonts, *call, steps).or(Err("refused"))? {
            return Err(Fail::from("a character is lacking"));
        }
    }
    let lent = looks(alloc, builder.list())?;
    let list = builder.finish(steps).or(Err("memory"))?;
    Ok((lent, looks(alloc, &list)?))
}

// How many items a list has that gets kerns and at last a ligature; and what is answered, where
// there is room for one item more, to a bracket with glue before it, and to a letter that the font
// lacks.
fn filled<L: Ledger>(
    alloc: Global,
    fonts: &Fonts,
    steps: &mut Steps<L>,
) -> Result<(usize, Result<bool, ListFault>, Result<bool, ListFault>), Fail> {
    let mut builder = HBuilder::new(alloc);
    for _ in 0..199_999 {
        add(&mut builder, fonts, Call::Kern(1), steps).or(Err("full too early"))?;
    }
    let full = add(&mut builder, fonts, OPEN, steps);
    let lacking = add(&mut builder, fonts, Call::Letter(b'@', 0, 0), steps);
    add(&mut builder, fonts, F, steps).or(Err("full too early"))?;
    add(&mut builder, fonts, I, steps).or(Err("full too early"))?;
    let list = builder.finish(steps).or(Err("memory"))?;
    Ok((list.len(), full, lacking))
}

// The answers of a table: which rows gave another list than the wanted one, whole or lent.
fn wrong<L: Ledger>(
    alloc: Global,
    table: &[(&[Call], usize, &[Look])],
    blank: Blank,
) -> Result<Vec<usize>, Fail>
    requires name { blank.name ≡ L.name }
    requires parts { blank.parts ≡ L.parts }
    requires some { 0 < blank.parts }
{
    let mut steps = Steps::<L>::new(blank);
    let fonts = sample_fonts(alloc)?;
    let mut wrong = Vec::new(alloc);
    for (row, (calls, lent_len, wanted)) in table.iter().enumerate() {
        let (lent, whole) = lists(alloc, &fonts, calls, &mut steps)?;
        if whole.as_slice() != *wanted || Some(lent.as_slice()) != wanted.get(..*lent_len) {
            wrong.push(row)?;
        }
    }
    Ok(wrong)
}

#[test]
fn spaces_and_penalties_come_with_japanese_characters(rt: HostRuntime) -> Result<(), Fail> {
    let table: [(&[Call], usize, &[Look]); 15] = [
        (&[], 0, &[]),
        (&[A], 1, &[JA]),
        (&[A, OPEN], 3, &[JA, HALF, BEGIN]),
        (&[A, Call::Inhibit, OPEN], 2, &[JA, BEGIN]),
        (&[A, Call::Cut, OPEN], 3, &[JA, HALF, BEGIN]),
        // an inhibit doesn't work over a cut
        (&[Call::Inhibit, Call::Cut, OPEN], 2, &[HALF, BEGIN]),
        (&[OPEN, A, CLOSE], 4, &[HALF, BEGIN, JA, END]),
        (&[CLOSE, OPEN], 3, &[END, HALF, BEGIN]),
        // the gap penalty stands before the space
        (
            &[Call::Kanji(1, 2, 0, 50), Call::Kanji(4, 2, 25, 0)],
            4,
            &[STOP, Look::Penalty(75, true), HALF, JA],
        ),
        // a sum of 0 gives none
        (
            &[Call::Kanji(4, 2, 0, 5), Call::Kanji(4, 2, -5, 0)],
            2,
            &[JA, JA],
        ),
        (&[COMMA, F, I], 2, &[STOP, HALF, JOINED]),
        (&[COMMA, Call::Inhibit, F], 1, &[STOP, LETTER_F]),
        (&[COMMA, Call::Cut, F], 1, &[STOP, LETTER_F]),
        // a penalty leaves characters neighbours, across the cut that it is, and a kern doesn't
        (
            &[
                Call::Kanji(1, 2, 0, 5),
                Call::Penalty(7),
                Call::Kanji(1, 54, 6, 0),
            ],
            5,
            &[
                STOP,
                Look::Penalty(7, false),
                Look::Penalty(11, true),
                HALF,
                BEGIN,
            ],
        ),
        (
            &[
                Call::Kanji(1, 2, 0, 5),
                Call::Kern(7),
                Call::Kanji(4, 2, 6, 0),
            ],
            3,
            &[STOP, Look::Kern(7), JA],
        ),
    ];
    assert_eq!(rt;
        wrong::<Brand>(rt.alloc(), &table, Blank::new(1))?.as_slice(),
        [].as_slice()
    );
    Ok(())
}

#[test]
fn letters_join_and_the_last_one_is_held_back(rt: HostRuntime) -> Result<(), Fail> {
    let table: [(&[Call], usize, &[Look]); 9] = [
        (&[F], 0, &[LETTER_F]),
        (&[F, I], 0, &[JOINED]),
        (&[F, Call::Inhibit, I], 0, &[JOINED]),
        (
            &[F, Call::Cut, I],
            1,
            &[LETTER_F, Look::Letter(b'i', b'i', b'i')],
        ),
        (&[F, Call::Cut, Call::Inhibit], 0, &[LETTER_F]),
        (&[F, I, Call::Kern(7)], 2, &[JOINED, Look::Kern(7)]),
        // the kern goes out at once, and no penalty stands between letters
        (
            &[
                Call::Letter(b'a', 0, 5),
                Call::Inhibit,
                Call::Letter(b'v', 6, 0),
            ],
            2,
            &[
                Look::Letter(b'a', b'a', b'a'),
                Look::Kern(-81_920),
                LETTER_V,
            ],
        ),
        // a ligature has the first letter's penalty before it and the last one's after it
        (
            &[
                Call::Kanji(4, 2, 0, 3),
                Call::Letter(b'f', 10, 20),
                Call::Letter(b'i', 30, 40),
                Call::Kanji(4, 2, 5, 0),
            ],
            5,
            &[
                JA,
                Look::Penalty(13, true),
                JOINED,
                Look::Penalty(45, true),
                JA,
            ],
        ),
        (
            &[Call::Kanji(4, 2, 0, 3), Call::Letter(b'f', 10, 20)],
            2,
            &[JA, Look::Penalty(13, true), LETTER_F],
        ),
    ];
    assert_eq!(rt;
        wrong::<Brand>(rt.alloc(), &table, Blank::new(1))?.as_slice(),
        [].as_slice()
    );
    Ok(())
}

// Whether a builder is empty after nothing, after marks, and after a letter.
fn emptiness<L: Ledger>(
    alloc: Global,
    fonts: &Fonts,
    steps: &mut Steps<L>,
) -> Result<[bool; 3], Fail> {
    let mut builder = HBuilder::new(alloc);
    let new = builder.is_empty();
    builder.cut();
    builder.inhibit();
    let marked = builder.is_empty();
    add(&mut builder, fonts, F, steps).or(Err("refused"))?;
    Ok([new, marked, builder.is_empty()])
}

// What the two give.
fn limits<L: Ledger>(
    alloc: Global,
    blank: Blank,
) -> Result<
    (
        [bool; 3],
        (usize, Result<bool, ListFault>, Result<bool, ListFault>),
    ),
    Fail,
>
    requires name { blank.name ≡ L.name }
    requires parts { blank.parts ≡ L.parts }
    requires some { 0 < blank.parts }
{
    let mut steps = Steps::<L>::new(blank);
    let fonts = sample_fonts(alloc)?;
    let empty = emptiness(alloc, &fonts, &mut steps)?;
    Ok((empty, filled(alloc, &fonts, &mut steps)?))
}

#[test]
fn a_list_may_be_empty_or_full(rt: HostRuntime) -> Result<(), Fail> {
    let (empty, (len, full, lacking)) = limits::<Brand>(rt.alloc(), Blank::new(1))?;
    assert_eq!(rt; empty, [true, true, false]);
    assert_eq!(rt; len, 200_000);
    assert_eq!(rt; full, Err(ListFault::ListFull));
    assert_eq!(rt; lacking, Ok(false));
    Ok(())
}
