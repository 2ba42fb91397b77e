//! Breaks of short paragraphs. Those of the four tables are the only ones of least demerits among
//! all walks, which a search apart from this program went through.

ghost use Rattle.std.specs.Prelude.{◌≡◌, ◌<◌, ◌≤◌, ◌^◌, length, IfOk};
ghost use Rattle.ts_geometry.specs.declared.direction.Dir.{Dir};
ghost use Rattle.ts_geometry.specs.Numbers.{IsWithin};
ghost use Rattle.box_tree.specs.Nodes.{tree_item, tree_items};
ghost use Rattle.box_tree.specs.Sound.{AreSound, IsSoundItem, IsSoundGlue};
ghost use Rattle.line_break.specs.Ready.{IsSoundShape};

use crate::laws::an_end_keeps_items_sound;
use crate::*;
use box_tree::{GlueFrom, Item, Items, KernFrom};
use std::alloc::{AllocError, Global};
use std::marker::Brand;
use std::sync::ledger::{Blank, Ledger};
use std::test::Fail;
use ts_base::Steps;
use ts_geometry::{Dir, Glue, Order, Sp};

const POINT: i64 = 65_536;

const NONE: Glue = Glue {
    width: Sp(0),
    stretch: Sp(0),
    stretch_order: Order::Normal,
    shrink: Sp(0),
    shrink_order: Order::Normal,
};

const FILL: Glue = Glue {
    stretch: Sp(POINT),
    stretch_order: Order::Fil,
    ..NONE
};

const SPACE: Glue = Glue {
    width: Sp(3 * POINT),
    stretch: Sp(2 * POINT),
    shrink: Sp(POINT),
    ..NONE
};

const GAP: Glue = Glue {
    stretch: Sp(6 * POINT),
    ..NONE
};

/// The shape at the start of a source, but for its width.
const PLAIN: ParaShape = ParaShape {
    hsize: Sp(40 * POINT),
    left: NONE,
    right: NONE,
    pretolerance: 100,
    tolerance: 200,
    emergency: Sp(0),
    line_penalty: 10,
    adj_demerits: 10_000,
};

/// A paragraph, a letter for each item, and the places at which its lines end.
struct Row(&'static [u8], &'static [u32]);

fn rule(width: i64) -> Item
    requires { IsWithin (2 ^ 22) width }
    ensures { (dir : Dir) → IsSoundItem dir (tree_item result) }
{
    Item::Rule {
        wd: Some(Sp(width)),
        ht: None,
        dp: None,
    }
}

fn kern(from: KernFrom) -> Item
    ensures { (dir : Dir) → IsSoundItem dir (tree_item result) }
{
    Item::Kern {
        width: Sp(3 * POINT),
        from,
    }
}

fn space(glue: Glue) -> Item
    requires { IsSoundGlue glue }
    ensures { (dir : Dir) → IsSoundItem dir (tree_item result) }
{
    Item::Glue {
        glue,
        from: GlueFrom::Given,
    }
}

fn penalty(value: i64) -> Item
    ensures { (dir : Dir) → IsSoundItem dir (tree_item result) }
{
    Item::Penalty { value, auto: false }
}

/// Returns the item that a letter stands for.
fn item_of(letter: u8) -> Item
    ensures { (dir : Dir) → IsSoundItem dir (tree_item result) }
{
    match letter {
        b'm' => rule(10 * POINT),
        b'i' => rule(4 * POINT),
        b'W' => rule(50 * POINT),
        b' ' => space(SPACE),
        b'g' => space(GAP),
        b'_' => kern(KernFrom::Given),
        b'=' => kern(KernFrom::Metric),
        b'~' => penalty(10_000),
        b'!' => penalty(-10_000),
        b'-' => penalty(50),
        _ => penalty(-100),
    }
}

fn items_of(alloc: Global, text: &[u8], _dir: Dir) -> Result<Vec<Item>, AllocError>
    ensures sound { IfOk result (λ items. AreSound _dir (tree_items items.items)) }
    ensures few { IfOk result (λ items. length items.items ≡ length text.now) }
{
    let mut items = Vec::new(alloc);
    for letter in text {
        items.push(item_of(*letter))?;
    }
    Ok(items)
}

fn are_at(ends: &[BreakAt], wanted: &[u32]) -> bool {
    if ends.len() != wanted.len() {
        return false;
    }
    for (end, wanted) in ends.iter().zip(wanted) {
        if end.0 != *wanted {
            return false;
        }
    }
    true
}

/// Returns whether the lines of a paragraph end at these places.
fn is_broken<L: Ledger>(
    alloc: Global,
    text: &[u8],
    wanted: &[u32],
    shape: &ParaShape,
    steps: &mut Steps<L>,
) -> Result<bool, Fail>
    requires shape_sound { IsSoundShape shape.now }
    requires few { length text.now ≤ 100 }
{
    let items = items_of(alloc, text, Dir::Yoko)?;
    an_end_keeps_items_sound();
    let items = end_paragraph(alloc, Items::from(items), FILL).or(Err("memory"))?;
    let ends = breaks(alloc, items.as_slice(), shape, steps).or(Err("refused"))?;
    Ok(are_at(&ends, wanted))
}

/// Returns the number of the first row, from 0, whose paragraph is broken elsewhere.
fn first_wrong<L: Ledger>(
    alloc: Global,
    rows: &[Row],
    shape: &ParaShape,
    steps: &mut Steps<L>,
) -> Result<Option<usize>, Fail>
    requires { IsSoundShape shape.now }
{
    for i in 0..rows.len() {
        let Row(text, ends) = &rows[i];
        if text.len() > 100 || !is_broken(alloc, text, ends, shape, steps)? {
            return Ok(Some(i));
        }
    }
    Ok(None)
}

/// Of a first pass whose tolerance is 1000.
const EARLY: ParaShape = ParaShape {
    hsize: Sp(50 * POINT),
    pretolerance: 1_000,
    tolerance: 10_000,
    ..PLAIN
};

const EARLY_ROWS: [Row; 10] = [
    Row(b"mmi mgi mgi i mgi m ", &[7, 17, 21]),
    Row(b"W m i mi i m_ mgi i m+", &[1, 12, 24]),
    Row(b"mi i~ mm i~ mmgm i i mg", &[8, 18, 24]),
    Row(b"mgm+m+mi i i m m m+i i ", &[10, 20, 24]),
    Row(b"i mmgim-mgi~ mm_ i i m+m", &[9, 20, 26]),
    Row(b"mgmi m!mgi mgi i mgm_ i ", &[6, 16, 25]),
    Row(b"mgmi mgm+m_ m_ mgi i ", &[8, 18, 22]),
    Row(b"m_ m mgi i mi mgm+m ", &[8, 17, 21]),
    Row(b"mgm m_ i mgm im-mi mm=i", &[8, 18, 25]),
    Row(b"m i mgm mgmgi m+mi im-", &[7, 15, 24]),
];

/// Of a second pass, with low demerits of lines that differ.
const LATE: ParaShape = ParaShape {
    pretolerance: 50,
    tolerance: 10_000,
    adj_demerits: 500,
    ..PLAIN
};

const LATE_ROWS: [Row; 10] = [
    Row(b"i m_ m!m m+m=im m", &[6, 10, 19]),
    Row(b"i~ mi i im-i i im-m!im-", &[7, 10, 19, 25]),
    Row(b"i~ mm+m_ m!m m m ", &[7, 10, 18]),
    Row(b"m+m_ m_ mi mgmm i~ mm", &[6, 10, 15, 23]),
    Row(b"m m+i m=im i m+mi im-mg", &[3, 12, 20, 24]),
    Row(b"m_ m mgm!m_ i ", &[6, 8, 15]),
    Row(b"m=im+mgm_ m!im-i~ mmg", &[4, 11, 22]),
    Row(b"m_ mgmi mgm m mi m=im ", &[7, 9, 16, 23]),
    Row(b"i~ mm+m mi mgi m=im!mm ", &[7, 14, 19, 24]),
    Row(b"mm mgim-mgm i~ mim-im-", &[4, 11, 18, 24]),
];

/// Of a last pass with 10pt more stretch a line, after one with `\tolerance` alone.
const STRETCHED: ParaShape = ParaShape {
    pretolerance: -1,
    emergency: Sp(10 * POINT),
    ..PLAIN
};

const STRETCHED_ROWS: [Row; 10] = [
    Row(b"mgm i~ mim-i i m+mi mgi ", &[3, 10, 19, 25]),
    Row(b"mgim-i m mgim-m=i", &[6, 13, 19]),
    Row(b"i~ mm i m+mmgm i ", &[7, 14, 18]),
    Row(b"i~ mi i mgm_ m+i mi m", &[7, 14, 23]),
    Row(b"i im-mgm m+i m_ mi m+mg", &[6, 14, 24]),
    Row(b"i m m+i m im-im-", &[5, 12, 18]),
    Row(b"i~ mm i~ mi im-i m i m ", &[5, 14, 24]),
    Row(b"i~ mim-m mgm!i i m i i ", &[6, 12, 24]),
    Row(b"mi mgmm m i i i m m m=i", &[4, 9, 17, 25]),
    Row(b"im-m mgi im-m_ i mmmi ", &[6, 16, 23]),
];

/// Of a pass that likes lines to differ, and shuns many lines.
const HEAVY: ParaShape = ParaShape {
    hsize: Sp(60 * POINT),
    pretolerance: -1,
    tolerance: 10_000,
    line_penalty: 50,
    adj_demerits: -300,
    ..PLAIN
};

const HEAVY_ROWS: [Row; 10] = [
    Row(b"mm+W mi m i~ m", &[2, 4, 16]),
    Row(b"W i~ mim-W m!m=iim-m+m+", &[1, 8, 10, 12, 25]),
    Row(b"i m!m=ii i i m m=ii~ mm ", &[3, 14, 25]),
    Row(b"mW mm=im+W m_ m mm ", &[2, 8, 10, 20]),
    Row(b"mgm!mgmi mm+m_ m+i W m=i", &[3, 13, 16, 20, 26]),
    Row(b"m i mmi mgW m mmi ", &[7, 11, 19]),
    Row(b"W m m m!mgi W m=imi mi ", &[1, 7, 9, 13, 24]),
    Row(b"m+m i mgmi~ mm_ W ", &[3, 14, 19]),
    Row(b"im-i~ mm_ i W m_ m=im+", &[8, 13, 24]),
    Row(b"i m+m m m!m mgm m+m=i", &[9, 17, 23]),
];

/// Worked by hand: the gaps of Japanese characters before one that begins no line, a rule that is
/// wider than the line, no items, no glue, and a forced break to which no line fits.
const WORKED_ROWS: [Row; 5] = [
    Row(b"mgmgmgm~gi", &[5, 12]),
    Row(b"m W m", &[3, 7]),
    Row(b" ", &[2]),
    Row(b"mm", &[4]),
    Row(b"mm!m", &[2, 6]),
];

/// Two walks of equal sums, of which the one with the later break counts.
const TIED_ROWS: [Row; 2] = [Row(b"m m mm", &[3, 8]), Row(b"m mgmm ", &[3, 8])];

fn wrong_rows<L: Ledger>(alloc: Global, blank: Blank) -> Result<[Option<usize>; 6], Fail>
    requires name { blank.name ≡ L.name }
    requires parts { blank.parts ≡ L.parts }
    requires some { 0 < blank.parts }
{
    let mut steps = Steps::<L>::new(blank);
    Ok([
        first_wrong(alloc, &EARLY_ROWS, &EARLY, &mut steps)?,
        first_wrong(alloc, &LATE_ROWS, &LATE, &mut steps)?,
        first_wrong(alloc, &STRETCHED_ROWS, &STRETCHED, &mut steps)?,
        first_wrong(alloc, &HEAVY_ROWS, &HEAVY, &mut steps)?,
        first_wrong(alloc, &WORKED_ROWS, &PLAIN, &mut steps)?,
        first_wrong(alloc, &TIED_ROWS, &LATE, &mut steps)?,
    ])
}

#[test]
fn breaks_are_those_of_least_demerits(rt: HostRuntime) -> Result<(), Fail> {
    assert_eq!(rt; wrong_rows::<Brand>(rt.alloc(), Blank::new(1))?, [None; 6]);
    Ok(())
}

const ENDLESS: Glue = Glue {
    shrink: Sp(1),
    shrink_order: Order::Fil,
    ..NONE
};

fn answer_to<L: Ledger>(alloc: Global, left: Glue, blank: Blank) -> Result<ParaFault, Fail>
    requires left { IsSoundGlue left }
    requires name { blank.name ≡ L.name }
    requires parts { blank.parts ≡ L.parts }
    requires some { 0 < blank.parts }
{
    let mut steps = Steps::<L>::new(blank);
    let items = items_of(alloc, b"m m", Dir::Yoko)?;
    an_end_keeps_items_sound();
    let items = end_paragraph(alloc, Items::from(items), FILL).or(Err("memory"))?;
    let shape = ParaShape { left, ..PLAIN };
    match breaks(alloc, items.as_slice(), &shape, &mut steps) {
        Ok(_) => Err(Fail::from("broken")),
        Err(fault) => Ok(fault),
    }
}

#[test]
fn glue_that_shrinks_without_end_is_refused(rt: HostRuntime) -> Result<(), Fail> {
    let fault = answer_to::<Brand>(rt.alloc(), ENDLESS, Blank::new(1))?;
    assert_eq!(rt; fault, ParaFault::InfiniteShrink);
    Ok(())
}
