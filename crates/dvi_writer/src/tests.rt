//! Pages that are written and read back.

ghost use Rattle.std.specs.Prelude.{◌≡◌, ◌<◌, ◌++◌, ◌≤◌, List, ℕ, pos, true, IfOk, OnOk, All, length};
ghost use Rattle.ts_geometry.specs.declared.direction.Dir.{Dir};
ghost use Rattle.ts_geometry.specs.Crossings.{measures};
ghost use Rattle.ts_geometry.specs.Numbers.{IsWithin};
ghost use Rattle.dvi_commands.specs.declared.font.FontDef.{FontDef};
ghost use Rattle.dvi_structure.specs.Structure.{is_sound_font};
ghost use Rattle.box_tree.specs.Nodes.{tree_item};
ghost use Rattle.box_tree.specs.Trees.{size_of, dir_of};
ghost use Rattle.box_tree.specs.Sound.{IsSound, IsSoundItem};
ghost use Rattle.box_marks.specs.Glyphs.{IsBelow, ItemMeets, FontsAreBelow};
ghost use Rattle.dvi_writer.specs.Tables.{known};

use crate::{FontTable, WriteFault, Writer};
use box_tree::{BoxFault, BoxKind, BoxNode, FontNo, Item, Items, KernFrom, SetGlue, SharedBox};
use dvi_code::laws::short_names_are_sound;
use dvi_code::{DviPage, FontDef, What, Widths, read_pages};
use jis_codes::Cell;
use std::alloc::Global;
use std::test::Fail;
use ts_base::NoMemory;
use ts_geometry::{Dir, Measures, Sp, seen};
use ts_outside::{FileName, NameFault};

/// The measures of the characters and of the boxes.
const SIZE: Measures = Measures {
    wd: Sp(655_360),
    ht: Sp(573_440),
    dp: Sp(81_920),
};

/// Every character is as wide as 10 pt.
struct TenPoints;

impl Widths for TenPoints {
    ghost use Rattle.std.specs.Prelude.{Some, pos};
    ghost use Rattle.ts_geometry.specs.Directions.{sp};

    ghost width_of = { λ widths font code. Some (sp (pos 655360)) };

    fn width(&self, _font: &FontDef, _code: u32) -> Option<Sp> {
        Some(Sp(655_360))
    }
}

fn character(cell: Cell, font: u8) -> Item
    ensures sound { (dir : Dir) → IsSoundItem dir (tree_item result) }
    ensures fonts { (n : ℕ) → font < n → ItemMeets (IsBelow n) (tree_item result) }
{
    Item::Kanji {
        font: FontNo(font),
        cell,
        size: SIZE,
        kind: 16,
    }
}

fn kern(width: i64) -> Item
    requires { IsWithin 1073741823 width }
    ensures sound { (dir : Dir) → IsSoundItem dir (tree_item result) }
    ensures fonts { (n : ℕ) → ItemMeets (IsBelow n) (tree_item result) }
{
    Item::Kern {
        width: Sp(width),
        from: KernFrom::Given,
    }
}

fn rule(wd: i64, ht: i64, dp: i64) -> Item
    requires wd { IsWithin 1073741823 wd }
    requires ht { IsWithin 1073741823 ht }
    requires dp { IsWithin 1073741823 dp }
    ensures sound { (dir : Dir) → IsSoundItem dir (tree_item result) }
    ensures fonts { (n : ℕ) → ItemMeets (IsBelow n) (tree_item result) }
{
    Item::Rule {
        wd: Some(Sp(wd)),
        ht: Some(Sp(ht)),
        dp: Some(Sp(dp)),
    }
}

/// Returns a box of two items with fonts below a number.
fn pair(alloc: Global, dir: Dir, fonts: usize, a: Item, b: Item) -> Result<SharedBox, BoxFault>
    requires a_sound { IsSoundItem dir (tree_item a) }
    requires b_sound { IsSoundItem dir (tree_item b) }
    requires a_fonts { ItemMeets (IsBelow fonts) (tree_item a) }
    requires b_fonts { ItemMeets (IsBelow fonts) (tree_item b) }
    ensures sound { IfOk result (λ node. IsSound node) }
    ensures fonts { IfOk result (λ node. FontsAreBelow fonts node) }
    ensures dir { IfOk result (λ node. dir_of node ≡ dir) }
    ensures size { IfOk result (λ node. size_of node ≡ measures (pos 655360) (pos 573440)
        (pos 81920)) }
{
    let mut items = Items::new(alloc);
    items.push(a)?;
    items.push(b)?;
    let node = BoxNode {
        kind: BoxKind::Horizontal,
        dir,
        size: SIZE,
        set: SetGlue::Plain,
        items,
    };
    SharedBox::new(alloc, node)
}

/// Returns a box as an item of a list in yoko.
fn crossed(node: SharedBox) -> Item
    requires sound { IsSound node }
    requires dir { dir_of node ≡ Dir.Tate }
    requires size { size_of node ≡ measures (pos 655360) (pos 573440) (pos 81920) }
    ensures sound { IsSoundItem Dir.Yoko (tree_item result) }
    ensures fonts { (n : ℕ) → FontsAreBelow n node → ItemMeets (IsBelow n) (tree_item result) }
{
    let seen = seen(SIZE, Dir::Tate, Dir::Yoko);
    Item::Crossed {
        node,
        shift: Sp(0),
        seen,
    }
}

fn font(alloc: Global, name: &[u8]) -> Result<FontDef, NameFault>
    requires { length name.now ≤ 8 }
    ensures { IfOk result (λ f. is_sound_font f ≡ true) }
{
    short_names_are_sound();
    let name = FileName::new(alloc, name)?;
    let _bytes = name.bytes();
    Ok(FontDef {
        number: 0,
        check_sum: 0,
        size: 655_360,
        design: 655_360,
        name,
    })
}

/// Returns what a page shows: of each mark the code, or the height of a rule, the point and the
/// direction.
fn shown(alloc: Global, page: &DviPage) -> Result<Vec<(i64, i64, i64, Dir)>, NoMemory> {
    let mut shown = Vec::new(alloc);
    for mark in page.marks.as_slice() {
        let what = match &mark.what {
            What::Glyph(_, _, code) => i64::from(*code),
            What::Rule(height, _) => height.0,
        };
        shown.push((what, mark.at.x.0, mark.at.y.0, mark.dir))?;
    }
    Ok(shown)
}

/// Returns a table of a font, and then of two.
fn one_font(alloc: Global) -> Result<FontTable, NameFault>
    ensures one { IfOk result (λ fonts. length fonts ≡ 1) }
    ensures sound { IfOk result (λ fonts. All (λ f. is_sound_font f ≡ true) fonts) }
{
    let mut fonts = FontTable::new(alloc);
    fonts.push(font(alloc, b"ja10")?)?;
    Ok(fonts)
}

fn with_another(alloc: Global, fonts: &mut FontTable) -> Result<(), NameFault>
    requires one { length fonts.old ≡ 1 }
    requires sound { All (λ f. is_sound_font f ≡ true) fonts.old }
    ensures two { OnOk result (length fonts.new ≡ 2) }
    ensures sound { OnOk result (All (λ f. is_sound_font f ≡ true) fonts.new) }
    ensures begins { OnOk result ((more : List FontDef)
        × (known fonts.new ≡ known fonts.old ++ more)) }
{
    fonts.push(font(alloc, b"jt10")?)?;
    Ok(())
}

#[test]
fn pages_come_back_with_their_fonts(rt: HostRuntime) -> Result<(), Fail> {
    let alloc = rt.alloc();
    let a = Cell::new(4, 2).expect(&rt, "a cell");
    let b = Cell::new(20, 33).expect(&rt, "a cell");
    let first = pair(alloc, Dir::Yoko, 1, character(a, 0), character(a, 0)).expect(&rt, "memory");
    let second = pair(alloc, Dir::Tate, 2, character(b, 1), kern(-5)).expect(&rt, "memory");
    let mut fonts = one_font(alloc).expect(&rt, "memory");
    let mut writer = Writer::new(alloc);
    let mut file = writer.page(&first, &[0; 10], &fonts).expect(&rt, "memory");
    with_another(alloc, &mut fonts).expect(&rt, "memory");
    let more = writer.page(&second, &[7; 10], &fonts).expect(&rt, "memory");
    let end = writer.finish().expect(&rt, "memory");
    file.extend_from_slice(&more)?;
    file.extend_from_slice(&end)?;
    let pages = read_pages(alloc, &file, &TenPoints).expect(&rt, "a file");
    assert_eq!(rt; pages.len(), 2);
    let page = &pages.as_slice()[0];
    assert_eq!(rt;
        shown(alloc, page).expect(&rt, "memory").as_slice(),
        [
            (0x2422, 0, 573_440, Dir::Yoko),
            (0x2422, 655_360, 573_440, Dir::Yoko)
        ]
        .as_slice()
    );
    let page = &pages.as_slice()[1];
    assert_eq!(rt; page.counts[9], 7);
    assert_eq!(rt;
        shown(alloc, page).expect(&rt, "memory").as_slice(),
        [(0x3441, 81_920, 0, Dir::Tate)].as_slice()
    );
    Ok(())
}

/// Returns why the page of a box of two items is refused, if it is.
fn refusal(alloc: Global, a: Item, b: Item) -> Result<Option<WriteFault>, BoxFault>
    requires a_sound { IsSoundItem Dir.Yoko (tree_item a) }
    requires b_sound { IsSoundItem Dir.Yoko (tree_item b) }
    requires a_fonts { ItemMeets (IsBelow 0) (tree_item a) }
    requires b_fonts { ItemMeets (IsBelow 0) (tree_item b) }
{
    let node = pair(alloc, Dir::Yoko, 0, a, b)?;
    let mut writer = Writer::new(alloc);
    Ok(writer.page(&node, &[0; 10], &FontTable::new(alloc)).err())
}

/// Returns whether the page of a rule at this place, of this height and this depth, is refused for
/// its range.
fn is_refused(alloc: Global, x: i64, height: i64, depth: i64) -> bool
    requires x { IsWithin 1073741823 x }
    requires height { IsWithin 1073741823 height }
    requires depth { IsWithin 1073741823 depth }
{
    matches!(
        refusal(alloc, kern(x), rule(1, height, depth)),
        Ok(Some(WriteFault::PlaceRange))
    )
}

#[test]
fn places_and_rules_have_their_range(rt: HostRuntime) {
    let alloc = rt.alloc();
    assert!(rt; !is_refused(alloc, 536_870_911, 1, 0));
    assert!(rt; is_refused(alloc, 536_870_912, 1, 0));
    assert!(rt; is_refused(alloc, -536_870_912, 1, 0));
    assert!(rt; !is_refused(alloc, 0, 1_073_741_823, 0));
    assert!(rt; is_refused(alloc, 0, 1_073_741_823, 1));
    assert!(rt; !is_refused(alloc, 0, 1_073_741_823, -1_073_741_823));
}

/// Returns the file of the page of a box.
fn file_of(alloc: Global, node: &SharedBox, fonts: &FontTable) -> Result<Vec<u8>, WriteFault>
    requires sound { IsSound node.now }
    requires fonts_there { FontsAreBelow (length fonts.now) node.now }
    requires fonts_sound { All (λ f. is_sound_font f ≡ true) fonts.now }
{
    let mut writer = Writer::new(alloc);
    let mut file = writer.page(node, &[0; 10], fonts)?;
    let end = writer.finish()?;
    file.extend_from_slice(&end)?;
    Ok(file)
}

#[test]
fn a_crossed_box_is_marked_in_its_own_direction(rt: HostRuntime) {
    let alloc = rt.alloc();
    let cell = Cell::new(20, 33).expect(&rt, "a cell");
    let fonts = one_font(alloc).expect(&rt, "memory");
    let inner = pair(alloc, Dir::Tate, 1, character(cell, 0), rule(3, 4, 5)).expect(&rt, "memory");
    let node = pair(alloc, Dir::Yoko, 1, character(cell, 0), crossed(inner)).expect(&rt, "memory");
    let file = file_of(alloc, &node, &fonts).expect(&rt, "memory");
    let pages = read_pages(alloc, &file, &TenPoints).expect(&rt, "a file");
    assert_eq!(rt; pages.len(), 1);
    assert_eq!(rt;
        shown(alloc, &pages.as_slice()[0])
            .expect(&rt, "memory")
            .as_slice(),
        [
            (0x3441, 0, 573_440, Dir::Yoko),
            (0x3441, 737_280, -81_920, Dir::Tate),
            (9, 737_275, 573_440, Dir::Tate),
        ]
        .as_slice()
    );
}
