//! Boxes that are shipped to a sink that takes one byte at a time, and to one that fails.

ghost use Rattle.std.specs.Prelude.{◌≡◌, IfOk, List, [], Some};
ghost use Rattle.ts_geometry.specs.declared.direction.Dir.{Dir};
ghost use Rattle.ts_geometry.specs.Numbers.{IsWithin};
ghost use Rattle.box_tree.specs.Nodes.{tree_item};
ghost use Rattle.box_tree.specs.Sound.{IsSound, IsSoundItem};
ghost use Rattle.box_marks.specs.Glyphs.{IsBelow, ItemMeets, FontsAreBelow};
ghost use Rattle.dvi_writer.specs.Reading.{Asked};
ghost use Rattle.shipping.specs.Boxes.{last_table};
ghost use Rattle.shipping.specs.Standing.{Took};

use crate::{PageShipper, ShipFault, Shipper};
use box_tree::{BoxFault, BoxKind, BoxNode, Item, Items, SetGlue, SharedBox};
use dvi_code::{FontDef, Widths, read_pages};
use dvi_writer::FontTable;
use std::alloc::Global;
use std::test::Fail;
use ts_geometry::{Dir, Measures, Sp};
use ts_outside::MemSink;

/// No font is there.
struct NoWidths;

impl Widths for NoWidths {
    ghost use Rattle.std.specs.Prelude.{None};

    ghost width_of = { λ widths font code. None };

    fn width(&self, _font: &FontDef, _code: u32) -> Option<Sp> {
        None
    }
}

fn rule(height: i64) -> Item
    requires { IsWithin 1073741823 height }
    ensures sound { IsSoundItem Dir.Yoko (tree_item result) }
    ensures fonts { ItemMeets (IsBelow 0) (tree_item result) }
{
    Item::Rule {
        wd: Some(Sp(1)),
        ht: Some(Sp(height)),
        dp: Some(Sp(0)),
    }
}

/// Returns a box of a rule of this height.
fn ruled(alloc: Global, height: i64) -> Result<SharedBox, BoxFault>
    requires { IsWithin 1073741823 height }
    ensures sound { IfOk result (λ node. IsSound node) }
    ensures fonts { IfOk result (λ node. FontsAreBelow 0 node) }
{
    let mut items = Items::new(alloc);
    items.push(rule(height))?;
    let node = BoxNode {
        kind: BoxKind::Horizontal,
        dir: Dir::Yoko,
        size: Measures {
            wd: Sp(1),
            ht: Sp(height),
            dp: Sp(0),
        },
        set: SetGlue::Plain,
        items,
    };
    SharedBox::new(alloc, node)
}

/// Ships a box of a rule of this height, with no fonts.
fn ship_rule(
    alloc: Global,
    shipper: &mut PageShipper<MemSink>,
    height: i64,
) -> Result<(), ShipFault>
    requires height { IsWithin 1073741823 height }
    requires stands { (boxes : List Asked) × Took (Some shipper.old.out.now.bytes)
        shipper.old.writer shipper.old.put shipper.old.broken boxes × (last_table boxes ≡ []) }
    ensures stands { (boxes : List Asked) × Took (Some shipper.new.out.now.bytes)
        shipper.new.writer shipper.new.put shipper.new.broken boxes × (last_table boxes ≡ []) }
{
    match ruled(alloc, height) {
        Ok(node) => shipper.ship(&node, &[0; 10], &FontTable::new(alloc)),
        Err(_) => Err(ShipFault::NoMemory),
    }
}

type Answer = Result<(), ShipFault>;

/// Returns what a shipper answers to a rule of height 5, to one of another height, and at its end,
/// with the number of bytes that the sink holds and how many pages they are.
fn answers(alloc: Global, mut sink: MemSink, other: i64) -> (Answer, Answer, Answer, usize, usize)
    requires { IsWithin 1073741823 other }
{
    let mut shipper = PageShipper::new(alloc, &mut sink);
    let first = ship_rule(alloc, &mut shipper, 5);
    let second = ship_rule(alloc, &mut shipper, other);
    let end = shipper.finish();
    let pages = match read_pages(alloc, sink.bytes(), &NoWidths) {
        Ok(pages) => pages.len(),
        Err(_) => 0,
    };
    (first, second, end, sink.bytes().len(), pages)
}

#[test]
fn pages_are_put_one_by_one(rt: HostRuntime) -> Result<(), Fail> {
    let alloc = rt.alloc();
    let mut cuts = Vec::new(alloc);
    cuts.push(1)?;
    let cut = MemSink::new(alloc, cuts, Vec::new(alloc));
    let (first, second, end, bytes, pages) = answers(alloc, cut, 1_073_741_823);
    assert_eq!(rt; first, Ok(()));
    assert_eq!(rt; second, Err(ShipFault::PlaceRange));
    assert_eq!(rt; end, Ok(()));
    assert_eq!(rt; bytes, 112);
    assert_eq!(rt; pages, 1);
    Ok(())
}

/// What is answered where the put of a number fails, with the bytes and the pages that are put.
const WITH_A_FAILED_PUT: [(Answer, Answer, Answer, usize, usize); 4] = [
    (
        Err(ShipFault::SinkFault),
        Err(ShipFault::NoMemory),
        Err(ShipFault::NoMemory),
        0,
        0,
    ),
    (
        Ok(()),
        Err(ShipFault::SinkFault),
        Err(ShipFault::NoMemory),
        73,
        0,
    ),
    (Ok(()), Ok(()), Err(ShipFault::SinkFault), 131, 0),
    (Ok(()), Ok(()), Ok(()), 172, 2),
];

#[test]
fn nothing_is_put_after_a_failed_put(rt: HostRuntime) -> Result<(), Fail> {
    let alloc = rt.alloc();
    for k in 0..4 {
        let mut fails = Vec::new(alloc);
        fails.push(k as u64)?;
        let sink = MemSink::new(alloc, Vec::new(alloc), fails);
        assert_eq!(rt; answers(alloc, sink, 7), WITH_A_FAILED_PUT[k]);
    }
    Ok(())
}
