//! The bytes of a page.

ghost use Rattle.std.specs.Prelude.{◌≡◌, ◌≤◌, ◌++◌, ◌∷◌, [], length, drop, OnOk, IfOk, IfErr};
ghost use Rattle.std.specs.Int.{w32};
ghost use Rattle.std.specs.Int.RustNames.{FitsSigned};
ghost use Rattle.std.specs.List.{All};
ghost use Rattle.box_tree.specs.Sound.{IsSound};
ghost use Rattle.box_marks.specs.Marks.{page_placed};
ghost use Rattle.dvi_writer.specs.Pages.{IsPage};
ghost use Rattle.dvi_writer.specs.Written.{HasNumbers, bop_bytes, opening_bytes, front_bytes};
ghost use Rattle.dvi_writer.specs.Wrote.{Refuses};

use crate::ends::{put_bop, put_definitions, put_preamble};
use crate::fault::WriteFault;
use crate::hand::Hand;
use crate::kept::Kept;
use crate::opcode;
use crate::pen::Pen;
use crate::walk::put_box;
use box_marks::page_point;
use box_tree::SharedBox;
use box_tree::laws::sound_places_are_near;
use dvi_code::FontDef;
use std::alloc::{AllocError, Global};

/// A page that was written: its bytes, and whether a direction is among them.
#[derive(Debug, Drop)]
pub(crate) struct Page {
    pub(crate) out: Vec<u8>,
    pub(crate) turned: bool,
}

/// Returns the page of a box and of ten counts, with the fonts of a table of which so many are
/// defined.
pub(crate) fn page_of(
    alloc: Global,
    kept: &Kept,
    defined: usize,
    node: &SharedBox,
    counts: &[i32; 10],
    table: &[FontDef],
) -> Result<Page, WriteFault>
    requires sound { IsSound node.now }
    requires defined { defined ≤ length table.now }
    requires few { length table.now ≤ 256 }
    ensures ok { IfOk result (λ page. IsPage kept.now defined node.now counts.now table.now
        page.out.items page.turned) }
    ensures err { IfErr result (λ fault. Refuses fault (page_placed node.now)) }
{
    sound_places_are_near();
    // Its limit bounds the places of the box.
    let _weight = node.weight();
    let mut out = Vec::new(alloc);
    put_front(&mut out, kept, defined, counts, table)?;
    let hand = Hand::new();
    let mut pen = Pen { out, hand };
    put_box(&mut pen, node, page_point(node))?;
    let Pen { mut out, hand } = pen;
    put_eop(&mut out)?;
    Ok(Page {
        out,
        turned: hand.turned,
    })
}

/// Puts what stands before what a page marks.
fn put_front(
    out: &mut Vec<u8>,
    kept: &Kept,
    defined: usize,
    counts: &[i32; 10],
    table: &[FontDef],
) -> Result<(), AllocError>
    requires defined { defined ≤ length table.now }
    requires few { length table.now ≤ 256 }
    ensures bytes { OnOk result (out.new.items
        ≡ out.old.items ++ front_bytes kept.now counts.now defined table.now) }
    ensures numbers { OnOk result (All HasNumbers (drop defined table.now)) }
    ensures counts_fit { OnOk result (All (FitsSigned w32) counts.now) }
    ensures last_fits { OnOk result (FitsSigned w32 kept.now.last) }
{
    put_opening(out, kept)?;
    put_bop_after(out, counts, kept)?;
    put_definitions(out, &table[defined..], defined)?;
    Ok(())
}

fn put_opening(out: &mut Vec<u8>, kept: &Kept) -> Result<(), AllocError>
    ensures { OnOk result (out.new.items ≡ out.old.items ++ opening_bytes kept.now) }
{
    if kept.pages == 0 {
        put_preamble(out)?;
    }
    Ok(())
}

fn put_eop(out: &mut Vec<u8>) -> Result<(), AllocError>
    ensures { OnOk result (out.new.items ≡ out.old.items ++ 140 ∷ []) }
{
    out.push(opcode::EOP)?;
    Ok(())
}

/// Puts the beginning of a page, with the place of the page before.
fn put_bop_after(out: &mut Vec<u8>, counts: &[i32; 10], kept: &Kept) -> Result<(), AllocError>
    ensures bytes { OnOk result (out.new.items
        ≡ out.old.items ++ bop_bytes counts.now kept.now.last) }
    ensures counts_fit { OnOk result (All (FitsSigned w32) counts.now) }
    ensures last_fits { OnOk result (FitsSigned w32 kept.now.last) }
{
    put_bop(out, counts, kept.last)
}
