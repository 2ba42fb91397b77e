//! The pieces of a DVI file.

ghost use Rattle.std.specs.Prelude.{◌≡◌, ◌++◌, replicate, OnOk};
ghost use Rattle.ts_job.specs.Written.{preamble_bytes, bop_bytes, definition_bytes, post_bytes, post_post_bytes, unit_bytes, HasNumbers};

use crate::writer::opcode;
use dvi_code::{FontDef, put_short, put_signed, put_unsigned};
use std::alloc::AllocError;

/// The identification of the format.
const ID: u8 = 2;
/// The unit of a DVI file is one scaled point, as this fraction of 10^-7 m (TeX: The Program,
/// section 587).
const NUM: u32 = 25_400_000;

const DEN: u32 = 473_628_672;
/// The magnification, in thousandths.
const MAG: u32 = 1000;
/// The place of the page, after the preamble.
const PAGE: i32 = 15;

#[tactic(auto, using(crate::proofs::Puts::wrote_units))]
fn put_units(out: &mut Vec<u8>) -> Result<(), AllocError>
    ensures { OnOk result (out.new.items ≡ out.old.items ++ unit_bytes) }
{
    put_unsigned(out, NUM)?;
    put_unsigned(out, DEN)?;
    put_unsigned(out, MAG)
}

/// The identification of the format, the units, and an empty comment.
#[tactic(auto, using(crate::proofs::Puts::wrote_preamble))]
pub(crate) fn put_preamble(out: &mut Vec<u8>) -> Result<(), AllocError>
    ensures { OnOk result (out.new.items ≡ out.old.items ++ preamble_bytes) }
{
    out.extend_from_slice(&[opcode::PRE, ID])?;
    put_units(out)?;
    out.push(0)?;
    Ok(())
}

/// The beginning of the first page, whose ten counts are 0.
#[tactic(auto, using(crate::proofs::Puts::wrote_bop))]
pub(crate) fn put_bop(out: &mut Vec<u8>) -> Result<(), AllocError>
    ensures { OnOk result (out.new.items ≡ out.old.items ++ bop_bytes) }
{
    out.push(opcode::BOP)?;
    out.extend_from_slice(&[0; 40])?;
    put_signed(out, -1)
}

/// The definition of font 0, whose area is empty.
#[tactic(auto, using(crate::proofs::Puts::wrote_definition))]
pub(crate) fn put_definition(out: &mut Vec<u8>, font: &FontDef) -> Result<(), AllocError>
    ensures bytes { OnOk result (out.new.items ≡ out.old.items ++ definition_bytes font.now) }
    ensures numbers { OnOk result (HasNumbers font.now) }
{
    let name = font.name.bytes();
    out.extend_from_slice(&[opcode::FNT_DEF1, 0])?;
    put_unsigned(out, font.check_sum)?;
    put_unsigned(out, font.size)?;
    put_unsigned(out, font.design)?;
    out.extend_from_slice(&[0, name.len() as u8])?;
    out.extend_from_slice(name)
}

/// The beginning of the postamble: the greatest height with depth and the greatest width of a page.
/// At most one position was pushed at once.
#[tactic(auto, using(crate::proofs::Puts::wrote_post))]
pub(crate) fn put_post(out: &mut Vec<u8>, high: u32, wide: u32) -> Result<(), AllocError>
    ensures { OnOk result (out.new.items ≡ out.old.items ++ post_bytes high wide) }
{
    out.push(opcode::POST)?;
    put_signed(out, PAGE)?;
    put_units(out)?;
    put_unsigned(out, high)?;
    put_unsigned(out, wide)?;
    put_short(out, 1)?;
    put_short(out, 1)
}

/// The end of the postamble, which stands at a place.
#[tactic(auto, using(crate::proofs::Puts::wrote_post_post))]
pub(crate) fn put_post_post(out: &mut Vec<u8>, post: i32) -> Result<(), AllocError>
    ensures { OnOk result (out.new.items ≡ out.old.items ++ post_post_bytes post) }
{
    out.push(opcode::POST_POST)?;
    put_signed(out, post)?;
    out.push(ID)?;
    Ok(())
}

pub(crate) fn put_fill(out: &mut Vec<u8>, count: usize) -> Result<(), AllocError>
    ensures { OnOk result (out.new.items ≡ out.old.items ++ replicate count 223) }
{
    for _ in 0..count {
        out.push(opcode::FILL)?;
    }
    Ok(())
}
