//! How a file and a page begin and end.

ghost use Rattle.std.specs.Prelude.{◌≡◌, [], ◌+◌, ◌<◌, ◌≤◌, ◌^◌, ◌++◌, replicate, length, pos, OnOk};
ghost use Rattle.std.specs.Int.{w32};
ghost use Rattle.std.specs.Int.RustNames.{FitsSigned};
ghost use Rattle.std.specs.List.{All};
ghost use Rattle.dvi_commands.specs.Fields.{signed_bytes};
ghost use Rattle.dvi_writer.specs.Written.{KeptFits, HasNumbers, unit_bytes, preamble_bytes, bop_bytes, definition_bytes, definitions_bytes, post_bytes, id_of, post_post_bytes, end_bytes};

use crate::kept::Kept;
use crate::opcode;
use dvi_code::{FontDef, put_short, put_signed, put_unsigned};
use std::alloc::AllocError;

/// The identification of the format, which the preamble has.
const ID: u8 = 2;

/// The identification of a file with directions.
const TURNED_ID: u8 = 3;

/// The unit of a DVI file is one scaled point, as this fraction of 10^-7 m (TeX: The Program,
/// section 587).
const NUM: u32 = 25_400_000;

const DEN: u32 = 473_628_672;

/// The magnification, in thousandths.
const MAG: u32 = 1000;

#[tactic(auto, using(crate::proofs::Pieces::wrote_units))]
fn put_units(out: &mut Vec<u8>) -> Result<(), AllocError>
    ensures { OnOk result (out.new.items ≡ out.old.items ++ unit_bytes) }
{
    put_unsigned(out, NUM)?;
    put_unsigned(out, DEN)?;
    put_unsigned(out, MAG)
}

/// Puts the identification of the format, the units, and an empty comment.
#[tactic(auto, using(crate::proofs::Pieces::wrote_preamble))]
pub(crate) fn put_preamble(out: &mut Vec<u8>) -> Result<(), AllocError>
    ensures { OnOk result (out.new.items ≡ out.old.items ++ preamble_bytes) }
{
    out.extend_from_slice(&[opcode::PRE, ID])?;
    put_units(out)?;
    out.push(0)?;
    Ok(())
}

/// Puts the beginning of a page, with the place of the page before, -1 where there is none.
pub(crate) fn put_bop(out: &mut Vec<u8>, counts: &[i32; 10], back: i32) -> Result<(), AllocError>
    ensures bytes { OnOk result (out.new.items ≡ out.old.items ++ bop_bytes counts.now back) }
    ensures counts_fit { OnOk result (All (FitsSigned w32) counts.now) }
    ensures back_fits { FitsSigned w32 back }
{
    out.push(opcode::BOP)?;
    for count in counts {
        put_signed(out, *count)?;
    }
    put_signed(out, back)?;
    Ok(())
}

/// Puts the definition of a font, whose area is empty.
#[tactic(auto, using(crate::proofs::Pieces::wrote_definition))]
fn put_definition(out: &mut Vec<u8>, number: u8, font: &FontDef) -> Result<(), AllocError>
    ensures bytes { OnOk result (out.new.items ≡ out.old.items ++ definition_bytes number
        font.now) }
    ensures numbers { OnOk result (HasNumbers font.now) }
{
    let name = font.name.bytes();
    out.extend_from_slice(&[opcode::FNT_DEF1, number])?;
    put_unsigned(out, font.check_sum)?;
    put_unsigned(out, font.size)?;
    put_unsigned(out, font.design)?;
    out.extend_from_slice(&[0, name.len() as u8])?;
    out.extend_from_slice(name)
}

/// Puts the definitions of fonts under the numbers from the first on.
pub(crate) fn put_definitions(
    out: &mut Vec<u8>,
    fonts: &[FontDef],
    first: usize,
) -> Result<(), AllocError>
    requires { first + length fonts.now ≤ 256 }
    ensures bytes { OnOk result (out.new.items ≡ out.old.items ++ definitions_bytes first
        fonts.now) }
    ensures numbers { OnOk result (All HasNumbers fonts.now) }
{
    let mut number = first;
    for font in fonts {
        put_definition(out, number as u8, font)?;
        number += 1;
    }
    Ok(())
}

/// Puts the beginning of the postamble.
#[tactic(auto, using(crate::proofs::Pieces::wrote_post))]
fn put_post(out: &mut Vec<u8>, kept: &Kept) -> Result<(), AllocError>
    ensures bytes { OnOk result (out.new.items ≡ out.old.items ++ post_bytes kept.now) }
    ensures fit { OnOk result (KeptFits kept.now) }
{
    out.push(opcode::POST)?;
    put_signed(out, kept.last)?;
    put_units(out)?;
    put_unsigned(out, kept.high)?;
    put_unsigned(out, kept.wide)?;
    put_short(out, 0)?;
    put_short(out, kept.pages)
}

/// Puts the end of the postamble, which stands after so many bytes.
#[tactic(auto, using(crate::proofs::Pieces::wrote_post_post))]
fn put_post_post(out: &mut Vec<u8>, kept: &Kept) -> Result<(), AllocError>
    requires { kept.now.given < 2 ^ 31 }
    ensures { OnOk result (out.new.items ≡ out.old.items ++ post_post_bytes kept.now.given
        kept.now.turned) }
{
    out.push(opcode::POST_POST)?;
    put_place(out, kept.given)?;
    out.push(id_of(kept.turned))?;
    Ok(())
}

fn put_place(out: &mut Vec<u8>, place: usize) -> Result<(), AllocError>
    requires { place < 2 ^ 31 }
    ensures { OnOk result (out.new.items ≡ out.old.items ++ signed_bytes (pos place)) }
{
    put_signed(out, place as i32)
}

fn id_of(turned: bool) -> u8
    ensures { result ≡ id_of turned }
{
    if turned { TURNED_ID } else { ID }
}

fn put_fill(out: &mut Vec<u8>, count: usize) -> Result<(), AllocError>
    ensures { OnOk result (out.new.items ≡ out.old.items ++ replicate count 223) }
{
    for _ in 0..count {
        out.push(opcode::FILL)?;
    }
    Ok(())
}

/// Puts the end of a file that has a page.
pub(crate) fn put_end(out: &mut Vec<u8>, kept: &Kept, fonts: &[FontDef]) -> Result<(), AllocError>
    requires given { kept.now.given < 2 ^ 31 }
    requires few { length fonts.now ≤ 256 }
    requires some { 1 ≤ kept.now.pages }
    requires empty { out.old.items ≡ [] }
    ensures bytes { OnOk result (out.new.items ≡ end_bytes kept.now fonts.now) }
    ensures numbers { OnOk result (All HasNumbers fonts.now) }
    ensures fit { OnOk result (KeptFits kept.now) }
{
    put_post(out, kept)?;
    put_definitions(out, fonts, 0)?;
    put_post_post(out, kept)?;
    // At least four, up to a multiple of four.
    put_fill(out, 7 - (kept.given + out.len() + 3) % 4)?;
    Ok(())
}
