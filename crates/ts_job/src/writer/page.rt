//! The page and the file.

ghost use Rattle.std.specs.Prelude.{◌≡◌, ◌<◌, ◌^◌, ◌++◌, [], ◌∷◌, pos, true, length, Ok, OnOk, IfOk};
ghost use Rattle.std.specs.List.{All, flat_map};
ghost use Rattle.dvi_structure.specs.Structure.{is_sound_font};
ghost use Rattle.dvi_code.specs.Pages.{Widths, file_pages};
ghost use Rattle.ts_job.specs.Written.{right_bytes, down_bytes, set_bytes, glyph_bytes, page_bytes, end_bytes, file_bytes, HasNumbers};
ghost use Rattle.ts_geometry.specs.Numbers.{IsWithin};
ghost use Rattle.ts_job.specs.Meant.{max_coordinate, FitsGlyph, HasWidths, page_meant};

use crate::writer::opcode;
use crate::writer::piece::{
    put_bop, put_definition, put_fill, put_post, put_post_post, put_preamble,
};
use dvi_code::laws::{
    bodies_lead_on, bytes_lead_on, commands_draw, commands_draw_on, commands_lead,
    the_last_is_placed,
};
use dvi_code::{FontDef, put_short, put_signed};
use dvi_commands::laws::{bytes_say_commands, spellings_join};
use std::alloc::{AllocError, Global};
use ts_geometry::{Point, Sp};

/// A glyph of the page's font: its code, and its place on the page.
#[derive(Clone, Copy, Debug, PartialEq, Eq)]
pub(crate) struct Glyph {
    pub(crate) code: u16,
    pub(crate) at: Point,
}

fn put_right(out: &mut Vec<u8>, along: Sp) -> Result<(), AllocError>
    requires { IsWithin max_coordinate along.0 }
    ensures { OnOk result (out.new.items ≡ out.old.items ++ right_bytes along) }
{
    out.push(opcode::RIGHT4)?;
    put_signed(out, along.0 as i32)
}

fn put_down(out: &mut Vec<u8>, across: Sp) -> Result<(), AllocError>
    requires { IsWithin max_coordinate across.0 }
    ensures { OnOk result (out.new.items ≡ out.old.items ++ down_bytes across) }
{
    out.push(opcode::DOWN4)?;
    put_signed(out, across.0 as i32)
}

fn put_set(out: &mut Vec<u8>, code: u16) -> Result<(), AllocError>
    ensures { OnOk result (out.new.items ≡ out.old.items ++ set_bytes code) }
{
    out.push(opcode::SET2)?;
    put_short(out, code)
}

#[tactic(auto, using(crate::proofs::Puts::wrote_glyph))]
fn put_glyph(out: &mut Vec<u8>, glyph: &Glyph) -> Result<(), AllocError>
    requires { FitsGlyph glyph.now }
    ensures { OnOk result (out.new.items ≡ out.old.items ++ glyph_bytes glyph.now) }
{
    out.push(opcode::PUSH)?;
    put_right(out, glyph.at.x)?;
    put_down(out, glyph.at.y)?;
    put_set(out, glyph.code)?;
    out.push(opcode::POP)?;
    Ok(())
}

fn put_glyphs(out: &mut Vec<u8>, glyphs: &[Glyph]) -> Result<(), AllocError>
    requires { All FitsGlyph glyphs.now }
    ensures { OnOk result (out.new.items ≡ out.old.items ++ flat_map glyph_bytes glyphs.now) }
{
    for glyph in glyphs {
        put_glyph(out, glyph)?;
    }
    Ok(())
}

#[tactic(auto, using(crate::proofs::Puts::wrote_page))]
fn put_page(out: &mut Vec<u8>, font: &FontDef, glyphs: &[Glyph]) -> Result<(), AllocError>
    requires { All FitsGlyph glyphs.now }
    ensures bytes { OnOk result (out.new.items ≡ out.old.items ++ page_bytes font.now glyphs.now) }
    ensures numbers { OnOk result (HasNumbers font.now) }
{
    put_bop(out)?;
    put_definition(out, font)?;
    out.push(opcode::FNT_NUM_0)?;
    put_glyphs(out, glyphs)?;
    out.push(opcode::EOP)?;
    Ok(())
}

fn put_end(out: &mut Vec<u8>, font: &FontDef, high: u32, wide: u32) -> Result<(), AllocError>
    requires { length out.old.items < 2 ^ 31 }
    ensures { OnOk result (out.new.items
        ≡ out.old.items ++ end_bytes font.now (length out.old.items) high wide) }
{
    let post = out.len() as i32;
    put_post(out, high, wide)?;
    put_definition(out, font)?;
    put_post_post(out, post)?;
    // At least four, up to a multiple of four.
    put_fill(out, 7 - (out.len() + 3) % 4)?;
    Ok(())
}

/// The DVI file of one page with ten counts of 0 that sets glyphs of one font in yoko (The TeXbook,
/// chapter 23; TeX: The Program, sections 583 to 591). `high` is the page's height with depth, and
/// `wide` its width, in scaled points.
pub(crate) fn dvi_of(
    alloc: Global,
    font: &FontDef,
    glyphs: &[Glyph],
    high: u32,
    wide: u32,
) -> Result<Vec<u8>, AllocError>
    requires number { font.now.number ≡ pos 0 }
    requires sound { is_sound_font font.now ≡ true }
    requires few { length glyphs.now < 2 ^ 16 }
    requires fit { All FitsGlyph glyphs.now }
    ensures bytes { IfOk result (λ v. v.items ≡ file_bytes font.now glyphs.now high wide) }
    ensures pages { IfOk result (λ v. (widths : Widths) → HasWidths widths font.now glyphs.now
        → file_pages widths v.items ≡ Ok (page_meant font.now glyphs.now ∷ [])) }
{
    bytes_say_commands();
    spellings_join();
    commands_lead();
    bytes_lead_on();
    bodies_lead_on();
    the_last_is_placed();
    commands_draw();
    commands_draw_on();
    let mut out = Vec::new(alloc);
    put_preamble(&mut out)?;
    put_page(&mut out, font, glyphs)?;
    put_end(&mut out, font, high, wide)?;
    Ok(out)
}
