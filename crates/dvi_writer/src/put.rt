//! Commands of a page at the end of the bytes.

ghost use Rattle.std.specs.Prelude.{◌≡◌, ◌<◌, ◌++◌, [], ◌∷◌, pos, IsTrue, true, OnOk};
ghost use Rattle.byteorder.specs.Endian.{big_bytes};
ghost use Rattle.ts_geometry.specs.Numbers.{IsWithin};
ghost use Rattle.dvi_commands.specs.Commands as c;
ghost use Rattle.dvi_commands.specs.Fields.{with_sign, signed_bytes};
ghost use Rattle.box_marks.specs.Bounds.{IsSoundPiece};
ghost use Rattle.dvi_writer.specs.Saying.{same_dir, turn_said, right_said, down_said, number_of, is_chosen, font_said, piece_said, is_short};
ghost use Rattle.dvi_writer.specs.Wrote.{Wrote, HasByte};

use crate::hand::same_dir;
use crate::opcode;
use box_marks::Piece;
use box_tree::FontNo;
use dvi_code::{put_short, put_signed};
use std::alloc::AllocError;
use ts_geometry::{Dir, Sp};

/// Puts the turn from one direction to another.
#[tactic(auto, using(crate::proofs::Puts::wrote_turn, crate::proofs::Puts::wrote_none))]
pub(crate) fn put_turn(out: &mut Vec<u8>, from: Dir, to: Dir) -> Result<(), AllocError>
    ensures { OnOk result (Wrote out.old.items out.new.items (turn_said (same_dir from to) to)) }
{
    if same_dir(from, to) {
        return Ok(());
    }
    out.extend_from_slice(&[opcode::DIRECTION, number_of(to)])?;
    Ok(())
}

fn number_of(dir: Dir) -> u8
    ensures { result ≡ number_of dir }
{
    match dir {
        Dir::Yoko => 0,
        Dir::Tate => 1,
        Dir::Dtou => 3,
    }
}

/// Returns whether a movement has two bytes.
fn is_small(n: Sp) -> bool
    ensures { IsTrue result → IsWithin 32767 n.0 }
{
    -32767 <= n.0 && n.0 <= 32767
}

/// Returns the two bytes of a movement as a number without a sign.
fn word_of(n: Sp) -> u16
    requires { IsWithin 32767 n.0 }
    ensures { with_sign 2 result ≡ n.0 }
{
    if n.0 < 0 {
        (n.0 + 65536) as u16
    } else {
        n.0 as u16
    }
}

/// Puts a number with a sign as four bytes.
fn put_long(out: &mut Vec<u8>, n: Sp) -> Result<(), AllocError>
    requires { IsWithin 2147483647 n.0 }
    ensures { OnOk result (out.new.items ≡ out.old.items ++ signed_bytes n.0) }
{
    put_signed(out, n.0 as i32)
}

/// Puts a movement along, if any.
#[tactic(auto, using(crate::proofs::Puts::wrote_none))]
pub(crate) fn put_right(out: &mut Vec<u8>, n: Sp) -> Result<(), AllocError>
    requires { IsWithin 2147483647 n.0 }
    ensures { OnOk result (Wrote out.old.items out.new.items (right_said n.0)) }
{
    if n.0 == 0 {
        return Ok(());
    }
    if is_small(n) {
        put_right2(out, n)
    } else {
        put_right4(out, n)
    }
}

#[tactic(auto, using(crate::proofs::Puts::wrote_right2))]
fn put_right2(out: &mut Vec<u8>, n: Sp) -> Result<(), AllocError>
    requires { IsWithin 32767 n.0 }
    ensures { OnOk result (Wrote out.old.items out.new.items (c.right n.0 ∷ [])) }
{
    out.push(opcode::RIGHT2)?;
    put_short(out, word_of(n))?;
    Ok(())
}

#[tactic(auto, using(crate::proofs::Puts::wrote_right4))]
fn put_right4(out: &mut Vec<u8>, n: Sp) -> Result<(), AllocError>
    requires { IsWithin 2147483647 n.0 }
    ensures { OnOk result (Wrote out.old.items out.new.items (c.right n.0 ∷ [])) }
{
    out.push(opcode::RIGHT4)?;
    put_long(out, n)?;
    Ok(())
}

/// Puts a movement across, if any.
#[tactic(auto, using(crate::proofs::Puts::wrote_none))]
pub(crate) fn put_down(out: &mut Vec<u8>, n: Sp) -> Result<(), AllocError>
    requires { IsWithin 2147483647 n.0 }
    ensures { OnOk result (Wrote out.old.items out.new.items (down_said n.0)) }
{
    if n.0 == 0 {
        return Ok(());
    }
    if is_small(n) {
        put_down2(out, n)
    } else {
        put_down4(out, n)
    }
}

#[tactic(auto, using(crate::proofs::Puts::wrote_down2))]
fn put_down2(out: &mut Vec<u8>, n: Sp) -> Result<(), AllocError>
    requires { IsWithin 32767 n.0 }
    ensures { OnOk result (Wrote out.old.items out.new.items (c.down n.0 ∷ [])) }
{
    out.push(opcode::DOWN2)?;
    put_short(out, word_of(n))?;
    Ok(())
}

#[tactic(auto, using(crate::proofs::Puts::wrote_down4))]
fn put_down4(out: &mut Vec<u8>, n: Sp) -> Result<(), AllocError>
    requires { IsWithin 2147483647 n.0 }
    ensures { OnOk result (Wrote out.old.items out.new.items (c.down n.0 ∷ [])) }
{
    out.push(opcode::DOWN4)?;
    put_long(out, n)?;
    Ok(())
}

/// Puts the choice of a font, unless it is chosen.
#[tactic(auto, using(crate::proofs::Puts::wrote_font, crate::proofs::Puts::wrote_none))]
fn put_font(out: &mut Vec<u8>, from: Option<FontNo>, to: FontNo) -> Result<(), AllocError>
    ensures wrote { OnOk result
        (Wrote out.old.items out.new.items (font_said (is_chosen from to) to)) }
    ensures byte { to.0 < 256 }
{
    if is_chosen(from, to) {
        return Ok(());
    }
    out.extend_from_slice(&[opcode::FNT1, to.0])?;
    Ok(())
}

fn is_chosen(from: Option<FontNo>, to: FontNo) -> bool
    ensures { result ≡ is_chosen from to }
{
    match from {
        Some(from) => from.0 == to.0,
        None => false,
    }
}

/// Puts a character, in one byte where its code is below 128 and else in three.
#[tactic(auto, using(crate::proofs::Puts::wrote_byte, crate::proofs::Puts::wrote_set2))]
fn put_set(out: &mut Vec<u8>, code: u16) -> Result<(), AllocError>
    ensures { OnOk result (Wrote out.old.items out.new.items (c.set code ∷ [])) }
{
    if code < 128 {
        out.push(code as u8)?;
        return Ok(());
    }
    out.push(opcode::SET2)?;
    put_short(out, code)?;
    Ok(())
}

#[tactic(auto, using(crate::proofs::Puts::wrote_rule))]
fn put_rule(out: &mut Vec<u8>, height: Sp, width: Sp) -> Result<(), AllocError>
    requires height_fits { IsWithin 2147483647 height.0 }
    requires width_fits { IsWithin 2147483647 width.0 }
    ensures { OnOk result (Wrote out.old.items out.new.items (c.set_rule height.0 width.0 ∷ [])) }
{
    out.push(opcode::SET_RULE)?;
    put_long(out, height)?;
    put_long(out, width)?;
    Ok(())
}

/// Puts a glyph or a rule, and before a glyph its font, unless it is chosen.
#[tactic(auto, using(crate::proofs::Puts::wrote_then))]
pub(crate) fn put_piece(
    out: &mut Vec<u8>,
    from: Option<FontNo>,
    piece: Piece,
) -> Result<(), AllocError>
    requires sound { IsSoundPiece piece }
    requires short { is_short piece ≡ true }
    ensures wrote { OnOk result (Wrote out.old.items out.new.items (piece_said from piece)) }
    ensures byte { OnOk result (HasByte piece) }
{
    match piece {
        Piece::Glyph { font, code, .. } => {
            put_font(out, from, font)?;
            put_set(out, code)?;
        }
        Piece::Rule { height, width } => put_rule(out, height, width)?,
    }
    Ok(())
}
