//! Dimensions and glue.

ghost use Rattle.std.specs.Prelude.{◌≡◌, ◌++◌, ◌<◌, OnOk, codes};
ghost use Rattle.print_values.specs.Texts.{dimension, flexible, fraction, glue, nearest, points, sign, unit};

use itoa::Buffer;
use std::alloc::AllocError;
use ts_geometry::{Glue, Order, Sp};

/// Appends a dimension in points (TeX: The Program, section 103).
pub(crate) fn push_dimension(text: &mut Vec<u8>, length: Sp) -> Result<(), AllocError>
    ensures { OnOk result (text.new.items ≡ text.old.items ++ dimension length.0) }
{
    push_points(text, length)?;
    text.extend_from_slice(b"pt")?;
    Ok(())
}

/// Appends glue, its stretch and its shrink only where they aren't 0 (TeX: The Program, section
/// 178).
pub(crate) fn push_glue(text: &mut Vec<u8>, value: Glue) -> Result<(), AllocError>
    ensures { OnOk result (text.new.items ≡ text.old.items ++ glue value) }
{
    push_dimension(text, value.width)?;
    push_flexible(text, b" plus ", value.stretch, value.stretch_order)?;
    push_flexible(text, b" minus ", value.shrink, value.shrink_order)?;
    Ok(())
}

fn push_flexible(
    text: &mut Vec<u8>,
    word: &[u8],
    amount: Sp,
    order: Order,
) -> Result<(), AllocError>
    ensures { OnOk result (text.new.items
        ≡ text.old.items ++ flexible word.now amount.0 order) }
{
    if amount.0 != 0 {
        text.extend_from_slice(word)?;
        push_points(text, amount)?;
        text.extend_from_slice(unit(order))?;
    }
    Ok(())
}

fn unit(order: Order) -> &'static [u8]
    ensures { result.now ≡ unit order }
{
    match order {
        Order::Normal => b"pt",
        Order::Fil => b"fil",
        Order::Fill => b"fill",
        Order::Filll => b"filll",
    }
}

/// Appends points, with the digits after the point that they need.
fn push_points(text: &mut Vec<u8>, length: Sp) -> Result<(), AllocError>
    ensures { OnOk result (text.new.items ≡ text.old.items ++ points length.0) }
{
    push_sign(text, length)?;
    let size = length.0.unsigned_abs();
    text.extend_from_slice(Buffer::new().format(size / 65_536).as_bytes())?;
    text.push(b'.')?;
    push_fraction(text, size % 65_536)?;
    Ok(())
}

fn push_sign(text: &mut Vec<u8>, length: Sp) -> Result<(), AllocError>
    ensures { OnOk result (text.new.items ≡ text.old.items ++ sign length.0) }
{
    if length.0 < 0 {
        text.push(b'-')?;
    }
    Ok(())
}

/// Appends the digits of a fraction, of so many scaled points.
fn push_fraction(text: &mut Vec<u8>, part: u64) -> Result<(), AllocError>
    requires { part < 65536 }
    ensures { OnOk result (text.new.items ≡ text.old.items ++ fraction part) }
{
    let mut rest = 10 * part + 5;
    let mut scale = 10;
    for _ in 0..5usize {
        let near = nearest(rest, scale);
        text.push(b'0' + (near / 65_536) as u8)?;
        rest = 10 * (near % 65_536);
        scale = 10 * scale;
        if rest <= scale {
            return Ok(());
        }
    }
    Ok(())
}

/// Returns what the digit is taken of: where it is the last one, what is left and a half.
fn nearest(rest: u64, scale: u64) -> u64
    requires near { rest < 655360 }
    requires left { 65536 < scale → scale < rest }
    ensures value { result ≡ nearest rest scale }
    ensures digit { result < 655360 }
{
    if 65_536 < scale {
        rest + 32_768 - 50_000
    } else {
        rest
    }
}
