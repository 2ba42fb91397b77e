//! Roman numerals.

ghost use Rattle.std.specs.Prelude.{◌≡◌, ◌++◌, ◌<◌, ◌^◌, OnOk};
ghost use Rattle.std.proofs.Common.{replicate};
ghost use Rattle.print_values.specs.Texts.{roman, roman_digit};

use std::alloc::AllocError;

/// Appends a roman numeral in small letters (TeX: The Program, section 69).
pub(crate) fn push_roman(text: &mut Vec<u8>, n: u64) -> Result<(), AllocError>
    requires { n < 2 ^ 32 }
    ensures { OnOk result (text.new.items ≡ text.old.items ++ roman n) }
{
    push_repeated(text, b'm', (n / 1000) as usize)?;
    push_digit(text, (b'c', b'd', b'm'), (n / 100 % 10) as usize)?;
    push_digit(text, (b'x', b'l', b'c'), (n / 10 % 10) as usize)?;
    push_digit(text, (b'i', b'v', b'x'), (n % 10) as usize)?;
    Ok(())
}

/// Appends a decimal digit by the letters of 1, 5 and 10 in its place.
fn push_digit(text: &mut Vec<u8>, letters: (u8, u8, u8), digit: usize) -> Result<(), AllocError>
    requires { digit < 10 }
    ensures { OnOk result (text.new.items
        ≡ text.old.items ++ roman_digit letters.0 letters.1 letters.2 digit) }
{
    let (one, five, ten) = letters;
    if digit <= 3 {
        push_repeated(text, one, digit)?;
    } else if digit == 4 {
        text.push(one)?;
        text.push(five)?;
    } else if digit <= 8 {
        text.push(five)?;
        push_repeated(text, one, digit - 5)?;
    } else {
        text.push(one)?;
        text.push(ten)?;
    }
    Ok(())
}

fn push_repeated(text: &mut Vec<u8>, letter: u8, count: usize) -> Result<(), AllocError>
    ensures { OnOk result (text.new.items ≡ text.old.items ++ replicate count letter) }
{
    for _ in 0..count {
        text.push(letter)?;
    }
    Ok(())
}
