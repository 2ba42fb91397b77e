//! Printed values.

use crate::*;
use jis_codes::{Cell, Char, Chars};
use std::alloc::Global;
use std::test::Fail;
use tok_lists::{SharedTokens, Spelling, Token};
use ts_base::NoMemory;
use ts_geometry::{Glue, Order, Sp};

/// Returns whether tokens are those of a text: spaces of category 10, all else of category 12.
fn reads(tokens: Result<SharedTokens, NoMemory>, text: &str) -> bool {
    let tokens = match tokens {
        Ok(tokens) => tokens,
        Err(NoMemory) => return false,
    };
    if tokens.as_slice().len() != text.len() {
        return false;
    }
    for (token, byte) in tokens.as_slice().iter().zip(text.as_bytes()) {
        let category = if *byte == b' ' { 10 } else { 12 };
        if *token != Token::Char(*byte, category) {
            return false;
        }
    }
    true
}

#[test]
fn numbers_are_printed_in_decimal_and_roman_digits(rt: HostRuntime) {
    let alloc = rt.alloc();
    for (n, text) in [
        (0, "0"),
        (-1, "-1"),
        (41_377, "41377"),
        (-2_147_483_648, "-2147483648"),
    ] {
        assert!(rt; reads(number(alloc, n), text));
    }
    for (n, text) in [
        (-5, ""),
        (0, ""),
        (4, "iv"),
        (449, "cdxlix"),
        (1_990, "mcmxc"),
        (3_888, "mmmdccclxxxviii"),
        (4_006, "mmmmvi"),
    ] {
        assert!(rt; reads(roman_numeral(alloc, n), text));
    }
}

#[test]
fn dimensions_are_printed_with_the_digits_that_they_need(rt: HostRuntime) {
    for (length, text) in [
        (0, "0.0pt"),
        (1, "0.00002pt"),
        (-1, "-0.00002pt"),
        (65_536, "1.0pt"),
        (32_768, "0.5pt"),
        (4_736_286, "72.26999pt"),
        (1_864_679, "28.45274pt"),
        (186_467, "2.84526pt"),
        (1_073_741_823, "16383.99998pt"),
        (-1_073_741_823, "-16383.99998pt"),
    ] {
        assert!(rt; reads(dimension(rt.alloc(), Sp(length)), text));
    }
}

fn printed_glue_reads(
    alloc: Global,
    numbers: (i64, i64, i64),
    orders: (Order, Order),
    text: &str,
) -> bool {
    let value = Glue {
        width: Sp(numbers.0),
        stretch: Sp(numbers.1),
        stretch_order: orders.0,
        shrink: Sp(numbers.2),
        shrink_order: orders.1,
    };
    reads(glue(alloc, value), text)
}

#[test]
fn glue_is_printed_without_what_is_0(rt: HostRuntime) {
    use Order::{Fil, Fill, Filll, Normal};
    for (numbers, orders, text) in [
        ((0, 0, 0), (Fil, Fill), "0.0pt"),
        (
            (218_453, 109_226, 72_818),
            (Normal, Normal),
            "3.33333pt plus 1.66666pt minus 1.11111pt",
        ),
        ((0, 65_536, 0), (Fil, Normal), "0.0pt plus 1.0fil"),
        ((65_536, 0, 32_768), (Normal, Fil), "1.0pt minus 0.5fil"),
        (
            (-65_536, -65_536, 131_072),
            (Fill, Filll),
            "-1.0pt plus -1.0fill minus 2.0filll",
        ),
    ] {
        assert!(rt; printed_glue_reads(rt.alloc(), numbers, orders, text));
    }
}

/// Reads the digits after a point as TeX does (TeX: The Program, section 102).
fn read_fraction(tokens: &[Token]) -> u64 {
    let mut sum: u64 = 0;
    for token in tokens.iter().rev() {
        if let Token::Char(byte, _) = token {
            if byte.is_ascii_digit() {
                let digit = byte.wrapping_sub(b'0') as u64;
                sum = sum.wrapping_add(digit.wrapping_mul(131_072)) / 10;
            }
        }
    }
    sum.wrapping_add(1) / 2
}

/// Returns the first fraction of a point whose digits read as another one.
fn first_lost(alloc: Global) -> Result<Option<u64>, NoMemory> {
    for part in 0..65_536u64 {
        let tokens = dimension(alloc, Sp(part as i64))?;
        let tokens = tokens.as_slice();
        if tokens.len() < 5 || read_fraction(&tokens[2..]) != part {
            return Ok(Some(part));
        }
    }
    Ok(None)
}

#[test]
fn every_fraction_of_a_point_reads_back(rt: HostRuntime) -> Result<(), Fail> {
    assert_eq!(rt; first_lost(rt.alloc()).or(Err("memory"))?, None);
    Ok(())
}

fn spelt(alloc: Global, active: bool, chars: &[Char]) -> Result<Spelling, NoMemory> {
    let mut list = Chars::new(alloc);
    for c in chars {
        list.push(*c)?;
    }
    Ok(Spelling {
        active,
        chars: list,
    })
}

fn tokens_are(alloc: Global, spelling: Spelling, tokens: &[Token]) -> Result<bool, NoMemory> {
    Ok(name(alloc, &spelling)?.as_slice() == tokens)
}

#[test]
fn names_are_printed_as_they_are_spelt(rt: HostRuntime) -> Result<(), Fail> {
    let alloc = rt.alloc();
    let cell = Cell::new(4, 2).ok_or("no cell")?;
    let chars = [Char::One(b'a'), Char::Ja(cell), Char::One(b' ')];
    let tokens = [
        Token::Char(b'\\', 12),
        Token::Char(b'a', 12),
        Token::Ja(cell),
        Token::Char(b' ', 10),
    ];
    let long = spelt(alloc, false, &chars).or(Err("memory"))?;
    assert!(rt; tokens_are(alloc, long, &tokens).or(Err("memory"))?);
    let active = spelt(alloc, true, &[Char::One(b'~')]).or(Err("memory"))?;
    assert!(rt; tokens_are(alloc, active, &[Token::Char(b'~', 12)]).or(Err("memory"))?);
    let empty = spelt(alloc, false, &[]).or(Err("memory"))?;
    assert!(rt; tokens_are(alloc, empty, &[Token::Char(b'\\', 12)]).or(Err("memory"))?);
    assert_eq!(rt; character(b' '), Token::Char(b' ', 10));
    Ok(())
}
