//! Words, tables and programs.

use crate::{
    Characters, Command, Lengths, command_of, find, param_in, push, read_fix_words, read_params,
    table_of,
};
use std::alloc::Global;
use std::test::Fail;
use ts_geometry::{Measures, Sp};

// A kern of command 0, one command that is passed over, and a last command.
const PROGRAM: [u32; 4] = [0x0169_000C, 0x0061_8001, 0x8076_8000, 0x0076_8002];

// A font with one character, of half the width, and two parameters.
const ONE_CHARACTER: [u32; 16] = [
    0x0010_0002,
    0x0041_0041,
    0x0002_0001,
    0x0001_0001,
    0,
    2,
    0,
    0x00A0_0000,
    0x0100_0000,
    0,
    0x0008_0000,
    0,
    0,
    0,
    0x7FFF_FFFF,
    0xFFF0_0000,
];

fn one_character(alloc: Global) -> Result<Vec<u8>, Fail> {
    let mut bytes = Vec::new(alloc);
    for word in ONE_CHARACTER {
        bytes.extend_from_slice(&word.to_be_bytes())?;
    }
    Ok(bytes)
}

#[test]
fn characters_are_read(rt: HostRuntime) -> Result<(), Fail> {
    let bytes = one_character(rt.alloc())?;
    if bytes.len() < 64 {
        return Err(Fail::from("short"));
    }
    let lengths = Lengths::at(&bytes, 6, 0, 0).within(&bytes, false)?;
    let characters = Characters::read(rt.alloc(), &bytes, &lengths)?;
    assert_eq!(rt; characters.len(), 1);
    if characters.len() == 1 {
        let measures = Measures {
            wd: Sp(327680),
            ht: Sp(0),
            dp: Sp(0),
        };
        assert_eq!(rt; characters.measures(0, 655360), measures);
        assert!(rt; characters.is_there(0));
        assert_eq!(rt; characters.program(0), None);
    }
    Ok(())
}

#[test]
fn tables_are_read(rt: HostRuntime) -> Result<(), Fail> {
    let bytes = one_character(rt.alloc())?;
    if bytes.len() < 64 {
        return Err(Fail::from("short"));
    }
    let widths = read_fix_words(rt.alloc(), &bytes, 9, 2)?;
    assert_eq!(rt; widths.as_slice(), [0, 0x8_0000].as_slice());
    let params = read_params(rt.alloc(), &bytes, 14, 2)?;
    assert_eq!(rt; params.as_slice(), [0x7FFF_FFFF, -0x10_0000].as_slice());
    let mut table = table_of(rt.alloc(), 1)?;
    push(&mut table, 7)?;
    assert_eq!(rt; table.as_slice(), [7].as_slice());
    Ok(())
}

#[test]
fn a_program_ends_at_its_last_command(rt: HostRuntime) {
    let commands = PROGRAM.map(command_of);
    for (start, next, remainder) in [
        (0, 0x69, Some(12)),
        (0, 0x61, None),
        (0, 0x76, Some(0)),
        (1, 0x61, Some(1)),
        (2, 0x69, None),
        (3, 0x76, Some(2)),
        (4, 0x76, None),
    ] {
        assert_eq!(rt;
            find(&commands, start, next).map(|c: Command| c.remainder),
            remainder
        );
    }
}

#[test]
fn parameters_count_from_1(rt: HostRuntime) {
    for (n, fix) in [(0, 0), (1, 7), (2, -3), (3, 0), (65535, 0)] {
        assert_eq!(rt; param_in(&[7, -3], n), fix);
    }
}
