//! Commands that are read, and numbers that are put.

use crate::{
    Command, DviBad, DviKind, next_command, next_set, put_short, put_signed, put_unsigned,
};
use std::test::Fail;

#[test]
fn numbers_are_put_with_the_highest_byte_first(rt: HostRuntime) -> Result<(), Fail> {
    let mut out = Vec::new(rt.alloc());
    put_unsigned(&mut out, 25_400_000)?;
    put_unsigned(&mut out, 473_628_672)?;
    put_signed(&mut out, -327_680)?;
    put_signed(&mut out, 573_440)?;
    put_short(&mut out, 0x2422)?;
    let bytes = [
        0x01, 0x83, 0x92, 0xC0, 0x1C, 0x3B, 0x00, 0x00, 0xFF, 0xFB, 0x00, 0x00, 0x00, 0x08, 0xC0,
        0x00, 0x24, 0x22,
    ];
    assert_eq!(rt; out.as_slice(), bytes.as_slice());
    Ok(())
}

#[test]
fn a_command_is_read_at_its_place(rt: HostRuntime) {
    // from a page: push, tate, down, and a character of two bytes
    let bytes = [
        0x8D, 0xFF, 1, 0x9F, 0xFB, 0, 0, 0x81, 0x34, 0x41, 0xFA, 0x81, 0x34,
    ];
    let table = [
        (0, Ok((Command::Push, 1))),
        (1, Ok((Command::Direction(1), 3))),
        (3, Ok((Command::Down(-327_680), 7))),
        (7, Ok((Command::Set(0x3441), 10))),
        (10, Err(DviKind::Opcode)),
        (11, Err(DviKind::Truncated)),
        (13, Err(DviKind::Truncated)),
    ];
    for (at, read) in table {
        let wanted = match read {
            Ok(command) => Ok(command),
            Err(kind) => Err(DviBad { at, kind }),
        };
        assert_eq!(rt; next_command(&bytes, at), wanted);
    }
    assert_eq!(rt; next_set(&bytes, 3), None);
    assert_eq!(rt; next_set(&bytes, 7), Some((0x3441, 10)));
    assert_eq!(rt; next_set(&bytes, 11), None);
}
