//! A file with no page, and its damages.

use crate::{DviFault, checked, command_from, fonts};
use dvi_commands::{Command, DviBad, DviKind, FontDef};
use std::test::Fail;
use ts_outside::FileName;

// No page, but a definition with an area, between two nops.
const EMPTY: [u8; 76] = [
    247, 2, 1, 131, 146, 192, 28, 59, 0, 0, 0, 0, 3, 232, 0, 138, 243, 0, 0, 0, 0, 0, 0, 10, 0, 0,
    0, 10, 0, 0, 1, 1, 102, 97, 138, 248, 255, 255, 255, 255, 1, 131, 146, 192, 28, 59, 0, 0, 0, 0,
    3, 232, 0, 0, 0, 0, 0, 0, 0, 0, 0, 0, 0, 0, 249, 0, 0, 0, 35, 2, 223, 223, 223, 223, 223, 223,
];

#[test]
fn fonts_are_given_with_area_and_name_together(rt: HostRuntime) -> Result<(), Fail> {
    let font = FontDef {
        number: 0,
        check_sum: 0,
        size: 655_360,
        design: 655_360,
        name: FileName::new(rt.alloc(), b"fa")?,
    };
    assert!(rt; fonts(rt.alloc(), &EMPTY)?.as_slice() == [font].as_slice());
    assert_eq!(rt; checked(rt.alloc(), &EMPTY)?.place(0), Some(0));
    assert_eq!(rt; command_from(&EMPTY, 34), Ok((Command::Nop, 35)));
    Ok(())
}

#[test]
fn each_damage_has_its_place(rt: HostRuntime) {
    // the place and the byte that are changed there, and the fault
    let table = [
        (1, 3, DviKind::Preamble, 0),
        (34, 140, DviKind::Misplaced, 34),
        (34, 250, DviKind::Opcode, 34),
        (39, 0, DviKind::BackPointer, 35),
        (63, 1, DviKind::Postamble, 35),
        (69, 4, DviKind::Postamble, 64),
        (70, 0, DviKind::Postamble, 70),
    ];
    for (place, byte, kind, at) in table {
        let mut bytes = EMPTY;
        if let Some(there) = bytes.get_mut(place) {
            *there = byte;
        }
        let fault = Some(DviFault::Bad(DviBad { at, kind }));
        assert_eq!(rt; fonts(rt.alloc(), &bytes).err(), fault);
    }
}
