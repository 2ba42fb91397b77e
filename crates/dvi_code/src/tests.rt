//! A worked DVI file, its damages, and a file with every command.

ghost use Rattle.std.specs.Prelude.{◌||◌, nat_eq, Some, None, pos, if◌then◌else◌};
ghost use Rattle.ts_geometry.specs.Directions.{sp};

use crate::{DviBad, DviFault, DviKind, DviPage, FontDef, Mark, What, Widths, fonts, read_pages};
use std::alloc::Global;
use std::test::Fail;
use ts_base::List;
use ts_geometry::{Dir, Point, Sp};
use ts_outside::FileName;

// Two characters of two fonts, the first in tate.
const FILE: [u8; 208] = [
    0xF7, 2, 0x01, 0x83, 0x92, 0xC0, 0x1C, 0x3B, 0, 0, 0, 0, 3, 0xE8, 0, 0x8B, 0, 0, 0, 0, 0, 0, 0,
    0, 0, 0, 0, 0, 0, 0, 0, 0, 0, 0, 0, 0, 0, 0, 0, 0, 0, 0, 0, 0, 0, 0, 0, 0, 0, 0, 0, 0, 0, 0, 0,
    0, 0xFF, 0xFF, 0xFF, 0xFF, 0xF3, 0, 0, 0, 0, 0, 0, 0x0A, 0, 0, 0, 0x0A, 0, 0, 0, 4, 0x6A, 0x74,
    0x31, 0x30, 0xF3, 1, 0, 0, 0, 0, 0, 0x0A, 0, 0, 0, 0x0A, 0, 0, 0, 4, 0x6A, 0x61, 0x31, 0x30,
    0x8D, 0xFF, 1, 0x9F, 0xFB, 0, 0, 0xAB, 0x81, 0x34, 0x41, 0x8D, 0xFF, 0, 0x91, 0xFB, 0, 0, 0x9F,
    8, 0xC0, 0, 0xAC, 0x81, 0x24, 0x22, 0x8E, 0x8E, 0x8C, 0xF8, 0, 0, 0, 0x0F, 0x01, 0x83, 0x92,
    0xC0, 0x1C, 0x3B, 0, 0, 0, 0, 3, 0xE8, 0, 0x14, 0, 0, 0, 0x0A, 0, 0, 0, 2, 0, 1, 0xF3, 0, 0, 0,
    0, 0, 0, 0x0A, 0, 0, 0, 0x0A, 0, 0, 0, 4, 0x6A, 0x74, 0x31, 0x30, 0xF3, 1, 0, 0, 0, 0, 0, 0x0A,
    0, 0, 0, 0x0A, 0, 0, 0, 4, 0x6A, 0x61, 0x31, 0x30, 0xF9, 0, 0, 0, 0x81, 3, 0xDF, 0xDF, 0xDF,
    0xDF,
];

// Two characters of each font, as wide as 10 pt.
struct TwoCharacters;

impl Widths for TwoCharacters {
    ghost use Rattle.std.specs.Prelude.{◌||◌, nat_eq, Some, None, pos, if◌then◌else◌};
    ghost use Rattle.ts_geometry.specs.Directions.{sp};

    ghost width_of = { λ widths font code. if nat_eq code 13377 || nat_eq code 9250
        then Some (sp (pos 655360)) else None };

    fn width(&self, _font: &FontDef, code: u32) -> Option<Sp> {
        if code == 0x3441 || code == 0x2422 {
            Some(Sp(655_360))
        } else {
            None
        }
    }
}

// What a mark shows: the name of a glyph's font, which has 10 pt, with its code, or a rule.
#[derive(Clone, Copy)]
enum Shown<'a> {
    Glyph(&'a [u8], u32),
    Rule(i64, i64),
}

// The page of these marks.
fn page(
    alloc: Global,
    counts: [i32; 10],
    shown: &[(Shown, i64, i64, Dir)],
) -> Result<DviPage, Fail> {
    let mut marks = List::new(alloc);
    for (what, x, y, dir) in shown {
        let what = match what {
            Shown::Glyph(name, code) => { What::Glyph(FileName::new(alloc, name)?, 655_360, *code) }
            Shown::Rule(height, width) => What::Rule(Sp(*height), Sp(*width)),
        };
        let at = Point {
            x: Sp(*x),
            y: Sp(*y),
        };
        marks.push(Mark {
            what,
            at,
            dir: *dir,
        })?;
    }
    Ok(DviPage { counts, marks })
}

// The definitions of these fonts, which have 10 pt.
fn defined(alloc: Global, named: &[(i32, &[u8])]) -> Result<List<FontDef>, Fail> {
    let mut fonts = List::new(alloc);
    for (number, name) in named {
        fonts.push(FontDef {
            number: *number,
            check_sum: 0,
            size: 655_360,
            design: 655_360,
            name: FileName::new(alloc, name)?,
        })?;
    }
    Ok(fonts)
}

#[test]
fn a_file_of_two_characters_has_two_marks(rt: HostRuntime) -> Result<(), Fail> {
    let shown = [
        (Shown::Glyph(b"jt10", 0x3441), 327_680, 0, Dir::Tate),
        (Shown::Glyph(b"ja10", 0x2422), 0, 1_228_800, Dir::Yoko),
    ];
    let page = page(rt.alloc(), [0; 10], &shown)?;
    let pages = read_pages(rt.alloc(), &FILE, &TwoCharacters)?;
    assert!(rt; pages.as_slice() == [page].as_slice());
    let named: [(i32, &[u8]); 2] = [(0, b"jt10"), (1, b"ja10")];
    let defined = defined(rt.alloc(), &named)?;
    assert!(rt; fonts(rt.alloc(), &FILE)?.as_slice() == defined.as_slice());
    Ok(())
}

#[test]
fn each_damage_has_its_fault(rt: HostRuntime) {
    // up to which byte, the place and the byte that are changed there, and the fault
    let table = [
        (208, 0, 0xFA, DviKind::Opcode, 0),
        (208, 0, 0x8A, DviKind::Preamble, 0),
        (208, 1, 3, DviKind::Preamble, 0),
        (208, 59, 0, DviKind::BackPointer, 15),
        (208, 81, 0, DviKind::FontDef, 80),
        (208, 100, 0xFA, DviKind::Opcode, 100),
        (208, 100, 0x8E, DviKind::Stack, 100),
        (208, 102, 2, DviKind::Direction, 101),
        (208, 107, 0xAD, DviKind::FontUndefined, 107),
        (208, 110, 0, DviKind::Width, 108),
        (208, 127, 0x8A, DviKind::Stack, 128),
        (208, 133, 0, DviKind::BackPointer, 129),
        (208, 157, 2, DviKind::Postamble, 129),
        (208, 203, 4, DviKind::Postamble, 198),
        (208, 205, 0, DviKind::Postamble, 205),
        (207, 205, 0, DviKind::Postamble, 205),
        (207, 0, 0xF7, DviKind::Postamble, 207),
        (14, 1, 3, DviKind::Truncated, 0),
        (0, 0, 0xF7, DviKind::Truncated, 0),
    ];
    for (len, place, byte, kind, at) in table {
        let mut bytes = FILE;
        if let Some(there) = bytes.get_mut(place) {
            *there = byte;
        }
        let bytes = bytes.get(..len).unwrap_or(&FILE);
        let fault = Some(DviFault::Bad(DviBad { at, kind }));
        assert_eq!(rt; read_pages(rt.alloc(), bytes, &TwoCharacters).err(), fault);
        let of_the_structure = if kind == DviKind::Width { None } else { fault };
        assert_eq!(rt; fonts(rt.alloc(), bytes).err(), of_the_structure);
    }
}

// No page, but a definition with an area, between two nops.
const EMPTY: [u8; 76] = [
    247, 2, 1, 131, 146, 192, 28, 59, 0, 0, 0, 0, 3, 232, 0, 138, 243, 0, 0, 0, 0, 0, 0, 10, 0, 0,
    0, 10, 0, 0, 1, 1, 102, 97, 138, 248, 255, 255, 255, 255, 1, 131, 146, 192, 28, 59, 0, 0, 0, 0,
    3, 232, 0, 0, 0, 0, 0, 0, 0, 0, 0, 0, 0, 0, 249, 0, 0, 0, 35, 2, 223, 223, 223, 223, 223, 223,
];

#[test]
fn a_file_may_have_no_page(rt: HostRuntime) -> Result<(), Fail> {
    assert_eq!(rt; read_pages(rt.alloc(), &EMPTY, &TwoCharacters)?.len(), 0);
    let defined = defined(rt.alloc(), &[(0, b"fa")])?;
    assert!(rt; fonts(rt.alloc(), &EMPTY)?.as_slice() == defined.as_slice());
    let mut bytes = EMPTY;
    bytes[63] = 1;
    let fault = read_pages(rt.alloc(), &bytes, &TwoCharacters).err();
    let kind = DviKind::Postamble;
    assert_eq!(rt; fault, Some(DviFault::Bad(DviBad { at: 35, kind })));
    Ok(())
}

// Every command, in three directions, with its second page at the end of the range.
const EVERY: [u8; 500] = [
    247, 2, 1, 131, 146, 192, 28, 59, 0, 0, 0, 0, 3, 232, 2, 97, 98, 138, 243, 0, 0, 0, 0, 0, 0,
    10, 0, 0, 0, 10, 0, 0, 0, 2, 102, 97, 243, 7, 0, 0, 0, 0, 0, 10, 0, 0, 0, 10, 0, 0, 0, 2, 102,
    98, 244, 1, 0, 0, 0, 0, 0, 0, 10, 0, 0, 0, 10, 0, 0, 0, 2, 102, 99, 245, 1, 0, 0, 0, 0, 0, 0,
    0, 10, 0, 0, 0, 10, 0, 0, 0, 2, 102, 100, 246, 255, 255, 255, 255, 0, 0, 0, 0, 0, 10, 0, 0, 0,
    10, 0, 0, 0, 2, 102, 101, 139, 0, 0, 0, 1, 255, 255, 255, 254, 0, 0, 0, 3, 0, 0, 0, 4, 0, 0, 0,
    5, 0, 0, 0, 6, 0, 0, 0, 7, 0, 0, 0, 8, 0, 0, 0, 9, 0, 0, 0, 10, 255, 255, 255, 255, 171, 65,
    128, 200, 129, 36, 34, 130, 1, 0, 0, 131, 255, 0, 0, 0, 133, 66, 134, 0, 67, 135, 0, 0, 68,
    136, 0, 0, 0, 69, 132, 0, 0, 0, 2, 0, 0, 0, 3, 137, 0, 0, 0, 4, 0, 0, 0, 5, 132, 255, 255, 255,
    255, 0, 0, 0, 7, 132, 0, 0, 0, 1, 0, 0, 0, 0, 138, 141, 143, 10, 144, 0, 0, 145, 0, 0, 0, 146,
    255, 255, 255, 255, 148, 5, 147, 153, 251, 152, 157, 4, 162, 6, 161, 167, 254, 166, 255, 1,
    147, 161, 235, 7, 0, 255, 3, 152, 166, 133, 1, 142, 147, 161, 133, 2, 239, 3, 97, 98, 99, 240,
    0, 0, 241, 0, 0, 0, 242, 0, 0, 0, 0, 149, 0, 0, 150, 0, 0, 0, 151, 0, 0, 0, 0, 154, 0, 0, 155,
    0, 0, 0, 156, 0, 0, 0, 0, 158, 0, 0, 159, 0, 0, 0, 160, 0, 0, 0, 0, 163, 0, 0, 164, 0, 0, 0,
    165, 0, 0, 0, 0, 168, 0, 0, 169, 0, 0, 0, 170, 0, 0, 0, 0, 236, 1, 0, 237, 1, 0, 0, 238, 255,
    255, 255, 255, 140, 138, 243, 0, 0, 0, 0, 0, 0, 10, 0, 0, 0, 10, 0, 0, 0, 2, 102, 97, 139, 0,
    0, 0, 0, 0, 0, 0, 0, 0, 0, 0, 0, 0, 0, 0, 0, 0, 0, 0, 0, 0, 0, 0, 0, 0, 0, 0, 0, 0, 0, 0, 0, 0,
    0, 0, 0, 0, 0, 0, 0, 0, 0, 0, 114, 255, 0, 146, 127, 255, 255, 255, 143, 0, 140, 138, 248, 0,
    0, 1, 126, 1, 131, 146, 192, 28, 59, 0, 0, 0, 0, 3, 232, 0, 0, 0, 0, 0, 0, 0, 0, 0, 1, 0, 2,
    138, 243, 0, 0, 0, 0, 0, 0, 10, 0, 0, 0, 10, 0, 0, 0, 2, 102, 97, 138, 249, 0, 0, 1, 182, 3,
    223, 223, 223, 223, 223, 223, 223,
];

// Every character, as wide as 10 pt.
struct Wide;

impl Widths for Wide {
    ghost use Rattle.std.specs.Prelude.{Some, pos};
    ghost use Rattle.ts_geometry.specs.Directions.{sp};

    ghost width_of = { λ widths font code. Some (sp (pos 655360)) };

    fn width(&self, _font: &FontDef, _code: u32) -> Option<Sp> {
        Some(Sp(655_360))
    }
}

#[test]
fn every_command_is_read(rt: HostRuntime) -> Result<(), Fail> {
    let shown = [
        (Shown::Glyph(b"fa", 65), 0, 0, Dir::Yoko),
        (Shown::Glyph(b"fa", 200), 655_360, 0, Dir::Yoko),
        (Shown::Glyph(b"fa", 0x2422), 1_310_720, 0, Dir::Yoko),
        (Shown::Glyph(b"fa", 0x1_0000), 1_966_080, 0, Dir::Yoko),
        (Shown::Glyph(b"fa", 0xFF00_0000), 2_621_440, 0, Dir::Yoko),
        (Shown::Glyph(b"fa", 66), 3_276_800, 0, Dir::Yoko),
        (Shown::Glyph(b"fa", 67), 3_276_800, 0, Dir::Yoko),
        (Shown::Glyph(b"fa", 68), 3_276_800, 0, Dir::Yoko),
        (Shown::Glyph(b"fa", 69), 3_276_800, 0, Dir::Yoko),
        (Shown::Rule(2, 3), 3_276_800, 0, Dir::Yoko),
        (Shown::Rule(4, 5), 3_276_803, 0, Dir::Yoko),
        (Shown::Glyph(b"fb", 0), 3_276_813, 17, Dir::Tate),
        (Shown::Glyph(b"fb", 1), 3_276_811, 655_382, Dir::Dtou),
        (Shown::Glyph(b"fb", 2), 3_276_810, 0, Dir::Yoko),
    ];
    let first = page(rt.alloc(), [1, -2, 3, 4, 5, 6, 7, 8, 9, 10], &shown)?;
    let last = page(rt.alloc(), [0; 10], &[])?;
    let pages = read_pages(rt.alloc(), &EVERY, &Wide)?;
    assert!(rt; pages.as_slice() == [first, last].as_slice());
    Ok(())
}

#[test]
fn numbers_of_fonts_have_up_to_four_bytes(rt: HostRuntime) -> Result<(), Fail> {
    let named: [(i32, &[u8]); 5] = [
        (0, b"fa"),
        (7, b"fb"),
        (256, b"fc"),
        (65_536, b"fd"),
        (-1, b"fe"),
    ];
    let defined = defined(rt.alloc(), &named)?;
    assert!(rt; fonts(rt.alloc(), &EVERY)?.as_slice() == defined.as_slice());
    Ok(())
}

#[test]
fn coordinates_stay_in_range(rt: HostRuntime) {
    let mut bytes = EVERY;
    bytes[435] = 1;
    let fault = read_pages(rt.alloc(), &bytes, &Wide).err();
    let kind = DviKind::Range;
    assert_eq!(rt; fault, Some(DviFault::Bad(DviBad { at: 434, kind })));
}
