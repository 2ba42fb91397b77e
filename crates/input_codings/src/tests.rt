//! Lines of files in memory, and their faults.

use crate::{Coding, Line, LineFault, Lines, OpenFault};
use jis_codes::{Cell, Char};
use std::alloc::Global;
use std::test::Fail;
use ts_outside::{FileName, MemFile, MemFiles};

// A file of these bytes in memory, and its name.
fn held(
    alloc: Global,
    bytes: &[u8],
    cuts: &[usize],
    fails: &[u64],
) -> Result<(MemFiles, FileName), Fail> {
    let file = MemFile {
        name: FileName::new(alloc, b"row.tex")?,
        bytes: bytes.to_vec(alloc)?,
    };
    let files = MemFiles::new(
        alloc,
        vec![in alloc; file]?,
        cuts.to_vec(alloc)?,
        fails.to_vec(alloc)?,
    );
    Ok((files, FileName::new(alloc, b"row.tex")?))
}

// The first line of a file of these bytes.
fn first_line(
    alloc: Global,
    coding: Coding,
    bytes: &[u8],
    cut: usize,
) -> Result<Result<Option<Line>, LineFault>, Fail> {
    let (mut files, name) = held(alloc, bytes, &[cut], &[])?;
    let mut lines = Lines::open(alloc, &mut files, &name, coding)?;
    let line = lines.next_line(&mut files);
    lines.close(&mut files);
    Ok(line)
}

// The fault of the first line.
fn first_fault(alloc: Global, coding: Coding, bytes: &[u8]) -> Result<Option<LineFault>, Fail> {
    match first_line(alloc, coding, bytes, 1)? {
        Ok(_) => Ok(None),
        Err(fault) => Ok(Some(fault)),
    }
}

// Whether the first line has these characters.
fn reads(
    alloc: Global,
    coding: Coding,
    bytes: &[u8],
    cut: usize,
    chars: &[Char],
) -> Result<bool, Fail> {
    match first_line(alloc, coding, bytes, cut)? {
        Ok(Some(line)) => Ok(line.chars().as_slice() == chars),
        _ => Ok(false),
    }
}

#[test]
fn two_characters_in_each_coding_and_cutting(rt: HostRuntime) -> Result<(), Fail> {
    let first = Cell::new(4, 2).ok_or("no cell")?;
    let second = Cell::new(4, 4).ok_or("no cell")?;
    let chars = [Char::Ja(first), Char::Ja(second), Char::One(13)];
    for cut in [1, 2, 3, 7] {
        assert!(rt;
            reads(rt.alloc(), Coding::Euc, b"\xA4\xA2\xA4\xA4\n", cut, &chars)?,
            "cut {cut}"
        );
        assert!(rt;
            reads(rt.alloc(), Coding::Jis, b"\x1B$B$\"$$\x1B(B", cut, &chars)?,
            "cut {cut}"
        );
        assert!(rt;
            reads(
                rt.alloc(),
                Coding::Sjis,
                b"\x82\xA0\x82\xA2 \r\nx",
                cut,
                &chars
            )?,
            "cut {cut}"
        );
    }
    Ok(())
}

#[test]
fn bad_lines(rt: HostRuntime) -> Result<(), Fail> {
    let bad = [
        (Coding::Euc, b"\xA4".as_slice(), 0),
        (Coding::Euc, b"a\xA4 ".as_slice(), 1),
        (Coding::Jis, b"\x80".as_slice(), 0),
        (Coding::Jis, b"\x1B(I".as_slice(), 0),
        (Coding::Jis, b"\x1B$B$".as_slice(), 3),
        (Coding::Jis, b"\x1B$B !".as_slice(), 3),
        (Coding::Sjis, b"\x82\x7F".as_slice(), 0),
        (Coding::Sjis, b"\xF0@".as_slice(), 0),
    ];
    for (coding, bytes, place) in bad {
        assert_eq!(rt;
            first_fault(rt.alloc(), coding, bytes)?,
            Some(LineFault::BadByte(place))
        );
    }
    Ok(())
}

#[test]
fn the_longest_line(rt: HostRuntime) -> Result<(), Fail> {
    let mut bytes = vec![in rt.alloc(); b'%'; 65_534]?;
    bytes.push(b'\r')?;
    bytes.push(b'\n')?;
    assert_eq!(rt; first_fault(rt.alloc(), Coding::Euc, &bytes)?, None);
    let mut bytes = vec![in rt.alloc(); b'%'; 65_535]?;
    bytes.push(b'\r')?;
    bytes.push(b'\n')?;
    assert_eq!(rt;
        first_fault(rt.alloc(), Coding::Euc, &bytes)?,
        Some(LineFault::LineTooLong)
    );
    Ok(())
}

#[test]
fn lines_one_after_another(rt: HostRuntime) -> Result<(), Fail> {
    let (mut files, name) = held(rt.alloc(), b"a\r\n\nb\r", &[2], &[])?;
    let mut lines = Lines::open(rt.alloc(), &mut files, &name, Coding::Euc)?;
    for expected in [b"a\r".as_slice(), b"\r", b"b\r\r"] {
        let line = lines.next_line(&mut files)?.ok_or("no line")?;
        let same = line
            .chars()
            .as_slice()
            .iter()
            .copied()
            .eq(expected.iter().map(|b| Char::One(*b)));
        assert!(rt; same, "at {expected:?}");
    }
    assert!(rt; lines.next_line(&mut files)?.is_none());
    assert_eq!(rt; (lines.line_no(), lines.failed()), (3, false));
    lines.close(&mut files);
    Ok(())
}

#[test]
fn a_read_that_fails_in_mid_line(rt: HostRuntime) -> Result<(), Fail> {
    let (mut files, name) = held(rt.alloc(), b"a\nbc\n", &[3], &[2])?;
    let mut lines = Lines::open(rt.alloc(), &mut files, &name, Coding::Euc)?;
    assert!(rt; lines.next_line(&mut files)?.is_some());
    let failed = lines.next_line(&mut files);
    assert_eq!(rt; failed.err(), Some(LineFault::ReadFault));
    assert!(rt; lines.failed());
    lines.close(&mut files);
    Ok(())
}

#[test]
fn a_file_that_is_not_there(rt: HostRuntime) -> Result<(), Fail> {
    let (mut files, _) = held(rt.alloc(), b"a\n", &[], &[1])?;
    let other = FileName::new(rt.alloc(), b"other.tex")?;
    let lines = Lines::open(rt.alloc(), &mut files, &other, Coding::Jis);
    assert_eq!(rt; lines.err(), Some(OpenFault::Missing));
    let lines = Lines::open(rt.alloc(), &mut files, &other, Coding::Jis);
    assert_eq!(rt; lines.err(), Some(OpenFault::ReadFault));
    Ok(())
}
