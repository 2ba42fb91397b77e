//! Metrics of names, and fonts by number.

ghost use Rattle.std.specs.Prelude.{◌≡◌, length, IfOk};
ghost use Rattle.ts_outside.specs.Memory.{shelf_state};

use crate::{Fonts, LoadFault, Metric, load};
use box_tree::FontNo;
use jis_codes::Cell;
use sample_metrics::{JP10, LA10};
use std::alloc::Global;
use std::test::Fail;
use ts_geometry::BadKind;
use ts_outside::{FileName, FileNo, Files, Got, MemFile, MemFiles, Opened};

// Files that count the bytes that are read and the files that are open.
#[derive(Drop)]
struct Watched {
    files: MemFiles,
    bytes: usize,
    still_open: usize,
}

impl Files for Watched {
    ghost state = { λ w. shelf_state w.files };

    fn open(&mut self, name: &FileName) -> Opened {
        let opened = self.files.open(name);
        if let Opened::Found(_) = opened {
            self.still_open = self.still_open.saturating_add(1);
        }
        opened
    }

    fn read(&mut self, file: FileNo, buffer: &mut [u8]) -> Got {
        let got = self.files.read(file, buffer);
        if let Got::Bytes(n) = got {
            self.bytes = self.bytes.saturating_add(n);
        }
        got
    }

    fn close(&mut self, file: FileNo) {
        self.files.close(file);
        self.still_open = self.still_open.saturating_sub(1);
    }
}

// The first bytes of words, so many of them, with another byte at that place.
fn bytes_of(
    alloc: Global,
    words: &[u32],
    len: usize,
    change: Option<(usize, u8)>,
) -> Result<Vec<u8>, Fail> {
    let mut bytes = Vec::new(alloc);
    for word in words {
        bytes.extend_from_slice(&word.to_be_bytes())?;
    }
    if let Some((at, byte)) = change {
        *bytes.get_mut(at).ok_or("short")? = byte;
    }
    bytes.truncate(len);
    Ok(bytes)
}

// One file in memory, whose reads are cut and whose calls of those numbers fail.
fn one_file(alloc: Global, bytes: Vec<u8>, cuts: &[usize], fails: &[u64]) -> Result<Watched, Fail> {
    let name = FileName::new(alloc, b"f.tfm")?;
    let held = vec![in alloc; MemFile { name, bytes }]?;
    let cuts = Vec::from_slice(alloc, cuts)?;
    let fails = Vec::from_slice(alloc, fails)?;
    Ok(Watched {
        files: MemFiles::new(alloc, held, cuts, fails),
        bytes: 0,
        still_open: 0,
    })
}

// The width of a character at 10 points: A of a European font, hiragana A of a Japanese one.
fn width(metric: &Metric) -> Option<i64> {
    match metric {
        Metric::Roman(font) => Some(font.measures(b'A', 655360)?.wd.0),
        Metric::Japanese(font) => {
            let class = font.class(Cell::new(4, 2)?);
            Some(font.measures(class, 655360).wd.0)
        }
    }
}

// What loading a file answers: the width of a character, or the fault.
fn load_width(alloc: Global, files: &mut Watched, name: &[u8]) -> Result<Option<i64>, Fail> {
    Ok(width(&load(alloc, files, &FileName::new(alloc, name)?)?))
}

fn load_fault(alloc: Global, files: &mut Watched, name: &[u8]) -> Result<Option<LoadFault>, Fail> {
    Ok(load(alloc, files, &FileName::new(alloc, name)?).err())
}

#[test]
fn a_metric_is_read_whatever_the_pieces(rt: HostRuntime) -> Result<(), Fail> {
    let jp10 = JP10.as_slice();
    let la10 = LA10.as_slice();
    let table: [(&[u32], &[usize], i64, usize); 6] = [
        (jp10, &[], 655360, 96),
        (jp10, &[1], 655360, 96),
        (jp10, &[7], 655360, 96),
        (la10, &[], 327680, 544),
        (la10, &[1], 327680, 544),
        (la10, &[7], 327680, 544),
    ];
    for (words, cuts, width, read) in table {
        let mut bytes = bytes_of(rt.alloc(), words, read, None)?;
        // what stands after the metric isn't read
        bytes.extend_from_slice(&[1, 2, 3, 4, 5])?;
        let mut files = one_file(rt.alloc(), bytes, cuts, &[])?;
        assert_eq!(rt; load_width(rt.alloc(), &mut files, b"f.tfm")?, Some(width));
        assert_eq!(rt; files.bytes, read);
        assert_eq!(rt; files.still_open, 0);
    }
    Ok(())
}

#[test]
fn the_first_fault_of_the_file_counts(rt: HostRuntime) -> Result<(), Fail> {
    let table: [(usize, Option<(usize, u8)>, usize, BadKind, u32, usize); 7] = [
        (96, Some((40, 2)), 1, BadKind::Index, 40, 96),
        (96, Some((40, 2)), 7, BadKind::Index, 40, 96),
        (95, None, 7, BadKind::Truncated, 95, 95),
        (27, None, 7, BadKind::Truncated, 27, 27),
        (0, None, 7, BadKind::Truncated, 0, 0),
        (96, Some((1, 3)), 1, BadKind::Lengths, 0, 28),
        (96, Some((5, 3)), 7, BadKind::Lengths, 0, 28),
    ];
    for (len, change, cut, kind, at, read) in table {
        let bytes = bytes_of(rt.alloc(), &JP10, len, change)?;
        let mut files = one_file(rt.alloc(), bytes, &[cut], &[])?;
        let fault = load_fault(rt.alloc(), &mut files, b"f.tfm")?;
        assert_eq!(rt; fault, Some(LoadFault::Bad(kind, at)));
        assert_eq!(rt; files.bytes, read);
        assert_eq!(rt; files.still_open, 0);
    }
    Ok(())
}

#[test]
fn a_name_that_is_not_held_is_missing(rt: HostRuntime) -> Result<(), Fail> {
    let bytes = bytes_of(rt.alloc(), &JP10, 96, None)?;
    let mut files = one_file(rt.alloc(), bytes, &[], &[])?;
    let fault = load_fault(rt.alloc(), &mut files, b"f")?;
    assert_eq!(rt; fault, Some(LoadFault::Missing));
    assert_eq!(rt; files.bytes, 0);
    Ok(())
}

#[test]
fn a_call_that_fails_is_a_fault_and_closes_the_file(rt: HostRuntime) -> Result<(), Fail> {
    // the file is opened, and its 96 bytes are read as 4 times 7, 9 times 7 and 5
    for call in 0..16 {
        let bytes = bytes_of(rt.alloc(), &JP10, 96, None)?;
        let mut files = one_file(rt.alloc(), bytes, &[7], &[call])?;
        let fault = load_fault(rt.alloc(), &mut files, b"f.tfm")?;
        let want = if call < 15 {
            Some(LoadFault::ReadFault)
        } else {
            None
        };
        assert_eq!(rt; fault, want);
        assert_eq!(rt; files.still_open, 0);
    }
    Ok(())
}

// The metric of a file of words.
fn metric(alloc: Global, words: &[u32]) -> Result<Metric, Fail> {
    let mut files = one_file(alloc, bytes_of(alloc, words, 544, None)?, &[], &[])?;
    Ok(load(alloc, &mut files, &FileName::new(alloc, b"f.tfm")?)?)
}

// A Japanese font of one name at two sizes, and a European one of another name, with their numbers.
fn three_fonts(
    alloc: Global,
    name: &FileName,
    other: &FileName,
) -> Result<(Fonts, [FontNo; 3]), Fail>
    ensures { IfOk result (λ made. length made.0 ≡ 3) }
{
    let mut fonts = Fonts::new(alloc);
    let first = fonts.add(name.same_copy(), 655360, metric(alloc, &JP10)?)?;
    let second = fonts.add(name.same_copy(), 786432, metric(alloc, &JP10)?)?;
    let third = fonts.add(other.same_copy(), 655360, metric(alloc, &LA10)?)?;
    Ok((fonts, [first, second, third]))
}

#[test]
fn fonts_differ_by_their_names_as_spelt_and_by_their_sizes(rt: HostRuntime) -> Result<(), Fail> {
    let name = FileName::new(rt.alloc(), b"f")?;
    let other = FileName::new(rt.alloc(), b"f.tfm")?;
    assert_eq!(rt; Fonts::new(rt.alloc()).find(&name, 655360), None);
    let (fonts, numbers) = three_fonts(rt.alloc(), &name, &other)?;
    assert_eq!(rt; numbers, [FontNo(0), FontNo(1), FontNo(2)]);
    assert_eq!(rt; fonts.find(&name, 655360), Some(FontNo(0)));
    assert_eq!(rt; fonts.find(&name, 786432), Some(FontNo(1)));
    assert_eq!(rt; fonts.find(&other, 655360), Some(FontNo(2)));
    assert_eq!(rt; fonts.find(&other, 786432), None);
    assert_eq!(rt; fonts.name(FontNo(2)).bytes(), b"f.tfm".as_slice());
    assert_eq!(rt; fonts.size(FontNo(1)), 786432);
    assert_eq!(rt; width(fonts.metric(FontNo(2))), Some(327680));
    Ok(())
}
