//! Sources that ship boxes: what is put, read as a DVI file.

use crate::runs::{Met, how_it_ended};
use dvi_code::{FontDef, Mark, What, Widths, read_pages};
use input_codings::Coding;
use main_control::{FaultKind, Stomach};
use sample_metrics::JP10;
use shipping::PageShipper;
use std::alloc::Global;
use std::test::Fail;
use ts_base::NoMemory;
use ts_geometry::Sp;
use ts_outside::{FileName, MemFile, MemFiles, MemSink};

/// Every character is of full width at 10 points.
struct FullWidth;

impl Widths for FullWidth {
    ghost use Rattle.std.specs.Prelude.{Some, pos};
    ghost use Rattle.ts_geometry.specs.Directions.{sp};

    ghost width_of = { λ widths font code. Some (sp (pos 655360)) };

    fn width(&self, _font: &FontDef, _code: u32) -> Option<Sp> {
        Some(Sp(655_360))
    }
}

/// What a source is run with: its coding, its units, and the call on files and the put that fail.
#[derive(Clone, Copy)]
struct Setting {
    coding: Coding,
    budget: u32,
    failed_call: u64,
    failed_put: u64,
}

const PLAIN: Setting = Setting {
    coding: Coding::Euc,
    budget: 5000,
    failed_call: 9999,
    failed_put: 9999,
};

/// A glyph on a page: the page from 0, its code, and where it stands in scaled points.
type Glyph = (usize, u32, i64, i64);

/// The bytes of words.
fn bytes_of(alloc: Global, words: &[u32]) -> Result<Vec<u8>, NoMemory> {
    let mut bytes = Vec::new(alloc);
    for word in words {
        bytes
            .extend_from_slice(&word.to_be_bytes())
            .or(Err(NoMemory))?;
    }
    Ok(bytes)
}

fn file(alloc: Global, name: &[u8], bytes: Vec<u8>) -> Result<MemFile, NoMemory> {
    let name = FileName::new(alloc, name).or(Err(NoMemory))?;
    Ok(MemFile { name, bytes })
}

/// Runs a source beside the metric `jp10.tfm` and a file `b.tex`, which are read byte by byte, over a
/// sink that takes one byte at a time, and finishes what is put where the run isn't cut short.
fn put(
    alloc: Global,
    source: &[u8],
    other: &[u8],
    set: Setting,
) -> Result<(Met, Vec<u8>), NoMemory> {
    let name = FileName::new(alloc, b"a.tex").or(Err(NoMemory))?;
    let mut held = Vec::new(alloc);
    held.push(file(alloc, b"a.tex", source.to_vec(alloc)?)?)?;
    held.push(file(alloc, b"b.tex", other.to_vec(alloc)?)?)?;
    held.push(file(alloc, b"jp10.tfm", bytes_of(alloc, &JP10)?)?)?;
    let ones = vec![in alloc; 1]?;
    let mut files = MemFiles::new(alloc, held, ones, vec![in alloc; set.failed_call]?);
    let mut sink = MemSink::new(alloc, vec![in alloc; 1]?, vec![in alloc; set.failed_put]?);
    let mut shipper = PageShipper::new(alloc, &mut sink);
    let ending = Stomach::run(
        alloc,
        &mut files,
        &mut shipper,
        &name,
        set.coding,
        set.budget,
    );
    let met = how_it_ended(ending);
    if met == Met::Read || met == Met::Other {
        drop(shipper);
    } else {
        shipper.finish().or(Err(NoMemory))?;
    }
    Ok((met, sink.bytes().to_vec(alloc)?))
}

/// The glyphs of the pages that bytes have, where they are a DVI file.
fn glyphs(alloc: Global, bytes: &[u8]) -> Result<Vec<Glyph>, Fail> {
    let pages = read_pages(alloc, bytes, &FullWidth).or(Err("no DVI file"))?;
    let mut found = Vec::new(alloc);
    for (n, page) in pages.as_slice().iter().enumerate() {
        add_glyphs(n, page.marks.as_slice(), &mut found)?;
    }
    Ok(found)
}

fn add_glyphs(page: usize, marks: &[Mark], found: &mut Vec<Glyph>) -> Result<(), Fail> {
    for mark in marks {
        if let What::Glyph(_, _, code) = mark.what {
            found.push((page, code, mark.at.x.0, mark.at.y.0))?;
        }
    }
    Ok(())
}

/// Two characters of full width, one after the other.
const TWO: &[Glyph] = &[(0, 0x2422, 0, 573_440), (0, 0x2424, 655_360, 573_440)];

/// Sources whose pages have these glyphs.
const SHIPPED: [(&[u8], Coding, &[Glyph]); 11] = [
    (
        b"\\font\\j=jp10 \\j\\shipout\\hbox{\xa4\xa2\xa4\xa4}\\end",
        Coding::Euc,
        TWO,
    ),
    (
        b"\\font\\j=jp10 \\j\\shipout\\hbox{\x1b$B$\"$$\x1b(B}\\end",
        Coding::Jis,
        TWO,
    ),
    (
        b"\\font\\j=jp10 \\j\\shipout\\hbox{\x82\xa0\x82\xa2}\\end",
        Coding::Sjis,
        TWO,
    ),
    (
        b"\\font\\j=jp10 \\j\\shipout\\hbox{\\char\"A4A2 \\char\"A4A4}\\end",
        Coding::Euc,
        TWO,
    ),
    (
        b"\\chardef\\a\"A4A2 \\let\\b=\xa4\xa4\\font\\j=jp10 \\j\\shipout\\hbox{\\a\\b}\\end",
        Coding::Euc,
        TWO,
    ),
    (
        b"\\font\\j=jp10 \\shipout\\relax\\hbox to 40pt{{\\j \xa4\xa2{\xa4\xa4}}}\\end",
        Coding::Euc,
        &[(0, 0x2422, 0, 573_440), (0, 0x2424, 1_966_080, 573_440)],
    ),
    (
        b"\\font\\j=jp10 \\j\\shipout\\hbox{\\kanjiskip=1pt \xa4\xa2\xa4\xa4\\kanjiskip=2pt }\\end",
        Coding::Euc,
        &[(0, 0x2422, 0, 573_440), (0, 0x2424, 786_432, 573_440)],
    ),
    (
        b"\\font\\j=jp10 at 20pt\\j\\shipout\\hbox{\xa4\xa2}\\end",
        Coding::Euc,
        &[(0, 0x2422, 0, 1_146_880)],
    ),
    (
        b"\\font\\j=jp10 scaled 500 \\j\\shipout\\hbox{\xa4\xa2}\\end",
        Coding::Euc,
        &[(0, 0x2422, 0, 286_720)],
    ),
    (
        b"\\font\\j=jp10 \\j\\shipout\\hbox{\xa4\xa2}\\shipout\\hbox{\xa4\xa4}\\end",
        Coding::Euc,
        &[(0, 0x2422, 0, 573_440), (1, 0x2424, 0, 573_440)],
    ),
    (b"\\shipout\\hbox{\xa4\xa2}\\end", Coding::Euc, &[]),
];

#[test]
fn pages_have_the_glyphs_of_their_boxes(rt: HostRuntime) -> Result<(), Fail> {
    let alloc = rt.alloc();
    for (source, coding, wanted) in SHIPPED {
        let set = Setting { coding, ..PLAIN };
        let (met, bytes) = put(alloc, source, b"", set).or(Err("memory"))?;
        assert_eq!(rt; met, Met::End);
        assert_eq!(rt; glyphs(alloc, &bytes)?.as_slice(), wanted);
    }
    Ok(())
}

/// Sources whose one page has these first two counts.
const COUNTED: [(&[u8], [i32; 2]); 3] = [
    (
        b"\\def\\a{\\input b \\count0=2 }\\a\\shipout\\hbox{}\\end",
        [2, 0],
    ),
    (
        b"\\ifnum1=1\\else\\count0=5 \\fi\\count1=3 \\shipout\\hbox{}\\end",
        [0, 3],
    ),
    (
        b"\\count0=-7 \\shipout\\hbox{\\count0=8 \\global\\count1=9 }\\end",
        [-7, 9],
    ),
];

fn first_counts(alloc: Global, bytes: &[u8]) -> Result<[i32; 2], Fail> {
    let pages = read_pages(alloc, bytes, &FullWidth).or(Err("no DVI file"))?;
    let page = pages.as_slice().first().ok_or("no page")?;
    Ok([page.counts[0], page.counts[1]])
}

#[test]
fn counts_are_those_outside_the_box(rt: HostRuntime) -> Result<(), Fail> {
    let alloc = rt.alloc();
    for (source, wanted) in COUNTED {
        let (met, bytes) = put(alloc, source, b"\\count0=1", PLAIN).or(Err("memory"))?;
        assert_eq!(rt; met, Met::End);
        assert_eq!(rt; first_counts(alloc, &bytes)?, wanted);
    }
    Ok(())
}

/// Sources that are refused, with the line and how many pages were put.
const REFUSED: [(&[u8], FaultKind, u32, usize); 24] = [
    // what a box needs
    (b"\\shipout a", FaultKind::NotInMode, 1, 0),
    (b"\\shipout\n\n", FaultKind::NotInMode, 2, 0),
    (b"\\shipout\\vbox{", FaultKind::NotBuilt, 1, 0),
    (b"\\shipout\\setbox", FaultKind::NotBuilt, 1, 0),
    (b"\\shipout\\undefined", FaultKind::Undefined, 1, 0),
    (b"\\shipout\\hbox a", FaultKind::NoBrace, 1, 0),
    (b"\\shipout\\hbox\n\na", FaultKind::NoBrace, 2, 0),
    (b"\\shipout\\hbox\\relax to 3sp{", FaultKind::NoBrace, 1, 0),
    (b"\\shipout\\hbox to16384pt a", FaultKind::DimenRange, 1, 0),
    // in a box and outside
    (b"\\hbox{}", FaultKind::NotBuilt, 1, 0),
    (b"\\char256 ", FaultKind::NotBuilt, 1, 0),
    (b"\\shipout\\hbox{\\char256 }", FaultKind::CodeRange, 1, 0),
    (b"\\shipout\\hbox{\n\\relax\\ }", FaultKind::NotBuilt, 1, 0),
    (b"\\shipout\\hbox{\\end", FaultKind::NotInMode, 1, 0),
    (
        b"\\shipout\\hbox{%\n\\begingroup}",
        FaultKind::GroupEnd,
        2,
        0,
    ),
    (b"\\shipout\\hbox{\\endgroup", FaultKind::GroupEnd, 1, 0),
    (b"\\shipout\\hbox{%", FaultKind::NoEnd, 1, 0),
    // fonts
    (b"\\font\\j=zz\n\\relax", FaultKind::FileMissing, 2, 0),
    (b"\\font\\j=jp10 at0pt\n\\relax", FaultKind::FontSize, 1, 0),
    (
        b"\\font\\j=jp10 scaled0%\n\\relax",
        FaultKind::FontSize,
        2,
        0,
    ),
    (b"\\long\\font\\j=zz", FaultKind::NotInMode, 1, 0),
    (
        b"\\font\\j=jp10 {\\font\\k=jp10 \\k}\\k",
        FaultKind::Undefined,
        1,
        0,
    ),
    // pages that were put stay
    (
        b"\\shipout\\hbox{}\\shipout\\hbox{}\n\\undefined",
        FaultKind::Undefined,
        2,
        2,
    ),
    (
        b"\\deadcycles=1 \\shipout\\hbox{}\\deadcycles=1 \\end",
        FaultKind::NotBuilt,
        1,
        1,
    ),
];

/// How many pages bytes have; no bytes have none.
fn pages_in(alloc: Global, bytes: &[u8]) -> Result<usize, Fail> {
    if bytes.is_empty() {
        return Ok(0);
    }
    Ok(
        read_pages(alloc, bytes, &FullWidth)
            .or(Err("no DVI file"))?
            .len(),
    )
}

#[test]
fn a_refusal_has_its_line_and_leaves_the_pages(rt: HostRuntime) -> Result<(), Fail> {
    let alloc = rt.alloc();
    for (source, kind, line, pages) in REFUSED {
        let (met, bytes) = put(alloc, source, b"", PLAIN).or(Err("memory"))?;
        assert_eq!(rt; met, Met::Fault(kind, line));
        assert_eq!(rt; pages_in(alloc, &bytes)?, pages);
    }
    Ok(())
}

/// A source of two pages.
const TWO_PAGES: &[u8] =
    b"\\font\\j=jp10 \\j\\shipout\\hbox{\xa4\xa2}\\shipout\\hbox{\xa4\xa4}\\end";

/// More calls on files than the source of two pages needs.
const MOST_CALLS: u64 = 400;

/// The last byte of a page.
const END_OF_PAGE: u8 = 140;

#[test]
fn a_failed_read_leaves_whole_pages(rt: HostRuntime) -> Result<(), Fail> {
    let alloc = rt.alloc();
    let mut cut: usize = 0;
    for failed_call in 0..MOST_CALLS {
        let set = Setting {
            failed_call,
            ..PLAIN
        };
        let (met, bytes) = put(alloc, TWO_PAGES, b"", set).or(Err("memory"))?;
        if met == Met::Read {
            cut = cut.saturating_add(1);
            assert!(rt; bytes.is_empty() || bytes[bytes.len() - 1] == END_OF_PAGE);
        } else {
            assert_eq!(rt; met, Met::End);
        }
    }
    assert!(rt; 100 < cut);
    Ok(())
}
