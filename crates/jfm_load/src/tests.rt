//! Metrics and their faults.

ghost use Rattle.std.specs.Prelude.{◌<◌, ◌^◌};

use super::*;
use jis_codes::Cell;
use metric_words::begins_as_jfm;
use sample_metrics::{JA10, JP10, JT10};
use std::alloc::Global;
use std::test::Fail;
use ts_geometry::{BadKind, Measures, MetricFault, Sp};

fn bytes_of(alloc: Global, words: &[u32]) -> Result<Vec<u8>, Fail> {
    let mut bytes = Vec::new(alloc);
    for word in words {
        bytes.extend_from_slice(&word.to_be_bytes())?;
    }
    Ok(bytes)
}

// The first bytes of a metric, so many of them, with another byte at that place.
fn changed(
    alloc: Global,
    words: &[u32],
    len: usize,
    change: Option<(usize, u8)>,
) -> Result<Vec<u8>, Fail> {
    let mut bytes = bytes_of(alloc, words)?;
    if let Some((at, byte)) = change {
        *bytes.get_mut(at).ok_or("short")? = byte;
    }
    bytes.truncate(len);
    Ok(bytes)
}

// What is read of bytes that begin as a JFM does.
fn read_jfm(alloc: Global, bytes: &[u8]) -> Result<Japanese, Fail> {
    if bytes.len() >= 2 && !begins_as_jfm(bytes) {
        return Err(Fail::from("no JFM"));
    }
    Ok(read(alloc, bytes)?)
}

fn fault_of(alloc: Global, bytes: &[u8]) -> Option<MetricFault> {
    if bytes.len() >= 2 && !begins_as_jfm(bytes) {
        return None;
    }
    read(alloc, bytes).err()
}

fn cell(row: u8, place: u8) -> Result<Cell, Fail> {
    Ok(Cell::new(row, place).ok_or("no cell")?)
}

fn measures_at(font: &Japanese, cell: Cell, z: u32) -> Measures
    requires { z < 2 ^ 23 }
{
    font.measures(font.class(cell), z)
}

fn measures(wd: i64, ht: i64, dp: i64) -> Measures {
    Measures {
        wd: Sp(wd),
        ht: Sp(ht),
        dp: Sp(dp),
    }
}

#[test]
fn a_metric_of_one_class_gives_full_widths(rt: HostRuntime) -> Result<(), Fail> {
    let mut bytes = bytes_of(rt.alloc(), &JP10)?;
    // what stands after the metric is ignored
    bytes.extend_from_slice(&[1, 2, 3])?;
    let font = read_jfm(rt.alloc(), &bytes)?;
    assert!(rt; !font.is_tate());
    assert_eq!(rt; font.check_sum(), 0);
    assert_eq!(rt; font.design(), 655360);
    assert_eq!(rt;
        measures_at(&font, cell(16, 1)?, 655360),
        measures(655360, 573440, 81920)
    );
    for (n, fix) in [(0, 0), (1, 0), (5, 1048576), (6, 1048576), (7, 0)] {
        assert_eq!(rt; font.param(n), fix);
    }
    Ok(())
}

#[test]
fn brackets_and_commas_are_of_half_the_width(rt: HostRuntime) -> Result<(), Fail> {
    let font = read_jfm(rt.alloc(), &bytes_of(rt.alloc(), &JA10)?)?;
    for (row, place, class, width) in [
        (1, 2, 2, 327680),
        (1, 3, 2, 327680),
        (1, 54, 1, 327680),
        (1, 55, 2, 327680),
        (1, 1, 0, 655360),
        (1, 56, 0, 655360),
        (48, 1, 0, 655360),
    ] {
        let cell = cell(row, place)?;
        assert_eq!(rt; font.class(cell), class);
        assert_eq!(rt;
            measures_at(&font, cell, 655360),
            measures(width, 573440, 81920)
        );
    }
    Ok(())
}

#[test]
fn glue_stands_before_brackets_and_after_commas(rt: HostRuntime) -> Result<(), Fail> {
    let font = read_jfm(rt.alloc(), &bytes_of(rt.alloc(), &JA10)?)?;
    let half = Space::Glue(524288, 0, 524288);
    for (left, right, space) in [
        (2, 1, half),
        (2, 0, half),
        (0, 1, half),
        (0, 2, Space::Nothing),
        (1, 1, Space::Nothing),
        (2, 2, Space::Nothing),
        (3, 1, Space::Nothing),
        (255, 0, Space::Nothing),
    ] {
        assert_eq!(rt; font.between(left, right), space);
    }
    Ok(())
}

#[test]
fn a_kern_may_stand_between(rt: HostRuntime) -> Result<(), Fail> {
    // of the six parameters one is taken away, and a kern is put before the glue
    let mut words = JA10;
    words[5] = 0x0003_0001;
    words[6] = 0x0003_0005;
    words[25] = 0x8001_8000;
    words[28] = 0xFFFE_0000;
    words[29] = 0x0008_0000;
    words[30] = 0;
    words[31] = 0x0008_0000;
    let font = read_jfm(rt.alloc(), &bytes_of(rt.alloc(), &words)?)?;
    assert_eq!(rt; font.between(0, 1), Space::Kern(-131072));
    assert_eq!(rt; font.between(2, 1), Space::Glue(524288, 0, 524288));
    Ok(())
}

#[test]
fn the_first_bad_word_counts(rt: HostRuntime) -> Result<(), Fail> {
    let jp10 = JP10.as_slice();
    let ja10 = JA10.as_slice();
    for (words, len, change, kind, at) in [
        (jp10, 0, None, BadKind::Truncated, 0),
        (jp10, 1, None, BadKind::Truncated, 1),
        (jp10, 27, None, BadKind::Truncated, 27),
        (jp10, 95, None, BadKind::Truncated, 95),
        (jp10, 96, Some((5, 0x19)), BadKind::Lengths, 0),
        (jp10, 96, Some((33, 0)), BadKind::FixWord, 32),
        (jp10, 96, Some((39, 1)), BadKind::CharType, 36),
        (jp10, 96, Some((40, 2)), BadKind::Index, 40),
        (jp10, 96, Some((47, 1)), BadKind::FixWord, 44),
        (jp10, 96, Some((48, 1)), BadKind::FixWord, 48),
        (ja10, 100, None, BadKind::Truncated, 100),
        (ja10, 148, Some((45, 0x22)), BadKind::CharType, 44),
        (ja10, 148, Some((102, 1)), BadKind::Program, 100),
        (ja10, 148, Some((103, 1)), BadKind::Program, 100),
        (ja10, 148, Some((108, 0)), BadKind::Program, 108),
    ] {
        let bytes = changed(rt.alloc(), words, len, change)?;
        assert_eq!(rt;
            fault_of(rt.alloc(), &bytes),
            Some(MetricFault::Bad(kind, at))
        );
    }
    Ok(())
}

#[test]
fn a_metric_may_be_for_tate(rt: HostRuntime) -> Result<(), Fail> {
    let font = read_jfm(rt.alloc(), &bytes_of(rt.alloc(), &JT10)?)?;
    assert!(rt; font.is_tate());
    assert_eq!(rt;
        measures_at(&font, cell(16, 1)?, 655360),
        measures(655360, 327680, 327680)
    );
    Ok(())
}
