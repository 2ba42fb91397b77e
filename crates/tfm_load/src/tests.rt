//! Metrics and their faults.

use super::*;
use metric_words::begins_as_jfm;
use sample_metrics::LA10;
use std::alloc::Global;
use std::test::Fail;
use ts_geometry::{BadKind, Measures, MetricFault, Sp};

fn la10(alloc: Global) -> Result<Vec<u8>, Fail> {
    let mut bytes = Vec::new(alloc);
    for word in LA10 {
        bytes.extend_from_slice(&word.to_be_bytes())?;
    }
    Ok(bytes)
}

// The first bytes of the metric, so many of them, with other bytes from that place on.
fn changed(alloc: Global, len: usize, at: usize, new: &[u8]) -> Result<Vec<u8>, Fail> {
    let mut bytes = la10(alloc)?;
    let mut place = at;
    for byte in new {
        *bytes.get_mut(place).ok_or("short")? = *byte;
        place = place.saturating_add(1);
    }
    bytes.truncate(len);
    Ok(bytes)
}

// What is read of bytes that don't begin as a JFM does.
fn read_tfm(alloc: Global, bytes: &[u8]) -> Result<Roman, Fail> {
    if begins_as_jfm(bytes) {
        return Err(Fail::from("a JFM"));
    }
    Ok(read(alloc, bytes)?)
}

fn fault_of(alloc: Global, bytes: &[u8]) -> Option<MetricFault> {
    if begins_as_jfm(bytes) {
        return None;
    }
    read(alloc, bytes).err()
}

#[test]
fn characters_of_the_font_have_measures(rt: HostRuntime) -> Result<(), Fail> {
    let font = read_tfm(rt.alloc(), &la10(rt.alloc())?)?;
    for (code, width) in [
        (12, Some(491520)),
        (b'a', Some(327680)),
        (b'z', Some(327680)),
        (b'.', Some(327680)),
        (0, None),
        (11, None),
        (13, None),
        (b'@', None),
        (123, None),
        (255, None),
    ] {
        let measures = width.map(|wd| Measures {
            wd: Sp(wd),
            ht: Sp(409600),
            dp: Sp(0),
        });
        assert_eq!(rt; font.measures(code, 655360), measures);
    }
    Ok(())
}

#[test]
fn letters_join_or_have_a_kern(rt: HostRuntime) -> Result<(), Fail> {
    let font = read_tfm(rt.alloc(), &la10(rt.alloc())?)?;
    for (left, right, step) in [
        (102, 105, Step::Ligature(12)),
        (97, 118, Step::Kern(-131072)),
        (102, 118, Step::Nothing),
        (97, 105, Step::Nothing),
        (105, 102, Step::Nothing),
        (13, 105, Step::Nothing),
        (0, 255, Step::Nothing),
    ] {
        assert_eq!(rt; font.pair(left, right), step);
    }
    Ok(())
}

#[test]
fn a_program_may_start_elsewhere(rt: HostRuntime) -> Result<(), Fail> {
    let bytes = changed(rt.alloc(), 544, 504, &[129, 105, 0, 1])?;
    let font = read_tfm(rt.alloc(), &bytes)?;
    assert_eq!(rt; font.pair(102, 118), Step::Kern(-131072));
    assert_eq!(rt; font.pair(102, 105), Step::Nothing);
    Ok(())
}

#[test]
fn parameters_and_the_design_size_are_kept(rt: HostRuntime) -> Result<(), Fail> {
    let font = read_tfm(rt.alloc(), &la10(rt.alloc())?)?;
    assert_eq!(rt; font.design(), 655360);
    assert_eq!(rt; font.check_sum(), 0);
    for (n, fix) in [
        (0, 0),
        (2, 262144),
        (3, 131072),
        (6, 1048576),
        (7, 0),
        (8, 0),
    ] {
        assert_eq!(rt; font.param(n), fix);
    }
    Ok(())
}

#[test]
fn the_first_bad_word_counts(rt: HostRuntime) -> Result<(), Fail> {
    for (len, change, byte, kind, at) in [
        (0, 0, 0, BadKind::Truncated, 0),
        (1, 0, 0, BadKind::Truncated, 1),
        (23, 0, 0, BadKind::Truncated, 23),
        (543, 0, 0, BadKind::Truncated, 543),
        (544, 1, 0x89, BadKind::Lengths, 0),
        (544, 29, 0, BadKind::FixWord, 28),
        (544, 504, 0xFF, BadKind::Ligature, 504),
        (544, 506, 1, BadKind::Ligature, 504),
        (544, 507, 0x0D, BadKind::Ligature, 504),
        (544, 508, 0xFF, BadKind::Ligature, 508),
        (544, 508, 0x7F, BadKind::Program, 508),
        (544, 510, 0x81, BadKind::Program, 508),
        (544, 511, 1, BadKind::Program, 508),
    ] {
        let bytes = changed(rt.alloc(), len, change, &[byte])?;
        assert_eq!(rt;
            fault_of(rt.alloc(), &bytes),
            Some(MetricFault::Bad(kind, at))
        );
    }
    Ok(())
}
