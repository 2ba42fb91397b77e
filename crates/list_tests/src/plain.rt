//! The finished list of calls, for which each gap is worked out anew from all calls before and
//! after it.

use crate::finished::{Call, Look, Sample};
use std::alloc::Global;
use std::test::Fail;

// A character or another call, after letters were joined. A Japanese character has its class.
#[derive(Clone, Copy)]
enum Piece {
    Kanji {
        class: u8,
        look: Look,
        is_text: bool,
        pre: i32,
        post: i32,
    },
    Letter {
        code: u8,
        first: u8,
        pre: i32,
        post: i32,
    },
    Penalty(i64),
    Other(Look),
    Cut,
    Inhibit,
}

// The classes of the sample font: an opening bracket, and what closes.
fn class_of(row: u8, place: u8) -> u8 {
    match (row, place) {
        (1, 54) => 1,
        (1, 2) | (1, 55) => 2,
        _ => 0,
    }
}

fn piece_of(call: Call) -> Piece {
    match call {
        Call::Kanji(row, place, kind, pre, post) => Piece::Kanji {
            class: class_of(row, place),
            look: Look::Kanji(
                (u16::from(row).saturating_add(32))
                    .saturating_mul(256)
                    .saturating_add(u16::from(place).saturating_add(32)),
            ),
            is_text: kind < 18,
            pre,
            post,
        },
        Call::Letter(code, pre, post) => Piece::Letter {
            code,
            first: code,
            pre,
            post,
        },
        Call::Kern(width) => Piece::Other(Look::Kern(width)),
        Call::Penalty(value) => Piece::Penalty(value),
        Call::Rule => Piece::Other(Look::Rule),
        Call::Cut => Piece::Cut,
        Call::Inhibit => Piece::Inhibit,
    }
}

// The last character of some pieces, over inhibits, and where that is asked for over cuts and
// penalties too.
fn last_character(pieces: &[Piece], over_cuts: bool) -> Option<Piece> {
    let mut last = None;
    for piece in pieces {
        match piece {
            Piece::Kanji { .. } | Piece::Letter { .. } => last = Some(*piece),
            Piece::Inhibit => {}
            Piece::Cut | Piece::Penalty(_) if over_cuts => {}
            _ => last = None,
        }
    }
    last
}

// How many pieces there are without the inhibits at the end.
fn len_without_inhibits(pieces: &[Piece]) -> usize {
    let mut len = 0;
    for (at, piece) in pieces.iter().enumerate() {
        if let Piece::Inhibit = piece {} else {
            len = at.saturating_add(1);
        }
    }
    len
}

// The pieces with their letters joined: f and i make a ligature, and nothing else does.
fn pieces_of(alloc: Global, calls: &[Call]) -> Result<Vec<Piece>, Fail> {
    let mut pieces = Vec::new(alloc);
    for call in calls {
        let piece = piece_of(*call);
        let left = last_character(pieces.as_slice(), false);
        match (left, piece) {
            (
                Some(
                    Piece::Letter {
                        code: b'f',
                        pre,
                        ..
                    },
                ),
                Piece::Letter {
                    code: b'i',
                    post,
                    ..
                },
            ) => {
                let len = len_without_inhibits(pieces.as_slice());
                pieces.truncate(len.saturating_sub(1));
                pieces.push(Piece::Letter {
                    code: 12,
                    first: b'f',
                    pre,
                    post,
                })?;
            }
            _ => pieces.push(piece)?,
        }
    }
    Ok(pieces)
}

// The glue of the sample font between two classes.
fn glue_between(left: u8, right: u8) -> Option<Look> {
    match (left, right) {
        (0, 1) | (2, 0) | (2, 1) => Some(Look::Space),
        _ => None,
    }
}

// The metric space or kern before a character.
fn space_before(before: &[Piece], piece: Piece) -> Option<Look> {
    let left = last_character(before, false);
    if let (Some(Piece::Letter { code, .. }), Piece::Letter { first, .. }) = (left, piece) {
        return if code == b'a' && first == b'v' {
            Some(Look::Kern(-81_920))
        } else {
            None
        };
    }
    if let Some(Piece::Inhibit) = before.last() {
        return None;
    }
    match (left, piece) {
        (Some(Piece::Kanji { class: left, .. }), Piece::Kanji { class, .. }) => {
            glue_between(left, class)
        }
        (_, Piece::Kanji { class, .. }) => glue_between(0, class),
        (Some(Piece::Kanji { class: left, .. }), _) => glue_between(left, 0),
        _ => None,
    }
}

// The skip between two neighbours.
fn skip_between(codes: &Sample, left: Piece, right: Piece) -> Option<Look> {
    let (letter, kanji, width) = match (left, right) {
        (Piece::Kanji { .. }, Piece::Kanji { .. }) => {
            return Some(Look::Skip(if codes.auto { 7 } else { 0 }));
        }
        (Piece::Kanji { .. }, _) => (codes.xsp % 2, codes.inhibit_xsp % 2, 9),
        (_, Piece::Kanji { .. }) => (codes.xsp / 2, codes.inhibit_xsp / 2, 9),
        _ => return None,
    };
    if codes.autox && letter == 1 && kanji == 1 {
        Some(Look::Skip(width))
    } else {
        None
    }
}

// Whether the widow penalty may stand before a kanji or kana with these pieces after it.
fn is_last_text(after: &[Piece]) -> bool {
    for piece in after {
        match piece {
            Piece::Letter { .. } | Piece::Other(Look::Rule) | Piece::Kanji { is_text: true, .. } =>
                {
                    return false;
                }
            _ => {}
        }
    }
    true
}

fn penalties(piece: Piece) -> (i64, i64) {
    match piece {
        Piece::Kanji { pre, post, .. } => (i64::from(pre), i64::from(post)),
        Piece::Letter { pre, post, .. } => (i64::from(pre), i64::from(post)),
        _ => (0, 0),
    }
}

// The penalty before a character whose neighbour is that one.
fn penalty_before(left: Piece, piece: Piece, widow: i64) -> Option<Look> {
    let is_japanese = match (left, piece) {
        (Piece::Kanji { .. }, _) | (_, Piece::Kanji { .. }) => true,
        _ => false,
    };
    let sum = penalties(left).1.saturating_add(penalties(piece).0);
    if is_japanese && (sum != 0 || widow != 0) {
        Some(Look::Penalty(sum.saturating_add(widow), true))
    } else {
        None
    }
}

// The widow penalty before a piece, and 0 where there is none.
fn widow_before(left: Piece, piece: Piece, after: &[Piece], para: bool, codes: &Sample) -> i64 {
    match (left, piece) {
        (Piece::Kanji { .. }, Piece::Kanji { is_text: true, .. }) if para && is_last_text(after) =>
            { i64::from(codes.widow) }
        _ => 0,
    }
}

// What stands directly before a character.
fn gap(
    alloc: Global,
    before: &[Piece],
    piece: Piece,
    after: &[Piece],
    para: bool,
    codes: &Sample,
) -> Result<Vec<Look>, Fail> {
    let mut gap = Vec::new(alloc);
    let left = last_character(before, true);
    let space = space_before(before, piece);
    let (penalty, skip) = match left {
        Some(left) => {
            let widow = widow_before(left, piece, after, para, codes);
            (
                penalty_before(left, piece, widow),
                skip_between(codes, left, piece),
            )
        }
        None => (None, None),
    };
    if let Some(penalty) = penalty {
        gap.push(penalty)?;
    }
    if let Some(space) = space.or(skip) {
        gap.push(space)?;
    }
    Ok(gap)
}

/// Returns the finished list of calls.
pub(crate) fn plain(
    alloc: Global,
    calls: &[Call],
    para: bool,
    codes: &Sample,
) -> Result<Vec<Look>, Fail> {
    let pieces = pieces_of(alloc, calls)?;
    let pieces = pieces.as_slice();
    let mut looks = Vec::new(alloc);
    for (at, piece) in pieces.iter().enumerate() {
        let before = pieces.get(..at).ok_or("before")?;
        let after = pieces.get(at.saturating_add(1)..).ok_or("after")?;
        let own = match piece {
            Piece::Kanji { look, .. } => *look,
            Piece::Letter { code, .. } => Look::Letter(*code),
            Piece::Penalty(value) => Look::Penalty(*value, false),
            Piece::Other(look) => *look,
            Piece::Cut | Piece::Inhibit => continue,
        };
        if let Piece::Kanji { .. } | Piece::Letter { .. } = piece {
            looks.extend_from_slice(&gap(alloc, before, *piece, after, para, codes)?)?;
        }
        looks.push(own)?;
    }
    Ok(looks)
}
