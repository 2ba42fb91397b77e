//! The skip between two characters.

ghost use Rattle.std.specs.Prelude.{◌≡◌, Some};
ghost use Rattle.kanjiskip_adjust.specs.Finished.{allows_before, allows_after, end_skip, no_glue, widow_of};
ghost use Rattle.kanjiskip_adjust.specs.Walks.{skip_before, skip_glue};
ghost use Rattle.kanjiskip_adjust.specs.declared.look.End.TheVariants as ends;

use crate::codes::EndCodes;
use crate::look::{End, Look};
use crate::walk::Walk;
use jis_codes::Cell;
use ts_geometry::{Glue, Order, Sp};

/// Glue of no width.
const NO_GLUE: Glue = Glue {
    width: Sp(0),
    stretch: Sp(0),
    stretch_order: Order::Normal,
    shrink: Sp(0),
    shrink_order: Order::Normal,
};

// Whether a space may stand before a letter that follows a Japanese character.
#[inline(always)]
fn allows_before<E: EndCodes>(codes: &E, code: u8, cell: Cell) -> bool
    ensures { result ≡ allows_before (E.codes codes.now) code cell }
{
    let letter = codes.xsp(code);
    let kanji = codes.inhibit_xsp(cell);
    codes.autox() && (letter == 1 || letter == 3) && (kanji == 1 || kanji == 3)
}

// Whether one may stand after a letter that a Japanese character follows.
#[inline(always)]
fn allows_after<E: EndCodes>(codes: &E, code: u8, cell: Cell) -> bool
    ensures { result ≡ allows_after (E.codes codes.now) code cell }
{
    let letter = codes.xsp(code);
    let kanji = codes.inhibit_xsp(cell);
    codes.autox() && (letter == 2 || letter == 3) && (kanji == 2 || kanji == 3)
}

/// Which skip goes into a gap: that between two Japanese characters, or that between one and a
/// European one.
#[derive(Clone, Copy, Debug)]
pub enum Skip {
    Japanese,
    Mixed,
}

/// Returns a skip as it is at the list's end.
#[inline(always)]
pub(crate) fn glue_of<E: EndCodes>(codes: &E, skip: Skip) -> Glue
    ensures { Some result ≡ skip_glue (E.codes codes.now) (Some skip) }
{
    match skip {
        Skip::Japanese => {
            if codes.auto() {
                codes.kanjiskip()
            } else {
                NO_GLUE
            }
        }
        Skip::Mixed => codes.xkanjiskip(),
    }
}

// The skip between a Japanese character and another end.
#[inline(always)]
fn skip_after_kanji<E: EndCodes>(codes: &E, cell: Cell, right: &End) -> Option<Skip>
    ensures { skip_glue (E.codes codes.now) result
        ≡ end_skip (E.codes codes.now) (Some (ends.Japanese cell)) (Some right.now) }
{
    match right {
        End::Japanese(_) => Some(Skip::Japanese),
        End::European(code) => {
            if allows_before(codes, *code, cell) {
                Some(Skip::Mixed)
            } else {
                None
            }
        }
    }
}

// The skip between a European character and another end.
#[inline(always)]
fn skip_after_letter<E: EndCodes>(codes: &E, code: u8, right: &End) -> Option<Skip>
    ensures { skip_glue (E.codes codes.now) result
        ≡ end_skip (E.codes codes.now) (Some (ends.European code)) (Some right.now) }
{
    match right {
        End::Japanese(cell) => {
            if allows_after(codes, code, *cell) {
                Some(Skip::Mixed)
            } else {
                None
            }
        }
        End::European(_) => None,
    }
}

// The skip between two ends.
#[inline(always)]
fn skip_between<E: EndCodes>(codes: &E, left: &Option<End>, right: &End) -> Option<Skip>
    ensures { skip_glue (E.codes codes.now) result
        ≡ end_skip (E.codes codes.now) left.now (Some right.now) }
{
    match left {
        Some(End::Japanese(cell)) => skip_after_kanji(codes, *cell, right),
        Some(End::European(code)) => skip_after_letter(codes, *code, right),
        None => None,
    }
}

/// Returns the skip that goes directly before an item.
#[inline(always)]
pub(crate) fn skip_at<E: EndCodes>(codes: &E, walk: &Walk, look: &Look) -> Option<Skip>
    ensures { skip_glue (E.codes codes.now) result
        ≡ skip_before (E.codes codes.now) walk.now look.now }
{
    if walk.is_spaced {
        return None;
    }
    match look {
        Look::Letter(first, _) => skip_between(codes, &walk.left, &End::European(*first)),
        Look::Kanji(cell, _) => skip_between(codes, &walk.left, &End::Japanese(*cell)),
        _ => None,
    }
}

/// Returns the widow penalty, if there is one.
pub(crate) fn widow_penalty<E: EndCodes>(codes: &E, para: bool) -> Option<i32>
    ensures { result ≡ widow_of (E.codes codes.now) para }
{
    let widow = codes.widow();
    if para && widow != 0 {
        Some(widow)
    } else {
        None
    }
}
