//! What an item marks.

ghost use Rattle.std.specs.Prelude.{◌≡◌, IfSome};
ghost use Rattle.jis_codes.specs.Numbers.{number_of};
ghost use Rattle.jis_codes.specs.Spellings.{jis};
ghost use Rattle.ts_geometry.specs.Directions.{PointIsWithin};
ghost use Rattle.box_tree.specs.Bounds.{IsDimen, HasDimens, IsDimenIfThere};
ghost use Rattle.box_tree.specs.Nodes.{tree_item};
ghost use Rattle.box_tree.specs.Offsets.{or_else, measures_or};
ghost use Rattle.box_tree.specs.Sound.{IsSoundItem};
ghost use Rattle.box_marks.specs.declared.placed.Piece.TheVariants.{Glyph};
ghost use Rattle.box_marks.specs.Placing.{total_height, placed_at, rule_placed, own_placed};
ghost use Rattle.box_marks.specs.Bounds.{IsSoundPiece};

use box_tree::{FontNo, Frame, Item};
use jis_codes::Cell;
use ts_geometry::{Dir, Measures, Point, Sp, step};

/// A glyph or a rule. Measures are in scaled points.
#[derive(Clone, Copy, Debug, PartialEq, Eq)]
pub enum Piece {
    /// A glyph: its font, its code, which is the JIS code of a Japanese character, and its width.
    Glyph { font: FontNo, code: u16, width: Sp },
    /// A rule: its height with depth and its width, both above 0.
    Rule { height: Sp, width: Sp },
}

/// A glyph or a rule at its point, in the direction of the list that holds it.
#[derive(Clone, Copy, Debug, PartialEq, Eq)]
pub struct Placed {
    pub piece: Piece,
    pub at: Point,
    pub dir: Dir,
}

/// Returns what an item itself marks whose reference point is `at`: a glyph there, or a rule whose
/// height with depth and whose width are above 0, at the point moved across by its depth. A measure
/// that is absent runs to that of the box. What stands in a box is not marked by its item.
pub fn item_mark(frame: &Frame, at: Point, item: &Item) -> Option<Placed>
    requires size_sound { HasDimens frame.now.size }
    requires sound { IsSoundItem frame.now.dir (tree_item item.now) }
    requires at_within { PointIsWithin at }
    ensures value { result ≡ own_placed frame.now at (tree_item item.now) }
    ensures sound { IfSome result (λ p. IsSoundPiece p.piece) }
{
    match item {
        Item::Glyph {
            font,
            code,
            size,
            ..
        } => Some(glyph(*font, u16::from(*code), size.wd, frame.dir, at)),
        Item::Kanji {
            font,
            cell,
            size,
            ..
        } => Some(glyph(*font, code_of(*cell), size.wd, frame.dir, at)),
        Item::Rule { wd, ht, dp } => {
            rule_placed(frame, at, measures_or(*wd, *ht, *dp, frame.size))
        }
        Item::Box { .. }
        | Item::Crossed { .. }
        | Item::Glue { .. }
        | Item::Kern { .. }
        | Item::Penalty { .. } => None,
    }
}

fn glyph(font: FontNo, code: u16, width: Sp, dir: Dir, at: Point) -> Placed
    ensures { result ≡ placed_at (Glyph font code width) at dir }
{
    let piece = Piece::Glyph { font, code, width };
    Placed { piece, at, dir }
}

/// Returns the JIS code of a cell, which has two bytes.
fn code_of(cell: Cell) -> u16
    ensures { result ≡ number_of jis cell }
{
    256 * (u16::from(cell.row()) + 0x20) + (u16::from(cell.cell()) + 0x20)
}

fn rule_placed(frame: &Frame, at: Point, size: Measures) -> Option<Placed>
    requires sound { HasDimens size }
    requires at_within { PointIsWithin at }
    ensures value { result ≡ rule_placed frame.now at size }
    ensures sound { IfSome result (λ p. IsSoundPiece p.piece) }
{
    let height = total_height(size);
    if height.0 <= 0 || size.wd.0 <= 0 {
        return None;
    }
    let piece = Piece::Rule {
        height,
        width: size.wd,
    };
    Some(Placed {
        piece,
        at: step(at, frame.dir, Sp(0), size.dp),
        dir: frame.dir,
    })
}

fn total_height(size: Measures) -> Sp
    requires { HasDimens size }
    ensures { result ≡ total_height size }
{
    size.ht.plus(size.dp)
}

/// Returns the measures of a rule, with those of the box where they are absent.
fn measures_or(wd: Option<Sp>, ht: Option<Sp>, dp: Option<Sp>, other: Measures) -> Measures
    requires wd_sound { IsDimenIfThere wd }
    requires ht_sound { IsDimenIfThere ht }
    requires dp_sound { IsDimenIfThere dp }
    requires other_sound { HasDimens other }
    ensures value { result ≡ measures_or wd ht dp other }
    ensures sound { HasDimens result }
{
    Measures {
        wd: or_else(wd, other.wd),
        ht: or_else(ht, other.ht),
        dp: or_else(dp, other.dp),
    }
}

fn or_else(measure: Option<Sp>, other: Sp) -> Sp
    requires sound { IsDimenIfThere measure }
    requires other_sound { IsDimen other }
    ensures value { result ≡ or_else measure other }
    ensures sound { IsDimen result }
{
    match measure {
        Some(measure) => measure,
        None => other,
    }
}
