//! Where writing stands on a page.

ghost use Rattle.std.specs.Prelude.{◌≡◌};
ghost use Rattle.ts_geometry.specs.Directions.{sp};
ghost use Rattle.ts_geometry.specs.Numbers.{IsWithin};
ghost use Rattle.box_marks.specs.Bounds.{IsSoundPiece};
ghost use Rattle.dvi_writer.specs.Saying.{start_hand, same_dir, along, across, width_of, after, is_on_page, is_short, fits, IsInReach, IsOnPage};

use box_marks::{Piece, Placed};
use box_tree::FontNo;
use ts_geometry::{Dir, Point, Sp, step};

/// Where writing stands on a page: the point at which the next glyph or rule would stand, the
/// direction, the chosen font, and whether a direction was written.
#[derive(Clone, Copy, Debug, PartialEq, Eq)]
pub(crate) struct Hand {
    pub(crate) at: Point,
    pub(crate) dir: Dir,
    pub(crate) font: Option<FontNo>,
    pub(crate) turned: bool,
}

/// The greatest coordinate of a mark, in scaled points.
const MAX_COORDINATE: i64 = 536_870_911;

/// The greatest height and width of a rule, in scaled points.
const MAX_RULE: i64 = 1_073_741_823;

impl Hand {
    /// Returns where writing stands at the beginning of a page.
    pub(crate) fn new() -> Hand
        ensures { result ≡ start_hand }
    {
        Hand {
            at: Point { x: Sp(0), y: Sp(0) },
            dir: Dir::Yoko,
            font: None,
            turned: false,
        }
    }

    /// Returns where writing stands after a glyph or a rule.
    pub(crate) fn after(&self, p: Placed) -> Hand
        requires sound { IsSoundPiece p.piece }
        requires there { IsOnPage p.at }
        ensures { result ≡ after self.now p }
    {
        let font = match p.piece {
            Piece::Glyph { font, .. } => Some(font),
            Piece::Rule { .. } => self.font,
        };
        Hand {
            at: step(p.at, p.dir, width_of(p.piece), Sp(0)),
            dir: p.dir,
            font,
            turned: self.turned || !same_dir(self.dir, p.dir),
        }
    }
}

pub(crate) fn same_dir(a: Dir, b: Dir) -> bool
    ensures { result ≡ same_dir a b }
{
    a == b
}

fn width_of(piece: Piece) -> Sp
    ensures { result ≡ width_of piece }
{
    match piece {
        Piece::Glyph { width, .. } | Piece::Rule { width, .. } => width,
    }
}

/// Returns how far a point lies along a direction from another.
pub(crate) fn along(dir: Dir, from: Point, to: Point) -> Sp
    requires from_near { IsInReach from }
    requires to_near { IsOnPage to }
    ensures value { result ≡ sp (along dir from to) }
    ensures near { IsWithin 2147483647 result.0 }
{
    match dir {
        Dir::Yoko => to.x.minus(from.x),
        Dir::Tate => to.y.minus(from.y),
        Dir::Dtou => from.y.minus(to.y),
    }
}

/// Returns how far a point lies across a direction from another.
pub(crate) fn across(dir: Dir, from: Point, to: Point) -> Sp
    requires from_near { IsInReach from }
    requires to_near { IsOnPage to }
    ensures value { result ≡ sp (across dir from to) }
    ensures near { IsWithin 2147483647 result.0 }
{
    match dir {
        Dir::Yoko => to.y.minus(from.y),
        Dir::Tate => from.x.minus(to.x),
        Dir::Dtou => to.x.minus(from.x),
    }
}

fn is_on_page(coordinate: Sp) -> bool
    ensures { result ≡ is_on_page coordinate }
{
    -MAX_COORDINATE <= coordinate.0 && coordinate.0 <= MAX_COORDINATE
}

fn is_short(piece: Piece) -> bool
    ensures { result ≡ is_short piece }
{
    match piece {
        Piece::Glyph { .. } => true,
        Piece::Rule { height, width } => height.0 <= MAX_RULE && width.0 <= MAX_RULE,
    }
}

/// Returns whether a glyph or a rule can be written: its coordinates are at most 2^29 - 1 in
/// absolute value, and the height and the width of a rule at most 2^30 - 1.
#[tactic(auto, unfolding(crate::specs::Saying::fits))]
pub(crate) fn fits(p: Placed) -> bool
    ensures { result ≡ fits p }
{
    is_on_page(p.at.x) && is_on_page(p.at.y) && is_short(p.piece)
}
