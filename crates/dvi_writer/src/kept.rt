//! What is kept of the pages.

ghost use Rattle.std.specs.Prelude.{◌≡◌, ◌+◌, ◌<◌, ◌≤◌, ◌^◌, ◌-ℤ◌};
ghost use Rattle.ts_geometry.specs.Numbers.{IsWithin};
ghost use Rattle.box_tree.specs.Sound.{IsSound};
ghost use Rattle.dvi_writer.specs.Keeping.{at_least_0, covered, page_place, limit_of, start_kept, kept_after};

use crate::fault::WriteFault;
use box_tree::SharedBox;
use ts_geometry::{Point, Rect, Sp, rect};

/// What is kept of the pages: how many bytes were given for them, the place of the last bop, the
/// number of pages, their weight, the greatest height and the greatest width of what their boxes
/// cover, in scaled points, and whether a direction was written.
#[derive(Clone, Copy, Debug)]
pub(crate) struct Kept {
    pub(crate) given: usize,
    pub(crate) last: i32,
    pub(crate) pages: u16,
    pub(crate) weight: u64,
    pub(crate) high: u32,
    pub(crate) wide: u32,
    pub(crate) turned: bool,
}

/// The length of the preamble.
const PREAMBLE: usize = 15;

const CORNER: Point = Point { x: Sp(0), y: Sp(0) };

/// The most pages of a file.
const MOST_PAGES: u16 = 65_535;

/// The most that the boxes of a file may weigh.
const MOST_WEIGHT: u64 = 20_000_000;

impl Kept {
    /// Returns what is kept before the first page.
    pub(crate) fn new() -> Kept
        ensures { result ≡ start_kept }
    {
        Kept {
            given: 0,
            last: -1,
            pages: 0,
            weight: 0,
            high: 0,
            wide: 0,
            turned: false,
        }
    }

    /// Returns the first limit that the page of a box would pass: the number of pages, and then the
    /// weight.
    pub(crate) fn limit(&self, node: &SharedBox) -> Option<WriteFault>
        requires { self.now.weight ≤ 20000000 }
        ensures { result ≡ limit_of self.now.pages self.now.weight node.now }
    {
        if self.pages == MOST_PAGES {
            return Some(WriteFault::PagesFull);
        }
        if self.weight + node.weight() > MOST_WEIGHT {
            return Some(WriteFault::JobTooLarge);
        }
        None
    }

    /// Returns what is kept after the page of a box that has so many bytes.
    pub(crate) fn after(&self, node: &SharedBox, len: usize, turned: bool) -> Kept
        requires sound { IsSound node.now }
        requires short { self.now.given + len < 2 ^ 31 }
        requires place { page_place self.now < 2 ^ 31 }
        requires pages { self.now.pages < 65535 }
        requires weight { self.now.weight ≤ 20000000 }
        ensures { result ≡ kept_after self.now node.now len turned }
    {
        let covered = covered(node);
        let height = at_least_0(covered.bottom.minus(covered.top));
        let width = at_least_0(covered.right.minus(covered.left));
        Kept {
            given: self.given + len,
            last: self.page_place() as i32,
            pages: self.pages + 1,
            weight: self.weight + node.weight(),
            high: self.high.max(height),
            wide: self.wide.max(width),
            turned: self.turned || turned,
        }
    }

    /// Returns the place where the next page begins.
    fn page_place(&self) -> usize
        requires { page_place self.now < 2 ^ 31 }
        ensures { result ≡ page_place self.now }
    {
        if self.pages == 0 {
            self.given + PREAMBLE
        } else {
            self.given
        }
    }
}

fn covered(node: &SharedBox) -> Rect
    requires { IsSound node.now }
    ensures value { result ≡ covered node.now }
    ensures high { IsWithin (2 ^ 31) (result.bottom.0 -ℤ result.top.0) }
    ensures wide { IsWithin (2 ^ 31) (result.right.0 -ℤ result.left.0) }
{
    let node = node.get();
    rect(node.size, CORNER, node.dir)
}

/// Returns a length, or 0 where it is below.
fn at_least_0(length: Sp) -> u32
    requires { IsWithin (2 ^ 31) length.0 }
    ensures { result ≡ at_least_0 length.0 }
{
    if length.0 < 0 { 0 } else { length.0 as u32 }
}
