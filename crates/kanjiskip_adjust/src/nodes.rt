//! Nodes that the walk remembers.

ghost use Rattle.std.specs.Prelude.{◌≡◌};
ghost use Rattle.kanjiskip_adjust.specs.Nodes.{marks_after};

use crate::look::Look;
use node_links::NodeNo;

/// Nodes that the walk remembers.
#[derive(Clone, Copy, Debug)]
pub struct Marks {
    /// The last one that it passed.
    pub before: NodeNo,
    /// The one before the gap.
    pub gap: NodeNo,
    /// The one before the gap that may have the widow penalty.
    pub widow: NodeNo,
}

impl Marks {
    /// Returns the marks at the front of a list, with this node for those that aren't there yet.
    #[inline(always)]
    pub(crate) fn at(first: NodeNo) -> Marks
        ensures { result ≡ record { before = first; gap = first; widow = first } }
    {
        Marks {
            before: first,
            gap: first,
            widow: first,
        }
    }

    /// Goes past the node of an item.
    #[inline(always)]
    pub(crate) fn go_past(&mut self, look: &Look, number: NodeNo)
        ensures { self.new ≡ marks_after self.old look.now number }
    {
        self.before = number;
        match look {
            Look::Gap => {}
            Look::Space => {}
            Look::Skip => {}
            Look::Kanji(_, is_text) => {
                if *is_text {
                    self.widow = self.gap;
                }
                self.gap = number;
            }
            _ => self.gap = number,
        }
    }
}
