//! Laws of ended paragraphs, and of the breaks that a pass chooses.

ghost use Rattle.line_break.specs.Laws.{EndedIsSound, EndIsForced, EndIsShort, PlacesAreInside};
ghost use Rattle.line_break.specs.Lines.{Pass};
ghost use Rattle.line_break.specs.Walks.{IsLeast, NeedsNoRescue, IsOfAdmissibleLines};

/// Sound items and a sound last glue make a sound paragraph, of at most three items more, which
/// ends with a penalty of -10000.
#[tactic(auto, using(crate::proofs::Ended::ended_is_sound, crate::proofs::Ended::end_is_short, crate::proofs::Inside::end_is_forced))]
pub fn an_end_keeps_items_sound()
    ensures sound { EndedIsSound }
    ensures short { EndIsShort }
    ensures forced { EndIsForced }
{}

/// Each line of a paragraph that ends with a penalty of -10000 ends at an item.
#[tactic(auto, using(crate::proofs::Inside::places_are_inside))]
pub fn lines_end_at_items()
    ensures { PlacesAreInside }
{}

/// No walk of admissible lines from the start to the last break has a lower sum of demerits than
/// the one that a pass chooses. Where the pass takes no line that doesn't fit, the one that it
/// chooses is itself such a walk, with that sum.
#[tactic(auto, using(crate::proofs::Least::no_walk_is_less, crate::proofs::Sound::is_of_admissible_lines))]
pub fn no_walk_is_less()
    ensures least { (p : Pass) → IsLeast p }
    ensures admissible { (p : Pass) → NeedsNoRescue p → IsOfAdmissibleLines p }
{}
