//! Laws of what DVI files mean, for those who write them. The lemmas that proofs cite for them
//! stand in `proofs/Writing.antt`.

ghost use Rattle.dvi_code.specs.Laws.{WholePagesAreFirst, SheetsGrow, CommandsLead, BytesLeadOn, CommandsDrawOn, DefinitionsStay, BodiesJoin, BodiesLead, LastPlaced, NothingDrawn, OneDrawn, ShortNamesSound};

/// The whole pages of a prefix of a file, those whose eop is in it, are the first of its pages.
#[tactic(auto, using(crate::proofs::Writing::whole_pages_are_first, std::proofs::lemmas::Grind::common_steps))]
pub fn whole_pages_are_the_first()
    ensures { WholePagesAreFirst }
{}

/// The whole pages of a prefix of bytes are the first of those of all the bytes, whatever they are.
#[tactic(auto, using(crate::proofs::Writing::sheets_grow, std::proofs::lemmas::Grind::common_steps))]
pub fn sheets_grow()
    ensures { SheetsGrow }
{}

/// A command of a file leads from one structure to the next.
#[tactic(auto, using(crate::proofs::Writing::commands_lead, std::proofs::lemmas::Grind::common_steps))]
pub fn commands_lead()
    ensures { CommandsLead }
{}

/// Bytes lead on from where those before them led.
#[tactic(auto, using(crate::proofs::Writing::bytes_lead_on, std::proofs::lemmas::Grind::common_steps))]
pub fn bytes_lead_on()
    ensures { BytesLeadOn }
{}

/// Commands draw on from where those before them drew.
#[tactic(auto, using(crate::proofs::Writing::commands_draw_on, std::proofs::lemmas::Grind::common_steps))]
pub fn commands_draw_on()
    ensures { CommandsDrawOn }
{}

/// A number that is defined keeps its definition.
#[tactic(auto, using(crate::proofs::Writing::definitions_stay, std::proofs::lemmas::Grind::common_steps))]
pub fn definitions_stay()
    ensures { DefinitionsStay }
{}

/// Commands that are right within a page join, and bytes that say such commands lead on within it.
#[tactic(auto, using(crate::proofs::Writing::bodies_join, crate::proofs::Writing::bodies_lead, std::proofs::lemmas::Grind::common_steps))]
pub fn bodies_lead_on()
    ensures join { BodiesJoin }
    ensures lead { BodiesLead }
{}

/// post_post is the last command of a file, and the fill comes after it.
#[tactic(auto, using(crate::proofs::Writing::last_placed, std::proofs::lemmas::Grind::common_steps))]
pub fn the_last_is_placed()
    ensures { LastPlaced }
{}

/// No command leaves the pen as it is, and one before others draws before them.
#[tactic(auto, using(crate::proofs::Writing::nothing_drawn, crate::proofs::Writing::one_drawn, std::proofs::lemmas::Grind::common_steps))]
pub fn commands_draw()
    ensures none { NothingDrawn }
    ensures one { OneDrawn }
{}

/// A name of at most 251 bytes leaves room for the ending of a metric file.
#[tactic(auto, using(crate::proofs::Writing::short_names_sound, std::proofs::lemmas::Grind::common_steps))]
pub fn short_names_are_sound()
    ensures { ShortNamesSound }
{}
