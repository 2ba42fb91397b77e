//! Laws of what bytes say, for those who write DVI files. The lemmas that proofs cite for them
//! stand in `proofs/Writing.antt`.

ghost use Rattle.dvi_commands.specs.Laws.{CommandsStay, SpellingsJoin, SaysPush, SaysPop, SaysEop, SaysRight, SaysDown, SaysSet, SaysFontDef, SaysPost, SaysPostPost};

/// A command that is read is read again whatever follows its bytes.
#[tactic(auto, using(crate::proofs::Writing::commands_stay, std::proofs::lemmas::Grind::common_steps))]
pub fn commands_stay()
    ensures { CommandsStay }
{}

/// Bytes that say commands say both where they are joined.
#[tactic(auto, using(crate::proofs::Writing::spellings_join, std::proofs::lemmas::Grind::common_steps))]
pub fn spellings_join()
    ensures { SpellingsJoin }
{}

/// What the bytes of each command say that a writer needs.
#[tactic(auto, using(crate::proofs::Writing::says_push, crate::proofs::Writing::says_pop, crate::proofs::Writing::says_eop, crate::proofs::Writing::says_right, crate::proofs::Writing::says_down, crate::proofs::Writing::says_set, crate::proofs::Writing::says_font_def, crate::proofs::Writing::says_post, crate::proofs::Writing::says_post_post, std::proofs::lemmas::Grind::common_steps))]
pub fn bytes_say_commands()
    ensures push { SaysPush }
    ensures pop { SaysPop }
    ensures eop { SaysEop }
    ensures right { SaysRight }
    ensures down { SaysDown }
    ensures set { SaysSet }
    ensures font_def { SaysFontDef }
    ensures post { SaysPost }
    ensures post_post { SaysPostPost }
{}
