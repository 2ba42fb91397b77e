//! The list of an `\hbox` ends.

ghost use Rattle.std.specs.Prelude.{◌≡◌, ◌<◌, List, IfOk};
ghost use Rattle.ts_base.specs.Agreement.{Agrees, Uncounted};
ghost use Rattle.tok_lists.specs.declared.spelling.Spelling.{Spelling};
ghost use Rattle.packaging.specs.Packing.{pack_cause, IsSoundIn};
ghost use Rattle.font_store.specs.declared.fonts.Font.{Font};
ghost use Rattle.font_store.specs.Measures.{AreWhole};
ghost use Rattle.jlist_builder.specs.Entries.{Entry};
ghost use Rattle.mouth.specs.Reading.{Reading, place_of};
ghost use Rattle.expander.specs.Worlds.{world};
ghost use Rattle.expander.specs.Holding.{AreFit};
ghost use Rattle.open_lists.specs.EndCodes.{codes_in};
ghost use Rattle.open_lists.specs.Glyphs.{IsBoxOf};
ghost use Rattle.open_lists.specs.Lists.{hbox_ended, around, IsSoundContext};
ghost use Rattle.open_lists.specs.Standing.{lists_of, StandFor, IsNow, IsInHbox, kept_situation, kept_around};
ghost use Rattle.control_faults.specs.TurnFaults.{read_cause, sink_cause};
ghost use Rattle.list_commands.specs.Boxes.{hbox_closed};
ghost use Rattle.list_commands.specs.Standing.{EndsAt, AreKeptOf};

use assignments::{Grouping, change_group};
use control_faults::TurnFault;
use env_groups::{Env, GroupKind};
use open_lists::laws::{boxes_are_of_fonts, glyphs_stay_of_fonts};
use open_lists::{EndedBox, OpenLists};
use packaging::PackFault;
use std::alloc::Global;
use std::marker::Brand;
use std::sync::ledger::{Blank, Ledger};
use ts_base::Steps;

// Ends the innermost list; the steps aren't counted.
fn end_list<L: Ledger>(
    alloc: Global,
    env: &Env,
    lists: &mut OpenLists,
    blank: Blank,
) -> Result<EndedBox, PackFault>
    requires hbox { IsInHbox lists.old.inner }
    requires name { blank.name ≡ L.name }
    requires parts { blank.parts ≡ L.parts }
    requires some { 0 < blank.parts }
    ensures exact { (entries : List (List Entry)) → StandFor lists.old entries
        → Agrees (λ b. b) pack_cause result
        (hbox_ended (codes_in env.now) (lists_of lists.old entries)) }
    ensures left { (entries : List (List Entry)) → StandFor lists.old entries
        → IsNow lists.new (around (lists_of lists.old entries)) }
    ensures around { lists.new ≡ kept_around lists.old }
    ensures sound { IfOk result (λ b. IsSoundIn (kept_situation lists.old).dir b.node) }
    ensures context { IfOk result (λ b. IsSoundContext b.context) }
    ensures of_fonts { (fonts : List Font) → AreKeptOf fonts lists.old
        → AreKeptOf fonts lists.new }
    ensures box_of_fonts { (fonts : List Font) → AreWhole fonts → AreKeptOf fonts lists.old
        → IfOk result (λ b. IsBoxOf fonts b.node) }
{
    glyphs_stay_of_fonts();
    boxes_are_of_fonts();
    let mut steps = Steps::<L>::new(blank);
    lists.end_hbox(alloc, env, &mut steps)
}

/// Ends the innermost list, which is that of an `\hbox`, and its group, and returns its box, packed
/// with the codes as they are inside the group (TeX: The Program, sections 1085 and 1086). The
/// environment's situation is then that of the list around. `GroupEnd` comes exactly where the
/// innermost group isn't that of a box, before the faults of packing. Whatever it answers, the lists
/// around the innermost one are left.
#[tactic(auto, unfolding(crate::specs::Boxes::hbox_closed), using(crate::proofs::Situated::situated_fits))]
pub fn end_hbox(alloc: Global, env: &mut Env, lists: &mut OpenLists) -> Result<EndedBox, TurnFault>
    requires { IsInHbox lists.old.inner }
    ensures exact { (at : Reading) (entries : List (List Entry)) → StandFor lists.old entries
        → EndsAt (place_of at) lists.new (world at env.new) result
        (hbox_closed (lists_of lists.old entries) (world at env.old)) }
    ensures left { (entries : List (List Entry)) → StandFor lists.old entries
        → IsNow lists.new (around (lists_of lists.old entries)) }
    ensures around { lists.new ≡ kept_around lists.old }
    ensures situated { env.new.situation ≡ kept_situation lists.new }
    ensures fonts { env.new.fonts ≡ env.old.fonts }
    ensures fit { (names : List Spelling) → AreFit names env.old → AreFit names env.new }
    ensures sound { IfOk result (λ b. IsSoundIn (kept_situation lists.old).dir b.node) }
    ensures context { IfOk result (λ b. IsSoundContext b.context) }
    ensures of_fonts { (fonts : List Font) → AreKeptOf fonts lists.old
        → AreKeptOf fonts lists.new }
    ensures box_of_fonts { (fonts : List Font) → AreWhole fonts → AreKeptOf fonts lists.old
        → IfOk result (λ b. IsBoxOf fonts b.node) }
    ensures unread { Uncounted read_cause result }
    ensures unshipped { Uncounted sink_cause result }
{
    let ended = end_list::<Brand>(alloc, env, lists, Blank::new(1));
    let closed = change_group(env, Grouping::End(GroupKind::Box));
    env.set_situation(lists.situation());
    closed?;
    Ok(ended?)
}
