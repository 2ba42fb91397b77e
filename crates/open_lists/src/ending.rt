//! The box of a list that ends.

ghost use Rattle.std.specs.Prelude.{◌≡◌, ◌+◌, List, false, IfOk};
ghost use Rattle.ts_base.specs.Agreement.{Agrees};
ghost use Rattle.box_tree.specs.Nodes.{tree_items};
ghost use Rattle.box_tree.specs.Sound.{AreSound};
ghost use Rattle.packaging.specs.Packing.{pack_cause, IsSoundIn};
ghost use Rattle.jlist_builder.specs.Entries.{Entry};
ghost use Rattle.jlist_builder.specs.Stands.{StandsFor};
ghost use Rattle.kanjiskip_adjust.specs.Finished.{finished_list};
ghost use Rattle.kanjiskip_adjust.specs.Laws.{AreSoundSkips};
ghost use Rattle.open_lists.specs.EndCodes.{codes_in};
ghost use Rattle.open_lists.specs.Lists.{box_of_items, IsSoundPlan, IsSoundContext};
ghost use Rattle.open_lists.specs.Standing.{IsBuilt};

use crate::codes::{EnvCodes, glue_param};
use crate::plan::{BoxPlan, EndedBox};
use box_tree::Items;
use env_groups::{Env, GlueParam};
use jlist_builder::HBuilder;
use kanjiskip_adjust::adjust;
use kanjiskip_adjust::laws::finished_lists_are_sound;
use packaging::{PackFault, hpack};
use std::alloc::Global;
use std::sync::ledger::Ledger;
use ts_base::{NoMemory, Steps};
use ts_geometry::Dir;

// Shows that the two skips are sound glue.
#[tactic(auto, using(crate::proofs::Boxes::set_glue_sound))]
fn skips_are_sound(env: &Env)
    ensures { AreSoundSkips (codes_in env.now) }
{
    let _kanjiskip = glue_param(env, GlueParam::KanjiSkip);
    let _xkanjiskip = glue_param(env, GlueParam::XKanjiSkip);
}

// The items of a list as it ends, with the codes as they are now.
fn finished<L: Ledger>(
    alloc: Global,
    env: &Env,
    builder: HBuilder,
    steps: &mut Steps<L>,
) -> Result<Items, NoMemory>
    ensures { IfOk result (λ items. (e : List Entry) → StandsFor builder e
        → items ≡ finished_list (codes_in env.now) false e) }
{
    let mut list = builder.finish(steps)?;
    adjust(&mut list, &EnvCodes::new(env), false, steps);
    list.to_items(alloc)
}

// The box of items, with what is done with it.
#[tactic(auto, using(crate::proofs::Boxes::box_fault))]
fn packed(alloc: Global, items: Items, dir: Dir, plan: BoxPlan) -> Result<EndedBox, PackFault>
    requires sound { AreSound dir (tree_items items) }
    requires plan_sound { IsSoundPlan plan }
    ensures exact { Agrees (λ b. b) pack_cause result (box_of_items (tree_items items) dir plan) }
    ensures sound { IfOk result (λ b. IsSoundIn dir b.node) }
    ensures context { IfOk result (λ b. IsSoundContext b.context) }
{
    let node = hpack(alloc, items, dir, plan.size)?;
    Ok(EndedBox {
        node,
        context: plan.context,
    })
}

/// Returns the box of the list of an `\hbox`, packed in its direction with the codes as they are
/// now, and what is done with it.
pub(crate) fn ended_box<L: Ledger>(
    alloc: Global,
    env: &Env,
    builder: HBuilder,
    dir: Dir,
    plan: BoxPlan,
    steps: &mut Steps<L>,
) -> Result<EndedBox, PackFault>
    requires plan_sound { IsSoundPlan plan }
    requires built { IsBuilt dir builder }
    ensures exact { (e : List Entry) → StandsFor builder e → Agrees (λ b. b) pack_cause result
        (box_of_items (tree_items (finished_list (codes_in env.now) false e)) dir plan) }
    ensures sound { IfOk result (λ b. IsSoundIn dir b.node) }
    ensures context { IfOk result (λ b. IsSoundContext b.context) }
{
    skips_are_sound(env);
    finished_lists_are_sound();
    match finished(alloc, env, builder, steps) {
        Ok(items) => packed(alloc, items, dir, plan),
        Err(NoMemory) => Err(PackFault::NoMemory),
    }
}
