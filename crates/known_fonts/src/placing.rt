//! A font gets its number.

ghost use Rattle.std.specs.Prelude.{◌≡◌, ◌<◌, ◌≤◌, ◌^◌, List, length, None, Some, OnOk, OnErr, IfOk, IsTrue};
ghost use Rattle.ts_base.specs.Agreement.{Agrees, Counts, Uncounted};
ghost use Rattle.ts_outside.specs.States.{Held, KeepsAll};
ghost use Rattle.shipping.specs.Boxes.{BeginsWith};
ghost use Rattle.control_faults.specs.TurnFaults.{read_cause, sink_cause};
ghost use Rattle.font_store.specs.Measures.{AreWhole};
ghost use Rattle.known_fonts.specs.Names.{IsMetricName};
ghost use Rattle.known_fonts.specs.Placing.{placed_as, placed, placed_wanted};
ghost use Rattle.known_fonts.specs.Standing.{GrewBy, AreNumbered, AreDefined, AreDefinable, AreAsHeld};

use crate::metrics::{design_of, facts_of};
use crate::names::FontName;
use crate::sizes::{Sizing, font_size};
use crate::tables::definition;
use box_tree::FontNo;
use control_faults::TurnFault;
use dvi_writer::FontTable;
use env_groups::Env;
use font_store::{Fonts, Metric, load};
use std::alloc::Global;
use ts_outside::{FileName, Files};

/// A font that is wanted: its name, and how its size is said.
#[derive(Debug, Drop)]
pub struct Wanted {
    pub name: FontName,
    pub sizing: Sizing,
}

// Adds a new font to the store, the environment and the table, under the same number.
#[tactic(auto, using(crate::proofs::Numbering::room, crate::proofs::Numbering::numbered_as, crate::proofs::Numbering::one_more, crate::proofs::Defining::one_defined_as, crate::proofs::Defining::begins_itself, crate::proofs::Defining::begins_more, crate::proofs::Refusals::env_refuses, crate::proofs::Refusals::env_quiet, crate::proofs::Refusals::env_unships))]
fn add_font(
    env: &mut Env,
    fonts: &mut Fonts,
    table: &mut FontTable,
    name: FileName,
    size: u32,
    metric: Metric,
) -> Result<FontNo, TurnFault>
    requires numbered { AreNumbered env.old fonts.old }
    requires defined { AreDefined table.old fonts.old }
    requires size { size < 2 ^ 23 }
    ensures exact { Agrees (λ number. ((number, fonts.new), env.new)) read_cause result
        (placed_as None (record { name = name; size = size; metric = metric }) fonts.old env.old) }
    ensures added { IfOk result (λ number. number.0 < length fonts.new) }
    ensures numbered { OnOk result (AreNumbered env.new fonts.new) }
    ensures defined { OnOk result (AreDefined table.new fonts.new) }
    ensures begins { BeginsWith table.new table.old }
    ensures refused { OnErr result (fonts.new ≡ fonts.old) }
    ensures grew { GrewBy fonts.old (record { name = name; size = size; metric = metric })
        fonts.new }
    ensures environments { env.new.environments ≡ env.old.environments }
    ensures situation { env.new.situation ≡ env.old.situation }
    ensures groups { env.new.groups ≡ env.old.groups }
    ensures quiet { Uncounted read_cause result }
    ensures unshipped { Uncounted sink_cause result }
{
    let number = env.add_font(facts_of(&metric, size))?;
    table.push(definition(number, &name, size, &metric))?;
    fonts.add(name, size, metric)?;
    Ok(number)
}

// The number of a font, which is that of an equal one where there is one.
#[tactic(auto, using(crate::proofs::Numbering::found_within, crate::proofs::Defining::begins_itself))]
fn find_or_add(
    env: &mut Env,
    fonts: &mut Fonts,
    table: &mut FontTable,
    name: FileName,
    size: u32,
    metric: Metric,
) -> Result<FontNo, TurnFault>
    requires numbered { AreNumbered env.old fonts.old }
    requires defined { AreDefined table.old fonts.old }
    requires size { size < 2 ^ 23 }
    ensures exact { Agrees (λ number. ((number, fonts.new), env.new)) read_cause result
        (placed fonts.old env.old (record { name = name; size = size; metric = metric })) }
    ensures added { IfOk result (λ number. number.0 < length fonts.new) }
    ensures numbered { OnOk result (AreNumbered env.new fonts.new) }
    ensures defined { OnOk result (AreDefined table.new fonts.new) }
    ensures begins { BeginsWith table.new table.old }
    ensures refused { OnErr result (fonts.new ≡ fonts.old) }
    ensures grew { GrewBy fonts.old (record { name = name; size = size; metric = metric })
        fonts.new }
    ensures environments { env.new.environments ≡ env.old.environments }
    ensures situation { env.new.situation ≡ env.old.situation }
    ensures groups { env.new.groups ≡ env.old.groups }
    ensures quiet { Uncounted read_cause result }
    ensures unshipped { Uncounted sink_cause result }
{
    match fonts.find(&name, size) {
        Some(number) => Ok(number),
        None => add_font(env, fonts, table, name, size, metric),
    }
}

/// Gives a font that is wanted its number, with its metric read. `FileMissing` and `FontBad` come
/// exactly as `load` says, then `FontSize`, and then `FontsFull` exactly where it is new and 255
/// are there. Refused, it leaves the fonts as they were.
#[tactic(auto, using(crate::proofs::Defining::begins_itself, crate::proofs::Standing::sound_font, crate::proofs::Standing::definable_grew, crate::proofs::Standing::held_grew, crate::proofs::Shipped::fonts_begin_themselves, crate::proofs::Shipped::fonts_grew, crate::proofs::Shipped::whole_grew, crate::proofs::Refusals::load_refuses, crate::proofs::Refusals::load_counts, crate::proofs::Refusals::load_unships))]
pub fn place_font<F: Files>(
    alloc: Global,
    files: &mut F,
    env: &mut Env,
    fonts: &mut Fonts,
    table: &mut FontTable,
    wanted: Wanted,
) -> Result<FontNo, TurnFault>
    requires numbered { AreNumbered env.old fonts.old }
    requires defined { AreDefined table.old fonts.old }
    requires named { IsMetricName wanted.name.spelt wanted.name.file }
    ensures exact { (held : List Held) → (F.state files.old).held ≡ Some held
        → Agrees (λ number. ((number, fonts.new), env.new)) read_cause result
        (placed_wanted held (wanted.name.spelt, wanted.sizing) fonts.old env.old) }
    ensures kept { KeepsAll (F.state files.old) (F.state files.new) }
    ensures added { IfOk result (λ number. number.0 < length fonts.new) }
    ensures numbered { OnOk result (AreNumbered env.new fonts.new) }
    ensures defined { OnOk result (AreDefined table.new fonts.new) }
    ensures begins { BeginsWith table.new table.old }
    ensures refused { OnErr result (fonts.new ≡ fonts.old) }
    ensures grown { BeginsWith fonts.new fonts.old }
    ensures whole { AreWhole fonts.old → AreWhole fonts.new }
    ensures definable { AreDefinable fonts.old → AreDefinable fonts.new }
    ensures as_held { (held : List Held) → (F.state files.old).held ≡ Some held
        → AreAsHeld held fonts.old → AreAsHeld held fonts.new }
    ensures environments { env.new.environments ≡ env.old.environments }
    ensures situation { env.new.situation ≡ env.old.situation }
    ensures groups { env.new.groups ≡ env.old.groups }
    ensures unshipped { Uncounted sink_cause result }
    ensures counted { Counts read_cause result (F.state files.old).faults
        (F.state files.new).faults }
{
    let Wanted { name, sizing } = wanted;
    let metric = load(alloc, files, &name.file)?;
    let size = font_size(design_of(&metric), sizing)?;
    find_or_add(env, fonts, table, name.spelt, size, metric)
}
