//! The list of an `\hbox` begins.

ghost use Rattle.std.specs.Prelude.{◌≡◌, ◌≤◌, ◌<◌, List, OnOk, OnErr, IfOk};
ghost use Rattle.ts_base.specs.Agreement.{Counts, Uncounted};
ghost use Rattle.tok_lists.specs.declared.spelling.Spelling.{Spelling};
ghost use Rattle.packaging.specs.Packing.{IsSoundSize};
ghost use Rattle.font_store.specs.declared.fonts.Font.{Font};
ghost use Rattle.jlist_builder.specs.Entries.{Entry};
ghost use Rattle.mouth.specs.Reading.{Reading, place_of};
ghost use Rattle.mouth.specs.Keeping.{reading, place_in, AgreesAt, AreOpen, AreTold, IsReadable};
ghost use Rattle.mouth.specs.Sizes.{size};
ghost use Rattle.raw_texts.specs.Meanings.{means_category};
ghost use Rattle.scan_syntax.specs.Bounds.{IsWithinBounds};
ghost use Rattle.expander.specs.Worlds.{world};
ghost use Rattle.expander.specs.Holding.{AreFit, Goes};
ghost use Rattle.open_lists.specs.Lists.{IsSoundContext, IsSoundPlan};
ghost use Rattle.open_lists.specs.Standing.{lists_of, StandFor, IsInHbox, kept_situation, kept_around};
ghost use Rattle.control_faults.specs.TurnFaults.{read_cause, sink_cause};
ghost use Rattle.assignments.specs.Worlds.{world_of};
ghost use Rattle.assignments.specs.Beside.{IsBeside};
ghost use Rattle.list_commands.specs.Boxes.{whole_size as the_whole_size, of_open as the_of_open, size_read, brace_read, list_begun, hbox_started};
ghost use Rattle.list_commands.specs.Standing.{BeginsAt, AreKeptOf};

use assignments::{Grouping, change_group, meant, scan, take_solid};
use box_tree::BoxSize;
use control_faults::{FaultKind, TurnFault};
use env_groups::{Env, GroupKind, Meaning};
use expander::Gullet;
use open_lists::laws::glyphs_stay_of_fonts;
use open_lists::{BoxContext, BoxPlan, OpenFault, OpenLists};
use scan_syntax::{Value, Want};
use std::alloc::Global;
use tok_lists::Token;
use ts_outside::Files;

// The size of a box that a scan found.
fn whole_size(value: &Value) -> Result<BoxSize, FaultKind>
    requires { IsWithinBounds value.now }
    ensures value { result ≡ the_whole_size value.now }
    ensures sound { IfOk result IsSoundSize }
{
    match value {
        Value::BoxSize(size) => Ok(*size),
        _ => Err(FaultKind::NoNumber),
    }
}

// Reads the size of a box: `to` or `spread` with its dimension, where one of them comes (TeX: The
// Program, section 645).
#[tactic(auto, unfolding(crate::specs::Boxes::size_read))]
fn read_size<F: Files>(
    gullet: &mut Gullet,
    files: &mut F,
    env: &mut Env,
) -> Result<BoxSize, TurnFault>
    requires opened { AreOpen gullet.old (F.state files.old) }
    requires readable { IsReadable gullet.old }
    requires fit { AreFit gullet.old.names env.old }
    ensures exact { AreTold gullet.old (F.state files.old)
        → AgreesAt (λ size. (size, world_of gullet.new (F.state files.new) env.new)) read_cause
        gullet.new result (size_read (world_of gullet.old (F.state files.old) env.old)) }
    ensures goes { Goes gullet.old (F.state files.old) gullet.new (F.state files.new) }
    ensures readable { OnOk result (IsReadable gullet.new) }
    ensures fit { AreFit gullet.new.names env.new }
    ensures beside { IsBeside env.old env.new }
    ensures sound { IfOk result IsSoundSize }
    ensures size { OnOk result (size (reading gullet.new (F.state files.new))
        ≤ size (reading gullet.old (F.state files.old))) }
    ensures unshipped { Uncounted sink_cause result }
    ensures counted { Counts read_cause result (F.state files.old).faults
        (F.state files.new).faults }
{
    let value = scan(gullet, files, env, Want::BoxSize)?;
    Ok(whole_size(&value)?)
}

fn begins_group(meaning: &Meaning) -> bool
    ensures { result ≡ means_category 1 meaning.now }
{
    matches!(meaning, Meaning::Letter(Token::Char(_, 1)))
}

// Reads a left brace, also by `\let`, past spaces and `\relax` (TeX: The Program, section 403).
#[tactic(auto, unfolding(crate::specs::Boxes::brace_read))]
fn read_brace<F: Files>(gullet: &mut Gullet, files: &mut F, env: &mut Env) -> Result<(), TurnFault>
    requires opened { AreOpen gullet.old (F.state files.old) }
    requires readable { IsReadable gullet.old }
    requires fit { AreFit gullet.old.names env.old }
    ensures exact { AreTold gullet.old (F.state files.old)
        → AgreesAt (λ _. world_of gullet.new (F.state files.new) env.new) read_cause
        gullet.new result (brace_read (world_of gullet.old (F.state files.old) env.old)) }
    ensures goes { Goes gullet.old (F.state files.old) gullet.new (F.state files.new) }
    ensures readable { OnOk result (IsReadable gullet.new) }
    ensures fit { AreFit gullet.new.names env.new }
    ensures beside { IsBeside env.old env.new }
    ensures size { OnOk result (size (reading gullet.new (F.state files.new))
        ≤ size (reading gullet.old (F.state files.old))) }
    ensures unshipped { Uncounted sink_cause result }
    ensures counted { Counts read_cause result (F.state files.old).faults
        (F.state files.new).faults }
{
    let token = take_solid(gullet, files, env)?;
    let meaning = meant(&token, env);
    if begins_group(&meaning) {
        Ok(())
    } else {
        Err(TurnFault::Kind(FaultKind::NoBrace))
    }
}

fn of_open(fault: OpenFault) -> TurnFault
    ensures { result ≡ the_of_open fault }
{
    match fault {
        OpenFault::DepthFull => TurnFault::Kind(FaultKind::DepthFull),
        OpenFault::NoMemory => TurnFault::NoMemory,
    }
}

// Begins the list of an `\hbox` in a group of its own, once all was read.
#[tactic(auto, using(crate::proofs::Situated::situated_fits))]
fn begin_list(
    alloc: Global,
    env: &mut Env,
    lists: &mut OpenLists,
    plan: BoxPlan,
) -> Result<(), TurnFault>
    requires { IsSoundPlan plan }
    ensures exact { (at : Reading) (entries : List (List Entry)) → StandFor lists.old entries
        → BeginsAt (place_of at) lists.new (world at env.new) result
        (list_begun plan (lists_of lists.old entries) (world at env.old)) }
    ensures fit { (names : List Spelling) → AreFit names env.old → AreFit names env.new }
    ensures fonts { env.new.fonts ≡ env.old.fonts }
    ensures begun { OnOk result (env.new.situation ≡ kept_situation lists.new) }
    ensures around { OnOk result (kept_around lists.new ≡ lists.old) }
    ensures hbox { OnOk result (IsInHbox lists.new.inner) }
    ensures left { OnErr result (lists.new ≡ lists.old) }
    ensures kept { OnErr result (env.new.situation ≡ env.old.situation) }
    ensures of_fonts { (fonts : List Font) → AreKeptOf fonts lists.old
        → AreKeptOf fonts lists.new }
    ensures unread { Uncounted read_cause result }
    ensures unshipped { Uncounted sink_cause result }
{
    glyphs_stay_of_fonts();
    if lists.is_deep() {
        return Err(TurnFault::Kind(FaultKind::DepthFull));
    }
    change_group(env, Grouping::Begin(GroupKind::Box))?;
    if let Err(fault) = lists.begin_hbox(alloc, plan) {
        return Err(of_open(fault));
    }
    env.set_situation(lists.situation());
    Ok(())
}

/// Begins the list of an `\hbox`, whose token was taken, in the direction of the innermost list
/// (TeX: The Program, sections 1083 and 645): its size and its left brace are read, then its group
/// and its list are the innermost ones, and so is the environment's situation. The faults of its
/// size come first, then `NoBrace`, then `DepthFull` exactly where 200 lists are open, then
/// `GroupsFull` exactly where 1000 groups are. Refused, it leaves the lists as they were.
#[tactic(auto, unfolding(crate::specs::Boxes::hbox_started))]
pub fn begin_hbox<F: Files>(
    alloc: Global,
    gullet: &mut Gullet,
    files: &mut F,
    env: &mut Env,
    lists: &mut OpenLists,
    context: BoxContext,
) -> Result<(), TurnFault>
    requires opened { AreOpen gullet.old (F.state files.old) }
    requires readable { IsReadable gullet.old }
    requires fit { AreFit gullet.old.names env.old }
    requires context { IsSoundContext context }
    ensures exact { AreTold gullet.old (F.state files.old)
        → (entries : List (List Entry)) → StandFor lists.old entries
        → BeginsAt (place_in gullet.new) lists.new
        (world_of gullet.new (F.state files.new) env.new) result
        (hbox_started context (lists_of lists.old entries)
        (world_of gullet.old (F.state files.old) env.old)) }
    ensures goes { Goes gullet.old (F.state files.old) gullet.new (F.state files.new) }
    ensures readable { OnOk result (IsReadable gullet.new) }
    ensures fit { AreFit gullet.new.names env.new }
    ensures fonts { env.new.fonts ≡ env.old.fonts }
    ensures begun { OnOk result (env.new.situation ≡ kept_situation lists.new) }
    ensures around { OnOk result (kept_around lists.new ≡ lists.old) }
    ensures hbox { OnOk result (IsInHbox lists.new.inner) }
    ensures left { OnErr result (lists.new ≡ lists.old) }
    ensures kept { OnErr result (env.new.situation ≡ env.old.situation) }
    ensures of_fonts { (fonts : List Font) → AreKeptOf fonts lists.old
        → AreKeptOf fonts lists.new }
    ensures size { OnOk result (size (reading gullet.new (F.state files.new))
        ≤ size (reading gullet.old (F.state files.old))) }
    ensures unshipped { Uncounted sink_cause result }
    ensures counted { Counts read_cause result (F.state files.old).faults
        (F.state files.new).faults }
{
    let size = read_size(gullet, files, env)?;
    read_brace(gullet, files, env)?;
    begin_list(alloc, env, lists, BoxPlan { size, context })
}
