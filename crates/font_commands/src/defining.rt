//! `\font`.

ghost use Rattle.std.specs.Prelude.{◌≡◌, ◌≤◌, ◌<◌, List, length, Some, OnOk, IfOk};
ghost use Rattle.ts_base.specs.Agreement.{Agrees, Counts, Uncounted};
ghost use Rattle.ts_outside.specs.States.{Held, KeepsAll};
ghost use Rattle.tok_lists.specs.declared.spelling.Spelling.{Spelling};
ghost use Rattle.shipping.specs.Boxes.{BeginsWith};
ghost use Rattle.mouth.specs.Keeping.{reading, AgreesAt, AreOpen, AreTold, IsReadable};
ghost use Rattle.mouth.specs.Sizes.{size};
ghost use Rattle.expander.specs.Holding.{AreFit, Goes};
ghost use Rattle.control_faults.specs.TurnFaults.{read_cause, sink_cause};
ghost use Rattle.assignments.specs.Worlds.{world_of};
ghost use Rattle.assignments.specs.Beside.{IsBeside};
ghost use Rattle.font_store.specs.Measures.{AreWhole};
ghost use Rattle.known_fonts.specs.Names.{IsMetricName};
ghost use Rattle.known_fonts.specs.Standing.{AreNumbered, AreDefined, AreDefinable, AreAsHeld};
ghost use Rattle.font_commands.specs.Fonts.{font_wanted, naming_read, font_named, font_defined};

use crate::names::read_font_name;
use crate::sizings::read_sizing;
use assignments::{read_equals, read_name, store_meaning};
use control_faults::TurnFault;
use dvi_writer::FontTable;
use env_groups::{Env, Meaning, Prim};
use expander::Gullet;
use font_store::Fonts;
use known_fonts::{Wanted, place_font};
use std::alloc::Global;
use tok_lists::NameNo;
use ts_outside::Files;

// Reads an optional `=`, the name of a font, and how its size is said.
#[tactic(auto, unfolding(crate::specs::Fonts::font_wanted))]
fn read_wanted<F: Files>(
    alloc: Global,
    gullet: &mut Gullet,
    files: &mut F,
    env: &mut Env,
) -> Result<Wanted, TurnFault>
    requires opened { AreOpen gullet.old (F.state files.old) }
    requires readable { IsReadable gullet.old }
    requires fit { AreFit gullet.old.names env.old }
    ensures exact { AreTold gullet.old (F.state files.old)
        → AgreesAt (λ wanted. (
          (wanted.name.spelt, wanted.sizing),
          world_of gullet.new (F.state files.new) env.new,
        )) read_cause gullet.new result
        (font_wanted (world_of gullet.old (F.state files.old) env.old)) }
    ensures goes { Goes gullet.old (F.state files.old) gullet.new (F.state files.new) }
    ensures readable { OnOk result (IsReadable gullet.new) }
    ensures fit { AreFit gullet.new.names env.new }
    ensures beside { IsBeside env.old env.new }
    ensures named { IfOk result (λ w. IsMetricName w.name.spelt w.name.file) }
    ensures size { OnOk result (size (reading gullet.new (F.state files.new))
        ≤ size (reading gullet.old (F.state files.old))) }
    ensures unshipped { Uncounted sink_cause result }
    ensures counted { Counts read_cause result (F.state files.old).faults
        (F.state files.new).faults }
{
    read_equals(gullet, files, env)?;
    let name = read_font_name(alloc, gullet, files, env)?;
    let sizing = read_sizing(gullet, files, env)?;
    Ok(Wanted { name, sizing })
}

// Reads what is to mean a font, and the font. While the font is read the name means `\relax`.
#[tactic(auto, unfolding(crate::specs::Fonts::naming_read, assignments::specs::Namings::meaning_stored), using(crate::proofs::Answering::env_agrees))]
fn read_naming<F: Files>(
    alloc: Global,
    gullet: &mut Gullet,
    files: &mut F,
    env: &mut Env,
    is_global: bool,
) -> Result<(NameNo, Wanted), TurnFault>
    requires opened { AreOpen gullet.old (F.state files.old) }
    requires readable { IsReadable gullet.old }
    requires fit { AreFit gullet.old.names env.old }
    ensures exact { AreTold gullet.old (F.state files.old)
        → AgreesAt (λ n. (
          (n.0, (n.1.name.spelt, n.1.sizing)),
          world_of gullet.new (F.state files.new) env.new,
        )) read_cause gullet.new result
        (naming_read is_global (world_of gullet.old (F.state files.old) env.old)) }
    ensures goes { Goes gullet.old (F.state files.old) gullet.new (F.state files.new) }
    ensures readable { OnOk result (IsReadable gullet.new) }
    ensures fit { AreFit gullet.new.names env.new }
    ensures beside { IsBeside env.old env.new }
    ensures named { IfOk result (λ n. IsMetricName n.1.name.spelt n.1.name.file) }
    ensures size { OnOk result (size (reading gullet.new (F.state files.new))
        ≤ size (reading gullet.old (F.state files.old))) }
    ensures unshipped { Uncounted sink_cause result }
    ensures counted { Counts read_cause result (F.state files.old).faults
        (F.state files.new).faults }
{
    let name = read_name(gullet, files, env)?;
    store_meaning(env, name, Meaning::Primitive(Prim::Relax), is_global)?;
    let wanted = read_wanted(alloc, gullet, files, env)?;
    Ok((name, wanted))
}

// Gives a font that is wanted its number, which a name then means.
#[tactic(auto, using(crate::proofs::Standing::font_is_added, crate::proofs::Standing::environments_fit, crate::proofs::Standing::numbered_still))]
fn name_font<F: Files>(
    alloc: Global,
    files: &mut F,
    env: &mut Env,
    fonts: &mut Fonts,
    table: &mut FontTable,
    naming: (NameNo, Wanted),
    is_global: bool,
) -> Result<(), TurnFault>
    requires numbered { AreNumbered env.old fonts.old }
    requires defined { AreDefined table.old fonts.old }
    requires named { IsMetricName naming.1.name.spelt naming.1.name.file }
    ensures exact { (held : List Held) → (F.state files.old).held ≡ Some held
        → Agrees (λ _. (fonts.new, env.new)) read_cause result
        (font_named held (naming.0, (naming.1.name.spelt, naming.1.sizing)) is_global fonts.old
        env.old) }
    ensures kept { KeepsAll (F.state files.old) (F.state files.new) }
    ensures fit { (names : List Spelling) → AreFit names env.old → AreFit names env.new }
    ensures situation { env.new.situation ≡ env.old.situation }
    ensures groups { env.new.groups ≡ env.old.groups }
    ensures numbered { OnOk result (AreNumbered env.new fonts.new) }
    ensures defined { OnOk result (AreDefined table.new fonts.new) }
    ensures begins { BeginsWith table.new table.old }
    ensures grown { BeginsWith fonts.new fonts.old }
    ensures whole { AreWhole fonts.old → AreWhole fonts.new }
    ensures definable { AreDefinable fonts.old → AreDefinable fonts.new }
    ensures as_held { (held : List Held) → (F.state files.old).held ≡ Some held
        → AreAsHeld held fonts.old → AreAsHeld held fonts.new }
    ensures unshipped { Uncounted sink_cause result }
    ensures counted { Counts read_cause result (F.state files.old).faults
        (F.state files.new).faults }
{
    let (name, wanted) = naming;
    let number = place_font(alloc, files, env, fonts, table, wanted)?;
    store_meaning(env, name, Meaning::Font(number), is_global)
}

/// Gives a name the meaning of a font: `\font` (TeX: The Program, section 1257). The faults of
/// what is read come first; then `FileMissing`, `FontBad`, `FontSize` and `FontsFull` come exactly
/// as `place_font` says. No font is selected.
#[tactic(auto, unfolding(crate::specs::Fonts::font_defined), using(crate::proofs::Answering::named_agrees, crate::proofs::Standing::goes_on, crate::proofs::Standing::reading_kept, crate::proofs::Standing::numbered_still))]
pub fn define_font<F: Files>(
    alloc: Global,
    gullet: &mut Gullet,
    files: &mut F,
    env: &mut Env,
    fonts: &mut Fonts,
    table: &mut FontTable,
    is_global: bool,
) -> Result<(), TurnFault>
    requires opened { AreOpen gullet.old (F.state files.old) }
    requires readable { IsReadable gullet.old }
    requires fit { AreFit gullet.old.names env.old }
    requires numbered { AreNumbered env.old fonts.old }
    requires defined { AreDefined table.old fonts.old }
    ensures exact { (held : List Held) → (F.state files.old).held ≡ Some held
        → AreTold gullet.old (F.state files.old)
        → AgreesAt (λ _. (fonts.new, world_of gullet.new (F.state files.new) env.new)) read_cause
        gullet.new result (font_defined held is_global fonts.old
        (world_of gullet.old (F.state files.old) env.old)) }
    ensures goes { Goes gullet.old (F.state files.old) gullet.new (F.state files.new) }
    ensures readable { OnOk result (IsReadable gullet.new) }
    ensures fit { AreFit gullet.new.names env.new }
    ensures situation { env.new.situation ≡ env.old.situation }
    ensures groups { env.new.groups ≡ env.old.groups }
    ensures numbered { OnOk result (AreNumbered env.new fonts.new) }
    ensures defined { OnOk result (AreDefined table.new fonts.new) }
    ensures begins { BeginsWith table.new table.old }
    ensures grown { BeginsWith fonts.new fonts.old }
    ensures whole { AreWhole fonts.old → AreWhole fonts.new }
    ensures definable { AreDefinable fonts.old → AreDefinable fonts.new }
    ensures as_held { (held : List Held) → (F.state files.old).held ≡ Some held
        → AreAsHeld held fonts.old → AreAsHeld held fonts.new }
    ensures size { OnOk result (size (reading gullet.new (F.state files.new))
        ≤ size (reading gullet.old (F.state files.old))) }
    ensures unshipped { Uncounted sink_cause result }
    ensures counted { Counts read_cause result (F.state files.old).faults
        (F.state files.new).faults }
{
    let naming = read_naming(alloc, gullet, files, env, is_global)?;
    name_font(alloc, files, env, fonts, table, naming, is_global)
}
