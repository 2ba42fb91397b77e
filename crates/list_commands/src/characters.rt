//! Characters that come into the innermost list.

ghost use Rattle.std.specs.Prelude.{◌≡◌, ◌≤◌, ◌<◌, List, length, OnOk, OnErr};
ghost use Rattle.ts_base.specs.Agreement.{Counts, Uncounted};
ghost use Rattle.jis_codes.specs.Kuten.{IsKuten};
ghost use Rattle.jlist_builder.specs.Entries.{Entry};
ghost use Rattle.node_links.specs.Lists.{list_cause};
ghost use Rattle.mouth.specs.Reading.{Reading, place_of};
ghost use Rattle.mouth.specs.Keeping.{reading, AgreesAt, AreOpen, AreTold, IsReadable};
ghost use Rattle.mouth.specs.Sizes.{size};
ghost use Rattle.expander.specs.Worlds.{world};
ghost use Rattle.expander.specs.Holding.{AreFit, Goes};
ghost use Rattle.open_lists.specs.Characters.{entry_of};
ghost use Rattle.open_lists.specs.Lists.{put};
ghost use Rattle.open_lists.specs.Standing.{lists_of, StandFor, Becomes, kept_situation, kept_around};
ghost use Rattle.control_faults.specs.TurnFaults.{read_cause, sink_cause};
ghost use Rattle.assignments.specs.Worlds.{world_of};
ghost use Rattle.assignments.specs.Beside.{IsBeside};
ghost use Rattle.list_commands.specs.Characters.{char_of as the_char_of, char_at as the_char_at, char_read, char_put};
ghost use Rattle.list_commands.specs.Standing.{PutsAt, AreKeptOf};

use assignments::read_integer;
use control_faults::{FaultKind, TurnFault};
use env_groups::Env;
use expander::Gullet;
use font_store::Fonts;
use jis_codes::{Cell, Char, from_euc};
use node_links::ListFault;
use open_lists::OpenLists;
use open_lists::laws::{entries_are_of_fonts, glyphs_stay_of_fonts};
use std::marker::Brand;
use std::sync::ledger::{Blank, Ledger};
use ts_base::Steps;
use ts_outside::Files;

/// Returns the character of a number: a byte, or the internal code of a cell; or `None` where it is
/// neither.
pub fn char_of(number: u32) -> Option<Char>
    ensures { result ≡ the_char_of number }
{
    match u8::try_from(number) {
        Ok(code) => Some(Char::One(code)),
        Err(_) => from_euc(number).map(Char::Ja),
    }
}

// The character of an integer that was read.
fn char_at(n: i64) -> Result<Char, FaultKind>
    ensures { result ≡ the_char_at n }
{
    match u16::try_from(n) {
        Ok(number) => char_of(u32::from(number)).ok_or(FaultKind::CodeRange),
        Err(_) => Err(FaultKind::CodeRange),
    }
}

/// Reads the number of a character: `\char` (TeX: The Program, section 434). `CodeRange` comes
/// exactly where it is neither from 0 to 255 nor the internal code of a cell.
#[tactic(auto, unfolding(crate::specs::Characters::char_read))]
pub fn read_char<F: Files>(
    gullet: &mut Gullet,
    files: &mut F,
    env: &mut Env,
) -> Result<Char, TurnFault>
    requires opened { AreOpen gullet.old (F.state files.old) }
    requires readable { IsReadable gullet.old }
    requires fit { AreFit gullet.old.names env.old }
    ensures exact { AreTold gullet.old (F.state files.old)
        → AgreesAt (λ c. (c, world_of gullet.new (F.state files.new) env.new)) read_cause
        gullet.new result (char_read (world_of gullet.old (F.state files.old) env.old)) }
    ensures goes { Goes gullet.old (F.state files.old) gullet.new (F.state files.new) }
    ensures readable { OnOk result (IsReadable gullet.new) }
    ensures fit { AreFit gullet.new.names env.new }
    ensures beside { IsBeside env.old env.new }
    ensures size { OnOk result (size (reading gullet.new (F.state files.new))
        ≤ size (reading gullet.old (F.state files.old))) }
    ensures unshipped { Uncounted sink_cause result }
    ensures counted { Counts read_cause result (F.state files.old).faults
        (F.state files.new).faults }
{
    let n = read_integer(gullet, files, env)?;
    Ok(char_at(n)?)
}

// Shows that a cell is one of JIS X 0208.
fn cell_is_there(cell: Cell)
    ensures { IsKuten cell }
{
    let _row = cell.row();
    let _cell = cell.cell();
}

// Adds a character to the innermost list; its steps aren't counted.
fn add_char<L: Ledger>(
    env: &Env,
    fonts: &Fonts,
    lists: &mut OpenLists,
    c: Char,
    blank: Blank,
) -> Result<(), ListFault>
    requires fonts { length env.now.fonts ≤ length fonts.now }
    requires name { blank.name ≡ L.name }
    requires parts { blank.parts ≡ L.parts }
    requires some { 0 < blank.parts }
    ensures exact { (entries : List (List Entry)) → StandFor lists.old entries
        → Becomes list_cause lists.new result (put
        (λ dir. entry_of fonts.now env.now dir c) (lists_of lists.old entries)) }
    ensures refused { OnErr result
        ((entries : List (List Entry)) → StandFor lists.old entries → StandFor lists.new entries) }
    ensures situation { kept_situation lists.new ≡ kept_situation lists.old }
    ensures around { kept_around lists.new ≡ kept_around lists.old }
    ensures of_fonts { AreKeptOf fonts.now lists.old → AreKeptOf fonts.now lists.new }
{
    entries_are_of_fonts();
    glyphs_stay_of_fonts();
    let mut steps = Steps::<L>::new(blank);
    match c {
        Char::Ja(cell) => {
            cell_is_there(cell);
            lists.kanji(env, fonts, cell, &mut steps)
        }
        Char::One(code) => lists.roman(env, fonts, code, &mut steps),
    }
}

/// Adds a character to the innermost list, by the fonts and the codes as they are now (TeX: The
/// Program, section 1034; pTeX). `ListFull` comes exactly where the list with its metric spaces and
/// penalties would pass 200,000 items. Refused, it leaves lists that stand for the same entries.
pub fn put_char(env: &Env, fonts: &Fonts, lists: &mut OpenLists, c: Char) -> Result<(), TurnFault>
    requires { length env.now.fonts ≤ length fonts.now }
    ensures exact { (at : Reading) (entries : List (List Entry)) → StandFor lists.old entries
        → PutsAt (place_of at) lists.new result
        (char_put c fonts.now (world at env.now) (lists_of lists.old entries)) }
    ensures refused { OnErr result
        ((entries : List (List Entry)) → StandFor lists.old entries → StandFor lists.new entries) }
    ensures situation { kept_situation lists.new ≡ kept_situation lists.old }
    ensures around { kept_around lists.new ≡ kept_around lists.old }
    ensures of_fonts { AreKeptOf fonts.now lists.old → AreKeptOf fonts.now lists.new }
    ensures unread { Uncounted read_cause result }
    ensures unshipped { Uncounted sink_cause result }
{
    Ok(add_char::<Brand>(env, fonts, lists, c, Blank::new(1))?)
}
