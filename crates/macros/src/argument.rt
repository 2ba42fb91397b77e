//! Arguments of macro calls.

ghost use Rattle.std.specs.Prelude.{◌≡◌, ◌<◌, ◌≤◌, [], length, slice_range, OnOk, IfOk};
ghost use Rattle.ts_base.specs.Agreement.{Counts};
ghost use Rattle.mouth.specs.Keeping.{reading, AgreesAt, AreOpen, AreTold, IsReadable};
ghost use Rattle.mouth.specs.Sizes.{unread, size};
ghost use Rattle.raw_texts.specs.Faults.{macro_cause};
ghost use Rattle.raw_texts.specs.Runs.{Leaves};
ghost use Rattle.raw_texts.specs.Holding.{AreTokens};
ghost use Rattle.macros.specs.Borders.{IsDelimiter};
ghost use Rattle.macros.specs.Delimited.{delimited};
ghost use Rattle.macros.specs.Calls.{argument_of};

use crate::delimited::Delimited;
use crate::undelimited::read_undelimited;
use env_groups::Env;
use mouth::Mouth;
use raw_texts::{MacroFault, read_on};
use std::alloc::Global;
use tok_lists::SharedTokens;
use ts_outside::Files;

// Reads an argument whose delimiter is the part of a parameter text from one place to another.
#[tactic(auto, unfolding(crate::specs::Delimited::delimited))]
fn read_delimited<F: Files>(
    alloc: Global,
    mouth: &mut Mouth,
    files: &mut F,
    env: &Env,
    params: &SharedTokens,
    from: usize,
    to: usize,
    long: bool,
) -> Result<SharedTokens, MacroFault>
    requires opened { AreOpen mouth.old (F.state files.old) }
    requires readable { IsReadable mouth.old }
    requires order { from ≤ to }
    requires most { to ≤ length params.now }
    requires delimiter { IsDelimiter (slice_range params.now from to) }
    ensures exact { AreTold mouth.old (F.state files.old)
        → AgreesAt (λ tokens. (tokens, reading mouth.new (F.state files.new))) macro_cause
        mouth.new result (delimited env.now long (slice_range params.now from to)
        (reading mouth.old (F.state files.old))) }
    ensures leaves { Leaves mouth.old (F.state files.old) mouth.new (F.state files.new) }
    ensures readable { OnOk result (IsReadable mouth.new) }
    ensures tokens { IfOk result (AreTokens mouth.new.names) }
    ensures unread { OnOk result (unread (reading mouth.new (F.state files.new))
        < unread (reading mouth.old (F.state files.old))) }
    ensures size { OnOk result (size (reading mouth.new (F.state files.new))
        < size (reading mouth.old (F.state files.old))) }
    ensures counted { Counts macro_cause result (F.state files.old).faults
        (F.state files.new).faults }
{
    let mut search = Delimited::new(alloc, params, from, to, long);
    read_on(mouth, files, env, &mut search)?;
    Ok(search.argument(alloc)?)
}

/// Reads an argument before its delimiter, the part of a parameter text from one place to another,
/// or an undelimited one where that has no token (The TeXbook, chapter 20).
#[tactic(auto, using(crate::proofs::Slices::no_delimiter, crate::proofs::Slices::some_delimiter))]
pub(crate) fn read_argument<F: Files>(
    alloc: Global,
    mouth: &mut Mouth,
    files: &mut F,
    env: &Env,
    params: &SharedTokens,
    from: usize,
    to: usize,
    long: bool,
) -> Result<SharedTokens, MacroFault>
    requires opened { AreOpen mouth.old (F.state files.old) }
    requires readable { IsReadable mouth.old }
    requires order { from ≤ to }
    requires most { to ≤ length params.now }
    requires delimiter { from < to → IsDelimiter (slice_range params.now from to) }
    ensures exact { AreTold mouth.old (F.state files.old)
        → AgreesAt (λ tokens. (tokens, reading mouth.new (F.state files.new))) macro_cause
        mouth.new result (argument_of env.now long (slice_range params.now from to)
        (reading mouth.old (F.state files.old))) }
    ensures leaves { Leaves mouth.old (F.state files.old) mouth.new (F.state files.new) }
    ensures readable { OnOk result (IsReadable mouth.new) }
    ensures tokens { IfOk result (AreTokens mouth.new.names) }
    ensures unread { OnOk result (unread (reading mouth.new (F.state files.new))
        < unread (reading mouth.old (F.state files.old))) }
    ensures size { OnOk result (size (reading mouth.new (F.state files.new))
        < size (reading mouth.old (F.state files.old))) }
    ensures counted { Counts macro_cause result (F.state files.old).faults
        (F.state files.new).faults }
{
    if from == to {
        return read_undelimited(alloc, mouth, files, env, long);
    }
    read_delimited(alloc, mouth, files, env, params, from, to, long)
}
