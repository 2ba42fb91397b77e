//! Macro calls.

ghost use Rattle.std.specs.Prelude.{◌≡◌, ◌<◌, ◌≤◌, ◌+◌, ◌-◌, length, drop, take, OnOk, IfOk};
ghost use Rattle.ts_base.specs.Agreement.{Counts};
ghost use Rattle.tok_lists.specs.Pending.{AllHeld, HaveNoParam};
ghost use Rattle.env_groups.specs.Macros.{param_count};
ghost use Rattle.mouth.specs.Keeping.{reading, AgreesAt, AreOpen, AreTold, IsReadable};
ghost use Rattle.mouth.specs.Sizes.{unread, size};
ghost use Rattle.raw_texts.specs.Faults.{macro_cause};
ghost use Rattle.raw_texts.specs.Runs.{Leaves};
ghost use Rattle.macros.specs.Borders.{AreNoBraces};
ghost use Rattle.macros.specs.Calls.{parts, with_param, arguments_of, AreArguments, call};

use crate::argument::read_argument;
use crate::parts::next_param;
use crate::prefix::read_prefix;
use env_groups::{Env, MacroDef};
use mouth::Mouth;
use raw_texts::MacroFault;
use std::alloc::Global;
use tok_lists::{Args, SharedTokens};
use ts_outside::Files;

// Reads the arguments of the parameters from a place of a parameter text on, where a parameter
// stands or that ends.
fn read_arguments<F: Files>(
    alloc: Global,
    mouth: &mut Mouth,
    files: &mut F,
    env: &Env,
    params: &SharedTokens,
    from: usize,
    long: bool,
) -> Result<Args, MacroFault>
    requires opened { AreOpen mouth.old (F.state files.old) }
    requires readable { IsReadable mouth.old }
    requires most { from ≤ length params.now }
    requires here { from < length params.now
        → parts (drop from params.now) ≡ with_param (parts (drop (from + 1) params.now)) }
    requires plain { AreNoBraces (take (length params.now - 1) params.now) }
    requires few { length (parts (drop from params.now)).delimiters ≤ 9 }
    ensures exact { AreTold mouth.old (F.state files.old)
        → AgreesAt (λ args. (args, reading mouth.new (F.state files.new))) macro_cause
        mouth.new result (arguments_of env.now long (parts (drop from params.now)).delimiters
        (reading mouth.old (F.state files.old))) }
    ensures leaves { Leaves mouth.old (F.state files.old) mouth.new (F.state files.new) }
    ensures readable { OnOk result (IsReadable mouth.new) }
    ensures arguments { IfOk result (AreArguments mouth.new.names) }
    ensures count { IfOk result (λ args.
        length args ≡ length (parts (drop from params.now)).delimiters) }
    ensures unread { OnOk result (unread (reading mouth.new (F.state files.new))
        ≤ unread (reading mouth.old (F.state files.old))) }
    ensures size { OnOk result (size (reading mouth.new (F.state files.new))
        ≤ size (reading mouth.old (F.state files.old))) }
    ensures counted { Counts macro_cause result (F.state files.old).faults
        (F.state files.new).faults }
{
    let mut args = Args::new(alloc);
    let mut at = from;
    while at < params.as_slice().len() {
        let to = next_param(params.as_slice(), at + 1);
        let argument = read_argument(alloc, mouth, files, env, params, at + 1, to, long)?;
        args.push(argument)?;
        at = to;
    }
    Ok(args)
}

/// Reads the arguments of a call of a macro whose name was taken (The TeXbook, chapter 20; TeX:
/// The Program, sections 389 to 401). `UseMismatch` comes exactly where the call's tokens differ
/// from the parameter text or an argument has an extra `}`; `ArgParagraph` exactly where the name
/// `\par` stands in an argument and the macro isn't long; `FileEnded` where a file ends in the
/// call. A call without parameter text takes no token.
#[tactic(auto, using(crate::proofs::Gathering::call_none, crate::proofs::Gathering::counted), unfolding(crate::specs::Calls::call, mouth::specs::Sizes::unread))]
pub fn read_call<F: Files>(
    alloc: Global,
    mouth: &mut Mouth,
    files: &mut F,
    env: &Env,
    definition: &MacroDef,
) -> Result<Args, MacroFault>
    requires opened { AreOpen mouth.old (F.state files.old) }
    requires readable { IsReadable mouth.old }
    requires few { param_count definition.now.params ≤ 9 }
    requires plain { AreNoBraces (take (length definition.now.params - 1) definition.now.params) }
    ensures exact { AreTold mouth.old (F.state files.old)
        → AgreesAt (λ args. (args, reading mouth.new (F.state files.new))) macro_cause
        mouth.new result (call env.now definition.now (reading mouth.old (F.state files.old))) }
    ensures leaves { Leaves mouth.old (F.state files.old) mouth.new (F.state files.new) }
    ensures readable { OnOk result (IsReadable mouth.new) }
    ensures arguments { IfOk result (AreArguments mouth.new.names) }
    ensures count { IfOk result (λ args. length args ≡ param_count definition.now.params) }
    ensures unread { OnOk result (unread (reading mouth.new (F.state files.new))
        ≤ unread (reading mouth.old (F.state files.old))) }
    ensures size { OnOk result (size (reading mouth.new (F.state files.new))
        ≤ size (reading mouth.old (F.state files.old))) }
    ensures counted { Counts macro_cause result (F.state files.old).faults
        (F.state files.new).faults }
{
    if definition.params.as_slice().is_empty() {
        return Ok(Args::new(alloc));
    }
    mouth.enter_text()?;
    let params = &definition.params;
    let at = next_param(params.as_slice(), 0);
    read_prefix(mouth, files, env, params, at)?;
    let args = read_arguments(alloc, mouth, files, env, params, at, definition.long)?;
    mouth.leave_text();
    Ok(args)
}
