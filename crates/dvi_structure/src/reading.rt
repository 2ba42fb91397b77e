//! The command at a place, as the readers take it.

ghost use Rattle.std.specs.Prelude.{◌≤◌, ◌<◌, length, drop, IfOk};
ghost use Rattle.ts_base.specs.Agreement.{Agrees};
ghost use Rattle.dvi_structure.specs.Answers.{dvi_cause, faulted};
ghost use Rattle.dvi_structure.specs.Structure.{placed_at};
ghost use Rattle.dvi_commands.specs.Fields.{left_at};
ghost use Rattle.dvi_commands.specs.Commands.{meant, command};
ghost use Rattle.dvi_commands.specs.Next.{IsCommandAt, HasPartsIn};

use crate::fault::DviFault;
use dvi_commands::{Command, next_command};

/// Returns the command at a place, in bytes from 0 up to the length, and the place after it, as
/// `next_command` does, with its fault as `Bad`. Takes no memory.
pub fn command_from(bytes: &[u8], at: usize) -> Result<(Command, usize), DviFault>
    requires { at ≤ length bytes.now }
    ensures exact { Agrees (left_at bytes.now (meant bytes.now)) dvi_cause result (faulted
        (placed_at at (command (drop at bytes.now)))) }
    ensures on { IfOk result (λ x. at < x.1) }
    ensures within { IfOk result (λ x. x.1 ≤ length bytes.now) }
    ensures parts { IfOk result (λ x. HasPartsIn (length bytes.now) x.0) }
{
    match next_command(bytes, at) {
        Ok((command, after)) => Ok((command, after)),
        Err(bad) => Err(DviFault::Bad(bad)),
    }
}
