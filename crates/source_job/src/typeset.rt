//! From the files to the pages.

ghost use Rattle.std.specs.Prelude.{◌≡◌, List, ℕ, Some};
ghost use Rattle.ts_base.specs.Agreement.{CountsFault};
ghost use Rattle.ts_outside.specs.Gaining.{Gained};
ghost use Rattle.ts_outside.specs.States.{Held, KeepsAll};
ghost use Rattle.main_control.specs.Endings.{ending_read, ending_shipped};
ghost use Rattle.source_job.specs.Asked.{request_seen};
ghost use Rattle.source_job.specs.Promise.{request_meaning, GainsSome};
ghost use Rattle.source_job.specs.Sets.{is_meant as the_meant, unfinished_as, Sets, HasPages};

use crate::words::{Options, Request};
use dvi_writer::laws::pages_are_whole;
use main_control::{Ending, Stomach};
use shipping::{PageShipper, ShipFault};
use std::alloc::Global;
use ts_outside::{Files, Sink};

fn is_meant(ending: &Ending) -> bool
    ensures { result ≡ the_meant ending.now }
{
    matches!(ending, Ending::Ended | Ending::Fault(_) | Ending::Budget(_))
}

fn unfinished(fault: ShipFault) -> Ending
    ensures { result ≡ unfinished_as fault }
{
    match fault {
        ShipFault::SinkFault => Ending::SinkFault,
        ShipFault::PagesFull
        | ShipFault::JobTooLarge
        | ShipFault::PlaceRange
        | ShipFault::NoMemory => Ending::NoMemory,
    }
}

/// Sets the source that is asked for, and puts its pages. Returns how the source ends, and how many
/// pages it has.
pub(crate) fn typeset<F: Files, S: Sink>(
    alloc: Global,
    files: &mut F,
    out: &mut S,
    asked: &Request,
) -> (Ending, u16)
    ensures sets { (held : List Held) → (F.state files.old).held ≡ Some held
        → Sets result.0 (request_meaning held (request_seen asked.now)) (S.held out.old)
        (S.held out.new) }
    ensures pages { (held : List Held) → (F.state files.old).held ≡ Some held
        → HasPages result.0 result.1 (request_meaning held (request_seen asked.now)) }
    ensures appends { GainsSome (S.held out.old) (S.held out.new) }
    ensures kept { KeepsAll (F.state files.old) (F.state files.new) }
    ensures read { CountsFault (ending_read result.0) (F.state files.old).faults
        (F.state files.new).faults }
    ensures shipped { CountsFault (ending_shipped result.0) (S.faults out.old)
        (S.faults out.new) }
{
    pages_are_whole();
    let Options { coding, budget } = asked.options;
    let mut shipper = PageShipper::new(alloc, out);
    let ending = Stomach::run(alloc, files, &mut shipper, &asked.main, coding, budget);
    if !is_meant(&ending) {
        return (ending, 0);
    }
    let pages = shipper.pages();
    match shipper.finish() {
        Ok(()) => (ending, pages),
        Err(fault) => (unfinished(fault), pages),
    }
}
