//! How a source ends, before anything is put.

ghost use Rattle.std.specs.Prelude.{◌≡◌, Some, List, map, string_bytes};
ghost use Rattle.ts_outside.specs.States.{Held, KeepsAll};
ghost use Rattle.ts_job.specs.Asked.{request};
ghost use Rattle.ts_job.specs.Meaning.{typeset as the_typeset};
ghost use Rattle.ts_job.specs.Words.{asked as what_is_asked};
ghost use Rattle.ts_job.specs.Promise.{held_widths, pages_of, outcome_of, pages_meant, outcome_meant, outcome_ended, IsEnding, CountsFiles, RefusesWords};

use crate::fault::{Fault, Place};
use crate::stop::Stop;
use crate::typeset::typeset;
use crate::words::{Request, asked};
use std::alloc::Global;
use ts_outside::Files;

/// How a source ends: with the DVI file of its page, or without one.
#[derive(Debug, Drop)]
pub(crate) enum Ending {
    Page(Vec<u8>),
    Fault(Fault),
    Usage,
    ReadFault,
    NoMemory,
}

// How a request ends.
fn ending_asked<F: Files>(alloc: Global, files: &mut F, asked: Request) -> Ending
    ensures exact { (held : List Held) → (F.state files.old).held ≡ Some held
        → IsEnding (held_widths held) (pages_of (the_typeset held (request asked)))
        (outcome_of asked.main (the_typeset held (request asked))) result }
    ensures accepted { (given : _) → RefusesWords (outcome_ended result) (Some given) }
    ensures kept { KeepsAll (F.state files.old) (F.state files.new) }
    ensures counted { CountsFiles (outcome_ended result) (F.state files.old).faults (F.state files.new).faults }
{
    match typeset(alloc, files, &asked) {
        Ok(dvi) => Ending::Page(dvi),
        Err(Stop::Fault(kind, line)) => {
            let place = Place {
                file: asked.main,
                line,
            };
            Ending::Fault(Fault { kind, place })
        }
        Err(Stop::ReadFault) => Ending::ReadFault,
        Err(Stop::NoMemory) => Ending::NoMemory,
    }
}

/// How the words of a command line end.
#[tactic(auto, unfolding(crate::specs::Promise::pages_meant, crate::specs::Promise::outcome_meant))]
pub(crate) fn ending_of<F: Files>(alloc: Global, words: &Vec<String>, files: &mut F) -> Ending
    ensures exact { (held : List Held) → (F.state files.old).held ≡ Some held
        → IsEnding (held_widths held) (pages_meant held (map string_bytes words.now.items))
        (outcome_meant held (map string_bytes words.now.items)) result }
    ensures usage { RefusesWords (outcome_ended result) (what_is_asked (map string_bytes words.now.items)) }
    ensures kept { KeepsAll (F.state files.old) (F.state files.new) }
    ensures counted { CountsFiles (outcome_ended result) (F.state files.old).faults (F.state files.new).faults }
{
    match asked(alloc, words) {
        Ok(Some(request)) => ending_asked(alloc, files, request),
        Ok(None) => Ending::Usage,
        Err(_) => Ending::NoMemory,
    }
}
