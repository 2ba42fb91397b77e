//! The whole of a job.

ghost use Rattle.std.specs.Prelude.{◌≡◌, Some, List, map, string_bytes, OnOk, OnErr};
ghost use Rattle.ts_base.specs.Agreement.{Counts, Rose};
ghost use Rattle.ts_outside.specs.Gaining.{Gained, GainedPrefix, put_cause};
ghost use Rattle.ts_outside.specs.States.{Held, KeepsAll};
ghost use Rattle.ts_job.specs.Words.{asked};
ghost use Rattle.ts_job.specs.Texts.{report_of as the_report_of};
ghost use Rattle.ts_job.specs.Promise.{held_widths, pages_meant, outcome_meant, report_meant, EndsAs, RefusesWords, Writes, PutsNothing, Reports, CountsFiles, CountsSinks, IsComplete};
ghost use Rattle.ts_job.specs.declared.outcome.Outcome.TheVariants as outcomes;

use crate::ending::{Ending, ending_of};
use crate::outcome::Outcome;
use crate::report::report_of;
use std::alloc::Global;
use ts_outside::{Files, PutFault, Sink, put_all};

// Puts the text of an outcome to the report.
fn tell<R: Sink>(alloc: Global, outcome: &Outcome, report: &mut R) -> Result<(), PutFault>
    ensures all { OnOk result (Gained (R.held report.old) (R.held report.new) (the_report_of 1 outcome.now)) }
    ensures part { OnErr result (GainedPrefix (R.held report.old) (R.held report.new) (the_report_of 1 outcome.now)) }
    ensures counted { Counts put_cause result (R.faults report.old) (R.faults report.new) }
{
    let Ok(text) = report_of(alloc, 1, outcome) else {
        return Err(PutFault::NoMemory);
    };
    put_all(report, &text)
}

/// Typesets what the words of a command line ask: from files, with the DVI file to one sink, and
/// the text of the outcome to another.
#[tactic(auto, using(crate::proofs::Endings::complete))]
pub fn run<F: Files, S: Sink, R: Sink>(
    alloc: Global,
    words: &Vec<String>,
    files: &mut F,
    out: &mut S,
    report: &mut R,
) -> Outcome
    ensures outcome { (held : List Held) → (F.state files.old).held ≡ Some held
        → EndsAs result (outcome_meant held (map string_bytes words.now.items)) }
    ensures usage { RefusesWords result (asked (map string_bytes words.now.items)) }
    ensures pages { (held : List Held) → (F.state files.old).held ≡ Some held
        → Writes result (held_widths held) (pages_meant held (map string_bytes words.now.items)) (S.held out.old) (S.held out.new) }
    ensures silent { PutsNothing result (S.held out.old) (S.held out.new) }
    ensures text { (held : List Held) → (F.state files.old).held ≡ Some held
        → Reports result (report_meant held (map string_bytes words.now.items)) (R.held report.old) (R.held report.new) }
    ensures complete { (held : List Held) → (F.state files.old).held ≡ Some held
        → outcome_meant held (map string_bytes words.now.items) ≡ outcomes.Done
        → (Rose (F.state files.old).faults (F.state files.new).faults → ⊥)
        → (Rose (S.faults out.old) (S.faults out.new) → ⊥)
        → (Rose (R.faults report.old) (R.faults report.new) → ⊥)
        → IsComplete result }
    ensures kept { KeepsAll (F.state files.old) (F.state files.new) }
    ensures files { CountsFiles result (F.state files.old).faults (F.state files.new).faults }
    ensures sinks { CountsSinks result (S.faults out.old) (S.faults out.new) (R.faults report.old) (R.faults report.new) }
{
    let outcome = match ending_of(alloc, words, files) {
        Ending::Page(dvi) => match put_all(out, &dvi) {
            Ok(()) => Outcome::Done,
            Err(PutFault::Failed) => return Outcome::SinkFault,
            Err(PutFault::NoMemory) => return Outcome::NoMemory,
        },
        Ending::Fault(fault) => Outcome::SourceFault(fault),
        Ending::Usage => Outcome::Usage,
        Ending::ReadFault => return Outcome::ReadFault,
        Ending::NoMemory => return Outcome::NoMemory,
    };
    match tell(alloc, &outcome, report) {
        Ok(()) => outcome,
        Err(PutFault::Failed) => Outcome::SinkFault,
        Err(PutFault::NoMemory) => Outcome::NoMemory,
    }
}
