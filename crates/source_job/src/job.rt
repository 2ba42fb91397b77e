//! The whole of a job.

ghost use Rattle.std.specs.Prelude.{◌≡◌, Some, List, ℕ, map, string_bytes, OnOk, OnErr};
ghost use Rattle.ts_base.specs.Agreement.{Counts, Rose};
ghost use Rattle.ts_outside.specs.Gaining.{Gained, GainedPrefix, put_cause};
ghost use Rattle.ts_outside.specs.States.{Held, KeepsAll};
ghost use Rattle.shipping.specs.Standing.{PutsFile};
ghost use Rattle.source_job.specs.Words.{asked as what_is_asked};
ghost use Rattle.source_job.specs.Texts.{report_of as the_report_of};
ghost use Rattle.source_job.specs.Promise.{outcome_of as the_outcome_of, is_told as the_told, boxes_meant, outcome_meant, report_meant, EndsAs, RefusesWords, Writes, Appends, Reports, ReportsItself, ReportsLast, TellsPages, CountsFiles, CountsOut, CountsSinks, IsComplete};

use crate::outcome::Outcome;
use crate::report::report_of;
use crate::typeset::typeset;
use crate::words::asked;
use dvi_code::laws::whole_pages_are_the_first;
use main_control::Ending;
use std::alloc::Global;
use ts_outside::{Files, PutFault, Sink, put_all};

fn outcome_of(ending: Ending) -> Outcome
    ensures { result ≡ the_outcome_of ending }
{
    match ending {
        Ending::Ended => Outcome::Done,
        Ending::Fault(fault) => Outcome::SourceFault(fault),
        Ending::Budget(place) => Outcome::Budget(place),
        Ending::ReadFault => Outcome::ReadFault,
        Ending::SinkFault => Outcome::SinkFault,
        Ending::NoMemory => Outcome::NoMemory,
    }
}

fn is_told(outcome: &Outcome) -> bool
    ensures { result ≡ the_told outcome.now }
{
    match outcome {
        Outcome::Done | Outcome::SourceFault(_) | Outcome::Budget(_) | Outcome::Usage => true,
        Outcome::ReadFault | Outcome::SinkFault | Outcome::NoMemory => false,
    }
}

// Puts the text of an outcome to the report.
fn tell<R: Sink>(
    alloc: Global,
    pages: u16,
    outcome: &Outcome,
    report: &mut R,
) -> Result<(), PutFault>
    ensures all { OnOk result (Gained (R.held report.old) (R.held report.new)
        (the_report_of pages outcome.now)) }
    ensures part { OnErr result (GainedPrefix (R.held report.old) (R.held report.new)
        (the_report_of pages outcome.now)) }
    ensures counted { Counts put_cause result (R.faults report.old) (R.faults report.new) }
{
    let Ok(text) = report_of(alloc, pages, outcome) else {
        return Err(PutFault::NoMemory);
    };
    put_all(report, &text)
}

// Sets what the words ask. Returns the outcome, before it is reported, and the number of pages.
#[tactic(auto, using(crate::proofs::Jobs::ends_as, crate::proofs::Jobs::writes_set, crate::proofs::Jobs::tells_pages, crate::proofs::Jobs::refuses_some, crate::proofs::Jobs::appends_some, crate::proofs::Jobs::counts_files, crate::proofs::Jobs::counts_out, crate::proofs::Reporting::puts_none, crate::proofs::Reporting::gains_none), unfolding(crate::specs::Promise::boxes_meant, crate::specs::Promise::outcome_meant))]
fn set<F: Files, S: Sink>(
    alloc: Global,
    words: &Vec<String>,
    files: &mut F,
    out: &mut S,
) -> (Outcome, u16)
    ensures outcome { (held : List Held) → (F.state files.old).held ≡ Some held
        → EndsAs result.0 (outcome_meant held (map string_bytes words.now.items)) }
    ensures usage { RefusesWords result.0 (what_is_asked (map string_bytes words.now.items)) }
    ensures pages { (held : List Held) → (F.state files.old).held ≡ Some held
        → Writes result.0 (boxes_meant held (map string_bytes words.now.items)) (S.held out.old)
        (S.held out.new) }
    ensures number { (held : List Held) → (F.state files.old).held ≡ Some held
        → TellsPages result.0 result.1 (boxes_meant held (map string_bytes words.now.items)) }
    ensures appends { Appends result.0 (S.held out.old) (S.held out.new) }
    ensures kept { KeepsAll (F.state files.old) (F.state files.new) }
    ensures files { CountsFiles result.0 (F.state files.old).faults (F.state files.new).faults }
    ensures out { CountsOut result.0 (S.faults out.old) (S.faults out.new) }
{
    let request = match asked(alloc, words) {
        Ok(Some(request)) => request,
        Ok(None) => return (Outcome::Usage, 0),
        Err(_) => return (Outcome::NoMemory, 0),
    };
    let (ending, pages) = typeset(alloc, files, out, &request);
    (outcome_of(ending), pages)
}

/// Typesets what the words of a command line ask: from files, with the DVI file to one sink, and
/// then the text of the outcome to another.
///
/// The words are any word, `typeset` and the name of a source, then perhaps `--kanji` with `euc`,
/// `jis` or `sjis`, then perhaps `--budget` with 1 to 50,000,000 units; all else is `Usage`. `Done`,
/// `SourceFault` and `Budget` come exactly where the source means it, where no call on the outside
/// failed; the pages shipped up to there are then a whole file, or no byte where there is none.
/// After a failed read or want of memory nothing more is put.
#[tactic(auto, using(crate::proofs::Reporting::appends_same, crate::proofs::Reporting::told_counts, crate::proofs::Reporting::told_files))]
pub fn run<F: Files, S: Sink, R: Sink>(
    alloc: Global,
    words: &Vec<String>,
    files: &mut F,
    out: &mut S,
    report: &mut R,
) -> Outcome
    ensures outcome { (held : List Held) → (F.state files.old).held ≡ Some held
        → EndsAs result (outcome_meant held (map string_bytes words.now.items)) }
    ensures usage { RefusesWords result (what_is_asked (map string_bytes words.now.items)) }
    ensures pages { (held : List Held) → (F.state files.old).held ≡ Some held
        → Writes result (boxes_meant held (map string_bytes words.now.items)) (S.held out.old)
        (S.held out.new) }
    ensures text { (held : List Held) → (F.state files.old).held ≡ Some held
        → Reports result (report_meant held (map string_bytes words.now.items))
        (R.held report.old) (R.held report.new) }
    ensures last { (held : List Held) → (F.state files.old).held ≡ Some held
        → ReportsLast result (report.new ≡ report.old) (PutsFile (S.held out.old)
        (S.held out.new) (boxes_meant held (map string_bytes words.now.items))) }
    ensures complete { (held : List Held) → (F.state files.old).held ≡ Some held
        → (Rose (F.state files.old).faults (F.state files.new).faults → ⊥)
        → (Rose (S.faults out.old) (S.faults out.new) → ⊥)
        → (Rose (R.faults report.old) (R.faults report.new) → ⊥)
        → IsComplete result (outcome_meant held (map string_bytes words.now.items)) }
    ensures appends { Appends result (S.held out.old) (S.held out.new) }
    ensures itself { ReportsItself result (R.held report.old) (R.held report.new) }
    ensures kept { KeepsAll (F.state files.old) (F.state files.new) }
    ensures files { CountsFiles result (F.state files.old).faults (F.state files.new).faults }
    ensures sinks { CountsSinks result (report.new ≡ report.old) (S.faults out.old)
        (S.faults out.new) (R.faults report.old) (R.faults report.new) }
{
    whole_pages_are_the_first();
    let (outcome, pages) = set(alloc, words, files, out);
    if !is_told(&outcome) {
        return outcome;
    }
    match tell(alloc, pages, &outcome, report) {
        Ok(()) => outcome,
        Err(PutFault::Failed) => Outcome::SinkFault,
        Err(PutFault::NoMemory) => Outcome::NoMemory,
    }
}
