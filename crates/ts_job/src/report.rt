//! The texts that a job reports.

ghost use Rattle.std.specs.Prelude.{◌≡◌, List, ℕ, codes, Some, IfOk};
ghost use Rattle.ts_job.specs.Texts.{bad_text, kind_text, fault_text, usage_text, pages_text, report_of as the_report_of};

use crate::fault::{Fault, FaultKind};
use crate::outcome::Outcome;
use std::alloc::{AllocError, Global};
use std::fmt;
use ts_geometry::BadKind;

const USAGE: &str =
    "usage: typeset NAME [--kanji euc|jis|sjis] [--budget N] | list NAME | sample N\n";

// The name of what is wrong with a metric.
fn bad_name(kind: BadKind) -> &'static str
    ensures { result.now ≡ bad_text kind }
{
    match kind {
        BadKind::Truncated => "Truncated",
        BadKind::Lengths => "Lengths",
        BadKind::FixWord => "FixWord",
        BadKind::CharType => "CharType",
        BadKind::Index => "Index",
        BadKind::Program => "Program",
        BadKind::Ligature => "Ligature",
    }
}

impl fmt::Display for FaultKind {
    ghost output = { λ kind. Some (kind_text kind) };

    fn fmt<W: fmt::Write>(&self, f: &mut fmt::Formatter<W>) -> fmt::Result {
        match *self {
            FaultKind::FileMissing => write!(f, "FileMissing"),
            FaultKind::FontBad(kind, at) => {
                let name = bad_name(kind);
                write!(f, "FontBad {name} {at}")
            }
            FaultKind::FormNotBuilt => write!(f, "FormNotBuilt"),
            FaultKind::BadByte(at) => write!(f, "BadByte {at}"),
            FaultKind::LineTooLong => write!(f, "LineTooLong"),
            FaultKind::TooManyLines => write!(f, "TooManyLines"),
        }
    }
}

// A fault as `FILE:LINE: KIND` and the end of a line.
fn fault_line(alloc: Global, fault: &Fault) -> Result<Vec<u8>, AllocError>
    ensures { IfOk result (λ text. text.items ≡ fault_text fault.now) }
{
    let line = fault.place.line;
    let kind = fault.kind;
    let rest = format!(in alloc; ":{line}: {kind}\n")?;
    let mut text = Vec::new(alloc);
    text.extend_from_slice(fault.place.file.bytes())?;
    text.extend_from_slice(rest.as_bytes())?;
    Ok(text)
}

/// What an outcome reports, where so many pages were shipped.
#[tactic(auto, unfolding(crate::specs::Texts::report_of))]
pub(crate) fn report_of(
    alloc: Global,
    pages: usize,
    outcome: &Outcome,
) -> Result<Vec<u8>, AllocError>
    ensures { IfOk result (λ text. text.items ≡ the_report_of pages outcome.now) }
{
    match outcome {
        Outcome::Done => {
            let text = format!(in alloc; "pages {pages}\n")?;
            Ok(text.into_bytes())
        }
        Outcome::SourceFault(fault) => fault_line(alloc, fault),
        Outcome::Usage => {
            let mut text = Vec::new(alloc);
            text.extend_from_slice(USAGE.as_bytes())?;
            Ok(text)
        }
        Outcome::ReadFault | Outcome::SinkFault | Outcome::NoMemory => Ok(Vec::new(alloc)),
    }
}
