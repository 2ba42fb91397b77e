//! The texts that a job reports.

ghost use Rattle.std.specs.Prelude.{◌≡◌, IfOk, string_bytes};
ghost use Rattle.source_job.specs.Texts.{bad_text, kind_text as the_kind_text, line_of as the_line_of, report_of as the_report_of};

use crate::outcome::Outcome;
use main_control::FaultKind;
use mouth::Place;
use std::alloc::{AllocError, Global};
use ts_geometry::BadKind;

const USAGE: &str =
    "usage: typeset NAME [--kanji euc|jis|sjis] [--budget N] | list NAME | sample N\n";

// The name of what is wrong with a metric.
fn bad_name(kind: BadKind) -> &'static str
    ensures { result.now ≡ bad_text kind }
{
    match kind {
        BadKind::Truncated => "Truncated",
        BadKind::Lengths => "Lengths",
        BadKind::FixWord => "FixWord",
        BadKind::CharType => "CharType",
        BadKind::Index => "Index",
        BadKind::Program => "Program",
        BadKind::Ligature => "Ligature",
    }
}

// The name of a kind, and its place where it has one.
#[tactic(auto, unfolding(crate::specs::Texts::kind_text))]
fn kind_text(alloc: Global, kind: FaultKind) -> Result<String, AllocError>
    ensures { IfOk result (λ text. string_bytes text ≡ the_kind_text kind) }
{
    match kind {
        FaultKind::BadByte(at) => format!(in alloc; "BadByte {at}"),
        FaultKind::FontBad(bad, at) => {
            let name = bad_name(bad);
            format!(in alloc; "FontBad {name} {at}")
        }
        FaultKind::NotBuilt => String::from_str(alloc, "NotBuilt"),
        FaultKind::BadChar => String::from_str(alloc, "BadChar"),
        FaultKind::LineTooLong => String::from_str(alloc, "LineTooLong"),
        FaultKind::TooManyLines => String::from_str(alloc, "TooManyLines"),
        FaultKind::NamesFull => String::from_str(alloc, "NamesFull"),
        FaultKind::TokensFull => String::from_str(alloc, "TokensFull"),
        FaultKind::Undefined => String::from_str(alloc, "Undefined"),
        FaultKind::UseMismatch => String::from_str(alloc, "UseMismatch"),
        FaultKind::ArgParagraph => String::from_str(alloc, "ArgParagraph"),
        FaultKind::FileEnded => String::from_str(alloc, "FileEnded"),
        FaultKind::BadParameter => String::from_str(alloc, "BadParameter"),
        FaultKind::ExtraCond => String::from_str(alloc, "ExtraCond"),
        FaultKind::CsnameEnd => String::from_str(alloc, "CsnameEnd"),
        FaultKind::NoBrace => String::from_str(alloc, "NoBrace"),
        FaultKind::NoName => String::from_str(alloc, "NoName"),
        FaultKind::FileMissing => String::from_str(alloc, "FileMissing"),
        FaultKind::InputsFull => String::from_str(alloc, "InputsFull"),
        FaultKind::NoNumber => String::from_str(alloc, "NoNumber"),
        FaultKind::NumberRange => String::from_str(alloc, "NumberRange"),
        FaultKind::NoUnit => String::from_str(alloc, "NoUnit"),
        FaultKind::DimenRange => String::from_str(alloc, "DimenRange"),
        FaultKind::RegisterRange => String::from_str(alloc, "RegisterRange"),
        FaultKind::CodeRange => String::from_str(alloc, "CodeRange"),
        FaultKind::GroupEnd => String::from_str(alloc, "GroupEnd"),
        FaultKind::GroupsFull => String::from_str(alloc, "GroupsFull"),
        FaultKind::ListFull => String::from_str(alloc, "ListFull"),
        FaultKind::BoxTooLarge => String::from_str(alloc, "BoxTooLarge"),
        FaultKind::BoxTooDeep => String::from_str(alloc, "BoxTooDeep"),
        FaultKind::InfiniteShrink => String::from_str(alloc, "InfiniteShrink"),
        FaultKind::PlaceRange => String::from_str(alloc, "PlaceRange"),
        FaultKind::PagesFull => String::from_str(alloc, "PagesFull"),
        FaultKind::JobTooLarge => String::from_str(alloc, "JobTooLarge"),
        FaultKind::NotInMode => String::from_str(alloc, "NotInMode"),
        FaultKind::LeftOut => String::from_str(alloc, "LeftOut"),
        FaultKind::DirectionLate => String::from_str(alloc, "DirectionLate"),
        FaultKind::DirectionClash => String::from_str(alloc, "DirectionClash"),
        FaultKind::FontSize => String::from_str(alloc, "FontSize"),
        FaultKind::FontsFull => String::from_str(alloc, "FontsFull"),
        FaultKind::Arithmetic => String::from_str(alloc, "Arithmetic"),
        FaultKind::DeadCycles => String::from_str(alloc, "DeadCycles"),
        FaultKind::OutputHeld => String::from_str(alloc, "OutputHeld"),
        FaultKind::NoEnd => String::from_str(alloc, "NoEnd"),
        FaultKind::DepthFull => String::from_str(alloc, "DepthFull"),
    }
}

// `FILE:LINE: ` and what is met there, and the end of a line.
fn line_of(alloc: Global, place: &Place, what: &str) -> Result<Vec<u8>, AllocError>
    ensures { IfOk result (λ text. text.items ≡ the_line_of place.now what.now) }
{
    let line = place.line;
    let rest = format!(in alloc; ":{line}: {what}\n")?;
    let mut text = Vec::new(alloc);
    text.extend_from_slice(place.file.bytes())?;
    text.extend_from_slice(rest.as_bytes())?;
    Ok(text)
}

/// Returns what an outcome reports, where so many pages were shipped.
#[tactic(auto, unfolding(crate::specs::Texts::report_of))]
pub(crate) fn report_of(alloc: Global, pages: u16, outcome: &Outcome) -> Result<Vec<u8>, AllocError>
    ensures { IfOk result (λ text. text.items ≡ the_report_of pages outcome.now) }
{
    match outcome {
        Outcome::Done => {
            let text = format!(in alloc; "pages {pages}\n")?;
            Ok(text.into_bytes())
        }
        Outcome::SourceFault(fault) => {
            let kind = kind_text(alloc, fault.kind)?;
            line_of(alloc, &fault.place, &kind)
        }
        Outcome::Budget(place) => line_of(alloc, place, "Budget"),
        Outcome::Usage => {
            let mut text = Vec::new(alloc);
            text.extend_from_slice(USAGE.as_bytes())?;
            Ok(text)
        }
        Outcome::ReadFault | Outcome::SinkFault | Outcome::NoMemory => Ok(Vec::new(alloc)),
    }
}
