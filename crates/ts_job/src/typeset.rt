//! From the files to the DVI file of the source's page.

ghost use Rattle.std.specs.Prelude.{◌≡◌, ◌≤◌, ℕ, List, length, take, Some, IfOk};
ghost use Rattle.ts_base.specs.Agreement.{Agrees, Counts, Uncounted};
ghost use Rattle.ts_outside.specs.States.{Held, KeepsAll};
ghost use Rattle.std.specs.Option.{ok_or};
ghost use Rattle.ts_job.specs.declared.stop.Stop.TheVariants as stops;
ghost use Rattle.ts_job.specs.FormSeen.{seen};
ghost use Rattle.ts_job.specs.Meaning.{source_form as the_source_form, font_metric as the_font_metric, built, may_be_jfm as might_be_jfm, has_programs as the_file_has_programs, form_on as the_form_on, first_line as the_first_line, typeset as the_typeset, stop_cause};
ghost use Rattle.ts_job.specs.Asked.{request};
ghost use Rattle.ts_job.specs.Promise.{Sets};
ghost use Rattle.ts_job.specs.Setting.{IsSound};

use crate::fault::FaultKind;
use crate::form::{Form, form_of};
use crate::load::load;
use crate::setting::{TEN_POINTS, set};
use crate::stop::Stop;
use crate::words::Request;
use input_codings::{Line, Lines};
use jfm_load::{Japanese, a_metric_is_in_its_first_words, read};
use metric_words::{begins_as_jfm, halfword_at};
use std::alloc::Global;
use ts_outside::{FileName, Files};

// A metric has at most 65,535 words.
const MOST_OF_METRIC: usize = 262_140;

// The form of the first line, if there is one.
fn form_on(alloc: Global, line: Option<Line>) -> Result<Form, Stop>
    ensures exact { Agrees seen stop_cause result
        (ok_or (the_form_on line) (stops.Fault FaultKind.FormNotBuilt 0)) }
    ensures sound { IfOk result (λ form. IsSound (seen form)) }
    ensures quiet { Uncounted stop_cause result }
{
    let Some(line) = line else {
        return Err(Stop::Fault(FaultKind::FormNotBuilt, 0));
    };
    match form_of(alloc, line.chars().as_slice()) {
        Ok(Some(form)) => Ok(form),
        Ok(None) => Err(Stop::Fault(FaultKind::FormNotBuilt, 0)),
        Err(_) => Err(Stop::NoMemory),
    }
}

// The first line of a file, which is closed again.
fn first_line<F: Files>(alloc: Global, files: &mut F, asked: &Request) -> Result<Option<Line>, Stop>
    ensures exact { (held : List Held) → (F.state files.old).held ≡ Some held
        → Agrees (λ line. line) stop_cause result (the_first_line held (request asked.now)) }
    ensures kept { KeepsAll (F.state files.old) (F.state files.new) }
    ensures counted { Counts stop_cause result (F.state files.old).faults (F.state files.new).faults }
{
    let mut lines = Lines::open(alloc, files, &asked.main, asked.coding)?;
    let line = lines.next_line(files);
    lines.close(files);
    Ok(line?)
}

// The form of the main file.
#[tactic(auto, unfolding(crate::specs::Meaning::source_form))]
fn source_form<F: Files>(alloc: Global, files: &mut F, asked: &Request) -> Result<Form, Stop>
    ensures exact { (held : List Held) → (F.state files.old).held ≡ Some held
        → Agrees seen stop_cause result (the_source_form held (request asked.now)) }
    ensures sound { IfOk result (λ form. IsSound (seen form)) }
    ensures kept { KeepsAll (F.state files.old) (F.state files.new) }
    ensures counted { Counts stop_cause result (F.state files.old).faults (F.state files.new).faults }
{
    let line = first_line(alloc, files, asked)?;
    form_on(alloc, line)
}

// Is a metric file a JFM, by its first halfword, if it has one?
fn may_be_jfm(bytes: &[u8]) -> bool
    ensures { result ≡ might_be_jfm bytes.now }
{
    bytes.len() < 2 || begins_as_jfm(bytes)
}

// Has a JFM programs, kerns or glue, by its lengths?
fn has_programs(bytes: &[u8]) -> bool
    ensures { result ≡ the_file_has_programs bytes.now }
{
    28 <= bytes.len()
        && !(halfword_at(bytes, 10) == 0
            && halfword_at(bytes, 11) == 0
            && halfword_at(bytes, 12) == 0)
}

// Nothing, beside the fact that so many bytes of a file hold the whole of its metric.
fn hold_metric(bytes: &[u8])
    ensures { (file : List ℕ) → take 262140 file ≡ bytes.now → built file ≡ built bytes.now }
{
    a_metric_is_in_its_first_words();
    if 28 <= bytes.len() {
        let _count = halfword_at(bytes, 2);
    }
}

// The metric that bytes spell, if it is for yoko lines of the one size that is built, without
// programs.
fn built_metric(alloc: Global, bytes: &[u8]) -> Result<Japanese, Stop>
    ensures exact { Agrees (λ metric. metric) stop_cause result (built bytes.now) }
    ensures quiet { Uncounted stop_cause result }
{
    if !may_be_jfm(bytes) {
        return Err(Stop::Fault(FaultKind::FormNotBuilt, 0));
    }
    let metric = read(alloc, bytes)?;
    if has_programs(bytes) || metric.is_tate() || metric.design() != TEN_POINTS {
        return Err(Stop::Fault(FaultKind::FormNotBuilt, 0));
    }
    Ok(metric)
}

// The metric of the form's font.
#[tactic(auto, unfolding(crate::specs::Meaning::font_metric))]
fn font_metric<F: Files>(alloc: Global, files: &mut F, form: &Form) -> Result<Japanese, Stop>
    requires { IsSound (seen form.now) }
    ensures exact { (held : List Held) → (F.state files.old).held ≡ Some held
        → Agrees (λ metric. metric) stop_cause result (the_font_metric held (seen form.now)) }
    ensures kept { KeepsAll (F.state files.old) (F.state files.new) }
    ensures counted { Counts stop_cause result (F.state files.old).faults (F.state files.new).faults }
{
    let Ok(name) = FileName::with_ending(alloc, &form.name, b".tfm") else {
        return Err(Stop::NoMemory);
    };
    let bytes = load(alloc, files, &name, MOST_OF_METRIC)?;
    hold_metric(&bytes);
    built_metric(alloc, &bytes)
}

/// The DVI file of the page that the main file means.
#[tactic(auto, unfolding(crate::specs::Meaning::typeset))]
pub(crate) fn typeset<F: Files>(
    alloc: Global,
    files: &mut F,
    asked: &Request,
) -> Result<Vec<u8>, Stop>
    ensures exact { (held : List Held) → (F.state files.old).held ≡ Some held
        → Sets held result (the_typeset held (request asked.now)) }
    ensures kept { KeepsAll (F.state files.old) (F.state files.new) }
    ensures counted { Counts stop_cause result (F.state files.old).faults (F.state files.new).faults }
{
    let form = source_form(alloc, files, asked)?;
    let metric = font_metric(alloc, files, &form)?;
    match set(alloc, &form, &metric) {
        Ok(dvi) => Ok(dvi),
        Err(_) => Err(Stop::NoMemory),
    }
}
