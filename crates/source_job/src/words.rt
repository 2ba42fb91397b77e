//! The words of a command line.

ghost use Rattle.std.specs.Prelude.{◌≡◌, ◌≤◌, length, map, string_bytes, drop, option_map, Some, IfOk, true};
ghost use Rattle.std.specs.List.{list_all};
ghost use Rattle.source_job.specs.Words.{is_option as is_an_option, named_source, source_of as the_source_of, coding_of as the_coding_of, is_digit as is_a_digit, is_short_number as is_a_short_number, budget_of as the_budget_of, options as the_options, one_option as the_one_option, two_options as the_two_options, options_of as the_options_of, asked_in as what_is_asked_in, asked as what_is_asked};
ghost use Rattle.source_job.specs.Asked.{options_seen, request_seen};

use input_codings::Coding;
use std::alloc::{AllocError, Global};
use ts_outside::{FileName, NameFault};

/// The units of a run where the words don't tell them.
const USUAL_BUDGET: u32 = 5_000_000;

/// The most that the words may tell.
const MOST_UNITS: u32 = 50_000_000;

/// What stands after the name: the coding, and the units of the run.
#[derive(Clone, Copy, Debug)]
pub(crate) struct Options {
    pub(crate) coding: Coding,
    pub(crate) budget: u32,
}

/// What the words ask: a source, its coding, and the units of its run.
#[derive(Debug, Drop)]
pub(crate) struct Request {
    pub(crate) main: FileName,
    pub(crate) options: Options,
}

// Whether a word of two bytes or more begins with a dash.
fn is_option(word: &[u8]) -> bool
    ensures { result ≡ is_an_option word.now }
{
    2 <= word.len() && word[0] == b'-'
}

// A name, with the ending of a source where it has none, or nothing where it is none.
fn with_source_ending(alloc: Global, name: &[u8]) -> Result<Option<FileName>, AllocError>
    ensures { IfOk result (λ source. source ≡ named_source name.now) }
{
    match FileName::with_ending(alloc, name, b".tex") {
        Ok(source) => Ok(Some(source)),
        Err(NameFault::BadName) => Ok(None),
        Err(NameFault::NoMemory) => Err(AllocError),
    }
}

// The source of a name.
fn source_of(alloc: Global, name: &[u8]) -> Result<Option<FileName>, AllocError>
    ensures { IfOk result (λ source. source ≡ the_source_of name.now) }
{
    if is_option(name) {
        return Ok(None);
    }
    match FileName::new(alloc, name) {
        Ok(_) => with_source_ending(alloc, name),
        Err(NameFault::BadName) => Ok(None),
        Err(NameFault::NoMemory) => Err(AllocError),
    }
}

// The coding of a word.
fn coding_of(word: &str) -> Option<Coding>
    ensures { result ≡ the_coding_of word.now }
{
    match word {
        "euc" => Some(Coding::Euc),
        "jis" => Some(Coding::Jis),
        "sjis" => Some(Coding::Sjis),
        _ => None,
    }
}

fn is_digit(byte: u8) -> bool
    ensures { result ≡ is_a_digit byte }
{
    48 <= byte && byte <= 57
}

fn are_digits(word: &[u8]) -> bool
    ensures { result ≡ list_all is_a_digit word.now }
{
    word.iter().all(|b| is_digit(*b))
}

// Whether a word is one to eight decimal digits.
fn is_short_number(word: &[u8]) -> bool
    ensures { result ≡ is_a_short_number word.now }
{
    !word.is_empty() && word.len() <= 8 && are_digits(word)
}

// The units of a word.
#[tactic(auto, using(crate::proofs::Asking::parsed))]
fn budget_of(word: &str) -> Option<u32>
    ensures { result ≡ the_budget_of word.now }
{
    if !is_short_number(word.as_bytes()) {
        return None;
    }
    match word.parse::<u32>() {
        Ok(budget) if 1 <= budget && budget <= MOST_UNITS => Some(budget),
        _ => None,
    }
}

// A coding and units, where both are there.
fn both(coding: Option<Coding>, budget: Option<u32>) -> Option<Options>
    ensures { option_map options_seen result ≡ the_options coding budget }
{
    let coding = coding?;
    let budget = budget?;
    Some(Options { coding, budget })
}

fn one_option(option: &str, value: &str) -> Option<Options>
    ensures { option_map options_seen result ≡ the_one_option option.now value.now }
{
    match option {
        "--kanji" => both(coding_of(value), Some(USUAL_BUDGET)),
        "--budget" => both(Some(Coding::Euc), budget_of(value)),
        _ => None,
    }
}

fn two_options(first: &str, coding: &str, second: &str, budget: &str) -> Option<Options>
    ensures { option_map options_seen result
        ≡ the_two_options first.now coding.now second.now budget.now }
{
    if first == "--kanji" && second == "--budget" {
        both(coding_of(coding), budget_of(budget))
    } else {
        None
    }
}

// What stands after the name.
fn options_of(words: &[String]) -> Option<Options>
    requires { 3 ≤ length words.now }
    ensures { option_map options_seen result
        ≡ the_options_of (drop 3 (map string_bytes words.now)) }
{
    match words.len() {
        3 => both(Some(Coding::Euc), Some(USUAL_BUDGET)),
        5 => one_option(words[3].as_str(), words[4].as_str()),
        7 => two_options(
            words[3].as_str(),
            words[4].as_str(),
            words[5].as_str(),
            words[6].as_str(),
        ),
        _ => None,
    }
}

// What a verb, a name and options ask.
fn asked_in(
    alloc: Global,
    verb: &str,
    name: &str,
    options: Option<Options>,
) -> Result<Option<Request>, AllocError>
    ensures { IfOk result (λ found. option_map request_seen found
        ≡ what_is_asked_in verb.now name.now (option_map options_seen options)) }
{
    if verb != "typeset" {
        return Ok(None);
    }
    let Some(options) = options else {
        return Ok(None);
    };
    match source_of(alloc, name.as_bytes())? {
        Some(main) => Ok(Some(Request { main, options })),
        None => Ok(None),
    }
}

/// Returns what the words ask, or nothing where they are refused.
pub(crate) fn asked(alloc: Global, words: &[String]) -> Result<Option<Request>, AllocError>
    ensures { IfOk result (λ found. option_map request_seen found
        ≡ what_is_asked (map string_bytes words.now)) }
{
    if words.len() < 3 {
        return Ok(None);
    }
    let options = options_of(words);
    asked_in(alloc, words[1].as_str(), words[2].as_str(), options)
}
