//! The words of a command line.

ghost use Rattle.std.specs.Prelude.{◌≡◌, map, string_bytes, option_map, Some, IfOk};
ghost use Rattle.ts_job.specs.Words.{is_option as is_an_option, named_source, source_of as the_source_of, coding_of as the_coding_of, asked_in as what_is_asked_in, asked as what_is_asked};
ghost use Rattle.ts_job.specs.Asked.{request};

use input_codings::Coding;
use std::alloc::{AllocError, Global};
use ts_outside::{FileName, NameFault};

/// What the words ask: a source, and its coding.
#[derive(Debug, Drop)]
pub(crate) struct Request {
    pub(crate) main: FileName,
    pub(crate) coding: Coding,
}

// Whether a word of two bytes or more begins with a dash.
fn is_option(word: &[u8]) -> bool
    ensures { result ≡ is_an_option word.now }
{
    2 <= word.len() && word[0] == b'-'
}

// A name, with the ending of a source where it has none, or nothing where it is none.
fn with_source_ending(alloc: Global, name: &[u8]) -> Result<Option<FileName>, AllocError>
    ensures { IfOk result (λ source. source ≡ named_source name.now) }
{
    match FileName::with_ending(alloc, name, b".tex") {
        Ok(source) => Ok(Some(source)),
        Err(NameFault::BadName) => Ok(None),
        Err(NameFault::NoMemory) => Err(AllocError),
    }
}

// The source of a name.
fn source_of(alloc: Global, name: &[u8]) -> Result<Option<FileName>, AllocError>
    ensures { IfOk result (λ source. source ≡ the_source_of name.now) }
{
    if is_option(name) {
        return Ok(None);
    }
    match FileName::new(alloc, name) {
        Ok(_) => with_source_ending(alloc, name),
        Err(NameFault::BadName) => Ok(None),
        Err(NameFault::NoMemory) => Err(AllocError),
    }
}

// The coding of a word.
fn coding_of(word: &str) -> Option<Coding>
    ensures { result ≡ the_coding_of word.now }
{
    match word {
        "euc" => Some(Coding::Euc),
        "jis" => Some(Coding::Jis),
        "sjis" => Some(Coding::Sjis),
        _ => None,
    }
}

// What a verb, a name and a coding ask.
fn asked_in(
    alloc: Global,
    coding: Option<Coding>,
    verb: &str,
    name: &str,
) -> Result<Option<Request>, AllocError>
    ensures { IfOk result (λ found. option_map request found ≡ what_is_asked_in coding verb.now name.now) }
{
    if verb != "typeset" {
        return Ok(None);
    }
    let Some(coding) = coding else {
        return Ok(None);
    };
    match source_of(alloc, name.as_bytes())? {
        Some(main) => Ok(Some(Request { main, coding })),
        None => Ok(None),
    }
}

/// What the words ask, or nothing where they are refused.
pub(crate) fn asked(alloc: Global, words: &[String]) -> Result<Option<Request>, AllocError>
    ensures { IfOk result (λ found. option_map request found ≡ what_is_asked (map string_bytes words.now)) }
{
    if words.len() == 3 {
        return asked_in(
            alloc,
            Some(Coding::Euc),
            words[1].as_str(),
            words[2].as_str(),
        );
    }
    if words.len() != 5 {
        return Ok(None);
    }
    if words[3].as_str() != "--kanji" {
        return Ok(None);
    }
    let coding = coding_of(words[4].as_str());
    asked_in(alloc, coding, words[1].as_str(), words[2].as_str())
}
