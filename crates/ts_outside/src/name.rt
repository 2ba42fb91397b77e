//! Names of files.

ghost use Rattle.std.specs.Prelude.{◌≡◌, ◌↔◌, ◌++◌, ◌||◌, if◌then◌else◌, IsTrue, false, nat_eq, IfOk};
ghost use Rattle.std.specs.Cmp.{nat_eq_equiv, partial_equiv_from_equiv};
ghost use Rattle.std.specs.Cmp.Lexicographic.{pointwise, lists_equiv};
ghost use Rattle.std.specs.List.{list_all, list_any};
ghost use Rattle.ts_outside.specs.Endings.{is_dot, is_slash, last_part, with_ending};
ghost use Rattle.ts_base.specs.Agreement.{Agrees};
ghost use Rattle.ts_outside.specs.Naming.{named, name_cause};
ghost use Rattle.ts_outside.specs.declared.name.NameFault.TheVariants as faults;
ghost use Rattle.ts_outside.specs.Names.{is_visible as is_visible_byte, is_file_name};

use shared::Shared;
use std::alloc::{AllocError, Global};
use std::marker::Model;
use thiserror::Error;
use ts_base::NoMemory;

/// The name of a file: 1 to 255 bytes, each a visible character of ASCII (33 to 126), which copies
/// share. Contracts see its bytes.
#[derive(Debug, Drop)]
pub struct FileName {
    bytes: Shared<Vec<u8>>,
}

impl Model for FileName {
    ghost use Rattle.std.specs.Prelude.{ℕ, List, IsTrue};
    ghost use Rattle.ts_outside.specs.Names.{is_file_name};

    ghost Value = { List ℕ };

    ghost view = { λ n. n.bytes.items };

    ghost invariant = { λ n. IsTrue (is_file_name n.bytes.items) };
}

impl PartialEq for FileName {
    ghost eq = { pointwise nat_eq };

    ghost laws = { partial_equiv_from_equiv (lists_equiv nat_eq_equiv) };

    fn eq(&self, other: &FileName) -> bool {
        self.bytes() == other.bytes()
    }
}

impl Eq for FileName {
    ghost laws = { lists_equiv nat_eq_equiv };
}

/// Why a text is no name of a file.
#[derive(Clone, Copy, Debug, Drop, PartialEq, Eq, Error)]
pub enum NameFault {
    /// It has no byte, more than 255, or one that isn't 33 to 126.
    #[error("no name of a file")]
    BadName,
    #[error("out of memory")]
    NoMemory,
}

impl From<AllocError> for NameFault {
    ghost from_gives = { λ _ fault. fault ≡ faults.NoMemory };

    fn from(_error: AllocError) -> NameFault {
        NameFault::NoMemory
    }
}

impl From<NoMemory> for NameFault {
    ghost from_gives = { λ _ fault. fault ≡ faults.NoMemory };

    fn from(_error: NoMemory) -> NameFault {
        NameFault::NoMemory
    }
}

fn is_visible(byte: u8) -> bool
    ensures { result ≡ is_visible_byte byte }
{
    33 <= byte && byte <= 126
}

fn are_visible(text: &[u8]) -> bool
    ensures { result ≡ list_all is_visible_byte text.now }
{
    text.iter().all(|b| is_visible(*b))
}

fn is_valid(text: &[u8]) -> bool
    ensures { result ≡ is_file_name text.now }
{
    !text.is_empty() && text.len() <= 255 && are_visible(text)
}

// Whether a part has a dot, with one byte more.
fn ending_after(ending: bool, byte: u8) -> bool
    ensures { result ≡ (if is_slash byte then false else (is_dot byte || ending)) }
{
    match byte {
        b'/' => false,
        b'.' => true,
        _ => ending,
    }
}

// Whether the part after the last slash has a dot.
fn has_ending(text: &[u8]) -> bool
    ensures { result ≡ list_any is_dot (last_part text.now) }
{
    let mut ending = false;
    for b in text {
        ending = ending_after(ending, *b);
    }
    ending
}

// The two texts, one after the other.
fn joined(alloc: Global, text: &[u8], ending: &[u8]) -> Result<Vec<u8>, AllocError>
    ensures { IfOk result (λ v. v.items ≡ text.now ++ ending.now) }
{
    let mut whole = Vec::from_slice(alloc, text)?;
    whole.extend_from_slice(ending)?;
    Ok(whole)
}

impl FileName {
    /// The name of these bytes. `BadName` comes exactly where their number isn't 1 to 255 or one
    /// of them isn't 33 to 126.
    pub fn new(alloc: Global, text: &[u8]) -> Result<FileName, NameFault>
        ensures name { IfOk result (λ n. n ≡ text.now) }
        ensures bad { (result ≡ Err NameFault.BadName) ↔ (is_file_name text.now ≡ false) }
    {
        if !is_valid(text) {
            return Err(NameFault::BadName);
        }
        let bytes = Shared::new(alloc, Vec::from_slice(alloc, text)?)?;
        Ok(FileName { bytes })
    }

    /// The name of these bytes, and then of this ending where no dot stands in the part after the
    /// last slash. `BadName` comes exactly where that is no name of a file.
    pub fn with_ending(alloc: Global, text: &[u8], ending: &[u8]) -> Result<FileName, NameFault>
        ensures { Agrees (λ n. n) name_cause result (named (with_ending ending.now text.now)) }
    {
        if has_ending(text) {
            return FileName::new(alloc, text);
        }
        let whole = joined(alloc, text, ending)?;
        FileName::new(alloc, &whole)
    }

    /// Returns the same name once more. It takes no memory and is never refused.
    pub fn same_copy(&self) -> FileName
        ensures { result ≡ self.now }
    {
        FileName {
            bytes: self.bytes.same_copy(),
        }
    }

    /// Returns its bytes.
    pub fn bytes(&self) -> &[u8]
        ensures value { result.now ≡ self.now }
        ensures name { IsTrue (is_file_name result.now) }
    {
        self.bytes.get().as_slice()
    }
}
