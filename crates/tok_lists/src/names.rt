//! Names and their numbers.

ghost use Rattle.std.specs.Prelude.{◌≡◌, ◌<◌, ◌≤◌, [], length, map, slice_get, fold, Some, IfOk, OnOk, OnErr};
ghost use Rattle.std.specs.List.{IsDistinct};
ghost use Rattle.ts_base.specs.Agreement.{Agrees};
ghost use Rattle.tok_lists.specs.Same.{is_same};
ghost use Rattle.tok_lists.specs.Names.{number_in, with_name, numbered, names_cause, AreFewAndDistinct, Grew, HaveOneNumberEach};
ghost use Rattle.tok_lists.specs.StartNames.{start_names, control_word};

use crate::fault::NamesFault;
use crate::spelling::Spelling;
use crate::start::START_WORDS;
use crate::token::NameNo;
use indexmap::IndexSet;
use jis_codes::{Char, Chars};
use std::alloc::Global;
use std::marker::Model;
use std::mem;
use ts_base::NoMemory;

/// How many names there may be, those of the start counted.
const MOST_NAMES: usize = 50_000;

/// The names that came, each spelling with a number of its own. Contracts see the list of the
/// spellings, in the order of their numbers.
#[derive(Drop)]
pub struct Names {
    spellings: IndexSet<Spelling>,
    // The spelling that is looked up: its room is used again, so that a known name takes no memory.
    sought: Spelling,
    alloc: Global,
}

impl Model for Names {
    ghost use Rattle.std.specs.Prelude.{List};
    ghost use Rattle.tok_lists.specs.declared.spelling.Spelling.{Spelling};
    ghost use Rattle.tok_lists.specs.Names.{AreFewAndDistinct};

    ghost Value = { List Spelling };

    ghost view = { λ n. n.spellings.keys };

    ghost invariant = { λ n. AreFewAndDistinct n.spellings.keys };
}

/// A control word of these characters.
fn control_word_of(alloc: Global, word: &str) -> Result<Spelling, NoMemory>
    ensures { IfOk result (λ s. s ≡ control_word word.now) }
{
    let mut chars = Chars::new(alloc);
    for byte in word.as_bytes() {
        chars.push(Char::One(*byte))?;
    }
    Ok(Spelling {
        active: false,
        chars,
    })
}

/// Puts a spelling among the others, unless it is there.
fn enter(spellings: &mut IndexSet<Spelling>, spelling: Spelling) -> Result<usize, NoMemory>
    ensures number { IfOk result (λ n. n ≡ number_in spellings.old.keys spelling) }
    ensures ok { OnOk result (spellings.new.keys ≡ with_name spellings.old.keys spelling) }
    ensures err { OnErr result (spellings.new.keys ≡ spellings.old.keys) }
    ensures within { IfOk result (λ n. n < length spellings.new.keys) }
    ensures distinct { IsDistinct is_same spellings.new.keys }
{
    let (number, _) = spellings.insert_full(spelling)?;
    Ok(number)
}

/// The control words of these texts, in their order, each once.
fn spellings_of(alloc: Global, words: &[&str]) -> Result<IndexSet<Spelling>, NoMemory>
    ensures keys { IfOk result (λ s. s.keys ≡ fold with_name [] (map (λ w. control_word w.now) words.now)) }
    ensures distinct { IfOk result (λ s. IsDistinct is_same s.keys) }
{
    let mut spellings = IndexSet::new(alloc);
    for word in words {
        enter(&mut spellings, control_word_of(alloc, *word)?)?;
    }
    Ok(spellings)
}

/// A spelling of no character. Takes no memory.
fn blank(alloc: Global) -> Spelling {
    Spelling {
        active: false,
        chars: Chars::new(alloc),
    }
}

/// The number of the spelling that is sought, which is taken where it is new.
#[tactic(auto, using(crate::proofs::Numbered::spelt, crate::proofs::Numbered::grown))]
fn number_of(
    alloc: Global,
    spellings: &mut IndexSet<Spelling>,
    sought: &mut Spelling,
) -> Result<NameNo, NamesFault>
    requires { AreFewAndDistinct spellings.old.keys }
    ensures number { Agrees (λ n. n.0) names_cause result (numbered spellings.old.keys sought.old) }
    ensures ok { OnOk result (spellings.new.keys ≡ with_name spellings.old.keys sought.old) }
    ensures err { OnErr result (spellings.new.keys ≡ spellings.old.keys) }
    ensures spelt { IfOk result (λ n. slice_get spellings.new.keys n.0 ≡ Some sought.old) }
    ensures grew { Grew spellings.old.keys spellings.new.keys }
    ensures few { AreFewAndDistinct spellings.new.keys }
{
    if let Some(number) = spellings.get_index_of(&*sought) {
        return Ok(NameNo(number as u32));
    }
    if MOST_NAMES <= spellings.len() {
        return Err(NamesFault::NamesFull);
    }
    let spelling = mem::replace(sought, blank(alloc));
    let number = enter(spellings, spelling)?;
    Ok(NameNo(number as u32))
}

impl Names {
    /// The names that have a meaning at the start.
    pub fn new(alloc: Global) -> Result<Names, NoMemory>
        ensures { IfOk result (λ n. n ≡ start_names) }
    {
        let spellings = spellings_of(alloc, &START_WORDS)?;
        Ok(Names {
            spellings,
            sought: blank(alloc),
            alloc,
        })
    }

    /// The number of a spelling: its own, or the next one where the spelling is new. `NamesFull`
    /// comes exactly where it is new and 50,000 names are there. Refused, it leaves the names as
    /// they were.
    pub fn intern(&mut self, active: bool, chars: &[Char]) -> Result<NameNo, NamesFault>
        ensures number { Agrees (λ n. n.0) names_cause result (numbered self.old (record { active = active; chars = chars.now })) }
        ensures ok { OnOk result (self.new ≡ with_name self.old (record { active = active; chars = chars.now })) }
        ensures err { OnErr result (self.new ≡ self.old) }
        ensures spelt { IfOk result (λ n. slice_get self.new n.0 ≡ Some (record { active = active; chars = chars.now })) }
        ensures grew { Grew self.old self.new }
        ensures distinct { HaveOneNumberEach self.new }
    {
        self.sought.active = active;
        self.sought.chars.refill(chars)?;
        number_of(self.alloc, &mut self.spellings, &mut self.sought)
    }

    /// Returns how many names there are, at most 50,000.
    pub fn len(&self) -> usize
        ensures value { result ≡ length self.now }
        ensures most { result ≤ 50000 }
    {
        self.spellings.len()
    }

    /// The spelling of a name that has a number here.
    pub fn spelling(&self, name: NameNo) -> &Spelling
        requires { name.0 < length self.now }
        ensures value { slice_get self.now name.0 ≡ Some result.now }
        ensures distinct { HaveOneNumberEach self.now }
    {
        &self.spellings.as_slice()[name.0 as usize]
    }
}

#[cfg(test)]
mod tests {
    use super::*;
    use jis_codes::Cell;
    use std::test::Fail;

    fn numbers(
        names: &mut Names,
        alloc: Global,
        active: bool,
        word: &str,
    ) -> Result<NameNo, NamesFault> {
        match control_word_of(alloc, word) {
            Ok(spelling) => names.intern(active, spelling.chars.as_slice()),
            Err(_) => Err(NamesFault::NoMemory),
        }
    }

    #[test]
    fn start_names_have_their_numbers(rt: HostRuntime) -> Result<(), Fail> {
        let mut names = Names::new(rt.alloc())?;
        for (word, number) in [
            ("expandafter", 0),
            ("def", 34),
            ("relax", 69),
            ("output", 137),
        ] {
            assert_eq!(rt;
                numbers(&mut names, rt.alloc(), false, word),
                Ok(NameNo(number))
            );
        }
        Ok(())
    }

    #[test]
    fn a_name_has_its_spelling(rt: HostRuntime) -> Result<(), Fail> {
        let mut names = Names::new(rt.alloc())?;
        let name = names.intern(true, &[Char::One(b'~')])?;
        let spelling = names.spelling(name);
        assert!(rt; spelling.active);
        assert_eq!(rt; spelling.chars.as_slice(), [Char::One(b'~')].as_slice());
        Ok(())
    }

    #[test]
    fn names_end_at_50000(rt: HostRuntime) -> Result<(), Fail> {
        let mut names = Names::new(rt.alloc())?;
        for number in 138..50_000u32 {
            let [_, _, high, low] = number.to_be_bytes();
            let spelling = [Char::One(1), Char::One(high), Char::One(low)];
            assert_eq!(rt; names.intern(false, &spelling), Ok(NameNo(number)));
        }
        assert_eq!(rt;
            names.intern(true, &[Char::One(1)]),
            Err(NamesFault::NamesFull)
        );
        assert_eq!(rt;
            numbers(&mut names, rt.alloc(), false, "output"),
            Ok(NameNo(137))
        );
        Ok(())
    }

    #[test]
    fn new_names_get_the_next_numbers(rt: HostRuntime) -> Result<(), Fail> {
        let mut names = Names::new(rt.alloc())?;
        let kanji = Char::Ja(Cell::new(20, 33).ok_or("no cell")?);
        let spellings = [
            (false, Char::One(b'a'), 138),
            (true, Char::One(b'a'), 139),
            (false, kanji, 140),
            (false, Char::One(b'a'), 138),
            (true, Char::One(b'a'), 139),
        ];
        for (active, character, number) in spellings {
            assert_eq!(rt; names.intern(active, &[character]), Ok(NameNo(number)));
        }
        Ok(())
    }
}
