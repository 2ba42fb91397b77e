//! The fonts that a file has defined so far.

ghost use Rattle.std.specs.Prelude.{◌≡◌, ◌++◌, ◌&&◌, ◌<◌, if◌then◌else◌, is_some, [], ◌∷◌, length, true, false, nat_le, nat_lt, slice_get, option_copied, Some, None, ℤ, Ok, OnOk, OnErr, IfOk, IfErr};
ghost use Rattle.std.specs.Ordering.{int_eq};
ghost use Rattle.std.specs.HashMap.{get};
ghost use Rattle.ts_base.specs.Agreement.{Agrees};
ghost use Rattle.dvi_structure.specs.Answers.{refused, refusal_cause};
ghost use Rattle.dvi_structure.specs.Structure.{font_of, is_same_font, is_sound_font, defined};
ghost use Rattle.dvi_structure.specs.FontPlaces.{named_font, name_refused, compared, place_of, at_place};

use crate::refusal::Refusal;
use dvi_commands::{DviKind, FontDef};
use std::alloc::Global;
use std::collections::HashMap;
use std::marker::Model;
use ts_outside::{FileName, NameFault};

/// The definition of a font but for its name.
#[derive(Clone, Copy, Debug)]
pub(crate) struct Numbers {
    pub(crate) number: i32,
    pub(crate) check_sum: u32,
    pub(crate) size: u32,
    pub(crate) design: u32,
}

/// The definitions of fonts of a file, in the order of the first of each number.
#[derive(Drop)]
pub struct Fonts {
    defined: Vec<FontDef>,
    places: HashMap<i32, usize>,
    alloc: Global,
}

impl Model for Fonts {
    ghost use Rattle.std.specs.Prelude.{List};
    ghost use Rattle.dvi_commands.specs.declared.font.FontDef.{FontDef};
    ghost use Rattle.dvi_structure.specs.FontPlaces.{ArePlaces};

    ghost Value = { List FontDef };

    ghost view = { λ f. f.defined.items };

    ghost invariant = { λ f. ArePlaces f.defined.items f.places };
}

fn is_same(font: &FontDef, numbers: Numbers, name: &[u8]) -> bool
    ensures { result ≡ is_same_font (named_font numbers name.now) font.now }
{
    numbers.check_sum == font.check_sum
        && numbers.size == font.size
        && numbers.design == font.design
        && name == font.name.bytes()
}

// The name of a font of this size, unless it is none of a file or isn't with the ending of a metric
// file, or the size isn't 1 to 2^23 - 1.
#[tactic(auto, unfolding(crate::specs::Structure::is_sound_font))]
fn sound_name(alloc: Global, numbers: Numbers, name: &[u8]) -> Result<FileName, Refusal>
    ensures { Agrees (λ n. n) refusal_cause result (if is_sound_font (named_font numbers name.now)
        then Ok name.now else Err (Refusal.Kind DviKind.FontDef)) }
{
    if numbers.size < 1 || 8_388_608 <= numbers.size {
        return Err(Refusal::Kind(DviKind::FontDef));
    }
    if let Err(fault) = FileName::with_ending(alloc, name, b".tfm") {
        return Err(refusal_of(fault));
    }
    match FileName::new(alloc, name) {
        Ok(name) => Ok(name),
        Err(fault) => Err(refusal_of(fault)),
    }
}

fn refusal_of(fault: NameFault) -> Refusal
    ensures { result ≡ name_refused fault }
{
    match fault {
        NameFault::BadName => Refusal::Kind(DviKind::FontDef),
        NameFault::NoMemory => Refusal::NoMemory,
    }
}

// Appends a definition, and gives its place.
fn add(defined: &mut Vec<FontDef>, font: FontDef) -> Result<usize, Refusal>
    ensures place { IfOk result (λ k. k ≡ length defined.old.items) }
    ensures ok { OnOk result (defined.new.items ≡ defined.old.items ++ font ∷ []) }
    ensures err { IfErr result (λ e. e ≡ Refusal.NoMemory) }
    ensures refused { OnErr result (defined.new.items ≡ defined.old.items) }
{
    let place = defined.len();
    match defined.push(font) {
        Ok(()) => Ok(place),
        Err(_) => Err(Refusal::NoMemory),
    }
}

impl Fonts {
    /// None. Takes no memory.
    pub(crate) fn new(alloc: Global) -> Fonts
        ensures { result ≡ [] }
    {
        Fonts {
            defined: Vec::new(alloc),
            places: HashMap::new(alloc),
            alloc,
        }
    }

    /// Returns the place of the definition of a number among them, `None` where it has none.
    #[tactic(auto, using(crate::proofs::FontPlacing::found))]
    pub fn place(&self, number: i32) -> Option<usize>
        ensures place { result ≡ place_of self.now number }
        ensures font { at_place self.now result ≡ font_of self.now number }
    {
        self.places.get(&number).copied()
    }

    /// Returns whether a number has a definition.
    #[tactic(auto, using(crate::proofs::FontPlacing::has_place))]
    pub(crate) fn has(&self, number: i32) -> bool
        ensures { result ≡ is_some (font_of self.now number) }
    {
        self.place(number).is_some()
    }

    /// Returns the definition at a place, `None` past the last.
    pub fn get(&self, place: usize) -> Option<&FontDef>
        ensures { option_copied result ≡ slice_get self.now place }
    {
        self.defined.get(place)
    }

    /// The allocator of these.
    pub(crate) fn alloc(&self) -> Global {
        self.alloc
    }

    /// The definitions.
    pub(crate) fn into_vec(self) -> Vec<FontDef>
        ensures { result.items ≡ self }
    {
        self.defined
    }

    // Returns whether the definition that the number has is this one.
    #[tactic(auto, using(crate::proofs::FontPlacing::found, crate::proofs::FontPlacing::compared_at))]
    fn compared(&self, numbers: Numbers, name: &[u8]) -> Option<bool>
        ensures { result ≡ compared (named_font numbers name.now) (font_of self.now
            numbers.number) }
    {
        let place = self.place(numbers.number)?;
        let font = self.get(place)?;
        Some(is_same(font, numbers, name))
    }

    /// Adds one more, unless its number is there with the same definition. Refused, it leaves these
    /// as they were.
    #[tactic(auto, using(crate::proofs::FontPlacing::define_same, crate::proofs::FontPlacing::define_other, crate::proofs::FontPlacing::define_new, crate::proofs::FontPlacing::compared_none))]
    pub(crate) fn define(&mut self, numbers: Numbers, name: &[u8]) -> Result<(), Refusal>
        ensures exact { Agrees (λ u. self.new) refusal_cause result (refused (defined self.old
            (named_font numbers name.now))) }
        ensures refused { OnErr result (self.new ≡ self.old) }
    {
        match self.compared(numbers, name) {
            Some(true) => Ok(()),
            Some(false) => Err(Refusal::Kind(DviKind::FontDef)),
            None => {
                let name = sound_name(self.alloc, numbers, name)?;
                self.define_new(numbers, name)
            }
        }
    }

    // Adds a definition of a number that has none.
    fn define_new(&mut self, numbers: Numbers, name: FileName) -> Result<(), Refusal>
        requires { font_of self.old numbers.number ≡ None }
        ensures exact { Agrees (λ u. self.new) refusal_cause result (Ok (self.old ++ named_font
            numbers name ∷ [])) }
        ensures refused { OnErr result (self.new ≡ self.old) }
    {
        let font = FontDef {
            number: numbers.number,
            check_sum: numbers.check_sum,
            size: numbers.size,
            design: numbers.design,
            name,
        };
        let place = add(&mut self.defined, font)?;
        match self.places.insert(numbers.number, place) {
            Ok(_) => Ok(()),
            Err(_) => {
                self.defined.pop();
                Err(Refusal::NoMemory)
            }
        }
    }
}
