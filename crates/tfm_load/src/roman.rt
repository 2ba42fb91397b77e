//! A metric of a European font, and what it says of its characters.

ghost use Rattle.std.specs.Prelude.{◌≡◌, ◌*◌, ◌≤◌, ◌<◌, ◌^◌, false, true, Some, None, length, IfSome, ◌-◌};
ghost use Rattle.ts_base.specs.Agreement.{Agrees};
ghost use Rattle.metric_words.specs.Checking.{cause};
ghost use Rattle.metric_words.specs.Lengths.{begins_as_jfm};
ghost use Rattle.metric_words.specs.Sound.{AreSound};
ghost use Rattle.ts_geometry.specs.Numbers.{IsWithin};
ghost use Rattle.tfm_load.specs.Metrics.{metric_of, has_character, measures_of, program_of, pair_of, param_of};
ghost use Rattle.tfm_load.specs.Parted.{parts_in};
ghost use Rattle.tfm_load.specs.Sound.{HasFixWords};

use crate::lengths::read_lengths;
use crate::programs::{Step, find_from_first, read_commands, step_of};
use metric_words::{
    Characters, Command, Lengths, param_in, read_design, read_fix_words, read_params, word_at,
};
use std::alloc::Global;
use std::marker::Model;
use ts_geometry::{Measures, MetricFault};

/// The metric of a European font. Contracts see the metric that its file spells.
#[derive(Debug, Drop)]
pub struct Roman {
    check_sum: u32,
    design: u32,
    first: u16,
    characters: Characters,
    commands: Vec<Command>,
    kerns: Vec<i32>,
    params: Vec<i32>,
}

impl Model for Roman {
    ghost use Rattle.tfm_load.specs.Metrics.{Metric};
    ghost use Rattle.tfm_load.specs.Sound.{AreTables};

    ghost Value = { Metric };

    ghost view = { λ r. record {
      check_sum = r.check_sum;
      design = r.design;
      first = r.first;
      characters = r.characters;
      commands = r.commands.items;
      kerns = r.kerns.items;
      params = r.params.items;
    } };

    ghost invariant = { λ r. AreTables r.design r.characters r.kerns.items };
}

// Reads the parts one after the other.
#[tactic(auto, unfolding(crate::specs::Parted::parts_in))]
fn read_parts(alloc: Global, bytes: &[u8], lengths: &Lengths) -> Result<Roman, MetricFault>
    requires { AreSound lengths.now (length bytes.now) }
    ensures { Agrees (λ r. r) cause result (parts_in bytes.now lengths.now) }
{
    let design = read_design(bytes, lengths)?;
    let characters = Characters::read(alloc, bytes, lengths)?;
    let commands = read_commands(alloc, bytes, lengths)?;
    let kerns = read_fix_words(alloc, bytes, lengths.kern_start(), usize::from(lengths.nk))?;
    let params = read_params(alloc, bytes, lengths.param_start(), usize::from(lengths.np))?;
    Ok(Roman {
        check_sum: word_at(bytes, lengths.header_start()),
        design,
        first: lengths.bc,
        characters,
        commands,
        kerns,
        params,
    })
}

/// Reads the metric that a TFM spells (TeX: The Program, part 30), or its first fault: that of the
/// lengths or the first bad word. Bytes after the words that it counts are ignored. Refused,
/// nothing is kept. It needs fewer than two bytes, or a first halfword that is neither 11 nor 9.
#[tactic(auto, unfolding(crate::specs::Metrics::metric_of))]
pub fn read(alloc: Global, bytes: &[u8]) -> Result<Roman, MetricFault>
    requires { begins_as_jfm bytes.now ≡ false }
    ensures { Agrees (λ r. r) cause result (metric_of bytes.now) }
{
    let lengths = read_lengths(bytes)?;
    read_parts(alloc, bytes, &lengths)
}

impl Roman {
    // The place of a character of the font, if it has one of this code.
    fn place(&self, code: u8) -> Option<usize>
        ensures none { result ≡ None → has_character self.now code ≡ false }
        ensures some { IfSome result (λ at. (at ≡ code - self.now.first)
            × (at < length self.now.characters) × (has_character self.now code ≡ true)) }
    {
        let code = u16::from(code);
        if code < self.first {
            return None;
        }
        let at = usize::from(code - self.first);
        if at < self.characters.len() && self.characters.is_there(at) {
            Some(at)
        } else {
            None
        }
    }

    /// Returns the measures of a character at a size in scaled points, rounded down (TeX: The
    /// Program, sections 571 and 572); none where the font lacks the code. Takes no memory.
    pub fn measures(&self, code: u8, z: u32) -> Option<Measures>
        requires { z < 2 ^ 23 }
        ensures value { result ≡ measures_of self.now code z }
        ensures width { IfSome result (λ m. IsWithin (16 * z) m.wd.0) }
        ensures height { IfSome result (λ m. IsWithin (16 * z) m.ht.0) }
        ensures depth { IfSome result (λ m. IsWithin (16 * z) m.dp.0) }
    {
        match self.place(code) {
            Some(at) => Some(self.characters.measures(at, z)),
            None => None,
        }
    }

    // Where the program of a character starts, if it has one.
    fn program(&self, code: u8) -> Option<u8>
        ensures { result ≡ program_of self.now code }
    {
        match self.place(code) {
            Some(at) => self.characters.program(at),
            None => None,
        }
    }

    /// Returns what stands between two characters, or takes their place, by the first command that
    /// counts in the program of the left one (TeX: The Program, section 545). A character without a
    /// program is answered at once. Takes no memory.
    pub fn pair(&self, left: u8, right: u8) -> Step
        ensures { result ≡ pair_of self.now left right }
    {
        let Some(first) = self.program(left) else {
            return Step::Nothing;
        };
        match find_from_first(&self.commands, usize::from(first), right) {
            Some(command) => step_of(&self.kerns, command),
            None => Step::Nothing,
        }
    }

    /// Shows that the measures and the kerns, as fix words, are within 16 of 0. Takes no memory.
    pub fn numbers_are_near(&self)
        ensures { HasFixWords self.now }
    {
        // what a loaded metric keeps is known where it is looked at
        let _design = self.design;
    }

    /// Returns a parameter, counted from 1, as a fix word: a part of the size, with 20 binary
    /// places, but for the slant, the first. It is 0 where the font has none of that number.
    pub fn param(&self, n: u16) -> i32
        ensures { result ≡ param_of self.now n }
    {
        param_in(&self.params, n)
    }

    /// Returns the design size in scaled points.
    pub fn design(&self) -> u32
        ensures value { result ≡ self.now.design }
        ensures least { 65536 ≤ result }
        ensures most { result < 134217728 }
    {
        self.design
    }

    /// Returns the check sum, which a DVI file repeats.
    pub fn check_sum(&self) -> u32
        ensures { result ≡ self.now.check_sum }
    {
        self.check_sum
    }
}
