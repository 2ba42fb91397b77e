//! A metric of a Japanese font, and what it says of its characters.

ghost use Rattle.std.specs.Prelude.{◌≡◌, ◌*◌, ◌≤◌, ◌<◌, ◌^◌, true, length};
ghost use Rattle.ts_base.specs.Agreement.{Agrees};
ghost use Rattle.metric_words.specs.Checking.{cause};
ghost use Rattle.metric_words.specs.Lengths.{begins_as_jfm};
ghost use Rattle.metric_words.specs.Sound.{AreSound};
ghost use Rattle.ts_geometry.specs.Numbers.{IsWithin};
ghost use Rattle.jfm_load.specs.Metrics.{metric_of, class_of, measures_of, between_of, param_of};
ghost use Rattle.jfm_load.specs.Parted.{parts_in};
ghost use Rattle.jfm_load.specs.Sound.{HasClasses, HasFixWords};

use crate::char_types::read_char_types;
use crate::lengths::read_lengths;
use crate::programs::{Space, read_commands, space_of};
use crate::tables::{CharType, class_in};
use jis_codes::{Cell, to_jis};
use metric_words::{
    Characters, Command, Lengths, find, halfword_at, param_in, read_design, read_fix_words,
    read_params, word_at,
};
use std::alloc::Global;
use std::marker::Model;
use ts_geometry::{Measures, MetricFault};

/// The metric of a Japanese font. Contracts see the metric that its file spells.
#[derive(Debug, Drop)]
pub struct Japanese {
    is_tate: bool,
    check_sum: u32,
    design: u32,
    char_types: Vec<CharType>,
    classes: Characters,
    commands: Vec<Command>,
    kerns: Vec<i32>,
    glues: Vec<i32>,
    params: Vec<i32>,
}

impl Model for Japanese {
    ghost use Rattle.jfm_load.specs.Metrics.{Metric};
    ghost use Rattle.jfm_load.specs.Sound.{AreClasses};

    ghost Value = { Metric };

    ghost view = { λ j. record {
      is_tate = j.is_tate;
      check_sum = j.check_sum;
      design = j.design;
      char_types = j.char_types.items;
      classes = j.classes;
      commands = j.commands.items;
      kerns = j.kerns.items;
      glues = j.glues.items;
      params = j.params.items;
    } };

    ghost invariant = { λ j.
        AreClasses j.design j.char_types.items j.classes j.kerns.items j.glues.items };
}

// Reads the parts one after the other.
#[tactic(auto, unfolding(crate::specs::Parted::parts_in))]
fn read_parts(alloc: Global, bytes: &[u8], lengths: &Lengths) -> Result<Japanese, MetricFault>
    requires sound { AreSound lengths.now (length bytes.now) }
    requires japanese { HasClasses lengths.now }
    ensures { Agrees (λ j. j) cause result (parts_in bytes.now lengths.now) }
{
    let design = read_design(bytes, lengths)?;
    let char_types = read_char_types(alloc, bytes, lengths)?;
    let classes = Characters::read(alloc, bytes, lengths)?;
    let commands = read_commands(alloc, bytes, lengths)?;
    let kerns = read_fix_words(alloc, bytes, lengths.kern_start(), usize::from(lengths.nk))?;
    let glues = read_fix_words(alloc, bytes, lengths.glue_start(), usize::from(lengths.ng))?;
    let params = read_params(alloc, bytes, lengths.param_start(), usize::from(lengths.np))?;
    Ok(Japanese {
        is_tate: halfword_at(bytes, 0) == 9,
        check_sum: word_at(bytes, lengths.header_start()),
        design,
        char_types,
        classes,
        commands,
        kerns,
        glues,
        params,
    })
}

/// Reads the metric that a JFM spells (the JFM specification), or its first fault: that of the
/// lengths or the first bad word. Bytes after the words that it counts are ignored. Refused,
/// nothing is kept. It needs fewer than two bytes, or a first halfword of 11 or 9.
#[tactic(auto, unfolding(crate::specs::Metrics::metric_of))]
pub fn read(alloc: Global, bytes: &[u8]) -> Result<Japanese, MetricFault>
    requires { 2 ≤ length bytes.now → begins_as_jfm bytes.now ≡ true }
    ensures { Agrees (λ j. j) cause result (metric_of bytes.now) }
{
    let lengths = read_lengths(bytes)?;
    read_parts(alloc, bytes, &lengths)
}

impl Japanese {
    /// Is it for tate lines?
    pub fn is_tate(&self) -> bool
        ensures { result ≡ self.now.is_tate }
    {
        self.is_tate
    }

    /// Returns the class of a character: 0 where the font doesn't list it.
    pub fn class(&self, cell: Cell) -> u8
        ensures value { result ≡ class_of self.now cell }
        ensures in_font { result < length self.now.classes }
    {
        class_in(&self.char_types, to_jis(cell) as u16)
    }

    /// Returns the measures of a class at a size in scaled points, rounded down.
    pub fn measures(&self, class: u8, z: u32) -> Measures
        requires in_font { class < length self.now.classes }
        requires size { z < 2 ^ 23 }
        ensures value { result ≡ measures_of self.now class z }
        ensures width { IsWithin (16 * z) result.wd.0 }
        ensures height { IsWithin (16 * z) result.ht.0 }
        ensures depth { IsWithin (16 * z) result.dp.0 }
    {
        self.classes.measures(usize::from(class), z)
    }

    /// Returns what the metric puts between a class and the next one: nothing where the first is no
    /// class of the font. Takes no memory.
    pub fn between(&self, left: u8, right: u8) -> Space
        ensures { result ≡ between_of self.now left right }
    {
        let left = usize::from(left);
        if left >= self.classes.len() {
            return Space::Nothing;
        }
        let Some(start) = self.classes.program(left) else {
            return Space::Nothing;
        };
        match find(&self.commands, usize::from(start), right) {
            Some(command) => space_of(&self.kerns, &self.glues, command),
            None => Space::Nothing,
        }
    }

    /// Shows that the measures, the kerns and the glue, as fix words, are within 16 of 0. Takes no
    /// memory.
    pub fn numbers_are_near(&self)
        ensures { HasFixWords self.now }
    {
        // what a loaded metric keeps is known where it is looked at
        let _design = self.design;
    }

    /// Returns a parameter, counted from 1, as a fix word: a part of the size, with 20 binary
    /// places. It is 0 where the font has none of that number.
    pub fn param(&self, n: u16) -> i32
        ensures { result ≡ param_of self.now n }
    {
        param_in(&self.params, n)
    }

    /// Returns the design size in scaled points.
    pub fn design(&self) -> u32
        ensures value { result ≡ self.now.design }
        ensures least { 65536 ≤ result }
        ensures most { result < 134217728 }
    {
        self.design
    }

    /// Returns the check sum, which a DVI file repeats.
    pub fn check_sum(&self) -> u32
        ensures { result ≡ self.now.check_sum }
    {
        self.check_sum
    }
}
