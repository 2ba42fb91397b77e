//! The characters of a metric file, or the classes of one for Japanese.

ghost use Rattle.std.specs.Prelude.{◌≡◌, ◌*◌, ◌≤◌, ◌<◌, ◌^◌, length, IsTrue, slice_index_or, pos, IfOk};
ghost use Rattle.std.specs.List.{list_all};
ghost use Rattle.ts_geometry.specs.Numbers.{scale};
ghost use Rattle.ts_base.specs.Agreement.{Agrees};
ghost use Rattle.metric_words.specs.Checking.{cause};
ghost use Rattle.metric_words.specs.Lengths.{char_count};
ghost use Rattle.metric_words.specs.Characters as spec;
ghost use Rattle.metric_words.specs.Parted as parted;
ghost use Rattle.metric_words.specs.Sound.{AreSound, is_fix, has_fix_measures};
ghost use Rattle.ts_geometry.specs.Numbers.{IsWithin};

use crate::fix_words::{check_table, read_table};
use crate::lengths::Lengths;
use crate::words::{
    bad, first_byte, fourth_byte, push, second_byte, table_of, third_byte, word_at,
};
use std::alloc::Global;
use std::marker::Model;
use ts_geometry::{BadKind, Measures, MetricFault, Sp, scale};

/// The places of a character's measures in the tables of widths, heights and depths, and the place
/// where its program starts.
#[derive(Clone, Copy, Debug)]
pub(crate) struct CharInfo {
    pub width: u8,
    pub height: u8,
    pub depth: u8,
    pub program: Option<u8>,
}

/// What a metric file says of its characters, in their order. Contracts see the list of them, with
/// their measures as fix words.
#[derive(Debug, Drop)]
pub struct Characters {
    infos: Vec<CharInfo>,
    widths: Vec<i32>,
    heights: Vec<i32>,
    depths: Vec<i32>,
}

impl Model for Characters {
    ghost use Rattle.std.specs.Prelude.{List, map};
    ghost use Rattle.metric_words.specs.Characters.{Character, character_in};
    ghost use Rattle.metric_words.specs.Sound.{AreCharacters};

    ghost Value = { List Character };

    ghost view = { λ c.
        map (character_in c.widths.items c.heights.items c.depths.items) c.infos.items };

    ghost invariant = { λ c.
        AreCharacters c.infos.items c.widths.items c.heights.items c.depths.items };
}

#[tactic(auto, unfolding(crate::specs::Characters::char_info_of))]
fn char_info_of(word: u32) -> CharInfo
    ensures { result ≡ spec.char_info_of word }
{
    let program = if third_byte(word) % 4 == 1 {
        Some(fourth_byte(word))
    } else {
        None
    };
    CharInfo {
        width: first_byte(word),
        height: second_byte(word) / 16,
        depth: second_byte(word) % 16,
        program,
    }
}

#[tactic(auto, unfolding(crate::specs::Characters::info_kind))]
fn info_kind(lengths: &Lengths, word: u32) -> Option<BadKind>
    ensures { result ≡ spec.info_kind lengths.now word }
{
    let height_and_depth = u16::from(second_byte(word));
    let italic_and_tag = u16::from(third_byte(word));
    if u16::from(first_byte(word)) < lengths.nw
        && height_and_depth / 16 < lengths.nh
        && height_and_depth % 16 < lengths.nd
        && italic_and_tag / 4 < lengths.ni
        && (italic_and_tag % 4 != 1 || u16::from(fourth_byte(word)) < lengths.nl)
    {
        None
    } else {
        Some(BadKind::Index)
    }
}

fn read_infos(alloc: Global, bytes: &[u8], lengths: &Lengths) -> Result<Vec<CharInfo>, MetricFault>
    requires { AreSound lengths.now (length bytes.now) }
    ensures { Agrees (λ v. v.items) cause result (parted.infos_in bytes.now lengths.now) }
{
    let end = lengths.width_start();
    let mut infos = table_of(alloc, lengths.char_count())?;
    for i in lengths.char_info_start()..end {
        let word = word_at(bytes, i);
        if let Some(kind) = info_kind(lengths, word) {
            return Err(bad(kind, i));
        }
        push(&mut infos, char_info_of(word))?;
    }
    Ok(infos)
}

// The fix word at that place of a table, at a size in scaled points.
fn scaled_at(table: &[i32], place: u8, z: u32) -> i64
    requires inside { place < length table.now }
    requires fix { IsTrue (list_all is_fix table.now) }
    requires size { z < 2 ^ 23 }
    ensures value { result ≡ scale (slice_index_or table.now place (pos 0)) z }
    ensures within { IsWithin (16 * z) result }
{
    scale(table[usize::from(place)], z)
}

impl Characters {
    // Reads the parts one after the other.
    fn parts(alloc: Global, bytes: &[u8], lengths: &Lengths) -> Result<Characters, MetricFault>
        requires { AreSound lengths.now (length bytes.now) }
        ensures exact { Agrees (λ c. c) cause result
            (parted.characters_in_parts bytes.now lengths.now) }
        ensures count { IfOk result (λ c. length c ≡ char_count lengths.now) }
        ensures fix { IfOk result (λ c. IsTrue (list_all has_fix_measures c)) }
    {
        let infos = read_infos(alloc, bytes, lengths)?;
        let widths = read_table(alloc, bytes, lengths.width_start(), usize::from(lengths.nw))?;
        let heights = read_table(
            alloc,
            bytes,
            lengths.height_start(),
            usize::from(lengths.nh),
        )?;
        let depths = read_table(alloc, bytes, lengths.depth_start(), usize::from(lengths.nd))?;
        check_table(bytes, lengths.italic_start(), usize::from(lengths.ni))?;
        Ok(Characters {
            infos,
            widths,
            heights,
            depths,
        })
    }

    /// Reads the characters of a metric file. A place that isn't in its table is the fault Index, a
    /// measure that isn't within 16 of 0, or a first one that isn't 0, is FixWord; the first bad
    /// word counts. The italic corrections are checked alone.
    pub fn read(alloc: Global, bytes: &[u8], lengths: &Lengths) -> Result<Characters, MetricFault>
        requires { AreSound lengths.now (length bytes.now) }
        ensures exact { Agrees (λ c. c) cause result (spec.characters_in bytes.now lengths.now) }
        ensures count { IfOk result (λ c. length c ≡ char_count lengths.now) }
        ensures fix { IfOk result (λ c. IsTrue (list_all has_fix_measures c)) }
    {
        Characters::parts(alloc, bytes, lengths)
    }

    /// Returns how many there are.
    pub fn len(&self) -> usize
        ensures { result ≡ length self.now }
    {
        self.infos.len()
    }

    /// Returns the measures of the character at that place, from 0, at a size in scaled points,
    /// rounded down (TeX: The Program, sections 571 and 572).
    pub fn measures(&self, at: usize, z: u32) -> Measures
        requires inside { at < length self.now }
        requires size { z < 2 ^ 23 }
        ensures value { result ≡ spec.measures_at (spec.character_at self.now at) z }
        ensures width { IsWithin (16 * z) result.wd.0 }
        ensures height { IsWithin (16 * z) result.ht.0 }
        ensures depth { IsWithin (16 * z) result.dp.0 }
    {
        let info = self.infos[at];
        Measures {
            wd: Sp(scaled_at(&self.widths, info.width, z)),
            ht: Sp(scaled_at(&self.heights, info.height, z)),
            dp: Sp(scaled_at(&self.depths, info.depth, z)),
        }
    }

    /// Has the character at that place, from 0, another width than the one at the place 0 of the
    /// widths?
    pub fn is_there(&self, at: usize) -> bool
        requires { at < length self.now }
        ensures { result ≡ (spec.character_at self.now at).is_there }
    {
        self.infos[at].width != 0
    }

    /// Returns where the program of the character at that place, from 0, starts, if it has one.
    pub fn program(&self, at: usize) -> Option<u8>
        requires { at < length self.now }
        ensures { result ≡ (spec.character_at self.now at).program }
    {
        self.infos[at].program
    }
}
