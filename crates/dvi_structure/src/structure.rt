//! The structure of a file, by one pass.

ghost use Rattle.std.specs.Prelude.{◌≡◌, ◌+◌, ◌<◌, ◌-◌, ◌^◌, ℕ, List, ◌≤◌, ◌++◌, Ok, length, take, drop, IfOk, IfErr, OnOk, None, true};
ghost use Rattle.ts_base.specs.Agreement.{Agrees};
ghost use Rattle.dvi_structure.specs.Answers.{dvi_cause, faulted};
ghost use Rattle.dvi_commands.specs.Fields.{Gives, text_of};
ghost use Rattle.dvi_commands.specs.Commands.{meant, command};
ghost use Rattle.dvi_commands.specs.Next.{IsCommandAt, HasPartsIn, IsPartIn, set_first};
ghost use Rattle.dvi_structure.specs.Structure.{fill_checked, placed_at, file_fonts};
ghost use Rattle.dvi_structure.specs.Outline.{defined_at, outlined, stood, outline_fonts, stage_of, standing_of, outline_of, outline_walk, depth_of, has_font};
ghost use Rattle.dvi_structure.specs.Places.{is_last, placed};
ghost use Rattle.dvi_commands.specs.declared.font.FontDef.{FontDef};
ghost use Rattle.dvi_structure.specs.FontPlaces.{named_font};

use crate::definitions::{Fonts, Numbers};
use crate::fault::DviFault;
use crate::reading::command_from;
use crate::refusal::Refusal;
use crate::standing::Standing;
use dvi_commands::{Command, DviBad, DviKind, FontDef, Part, next_set};
use std::alloc::Global;

// The text of two parts, one after the other.
fn joined(alloc: Global, bytes: &[u8], first: Part, last: Part) -> Result<Vec<u8>, Refusal>
    requires first { IsPartIn (length bytes.now) first }
    requires last { IsPartIn (length bytes.now) last }
    ensures ok { IfOk result (λ v. v.items ≡ text_of bytes.now first ++ text_of bytes.now last) }
    ensures err { IfErr result (λ e. e ≡ Refusal.NoMemory) }
{
    let Ok(mut text) = Vec::from_slice(alloc, &bytes[first.start..first.end]) else {
        return Err(Refusal::NoMemory);
    };
    match text.extend_from_slice(&bytes[last.start..last.end]) {
        Ok(()) => Ok(text),
        Err(_) => Err(Refusal::NoMemory),
    }
}

// The fill from a place to the end of the file: each byte is 223, there are at least four, and the
// file's length is a multiple of four.
#[tactic(auto, unfolding(crate::specs::Structure::filled))]
fn fill(bytes: &[u8], at: usize) -> Result<(), DviBad>
    requires { at ≤ length bytes.now }
    ensures { Gives (λ u. u) result (fill_checked at (drop at bytes.now)) }
{
    for i in at..bytes.len() {
        if bytes[i] != 223 {
            return Err(DviBad {
                at: i,
                kind: DviKind::Postamble,
            });
        }
    }
    if bytes.len() - at < 4 || bytes.len() % 4 != 0 {
        return Err(DviBad {
            at: bytes.len(),
            kind: DviKind::Postamble,
        });
    }
    Ok(())
}

fn fill_from(bytes: &[u8], at: usize) -> Result<(), DviFault>
    requires { at ≤ length bytes.now }
    ensures { Agrees (λ u. u) dvi_cause result (faulted (fill_checked at (drop at bytes.now))) }
{
    match fill(bytes, at) {
        Ok(()) => Ok(()),
        Err(bad) => Err(DviFault::Bad(bad)),
    }
}

// A definition of a font as it is spelt in a file.
#[derive(Clone, Copy)]
struct Spelt {
    numbers: Numbers,
    area: Part,
    name: Part,
}

// Adds a font that is defined at a place.
fn define(
    fonts: &mut Fonts,
    standing: &Standing,
    bytes: &[u8],
    at: usize,
    spelt: Spelt,
) -> Result<(), DviFault>
    requires area { IsPartIn (length bytes.now) spelt.area }
    requires name { IsPartIn (length bytes.now) spelt.name }
    ensures { Agrees (λ u. fonts.new) dvi_cause result (faulted (placed_at at (defined_at (stage_of
        standing.now.stage) fonts.old (named_font spelt.numbers (text_of bytes.now spelt.area ++
        text_of bytes.now spelt.name))))) }
{
    if let Err(kind) = standing.may_define() {
        return Err(DviFault::Bad(DviBad { at, kind }));
    }
    let text = match joined(fonts.alloc(), bytes, spelt.area, spelt.name) {
        Ok(text) => text,
        Err(refusal) => return Err(refusal.at(at)),
    };
    match fonts.define(spelt.numbers, &text) {
        Ok(()) => Ok(()),
        Err(refusal) => Err(refusal.at(at)),
    }
}

// Goes to where the command after one at a place stands.
fn stand(
    standing: &mut Standing,
    fonts: &Fonts,
    at: usize,
    command: &Command,
) -> Result<(), DviFault>
    requires pages { standing.old.pages < 2 ^ 64 - 1 }
    requires depth { depth_of standing.old.stage < 2 ^ 64 - 1 }
    ensures exact { (bytes : List ℕ) → Agrees (λ u. standing_of standing.new) dvi_cause result
        (faulted (placed_at at (stood fonts.now (standing_of standing.old) at (meant bytes
        command.now)))) }
    ensures pages { OnOk result (standing.new.pages ≤ standing.old.pages + 1) }
    ensures depth { OnOk result (depth_of standing.new.stage ≤ depth_of standing.old.stage + 1) }
{
    match standing.next(fonts, at, command) {
        Ok(()) => Ok(()),
        Err(kind) => Err(DviFault::Bad(DviBad { at, kind })),
    }
}

// Returns whether a command is the last of a file.
fn is_last(command: &Command) -> bool
    ensures { (bytes : List ℕ) → result ≡ is_last (meant bytes command.now) }
{
    matches!(*command, Command::PostPost { .. })
}

// Adds the font that a command at a place defines, or goes to where the next command stands.
#[tactic(auto, unfolding(crate::specs::Outline::outlined), using(crate::proofs::Walking::placed_fault, crate::proofs::Walking::placed_answer))]
fn obey(
    fonts: &mut Fonts,
    standing: &mut Standing,
    bytes: &[u8],
    at: usize,
    command: &Command,
) -> Result<(), DviFault>
    requires pages { standing.old.pages < 2 ^ 64 - 1 }
    requires depth { depth_of standing.old.stage < 2 ^ 64 - 1 }
    requires parts { HasPartsIn (length bytes.now) command.now }
    ensures exact { Agrees (λ u. outline_of fonts.new standing.new) dvi_cause result (faulted
        (placed_at at (outlined (outline_of fonts.old standing.old) at (meant bytes.now
        command.now)))) }
    ensures pages { OnOk result (standing.new.pages ≤ standing.old.pages + 1) }
    ensures depth { OnOk result (depth_of standing.new.stage ≤ depth_of standing.old.stage + 1) }
{
    if let Command::FontDef {
        number,
        check_sum,
        size,
        design,
        area,
        name,
    } = *command
    {
        let numbers = Numbers {
            number,
            check_sum,
            size,
            design,
        };
        let spelt = Spelt {
            numbers,
            area,
            name,
        };
        return match define(fonts, standing, bytes, at, spelt) {
            Ok(()) => Ok(()),
            Err(fault) => Err(fault),
        };
    }
    stand(standing, fonts, at, command)
}

// Returns the place after the characters that stand one after the other at a place. Where a font is
// chosen, they leave what stands as it is; where none is, it is the place itself.
#[tactic(auto, using(crate::proofs::Walking::set_walks))]
fn after_sets(standing: &Standing, bytes: &[u8], at: usize) -> usize
    requires { at ≤ length bytes.now }
    ensures same { (fonts : List FontDef) → outline_walk (outline_of fonts standing.now) (placed
        result 0 (drop result bytes.now)) ≡ outline_walk (outline_of fonts standing.now) (placed at
        0 (drop at bytes.now)) }
    ensures on { at ≤ result }
    ensures within { result ≤ length bytes.now }
    ensures all { has_font (stage_of standing.now.stage) ≡ true → set_first (command (drop result
        bytes.now)) ≡ None }
{
    if !standing.has_font() {
        return at;
    }
    let mut place = at;
    'sets: while let Some((_, after)) = next_set(bytes, place) {
        place = after;
    }
    place
}

// The definitions of fonts in a file whose structure is right.
fn walked(alloc: Global, bytes: &[u8]) -> Result<Fonts, DviFault>
    ensures { Agrees (λ f. f) dvi_cause result (faulted (outline_fonts bytes.now)) }
{
    let mut fonts = Fonts::new(alloc);
    let mut standing = Standing::start();
    let mut at = 0;
    'commands: loop {
        let place = after_sets(&standing, bytes, at);
        let (command, after) = command_from(bytes, place)?;
        obey(&mut fonts, &mut standing, bytes, place, &command)?;
        if is_last(&command) {
            fill_from(bytes, after)?;
            return Ok(fonts);
        }
        at = after;
    }
}

/// Returns the definitions of fonts in a DVI file for those who read on, as `fonts` gives them.
#[tactic(auto, using(crate::proofs::Outlines::fonts_are))]
pub fn checked(alloc: Global, bytes: &[u8]) -> Result<Fonts, DviFault>
    ensures { Agrees (λ f. f) dvi_cause result (faulted (file_fonts bytes.now)) }
{
    match walked(alloc, bytes) {
        Ok(fonts) => Ok(fonts),
        Err(fault) => Err(fault),
    }
}

/// Returns the definitions of fonts in a DVI file, in the order of the first of each number (TeX:
/// The Program, sections 583 to 591). `Bad` comes exactly where the file's structure has a fault,
/// with the first: all kinds but `Width` and `Range`.
pub fn fonts(alloc: Global, bytes: &[u8]) -> Result<Vec<FontDef>, DviFault>
    ensures { Agrees (λ v. v.items) dvi_cause result (faulted (file_fonts bytes.now)) }
{
    match checked(alloc, bytes) {
        Ok(fonts) => Ok(fonts.into_vec()),
        Err(fault) => Err(fault),
    }
}
