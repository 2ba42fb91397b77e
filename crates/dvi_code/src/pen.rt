//! What the commands of a page mark.

ghost use Rattle.std.specs.Prelude.{◌≡◌, ◌++◌, ◌+ℤ◌, ◌-ℤ◌, ◌&&◌, [], ◌∷◌, ℕ, List, Option, true, pos, Ok, Err, Some, None, option_copied, if◌then◌else◌, OnOk, IfOk, IfErr};
ghost use Rattle.ts_geometry.specs.declared.measure.Sp.{Sp};
ghost use Rattle.ts_geometry.specs.Directions.{sp, point, step};
ghost use Rattle.ts_base.specs.Agreement.{Agrees};
ghost use Rattle.dvi_commands.specs.declared.font.FontDef.{FontDef};
ghost use Rattle.dvi_structure.specs.Answers.{refused, refusal_cause};
ghost use Rattle.dvi_commands.specs.Commands.{meant, dir_of};
ghost use Rattle.dvi_structure.specs.Structure.{font_of};
ghost use Rattle.dvi_structure.specs.FontPlaces.{at_place};
ghost use Rattle.dvi_code.specs.Pages.{clean, is_in_range, stepped, moved, along, across, set_by, put_by, rule, back_to, turned_to, glyph, glyph_set, drawn};
ghost use Rattle.dvi_code.specs.Straight.{spot_of, saved_of, pen_of, near_point, coordinate, point_of, marks_of, pushed, moves_right, moves_down};

use crate::font::Widths;
use crate::mark::{Mark, Marks, What};
use dvi_commands::{Command, DviKind, FontDef};
use dvi_structure::{Fonts, Refusal};
use std::alloc::Global;
use ts_geometry::{Dir, Point, Sp};
use ts_outside::FileName;

/// What push saves: the point, the direction, and w, x, y and z.
#[derive(Clone, Copy, Debug)]
pub(crate) struct Spot {
    at: Point,
    dir: Dir,
    w: Sp,
    x: Sp,
    y: Sp,
    z: Sp,
}

/// Where the next mark is set, what was pushed, the place of the chosen font, and the marks so far.
#[derive(Drop)]
pub(crate) struct Pen {
    spot: Spot,
    saved: Vec<Spot>,
    chosen: Option<usize>,
    marks: Marks,
}

// A coordinate and so much, unless that passes 2^31 - 1.
fn plus(from: Sp, by: Sp) -> Option<Sp>
    ensures { result ≡ coordinate (from.0 +ℤ by.0) }
{
    let to = from.0.checked_add(by.0)?;
    if to < -2_147_483_647 || 2_147_483_647 < to {
        return None;
    }
    Some(Sp(to))
}

// A coordinate without so much, unless that passes 2^31 - 1.
fn minus(from: Sp, by: Sp) -> Option<Sp>
    ensures { result ≡ coordinate (from.0 -ℤ by.0) }
{
    let to = from.0.checked_sub(by.0)?;
    if to < -2_147_483_647 || 2_147_483_647 < to {
        return None;
    }
    Some(Sp(to))
}

fn point_of(x: Option<Sp>, y: Option<Sp>) -> Result<Point, Refusal>
    ensures { Agrees (λ p. p) refusal_cause result (refused (point_of x y)) }
{
    let Some(x) = x else {
        return Err(Refusal::Kind(DviKind::Range));
    };
    let Some(y) = y else {
        return Err(Refusal::Kind(DviKind::Range));
    };
    Ok(Point { x, y })
}

// The point, unless a coordinate passes 2^31 - 1.
fn near(at: Point) -> Result<Point, Refusal>
    ensures { Agrees (λ p. p) refusal_cause result (refused (near_point at)) }
{
    let most = 2_147_483_647;
    let Point { x, y } = at;
    if x.0 < -most || most < x.0 || y.0 < -most || most < y.0 {
        return Err(Refusal::Kind(DviKind::Range));
    }
    Ok(at)
}

// The point so far along a direction, and so far across it, unless a coordinate passes 2^31 - 1.
#[tactic(auto, using(crate::proofs::Pens::near_is))]
fn reached(at: Point, dir: Dir, along: Sp, across: Sp) -> Result<Point, Refusal>
    ensures { Agrees (λ p. p) refusal_cause result (refused (near_point (step at dir along
        across))) }
{
    match dir {
        Dir::Yoko => point_of(plus(at.x, along), plus(at.y, across)),
        Dir::Tate => point_of(minus(at.x, across), plus(at.y, along)),
        Dir::Dtou => point_of(plus(at.x, across), minus(at.y, along)),
    }
}

impl Pen {
    /// The pen at bop. Takes no memory.
    pub(crate) fn new(alloc: Global) -> Pen
        ensures { (fonts : List FontDef) → pen_of fonts result ≡ clean }
    {
        Pen {
            spot: Spot {
                at: Point { x: Sp(0), y: Sp(0) },
                dir: Dir::Yoko,
                w: Sp(0),
                x: Sp(0),
                y: Sp(0),
                z: Sp(0),
            },
            saved: Vec::new(alloc),
            chosen: None,
            marks: Marks::new(alloc),
        }
    }

    // From a spot so far along and across.
    fn step(&mut self, spot: Spot, along: Sp, across: Sp) -> Result<(), Refusal>
        ensures { (fonts : List FontDef) → Agrees (λ u. pen_of fonts self.new) refusal_cause
            result (refused (moved (pen_of fonts self.old) (stepped (spot_of spot) along.0
            across.0) [])) }
    {
        match reached(spot.at, spot.dir, along, across) {
            Ok(at) => {
                self.spot = Spot { at, ..spot };
                Ok(())
            }
            Err(refusal) => Err(refusal),
        }
    }

    // With a mark more, and then at a point.
    fn keep(&mut self, mark: Mark, at: Point) -> Result<(), Refusal>
        ensures ok { OnOk result ((fonts : List FontDef) → pen_of fonts self.new ≡ record (pen_of
            fonts self.old) {
              spot = record (spot_of self.old.spot) { at = at };
              marks =
                  self.old.marks ++ mark ∷ [];
            }) }
        ensures err { IfErr result (λ e. e ≡ Refusal.NoMemory) }
    {
        match self.marks.push(mark) {
            Ok(()) => {
                self.spot.at = at;
                Ok(())
            }
            Err(_) => Err(Refusal::NoMemory),
        }
    }

    // With a mark more, if there is one, and then at a point.
    fn keep_any(&mut self, mark: Option<Mark>, at: Point) -> Result<(), Refusal>
        ensures ok { OnOk result ((fonts : List FontDef) → pen_of fonts self.new ≡ record (pen_of
            fonts self.old) {
              spot = record (spot_of self.old.spot) { at = at };
              marks =
                  self.old.marks ++ marks_of mark;
            }) }
        ensures err { IfErr result (λ e. e ≡ Refusal.NoMemory) }
    {
        match mark {
            Some(mark) => self.keep(mark, at),
            None => {
                self.spot.at = at;
                Ok(())
            }
        }
    }

    // With a mark more, if there is one, and then so far along.
    fn mark(&mut self, mark: Option<Mark>, along: Sp) -> Result<(), Refusal>
        ensures { (fonts : List FontDef) → Agrees (λ u. pen_of fonts self.new) refusal_cause
            result (refused (moved (pen_of fonts self.old) (stepped (spot_of self.old.spot)
            along.0 (pos 0)) (marks_of mark))) }
    {
        match reached(self.spot.at, self.spot.dir, along, Sp(0)) {
            Ok(at) => self.keep_any(mark, at),
            Err(refusal) => Err(refusal),
        }
    }

    // With a mark more, if there is one.
    fn mark_here(&mut self, mark: Option<Mark>) -> Result<(), Refusal>
        ensures { (fonts : List FontDef) → Agrees (λ u. pen_of fonts self.new) refusal_cause
            result (refused (moved (pen_of fonts self.old) (spot_of self.old.spot) (marks_of
            mark))) }
    {
        match near(self.spot.at) {
            Ok(at) => self.keep_any(mark, at),
            Err(refusal) => Err(refusal),
        }
    }

    // With a character of a font more, and then so far along.
    #[inline(always)]
    fn set_glyph(&mut self, font: &FontDef, code: u32, width: Sp) -> Result<(), Refusal>
        ensures { (fonts : List FontDef) → Agrees (λ u. pen_of fonts self.new) refusal_cause
            result (refused (glyph_set (pen_of fonts self.old) font.now code (Some width))) }
    {
        match reached(self.spot.at, self.spot.dir, width, Sp(0)) {
            Ok(at) => {
                let mark = self.glyph(font, code);
                self.keep(mark, at)
            }
            Err(refusal) => Err(refusal),
        }
    }

    // The chosen font.
    fn font<'a>(&self, fonts: &'a Fonts) -> Option<&'a FontDef>
        ensures { option_copied result ≡ at_place fonts.now self.now.chosen }
    {
        fonts.get(self.chosen?)
    }

    // The mark of a character of a font.
    fn glyph(&self, font: &FontDef, code: u32) -> Mark
        ensures { result ≡ glyph font.now code (spot_of self.now.spot) }
    {
        Mark {
            what: What::Glyph(font.name.same_copy(), font.size, code),
            at: self.spot.at,
            dir: self.spot.dir,
        }
    }

    // The mark of a rule, unless its height or its width isn't above 0.
    fn rule(&self, height: i32, width: i32) -> Option<Mark>
        ensures { marks_of result ≡ rule height width (spot_of self.now.spot) }
    {
        if height <= 0 || width <= 0 {
            return None;
        }
        Some(Mark {
            what: What::Rule(Sp(height as i64), Sp(width as i64)),
            at: self.spot.at,
            dir: self.spot.dir,
        })
    }

    #[tactic(auto, using(crate::proofs::Pens::saved_push))]
    fn push(&mut self) -> Result<(), Refusal>
        ensures { (fonts : List FontDef) → Agrees (λ u. pen_of fonts self.new) refusal_cause
            result (refused (pushed (pen_of fonts self.old))) }
    {
        match self.saved.push(self.spot) {
            Ok(()) => Ok(()),
            Err(_) => Err(Refusal::NoMemory),
        }
    }

    #[tactic(auto, using(crate::proofs::Pens::back_none, crate::proofs::Pens::back_some))]
    fn pop(&mut self) -> Result<(), Refusal>
        ensures { (fonts : List FontDef) → Agrees (λ u. pen_of fonts self.new) refusal_cause
            result (refused (back_to (pen_of fonts self.old) (saved_of self.old.saved.items))) }
    {
        match self.saved.pop() {
            Some(spot) => {
                self.spot = spot;
                Ok(())
            }
            None => Err(Refusal::Kind(DviKind::Stack)),
        }
    }

    /// Sets a character of the chosen font.
    #[inline(always)]
    pub(crate) fn set<W: Widths>(
        &mut self,
        fonts: &Fonts,
        widths: &W,
        code: u32,
    ) -> Result<(), Refusal>
        ensures { Agrees (λ u. pen_of fonts.now self.new) refusal_cause result (refused (set_by
            (W.width_of widths.now) (pen_of fonts.now self.old) code (at_place fonts.now
            self.old.chosen))) }
    {
        let Some(font) = self.font(fonts) else {
            return Err(Refusal::Kind(DviKind::FontUndefined));
        };
        let Some(width) = widths.width(font, code) else {
            return Err(Refusal::Kind(DviKind::Width));
        };
        self.set_glyph(font, code, width)
    }

    fn put<W: Widths>(&mut self, fonts: &Fonts, widths: &W, code: u32) -> Result<(), Refusal>
        ensures { Agrees (λ u. pen_of fonts.now self.new) refusal_cause result (refused (put_by
            (W.width_of widths.now) (pen_of fonts.now self.old) code (at_place fonts.now
            self.old.chosen))) }
    {
        let Some(font) = self.font(fonts) else {
            return Err(Refusal::Kind(DviKind::FontUndefined));
        };
        if widths.width(font, code).is_none() {
            return Err(Refusal::Kind(DviKind::Width));
        }
        let mark = self.glyph(font, code);
        self.mark_here(Some(mark))
    }

    fn turn(&mut self, dir: u8) -> Result<(), Refusal>
        ensures { (fonts : List FontDef) → Agrees (λ u. pen_of fonts self.new) refusal_cause
            result (refused (turned_to (pen_of fonts self.old) (dir_of dir))) }
    {
        self.spot.dir = match dir {
            0 => Dir::Yoko,
            1 => Dir::Tate,
            3 => Dir::Dtou,
            _ => return Err(Refusal::Kind(DviKind::Direction)),
        };
        Ok(())
    }

    fn along(&mut self, spot: Spot, n: Sp) -> Result<(), Refusal>
        ensures { (fonts : List FontDef) → Agrees (λ u. pen_of fonts self.new) refusal_cause
            result (refused (along (pen_of fonts self.old) (spot_of spot) n.0)) }
    {
        self.step(spot, n, Sp(0))
    }

    fn across(&mut self, spot: Spot, n: Sp) -> Result<(), Refusal>
        ensures { (fonts : List FontDef) → Agrees (λ u. pen_of fonts self.new) refusal_cause
            result (refused (across (pen_of fonts self.old) (spot_of spot) n.0)) }
    {
        self.step(spot, Sp(0), n)
    }

    // After a movement to the right.
    #[tactic(auto, unfolding(crate::specs::Pages::drawn))]
    fn go_right(&mut self, command: &Command) -> Result<(), Refusal>
        requires { moves_right command.now ≡ true }
        ensures { (widths : FontDef → ℕ → Option Sp) (fonts : List FontDef) (bytes : List ℕ) →
            Agrees (λ u. pen_of fonts self.new) refusal_cause result (refused (drawn widths fonts
            (pen_of fonts self.old) (meant bytes command.now))) }
    {
        let spot = self.spot;
        match *command {
            Command::Right(n) => self.along(spot, Sp(n as i64)),
            Command::W0 => self.along(spot, spot.w),
            Command::W(n) => {
                let w = Sp(n as i64);
                self.along(Spot { w, ..spot }, w)
            }
            Command::X0 => self.along(spot, spot.x),
            Command::X(n) => {
                let x = Sp(n as i64);
                self.along(Spot { x, ..spot }, x)
            }
            _ => Err(Refusal::Kind(DviKind::Misplaced)),
        }
    }

    // After a movement down.
    #[tactic(auto, unfolding(crate::specs::Pages::drawn))]
    fn go_down(&mut self, command: &Command) -> Result<(), Refusal>
        requires { moves_down command.now ≡ true }
        ensures { (widths : FontDef → ℕ → Option Sp) (fonts : List FontDef) (bytes : List ℕ) →
            Agrees (λ u. pen_of fonts self.new) refusal_cause result (refused (drawn widths fonts
            (pen_of fonts self.old) (meant bytes command.now))) }
    {
        let spot = self.spot;
        match *command {
            Command::Down(n) => self.across(spot, Sp(n as i64)),
            Command::Y0 => self.across(spot, spot.y),
            Command::Y(n) => {
                let y = Sp(n as i64);
                self.across(Spot { y, ..spot }, y)
            }
            Command::Z0 => self.across(spot, spot.z),
            Command::Z(n) => {
                let z = Sp(n as i64);
                self.across(Spot { z, ..spot }, z)
            }
            _ => Err(Refusal::Kind(DviKind::Misplaced)),
        }
    }

    /// After a command of a page.
    #[tactic(auto, unfolding(crate::specs::Pages::drawn))]
    pub(crate) fn draw<W: Widths>(
        &mut self,
        fonts: &Fonts,
        widths: &W,
        command: &Command,
    ) -> Result<(), Refusal>
        ensures { (bytes : List ℕ) → Agrees (λ u. pen_of fonts.now self.new) refusal_cause result
            (refused (drawn (W.width_of widths.now) fonts.now (pen_of fonts.now self.old) (meant
            bytes command.now))) }
    {
        match *command {
            Command::Set(code) => self.set(fonts, widths, code),
            Command::Put(code) => self.put(fonts, widths, code),
            Command::SetRule(height, width) => {
                let rule = self.rule(height, width);
                self.mark(rule, Sp(width as i64))
            }
            Command::PutRule(height, width) => {
                let rule = self.rule(height, width);
                self.mark_here(rule)
            }
            Command::Nop | Command::Xxx(_) => Ok(()),
            Command::Push => self.push(),
            Command::Pop => self.pop(),
            Command::Right(_) | Command::W0 | Command::W(_) | Command::X0 | Command::X(_) => {
                self.go_right(command)
            }
            Command::Down(_) | Command::Y0 | Command::Y(_) | Command::Z0 | Command::Z(_) => {
                self.go_down(command)
            }
            Command::Font(number) => {
                self.chosen = fonts.place(number);
                Ok(())
            }
            Command::Direction(dir) => self.turn(dir),
            _ => Err(Refusal::Kind(DviKind::Misplaced)),
        }
    }

    /// The marks.
    pub(crate) fn into_marks(self) -> Marks
        ensures { result ≡ self.marks }
    {
        self.marks
    }
}
