//! Where the next command of a file stands.

ghost use Rattle.std.specs.Prelude.{◌≡◌, ◌≤◌, ◌<◌, ◌+◌, ◌-◌, ◌^◌, if◌then◌else◌, ℕ, List, pos, IfOk, OnOk};
ghost use Rattle.std.specs.Ordering.{int_eq};
ghost use Rattle.dvi_commands.specs.Fields.{Gives};
ghost use Rattle.dvi_commands.specs.Commands.{meant};
ghost use Rattle.dvi_structure.specs.Structure.{inside, fresh, turned, with_glyph, popped, selected, font_of};
ghost use Rattle.dvi_commands.specs.Commands.{dir_of};
ghost use Rattle.dvi_structure.specs.Outline.{inside_of, stage_of, standing_of, pointer_of, depth_of, start_outline, page_counted, within, stood, stood_ahead, stood_between, stood_within, stood_after_post, may_define, has_font};

use crate::definitions::Fonts;
use dvi_commands::{Command, DviKind};

/// Within a page: how many positions are pushed, and whether a font is chosen.
#[derive(Clone, Copy, Debug)]
pub(crate) struct Inside {
    depth: usize,
    chosen: bool,
}

/// Before pre, between pages, within a page, after the post at a place, after post_post.
#[derive(Clone, Copy, Debug)]
pub(crate) enum Stage {
    Ahead,
    Between,
    Within(Inside),
    AfterPost(usize),
    Ended,
}

/// The place of the last bop, the number of whole pages, and where the next command stands.
#[derive(Clone, Copy, Debug)]
pub(crate) struct Standing {
    last: Option<usize>,
    pages: usize,
    stage: Stage,
}

// Returns whether a pointer is that of a place.
fn points_to(pointer: i32, place: Option<usize>) -> bool
    ensures { result ≡ int_eq pointer (pointer_of place) }
{
    match place {
        Some(place) => i128::from(pointer) == place as i128,
        None => pointer == -1,
    }
}

impl Inside {
    fn popped(self) -> Result<Inside, DviKind>
        ensures exact { Gives inside_of result (popped self.chosen self.depth) }
        ensures depth { IfOk result (λ i. i.depth ≤ self.depth) }
    {
        if self.depth == 0 {
            return Err(DviKind::Stack);
        }
        Ok(Inside {
            depth: self.depth - 1,
            chosen: self.chosen,
        })
    }

    #[tactic(auto, using(crate::proofs::Outlines::selected_by))]
    fn selected(self, fonts: &Fonts, number: i32) -> Result<Inside, DviKind>
        ensures exact { Gives inside_of result (selected (inside_of self) (font_of fonts.now
            number)) }
        ensures depth { IfOk result (λ i. i.depth ≤ self.depth) }
    {
        if !fonts.has(number) {
            return Err(DviKind::FontUndefined);
        }
        Ok(Inside {
            depth: self.depth,
            chosen: true,
        })
    }

    fn turned(self, dir: u8) -> Result<Inside, DviKind>
        ensures exact { Gives inside_of result (turned (inside_of self) (dir_of dir)) }
        ensures depth { IfOk result (λ i. i.depth ≤ self.depth) }
    {
        if dir == 0 || dir == 1 || dir == 3 {
            Ok(self)
        } else {
            Err(DviKind::Direction)
        }
    }

    fn with_glyph(self) -> Result<Inside, DviKind>
        ensures exact { Gives inside_of result (with_glyph (inside_of self)) }
        ensures depth { IfOk result (λ i. i.depth ≤ self.depth) }
    {
        if self.chosen {
            Ok(self)
        } else {
            Err(DviKind::FontUndefined)
        }
    }

    /// After a command of a page.
    #[tactic(auto, unfolding(crate::specs::Structure::inside))]
    fn next(self, fonts: &Fonts, command: &Command) -> Result<Inside, DviKind>
        requires { self.depth < 2 ^ 64 - 1 }
        ensures exact { (bytes : List ℕ) → Gives inside_of result (inside fonts.now (inside_of
            self) (meant bytes command.now)) }
        ensures depth { IfOk result (λ i. i.depth ≤ self.depth + 1) }
    {
        match *command {
            Command::Set(_) | Command::Put(_) => self.with_glyph(),
            Command::Push => Ok(Inside {
                depth: self.depth + 1,
                chosen: self.chosen,
            }),
            Command::Pop => self.popped(),
            Command::Font(number) => self.selected(fonts, number),
            Command::Direction(dir) => self.turned(dir),
            Command::SetRule(..) | Command::PutRule(..) | Command::Nop | Command::Xxx(_) => Ok(
                self,
            ),
            Command::Right(_) | Command::W0 | Command::W(_) | Command::X0 | Command::X(_) => Ok(
                self,
            ),
            Command::Down(_) | Command::Y0 | Command::Y(_) | Command::Z0 | Command::Z(_) => Ok(
                self,
            ),
            _ => Err(DviKind::Misplaced),
        }
    }
}

impl Standing {
    /// Where the first command stands.
    pub(crate) fn start() -> Standing
        ensures exact { standing_of result ≡ start_outline.standing }
        ensures pages { result.pages ≡ 0 }
        ensures depth { depth_of result.stage ≡ 0 }
    {
        Standing {
            last: None,
            pages: 0,
            stage: Stage::Ahead,
        }
    }

    #[tactic(auto, unfolding(crate::specs::Outline::stood_ahead))]
    fn after_start(&mut self, command: &Command) -> Result<(), DviKind>
        ensures exact { (bytes : List ℕ) → Gives (λ u. standing_of self.new) result (stood_ahead
            (standing_of self.old) (meant bytes command.now)) }
        ensures pages { OnOk result (self.new.pages ≤ self.old.pages) }
        ensures depth { OnOk result (depth_of self.new.stage ≡ 0) }
    {
        match *command {
            Command::Pre {
                id,
                num,
                den,
                mag,
                ..
            } if id == 2 && num == 25_400_000 && den == 473_628_672 && mag == 1000 => {
                self.stage = Stage::Between;
                Ok(())
            }
            _ => Err(DviKind::Preamble),
        }
    }

    fn begins(&mut self, at: usize, back: i32) -> Result<(), DviKind>
        ensures exact { Gives (λ u. standing_of self.new) result (if int_eq back (pointer_of
            self.old.last) then Ok (record {
              last = pos at;
              pages = self.old.pages;
              stage = within
                  fresh;
            }) else Err DviKind.BackPointer) }
        ensures pages { OnOk result (self.new.pages ≤ self.old.pages) }
        ensures depth { OnOk result (depth_of self.new.stage ≡ 0) }
    {
        if !points_to(back, self.last) {
            return Err(DviKind::BackPointer);
        }
        self.last = Some(at);
        self.stage = Stage::Within(Inside {
            depth: 0,
            chosen: false,
        });
        Ok(())
    }

    #[tactic(auto, unfolding(crate::specs::Outline::stood_between))]
    fn after_gap(&mut self, at: usize, command: &Command) -> Result<(), DviKind>
        requires { depth_of self.old.stage ≡ 0 }
        ensures exact { (bytes : List ℕ) → Gives (λ u. standing_of self.new) result (stood_between
            (standing_of self.old) at (meant bytes command.now)) }
        ensures pages { OnOk result (self.new.pages ≤ self.old.pages) }
        ensures depth { OnOk result (depth_of self.new.stage ≡ 0) }
    {
        match *command {
            Command::Nop => Ok(()),
            Command::Bop { back, .. } => self.begins(at, back),
            Command::Post { back, .. } if !points_to(back, self.last) => Err(DviKind::BackPointer),
            Command::Post { pages, .. } if usize::from(pages) != self.pages => {
                Err(DviKind::Postamble)
            }
            Command::Post { .. } => {
                self.stage = Stage::AfterPost(at);
                Ok(())
            }
            _ => Err(DviKind::Misplaced),
        }
    }

    fn page_ends(&mut self, depth: usize) -> Result<(), DviKind>
        requires { self.old.pages < 2 ^ 64 - 1 }
        ensures exact { Gives (λ u. standing_of self.new) result (page_counted (standing_of
            self.old) depth) }
        ensures pages { OnOk result (self.new.pages ≤ self.old.pages + 1) }
        ensures depth { OnOk result (depth_of self.new.stage ≡ 0) }
    {
        if depth != 0 {
            return Err(DviKind::Stack);
        }
        self.pages += 1;
        self.stage = Stage::Between;
        Ok(())
    }

    #[tactic(auto, unfolding(crate::specs::Outline::stood_within))]
    fn in_page(&mut self, fonts: &Fonts, inside: Inside, command: &Command) -> Result<(), DviKind>
        requires pages { self.old.pages < 2 ^ 64 - 1 }
        requires depth { inside.depth < 2 ^ 64 - 1 }
        ensures exact { (bytes : List ℕ) → Gives (λ u. standing_of self.new) result (stood_within
            fonts.now (standing_of self.old) (inside_of inside) (meant bytes command.now)) }
        ensures pages { OnOk result (self.new.pages ≤ self.old.pages + 1) }
        ensures depth { OnOk result (depth_of self.new.stage ≤ inside.depth + 1) }
    {
        if let Command::Eop = *command {
            return self.page_ends(inside.depth);
        }
        let next = inside.next(fonts, command)?;
        self.stage = Stage::Within(next);
        Ok(())
    }

    #[tactic(auto, unfolding(crate::specs::Outline::stood_after_post))]
    fn after_post(&mut self, post: usize, command: &Command) -> Result<(), DviKind>
        requires { depth_of self.old.stage ≡ 0 }
        ensures exact { (bytes : List ℕ) → Gives (λ u. standing_of self.new) result (stood_after_post
            (standing_of self.old) post (meant bytes command.now)) }
        ensures pages { OnOk result (self.new.pages ≤ self.old.pages) }
        ensures depth { OnOk result (depth_of self.new.stage ≡ 0) }
    {
        match *command {
            Command::Nop => Ok(()),
            Command::PostPost { post: pointer, .. } if !points_to(pointer, Some(post)) => {
                Err(DviKind::BackPointer)
            }
            Command::PostPost { id, .. } if id != 2 && id != 3 => Err(DviKind::Postamble),
            Command::PostPost { .. } => {
                self.stage = Stage::Ended;
                Ok(())
            }
            _ => Err(DviKind::Misplaced),
        }
    }

    /// After a command at a place that is no definition of a font.
    pub(crate) fn next(
        &mut self,
        fonts: &Fonts,
        at: usize,
        command: &Command,
    ) -> Result<(), DviKind>
        requires pages { self.old.pages < 2 ^ 64 - 1 }
        requires depth { depth_of self.old.stage < 2 ^ 64 - 1 }
        ensures exact { (bytes : List ℕ) → Gives (λ u. standing_of self.new) result (stood
            fonts.now (standing_of self.old) at (meant bytes command.now)) }
        ensures pages { OnOk result (self.new.pages ≤ self.old.pages + 1) }
        ensures depth { OnOk result (depth_of self.new.stage ≤ depth_of self.old.stage + 1) }
    {
        match self.stage {
            Stage::Ahead => self.after_start(command),
            Stage::Between => self.after_gap(at, command),
            Stage::Within(inside) => self.in_page(fonts, inside, command),
            Stage::AfterPost(post) => self.after_post(post, command),
            Stage::Ended => Err(DviKind::Misplaced),
        }
    }

    /// Returns whether it is within a page where a font is chosen.
    pub(crate) fn has_font(&self) -> bool
        ensures { result ≡ has_font (stage_of self.now.stage) }
    {
        match self.stage {
            Stage::Within(inside) => inside.chosen,
            _ => false,
        }
    }

    /// Returns no fault where a definition of a font may stand.
    pub(crate) fn may_define(&self) -> Result<(), DviKind>
        ensures { Gives (λ _. tt) result (may_define (stage_of self.now.stage)) }
    {
        match self.stage {
            Stage::Ahead => Err(DviKind::Preamble),
            Stage::Ended => Err(DviKind::Misplaced),
            _ => Ok(()),
        }
    }
}
