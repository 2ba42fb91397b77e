//! The pages of a file.

ghost use Rattle.std.specs.Prelude.{◌≡◌, ◌++◌, [], ◌∷◌, ℕ, ◌≤◌, length, drop, List, None, OnOk, IfOk, IfErr};
ghost use Rattle.ts_base.specs.Agreement.{Agrees, AgreesFault};
ghost use Rattle.dvi_commands.specs.declared.font.FontDef.{FontDef};
ghost use Rattle.dvi_structure.specs.Answers.{dvi_cause, faulted};
ghost use Rattle.dvi_commands.specs.Commands.{meant, command, set};
ghost use Rattle.dvi_commands.specs.Next.{set_first};
ghost use Rattle.dvi_structure.specs.Places.{placed};
ghost use Rattle.dvi_structure.specs.Structure.{placed_at};
ghost use Rattle.dvi_code.specs.Pages.{file_pages};
ghost use Rattle.dvi_code.specs.Straight.{start_reader, reader_of, read_on, pages_on, page_ended, ends_pages};

use crate::font::Widths;
use crate::page::{DviPage, DviPages};
use crate::pen::Pen;
use dvi_commands::{Command, next_set};
use dvi_structure::{DviFault, Fonts, checked, command_from};
use std::alloc::Global;
use std::mem;

/// The counts of the page that was begun last, and its pen.
#[derive(Drop)]
struct Reader {
    counts: [i32; 10],
    pen: Pen,
    alloc: Global,
}

// Returns whether no page follows a command.
fn ends_pages(command: &Command) -> bool
    ensures { (bytes : List ℕ) → result ≡ ends_pages (meant bytes command.now) }
{
    matches!(*command, Command::Post { .. } | Command::PostPost { .. })
}

fn add(pages: &mut DviPages, page: DviPage) -> Result<(), DviFault>
    ensures ok { OnOk result (pages.new ≡ pages.old ++ page ∷ []) }
    ensures err { IfErr result (λ e. e ≡ DviFault.NoMemory) }
{
    match pages.push(page) {
        Ok(()) => Ok(()),
        Err(_) => Err(DviFault::NoMemory),
    }
}

impl Reader {
    fn new(alloc: Global) -> Reader
        ensures { (fonts : List FontDef) → reader_of fonts result ≡ start_reader }
    {
        Reader {
            counts: [0; 10],
            pen: Pen::new(alloc),
            alloc,
        }
    }

    // The page that has ended.
    fn page(&mut self) -> DviPage
        ensures page { (fonts : List FontDef) → result ≡ record {
          counts = self.old.counts;
          marks
              = self.old.pen.marks;
        } }
        ensures clean { (fonts : List FontDef) → reader_of fonts self.new ≡ record {
          counts =
              self.old.counts;
          pen = start_reader.pen;
        } }
    {
        let pen = mem::replace(&mut self.pen, Pen::new(self.alloc));
        DviPage {
            counts: self.counts,
            marks: pen.into_marks(),
        }
    }

    // Sets a character at a place.
    #[tactic(auto, unfolding(crate::specs::Straight::read_on, crate::specs::Pages::drawn))]
    fn set<W: Widths>(
        &mut self,
        fonts: &Fonts,
        widths: &W,
        at: usize,
        code: u32,
    ) -> Result<(), DviFault>
        ensures { Agrees (λ u. reader_of fonts.now self.new) dvi_cause result (faulted (placed_at at
            (read_on (W.width_of widths.now) fonts.now (reader_of fonts.now self.old) (set
            code)))) }
    {
        match self.pen.set(fonts, widths, code) {
            Ok(()) => Ok(()),
            Err(refusal) => Err(refusal.at(at)),
        }
    }

    // Sets the characters that stand one after the other at a place, and gives the place after
    // them.
    fn set_all<W: Widths>(
        &mut self,
        fonts: &Fonts,
        widths: &W,
        bytes: &[u8],
        at: usize,
    ) -> Result<usize, DviFault>
        requires { at ≤ length bytes.now }
        ensures ok { IfOk result (λ after. pages_on (W.width_of widths.now) fonts.now (reader_of
            fonts.now self.new) (placed after 0 (drop after bytes.now)) ≡ pages_on (W.width_of
            widths.now) fonts.now (reader_of fonts.now self.old) (placed at 0 (drop at
            bytes.now))) }
        ensures on { IfOk result (λ after. at ≤ after) }
        ensures within { IfOk result (λ after. after ≤ length bytes.now) }
        ensures all { IfOk result (λ after. set_first (command (drop after bytes.now)) ≡ None) }
        ensures err { IfErr result (λ e. AgreesFault (dvi_cause e) e (faulted (pages_on (W.width_of
            widths.now) fonts.now (reader_of fonts.now self.old) (placed at 0 (drop at
            bytes.now))))) }
    {
        let mut place = at;
        'sets: while let Some((code, after)) = next_set(bytes, place) {
            self.set(fonts, widths, place, code)?;
            place = after;
        }
        Ok(place)
    }

    // Goes on after a command at a place, and adds the page that it ends.
    #[tactic(auto, unfolding(crate::specs::Straight::read_on))]
    fn read<W: Widths>(
        &mut self,
        fonts: &Fonts,
        widths: &W,
        at: usize,
        command: &Command,
        pages: &mut DviPages,
    ) -> Result<(), DviFault>
        ensures exact { (bytes : List ℕ) → Agrees (λ u. reader_of fonts.now self.new) dvi_cause
            result (faulted (placed_at at (read_on (W.width_of widths.now) fonts.now (reader_of
            fonts.now self.old) (meant bytes command.now)))) }
        ensures pages { OnOk result ((bytes : List ℕ) → pages.new ≡ pages.old ++ page_ended
            (reader_of fonts.now self.old) (meant bytes command.now)) }
    {
        match *command {
            Command::Bop { counts, .. } => {
                self.counts = counts;
                self.pen = Pen::new(self.alloc);
                Ok(())
            }
            Command::Eop => add(pages, self.page()),
            Command::FontDef { .. } | Command::Pre { .. } => Ok(()),
            _ => match self.pen.draw(fonts, widths, command) {
                Ok(()) => Ok(()),
                Err(refusal) => Err(refusal.at(at)),
            },
        }
    }
}

// The pages of a file whose structure is right, with all its definitions.
fn pages_with<W: Widths>(
    alloc: Global,
    bytes: &[u8],
    fonts: &Fonts,
    widths: &W,
) -> Result<DviPages, DviFault>
    ensures { Agrees (λ p. p) dvi_cause result (faulted (pages_on (W.width_of widths.now)
        fonts.now start_reader (placed 0 0 bytes.now))) }
{
    let mut pages = DviPages::new(alloc);
    let mut reader = Reader::new(alloc);
    let mut at = 0;
    'commands: loop {
        let place = reader.set_all(fonts, widths, bytes, at)?;
        let (command, after) = command_from(bytes, place)?;
        if ends_pages(&command) {
            return Ok(pages);
        }
        reader.read(fonts, widths, place, &command, &mut pages)?;
        at = after;
    }
}

/// Returns the pages of a DVI file: each with its counts and its marks in order (TeX: The Program,
/// sections 583 to 591; directions are pTeX's). `Bad` comes exactly where the file has a fault,
/// with the first: those of the structure before `Width` and `Range`.
#[tactic(auto, using(crate::proofs::Straight::pages_are, crate::proofs::Straight::no_pages))]
pub fn read_pages<W: Widths>(alloc: Global, bytes: &[u8], widths: &W) -> Result<DviPages, DviFault>
    ensures { Agrees (λ p. p) dvi_cause result (faulted (file_pages (W.width_of widths.now)
        bytes.now)) }
{
    match checked(alloc, bytes) {
        Ok(fonts) => pages_with(alloc, bytes, &fonts, widths),
        Err(fault) => Err(fault),
    }
}
