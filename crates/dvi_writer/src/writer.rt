//! Pages as they come, and the end.

ghost use Rattle.std.specs.Prelude.{◌≡◌, ◌+◌, ◌<◌, ◌≤◌, ◌^◌, ◌++◌, ◌∷◌, [], length, map, take, drop, true, List, ℕ, Ok, OnOk, OnErr, IfOk, IfErr};
ghost use Rattle.std.specs.List.{All};
ghost use Rattle.ts_base.specs.Agreement.{Agrees};
ghost use Rattle.dvi_structure.specs.Structure.{is_sound_font};
ghost use Rattle.dvi_code.specs.Pages.{Widths, file_pages, whole_pages};
ghost use Rattle.box_tree.specs.Sound.{IsSound};
ghost use Rattle.box_marks.specs.Glyphs.{FontsAreBelow};
ghost use Rattle.dvi_writer.specs.Keeping.{IsBounded};

use crate::ends::put_end;
use crate::fault::WriteFault;
use crate::joining::{files_end, pages_break_off, pages_join};
use crate::kept::Kept;
use crate::page::page_of;
use crate::table::{FontTable, known, same_fonts};
use box_marks::laws::few_are_placed;
use box_tree::SharedBox;
use std::alloc::Global;
use ts_base::NoMemory;

/// A DVI file that is written page by page. It keeps no box.
#[derive(Debug, Drop)]
pub struct Writer {
    alloc: Global,
    kept: Kept,
    fonts: FontTable,
    ghost bounds: { IsBounded kept (length fonts) },
}

impl Writer {
    ghost use Rattle.dvi_writer.specs.Reading.{Asked, asked_for, HasWidths, page_asked};
    ghost use Rattle.dvi_writer.specs.Standing.{last_bytes, Stands, page_count, IsNew, Begins, Counted, permitted, write_cause};

    /// Returns the writer of a file that has no page yet. Takes no memory.
    pub fn new(alloc: Global) -> Writer
        ensures empty { IsNew result }
        ensures stands { Stands result [] [] }
    {
        let kept = Kept::new();
        Writer {
            alloc,
            kept,
            fonts: FontTable::new(alloc),
        }
    }

    /// Returns the bytes of the next page: that of a box, which is set with its top left corner in
    /// the corner of the page, and of ten counts. The fonts of the box are those of a table, which
    /// begins with the table of the page before.
    ///
    /// PagesFull comes exactly at the 65,536th page, else JobTooLarge exactly where the weights of
    /// the boxes would pass 20,000,000, else PlaceRange exactly where a coordinate of a glyph or of
    /// a rule passes 2^29 - 1 in absolute value, or the height or the width of a rule passes
    /// 2^30 - 1. Refused, the writer stays as it was.
    pub fn page(
        &mut self,
        node: &SharedBox,
        counts: &[i32; 10],
        fonts: &FontTable,
    ) -> Result<Vec<u8>, WriteFault>
        requires sound { IsSound node.now }
        requires fonts_there { FontsAreBelow (length fonts.now) node.now }
        requires fonts_sound { All (λ f. is_sound_font f ≡ true) fonts.now }
        requires begins { Begins fonts.now self.old }
        ensures exact { Agrees (λ v. tt) write_cause result (permitted self.old node.now) }
        ensures counted { OnOk result (Counted self.old node.now fonts.now self.new) }
        ensures refused { OnErr result (self.new ≡ self.old) }
        ensures stands { IfOk result (λ v. (pages : List Asked) (bytes : List ℕ)
            → Stands self.old pages bytes
            → Stands self.new (pages ++ asked_for counts.now fonts.now node.now ∷ [])
            (bytes ++ v.items)) }
        ensures partly { IfOk result (λ v. (pages : List Asked) (bytes : List ℕ) (n : ℕ)
            (widths : Widths) → Stands self.old pages bytes → n < length v.items
            → All (HasWidths widths) pages
            → whole_pages widths (bytes ++ take n v.items) ≡ Ok (map page_asked pages)) }
    {
        pages_join();
        pages_break_off();
        few_are_placed();
        match self.kept.limit(node) {
            Some(fault) => return Err(fault),
            None => {}
        }
        let table = known(fonts.as_slice());
        let copies = same_fonts(self.alloc, table)?;
        let page = page_of(
            self.alloc,
            &self.kept,
            self.fonts.len(),
            node,
            counts,
            table,
        )?;
        let kept = self.kept.after(node, page.out.len(), page.turned);
        *self = Writer {
            alloc: self.alloc,
            kept,
            fonts: copies,
        };
        Ok(page.out)
    }

    /// Returns how many pages came. Takes no memory.
    pub fn pages(&self) -> u16
        ensures { result ≡ page_count self.now }
    {
        self.kept.pages
    }

    /// Returns the bytes after the last page: the postamble, with the fonts again, and the fill; or
    /// nothing where no page came. The postamble has the greatest height and the greatest width of
    /// what the boxes cover, at least 0, the number of pages, and 3 as its identification where a
    /// direction was written, else 2.
    pub fn finish(self) -> Result<Vec<u8>, NoMemory>
        ensures bytes { IfOk result (λ v. v.items ≡ last_bytes self) }
        ensures pages { IfOk result (λ v. (pages : List Asked) (bytes : List ℕ) (widths : Widths)
            → Stands self pages bytes → 1 ≤ page_count self → All (HasWidths widths) pages
            → file_pages widths (bytes ++ v.items) ≡ Ok (map page_asked pages)) }
    {
        files_end();
        let mut out = Vec::new(self.alloc);
        if self.kept.pages == 0 {
            return Ok(out);
        }
        put_end(&mut out, &self.kept, self.fonts.as_slice())?;
        Ok(out)
    }
}
