//! Setting a box of characters of one font.

ghost use Rattle.std.specs.Prelude.{◌≡◌, ◌≤◌, ◌++◌, [], ◌∷◌, pos, ◌+ℤ◌, ◌≤ℤ◌, length, true, Ok, IfOk};
ghost use Rattle.std.specs.List.{All};
ghost use Rattle.std.specs.Int.{int_max};
ghost use Rattle.jis_codes.specs.Kuten.{IsKuten};
ghost use Rattle.jis_codes.specs.Spellings.{jis};
ghost use Rattle.jis_codes.specs.Numbers.{number_of};
ghost use Rattle.jfm_load.specs.Metrics.{class_of, measures_of};
ghost use Rattle.ts_geometry.specs.Numbers.{IsWithin};
ghost use Rattle.dvi_structure.specs.Structure.{is_sound_font};
ghost use Rattle.dvi_code.specs.Pages.{Widths, file_pages};
ghost use Rattle.ts_job.specs.Meant.{FitsGlyph};
ghost use Rattle.ts_job.specs.Meaning.{height_of, depth_of, box_height, box_depth, glyphs_from, font_def, page_of, ten_points};
ghost use Rattle.ts_job.specs.FormSeen.{seen};
ghost use Rattle.ts_job.specs.Setting.{most_of_one, most_of_all, IsSound, HasCell, GivesWidths};

use crate::form::Form;
use crate::writer::{Glyph, dvi_of};
use dvi_code::FontDef;
use dvi_code::laws::short_names_are_sound;
use jfm_load::Japanese;
use jis_codes::{Cell, to_jis};
use std::alloc::{AllocError, Global};
use ts_geometry::{Measures, Point, Sp};
use ts_outside::FileName;

// 10 pt in scaled points.
pub(crate) const TEN_POINTS: u32 = 655_360;

fn measures(metric: &Japanese, cell: Cell) -> Measures
    ensures value { result ≡ measures_of metric.now (class_of metric.now cell) ten_points }
    ensures width { IsWithin most_of_one result.wd.0 }
    ensures height { IsWithin most_of_one result.ht.0 }
    ensures depth { IsWithin most_of_one result.dp.0 }
{
    metric.measures(metric.class(cell), TEN_POINTS)
}

// The height and the depth of a box of characters.
fn extents(metric: &Japanese, cells: &[Cell]) -> (Sp, Sp)
    ensures height { result.0.0 ≡ box_height metric.now cells.now }
    ensures depth { result.1.0 ≡ box_depth metric.now cells.now }
    ensures low { pos 0 ≤ℤ result.0.0 }
    ensures high { result.0.0 ≤ℤ pos 10485760 }
    ensures shallow { pos 0 ≤ℤ result.1.0 }
    ensures deep { result.1.0 ≤ℤ pos 10485760 }
{
    let mut height = Sp(0);
    let mut depth = Sp(0);
    for cell in cells {
        let size = measures(metric, *cell);
        height = height.greater(size.ht);
        depth = depth.greater(size.dp);
    }
    (height, depth)
}

// A character with its reference point.
fn glyph(cell: Cell, x: Sp, y: Sp) -> Glyph
    requires along { IsWithin most_of_all x.0 }
    requires across { IsWithin most_of_all y.0 }
    ensures value { result ≡ record { code = number_of jis cell; at = record { x = x; y = y } } }
    ensures there { IsKuten cell }
    ensures fits { FitsGlyph result }
{
    Glyph {
        code: to_jis(cell) as u16,
        at: Point { x, y },
    }
}

// The characters side by side, with their baseline so far below the page's top, and their width.
fn glyphs(
    alloc: Global,
    metric: &Japanese,
    cells: &[Cell],
    baseline: Sp,
) -> Result<(Vec<Glyph>, Sp), AllocError>
    requires few { length cells.now ≤ 50 }
    requires low { pos 0 ≤ℤ baseline.0 }
    requires high { baseline.0 ≤ℤ pos 10485760 }
    ensures glyphs { IfOk result (λ set. set.0.items ≡ glyphs_from metric.now (pos 0) baseline.0 cells.now) }
    ensures fit { IfOk result (λ set. All FitsGlyph set.0.items) }
    ensures cells { IfOk result (λ set. All (HasCell metric.now) set.0.items) }
    ensures few { IfOk result (λ set. length set.0.items ≡ length cells.now) }
    ensures wide { IfOk result (λ set. set.1.0 ≤ℤ pos 524288000) }
{
    let mut glyphs = Vec::new(alloc);
    let mut x = Sp(0);
    for cell in cells {
        glyphs.push(glyph(*cell, x, baseline))?;
        x = x.plus(measures(metric, *cell).wd);
    }
    Ok((glyphs, x))
}

// The definition of the form's font.
fn font_of(alloc: Global, form: &Form, metric: &Japanese) -> Result<FontDef, AllocError>
    requires { IsSound (seen form.now) }
    ensures font { IfOk result (λ font. font ≡ font_def (seen form.now) metric.now) }
    ensures sound { IfOk result (λ font. is_sound_font font ≡ true) }
{
    short_names_are_sound();
    match FileName::new(alloc, &form.name) {
        Ok(name) => Ok(FontDef {
            number: 0,
            check_sum: metric.check_sum(),
            size: TEN_POINTS,
            design: TEN_POINTS,
            name,
        }),
        Err(_) => Err(AllocError),
    }
}

/// The DVI file of the page of the form.
pub(crate) fn set(alloc: Global, form: &Form, metric: &Japanese) -> Result<Vec<u8>, AllocError>
    requires { IsSound (seen form.now) }
    ensures { IfOk result (λ dvi. (widths : Widths)
        → GivesWidths widths (font_def (seen form.now) metric.now) metric.now
        → file_pages widths dvi.items ≡ Ok (page_of (seen form.now) metric.now ∷ [])) }
{
    let font = font_of(alloc, form, metric)?;
    let (height, depth) = extents(metric, &form.cells);
    let (glyphs, width) = glyphs(alloc, metric, &form.cells, height)?;
    let high = (height.0 + depth.0) as u32;
    let wide = width.0.max(0) as u32;
    let dvi = dvi_of(alloc, &font, &glyphs, high, wide)?;
    Ok(dvi)
}
