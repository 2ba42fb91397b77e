//! Fonts by number.

ghost use Rattle.std.specs.Prelude.{◌≡◌, ◌<◌, ◌^◌, [], ◌∷◌, ◌++◌, length, Some, position, OnOk, OnErr, IfOk, IfSome};
ghost use Rattle.font_store.specs.Store.{is_font, number_of, font_no, metric_at, name_at, size_at};

use crate::metric::Metric;
use box_tree::FontNo;
use std::alloc::Global;
use std::marker::Model;
use ts_base::{List, NoMemory};
use ts_outside::FileName;

// A font: its name as it was spelt, its size in scaled points, and its metric.
#[derive(Debug, Drop)]
struct Font {
    name: FileName,
    size: u32,
    metric: Metric,
}

impl Font {
    // Has it this name, as it was spelt, and this size?
    fn is_of(&self, name: &FileName, size: u32) -> bool
        ensures { result ≡ is_font name.now size self.now }
    {
        self.size == size && self.name.bytes() == name.bytes()
    }
}

// The place of the first font of a name and a size.
fn place_of(fonts: &[Font], name: &FileName, size: u32) -> Option<usize>
    ensures value { result ≡ position (is_font name.now size) fonts.now }
    ensures within { IfSome result (λ at. at < length fonts.now) }
{
    fonts.iter().position(|font| font.is_of(name, size))
}

/// Fonts under the numbers from 0 on, in the order in which they were added. Contracts see the
/// list of them, each with its name, size and metric.
#[derive(Debug, Drop)]
pub struct Fonts {
    fonts: List<Font>,
}

impl Model for Fonts {
    ghost use Rattle.std.specs.Prelude.{List};
    ghost use Rattle.font_store.specs.declared.fonts.Font.{Font};
    ghost use Rattle.font_store.specs.Bounds.{AreFew};

    ghost Value = { List Font };

    ghost view = { λ f. f.fonts };

    ghost invariant = { λ f. AreFew f.fonts };
}

impl Fonts {
    /// Returns the store without fonts. Takes no memory.
    pub fn new(alloc: Global) -> Fonts
        ensures { result ≡ [] }
    {
        Fonts {
            fonts: List::new(alloc),
        }
    }

    /// Returns how many fonts were added.
    pub fn len(&self) -> usize
        ensures { result ≡ length self.now }
    {
        self.fonts.len()
    }

    /// Returns the number of the font of this name, as it was spelt, and this size in scaled points:
    /// the first one, or none where no such font was added. Takes no memory.
    pub fn find(&self, name: &FileName, size: u32) -> Option<FontNo>
        ensures { result ≡ number_of self.now name.now size }
    {
        match place_of(self.fonts.as_slice(), name, size) {
            Some(at) => Some(FontNo(at as u8)),
            None => None,
        }
    }

    /// Adds a font with a size in scaled points, and returns its number: that of the fonts which were
    /// there. Refused, it leaves the fonts as they were.
    pub fn add(&mut self, name: FileName, size: u32, metric: Metric) -> Result<FontNo, NoMemory>
        requires few { length self.old < 255 }
        requires size { size < 2 ^ 23 }
        ensures number { IfOk result (λ font. font ≡ font_no (length self.old)) }
        ensures added { OnOk result (self.new
            ≡ self.old ++ (record { name = name; size = size; metric = metric }) ∷ []) }
        ensures err { OnErr result (self.new ≡ self.old) }
    {
        let number = FontNo(self.fonts.len() as u8);
        self.fonts.push(Font { name, size, metric })?;
        Ok(number)
    }

    /// Returns the metric of a font that was added. Takes no memory.
    pub fn metric(&self, font: FontNo) -> &Metric
        requires { font.0 < length self.now }
        ensures { metric_at self.now font ≡ Some result.now }
    {
        &self.fonts.as_slice()[usize::from(font.0)].metric
    }

    /// Returns the name of a font that was added, as it was spelt. Takes no memory.
    pub fn name(&self, font: FontNo) -> &FileName
        requires { font.0 < length self.now }
        ensures { name_at self.now font ≡ Some result.now }
    {
        &self.fonts.as_slice()[usize::from(font.0)].name
    }

    /// Returns the size of a font that was added, in scaled points. Takes no memory.
    pub fn size(&self, font: FontNo) -> u32
        requires { font.0 < length self.now }
        ensures value { size_at self.now font ≡ Some result }
        ensures most { result < 2 ^ 23 }
    {
        self.fonts.as_slice()[usize::from(font.0)].size
    }
}
