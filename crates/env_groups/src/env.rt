//! The environment.

mod getting;
mod setting;

ghost use Rattle.std.specs.Prelude.{◌≡◌, ◌≢◌, ◌<◌, ◌++◌, ◌∷◌, [], length, Err, Some, slice_get, IfOk, OnOk, OnErr};
ghost use Rattle.ts_base.specs.Agreement.{Agrees};
ghost use Rattle.env_groups.specs.Macros.{IsAdded};
ghost use Rattle.env_groups.specs.Environments.{start, env_cause, group_opened, group_closed, next_font, codes_of};

use crate::code::{Category, Kind, SetPenalty, Spacing};
use crate::fault::EnvFault;
use crate::font::FontFacts;
use crate::group::{GroupKind, is_same};
use crate::meaning::Meaning;
use crate::situation::{Mode, Situation};
use crate::stored::{Dimen, Int, PlainTokens, SetGlue};
use box_tree::{FontNo, SharedBox};
use jis_codes::Cell;
use layered_tables::Layers;
use std::alloc::Global;
use std::marker::Model;
use tok_lists::CodeTable;
use ts_base::{List, NoMemory};
use ts_geometry::Dir;

/// How many groups may be open.
const MOST_GROUPS: usize = 1000;

/// How many fonts may be added.
const MOST_FONTS: usize = 255;

/// What names mean, codes, parameters, registers, boxes and selected fonts, under groups; and
/// beside them the fonts that were added, and the mode and direction of the innermost list.
/// Contracts see the environments and the kinds of the open groups, the innermost first.
#[derive(Drop)]
pub struct Env {
    ints: Layers<Int>,
    dims: Layers<Dimen>,
    glues: Layers<SetGlue>,
    toks: Layers<PlainTokens>,
    boxes: Layers<Option<SharedBox>>,
    cats: Layers<Category>,
    kinds: Layers<Kind>,
    spacings: Layers<Spacing>,
    penalties: Layers<SetPenalty>,
    meanings: Layers<Meaning>,
    selected: Layers<FontNo>,
    groups: Vec<GroupKind>,
    fonts: List<FontFacts>,
    situation: Situation,
}

impl Model for Env {
    ghost use Rattle.env_groups.specs.Environments.{Nest};
    ghost use Rattle.env_groups.specs.ModelCodes.{nest_code};

    ghost Value = { Nest };

    ghost coded = { nest_code };

    ghost use Rattle.env_groups.specs.Inside.{nest_of, IsWhole};

    ghost view = { nest_of };

    ghost invariant = { IsWhole };
}

impl Env {
    /// Returns the environment at the start: Outer vertical mode, yoko, no font, no group, and each
    /// name, code, parameter and register with its start value.
    pub fn new(alloc: Global) -> Result<Env, NoMemory>
        ensures { IfOk result (λ env. env ≡ start) }
    {
        Ok(Env {
            ints: Layers::new(alloc),
            dims: Layers::new(alloc),
            glues: Layers::new(alloc),
            toks: Layers::new(alloc),
            boxes: Layers::new(alloc),
            cats: Layers::new(alloc),
            kinds: Layers::new(alloc),
            spacings: Layers::new(alloc),
            penalties: Layers::new(alloc),
            meanings: Layers::new(alloc),
            selected: Layers::new(alloc),
            groups: Vec::new(alloc),
            fonts: List::new(alloc),
            situation: Situation {
                mode: Mode::Outer,
                dir: Dir::Yoko,
            },
        })
    }

    /// Opens a group (The TeXbook, chapter 24). `GroupsFull` comes exactly where 1000 are open.
    /// Refused, it leaves all as it was. It takes memory for the kinds of the groups alone.
    pub fn open(&mut self, kind: GroupKind) -> Result<(), EnvFault>
        ensures exact { Agrees (λ _. self.new) env_cause result (group_opened self.old kind) }
        ensures refused { OnErr result (self.new ≡ self.old) }
    {
        if MOST_GROUPS <= self.groups.len() {
            return Err(EnvFault::GroupsFull);
        }
        self.groups.push(kind)?;
        self.ints.open();
        self.dims.open();
        self.glues.open();
        self.toks.open();
        self.boxes.open();
        self.cats.open();
        self.kinds.open();
        self.spacings.open();
        self.penalties.open();
        self.meanings.open();
        self.selected.open();
        Ok(())
    }

    /// Closes a group, and with it goes what was set in it, but not globally (The TeXbook, chapter
    /// 24). `GroupEnd` comes exactly where none is open, or the innermost is of another kind. Takes
    /// no memory. Refused, it leaves all as it was.
    pub fn close(&mut self, kind: GroupKind) -> Result<(), EnvFault>
        ensures exact { Agrees (λ _. self.new) env_cause result (group_closed self.old kind) }
        ensures refused { OnErr result (self.new ≡ self.old) }
        ensures memory { result ≢ Err EnvFault.NoMemory }
    {
        match self.groups.last() {
            Some(innermost) if is_same(kind, *innermost) => {}
            _ => return Err(EnvFault::GroupEnd),
        }
        let _kind = self.groups.pop();
        self.ints.close();
        self.dims.close();
        self.glues.close();
        self.toks.close();
        self.boxes.close();
        self.cats.close();
        self.kinds.close();
        self.spacings.close();
        self.penalties.close();
        self.meanings.close();
        self.selected.close();
        Ok(())
    }

    /// Adds a font, and returns its number: that of the fonts which were there. `FontsFull` comes
    /// exactly where these are 255. Refused, it leaves all as it was.
    pub fn add_font(&mut self, facts: FontFacts) -> Result<FontNo, EnvFault>
        ensures exact { Agrees (λ font. font) env_cause result (next_font self.old) }
        ensures added { OnOk result (self.new
            ≡ record self.old { fonts = self.old.fonts ++ facts ∷ [] }) }
        ensures number { IfOk result (IsAdded (length self.new.fonts)) }
        ensures refused { OnErr result (self.new ≡ self.old) }
    {
        if MOST_FONTS <= self.fonts.len() {
            return Err(EnvFault::FontsFull);
        }
        let number = FontNo(self.fonts.len() as u8);
        self.fonts.push(facts)?;
        Ok(number)
    }

    /// Returns what units and spaces need of a font that was added, in scaled points. Takes no
    /// memory.
    pub fn facts(&self, font: FontNo) -> FontFacts
        requires { font.0 < length self.now.fonts }
        ensures { slice_get self.now.fonts font.0 ≡ Some result }
    {
        self.fonts.as_slice()[usize::from(font.0)]
    }

    /// Returns the mode and the direction of the innermost list. Takes no memory.
    pub fn situation(&self) -> Situation
        ensures { result ≡ self.now.situation }
    {
        self.situation
    }

    /// Sets the mode and the direction of the innermost list. Takes no memory.
    pub fn set_situation(&mut self, s: Situation)
        ensures { self.new ≡ record self.old { situation = s } }
    {
        self.situation = s;
    }
}

impl CodeTable for Env {
    ghost codes = { codes_of };

    ghost use Rattle.env_groups.specs.CodeBounds.{are_codes};

    ghost bounds = { are_codes };

    fn cat(&self, code: u8) -> u8 {
        self.category(code).number()
    }

    fn kcat(&self, cell: Cell) -> u8 {
        self.kind(cell).number()
    }
}
