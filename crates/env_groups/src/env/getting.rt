//! What is looked up (The TeXbook, chapters 7, 10 and 24; pTeX). No call here takes memory.

ghost use Rattle.std.specs.Prelude.{◌≡◌, ◌≤◌, length, IfOk, IfSome};
ghost use Rattle.box_tree.specs.Bounds.{IsDimen};
ghost use Rattle.tok_lists.specs.Names.{HasNoParam};
ghost use Rattle.env_groups.specs.Bounds.{IsInt, IsPenalty, HasSetDimens};
ghost use Rattle.env_groups.specs.CharCodes.{pre_of, post_of, IsCode};
ghost use Rattle.env_groups.specs.Macros.{IsMeaning, IsAdded};
ghost use Rattle.env_groups.specs.Environments.{int_at, dim_at, glue_at, toks_at, box_at, category_at, kind_at, xsp_at, inhibit_xsp_at, penalty_at, code_at, meaning_at, font_at};

use super::Env;
use crate::code::{Category, CodeKey, Kind, cell_place, char_place, start_xsp};
use crate::fault::EnvFault;
use crate::font::{FontSlot, place_of};
use crate::key::{DimKey, GlueKey, IntKey, ToksKey, register};
use crate::meaning::{Meaning, meaning_at_start};
use box_tree::{FontNo, SharedBox};
use jis_codes::{Cell, Char};
use tok_lists::{NameNo, SharedTokens};
use ts_geometry::{Glue, Sp};

impl Env {
    /// Returns an integer: a parameter or a `\count` register. `RegisterRange` comes exactly where
    /// the number of a register passes 255.
    pub fn get_int(&self, key: IntKey) -> Result<i64, EnvFault>
        ensures value { result ≡ int_at self.now key }
        ensures within { IfOk result IsInt }
    {
        match self.ints.get(key.place()?) {
            Some(int) => Ok(int.value()),
            None => Ok(key.start()),
        }
    }

    /// Returns a dimension in scaled points: a parameter or a `\dimen` register. `RegisterRange`
    /// comes exactly where the number of a register passes 255.
    pub fn get_dim(&self, key: DimKey) -> Result<Sp, EnvFault>
        ensures value { result ≡ dim_at self.now key }
        ensures within { IfOk result IsDimen }
    {
        match self.dims.get(key.place()?) {
            Some(dimen) => Ok(dimen.value()),
            None => Ok(key.start()),
        }
    }

    /// Returns glue in scaled points: a parameter or a `\skip` register. `RegisterRange` comes
    /// exactly where the number of a register passes 255.
    pub fn get_glue(&self, key: GlueKey) -> Result<Glue, EnvFault>
        ensures value { result ≡ glue_at self.now key }
        ensures within { IfOk result HasSetDimens }
    {
        match self.glues.get(key.place()?) {
            Some(glue) => Ok(glue.value()),
            None => Ok(key.start()),
        }
    }

    /// Returns a list of tokens, shared: `\output` or a `\toks` register. `RegisterRange` comes
    /// exactly where the number of a register passes 255.
    pub fn get_toks(&self, key: ToksKey) -> Result<SharedTokens, EnvFault>
        ensures value { result ≡ toks_at self.now key }
        ensures plain { IfOk result HasNoParam }
    {
        match self.toks.get(key.place()?) {
            Some(tokens) => Ok(tokens.value()),
            None => Ok(SharedTokens::default()),
        }
    }

    /// Returns the box of a register, shared, or `None` where the register is void. `RegisterRange`
    /// comes exactly where its number passes 255.
    pub fn get_box(&self, n: u32) -> Result<Option<SharedBox>, EnvFault>
        ensures { result ≡ box_at self.now n }
    {
        match self.boxes.get(register(0, n)?) {
            Some(Some(shared)) => Ok(Some(shared.same_copy())),
            _ => Ok(None),
        }
    }

    /// Returns the category of a character of one byte.
    pub(super) fn category(&self, code: u8) -> Category
        ensures { result ≡ category_at self.now code }
    {
        match self.cats.get(code as usize) {
            Some(category) => *category,
            None => Category::at_start(code),
        }
    }

    /// Returns the kind of a Japanese character.
    pub(super) fn kind(&self, cell: Cell) -> Kind
        ensures { result ≡ kind_at self.now cell }
    {
        match self.kinds.get(cell.row() as usize) {
            Some(kind) => *kind,
            None => Kind::at_start(cell.row()),
        }
    }

    /// Returns where space comes beside a character of one byte.
    fn xsp(&self, code: u8) -> u8
        ensures value { result ≡ xsp_at self.now code }
        ensures most { result ≤ 3 }
    {
        match self.spacings.get(code as usize) {
            Some(spacing) => spacing.number(),
            None => start_xsp(code),
        }
    }

    /// Returns where space comes beside a Japanese character.
    fn inhibit_xsp(&self, cell: Cell) -> u8
        ensures value { result ≡ inhibit_xsp_at self.now cell }
        ensures most { result ≤ 3 }
    {
        match self.spacings.get(cell_place(cell)) {
            Some(spacing) => spacing.number(),
            None => 3,
        }
    }

    /// Returns the penalty before a character.
    fn pre_penalty(&self, character: Char) -> i64
        ensures value { result ≡ pre_of (penalty_at self.now character) }
        ensures within { IsPenalty result }
    {
        match self.penalties.get(char_place(character)) {
            Some(penalty) => penalty.pre(),
            None => 0,
        }
    }

    /// Returns the penalty after a character.
    fn post_penalty(&self, character: Char) -> i64
        ensures value { result ≡ post_of (penalty_at self.now character) }
        ensures within { IsPenalty result }
    {
        match self.penalties.get(char_place(character)) {
            Some(penalty) => penalty.post(),
            None => 0,
        }
    }

    /// Returns a code. The penalty that a character doesn't have is 0.
    pub fn get_code(&self, key: CodeKey) -> i64
        ensures value { result ≡ code_at self.now key }
        ensures within { IsCode key result }
    {
        match key {
            CodeKey::Cat(code) => i64::from(self.category(code).number()),
            CodeKey::Kcat(cell) => i64::from(self.kind(cell).number()),
            CodeKey::Xsp(code) => i64::from(self.xsp(code)),
            CodeKey::InhibitXsp(cell) => i64::from(self.inhibit_xsp(cell)),
            CodeKey::Pre(character) => self.pre_penalty(character),
            CodeKey::Post(character) => self.post_penalty(character),
        }
    }

    /// Returns the meaning of a name. A macro is shared.
    pub fn get_meaning(&self, name: NameNo) -> Meaning
        ensures value { result ≡ meaning_at self.now name.0 }
        ensures sound { IsMeaning (length self.now.fonts) result }
    {
        match self.meanings.get(name.0 as usize) {
            Some(meaning) => meaning.same_copy(),
            None => meaning_at_start(name.0 as usize),
        }
    }

    /// Returns the font that is selected in a slot, or `None` where none is.
    pub fn get_font(&self, slot: FontSlot) -> Option<FontNo>
        ensures value { result ≡ font_at self.now slot }
        ensures added { IfSome result (IsAdded (length self.now.fonts)) }
    {
        self.selected.get(place_of(slot)).copied()
    }
}
