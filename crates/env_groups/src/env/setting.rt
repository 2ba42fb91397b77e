//! What is set: in the innermost environment, or globally, in each (The TeXbook, chapter 24).
//! Refused, each call leaves all as it was.

ghost use Rattle.std.specs.Prelude.{◌≡◌, ◌≢◌, length, Ok, OnErr};
ghost use Rattle.ts_base.specs.Agreement.{Agrees};
ghost use Rattle.box_tree.specs.Bounds.{IsDimen};
ghost use Rattle.tok_lists.specs.Names.{HasNoParam};
ghost use Rattle.env_groups.specs.Bounds.{IsInt, HasSetDimens};
ghost use Rattle.env_groups.specs.CharCodes.{IsCharPenalty};
ghost use Rattle.env_groups.specs.Macros.{IsMeaning, IsAdded};
ghost use Rattle.env_groups.specs.Environments.{env_cause, int_set, dim_set, glue_set, toks_set, box_set, box_replaced, category_set, kind_set, spacing_set, penalty_set, code_set, meaning_set, font_set};

use super::Env;
use crate::code::{
    Category, CharPenalty, CodeKey, Kind, SetPenalty, Spacing, cell_place, char_place, penalty_of,
};
use crate::fault::EnvFault;
use crate::font::{FontSlot, place_of};
use crate::key::{DimKey, GlueKey, IntKey, ToksKey, register};
use crate::meaning::Meaning;
use crate::stored::{Dimen, Int, PlainTokens, SetGlue};
use box_tree::{FontNo, SharedBox};
use jis_codes::{Cell, Char};
use tok_lists::{NameNo, SharedTokens};
use ts_geometry::{Glue, Sp};

impl Env {
    /// Sets an integer: a parameter or a `\count` register (The TeXbook, chapter 24), in the
    /// innermost environment, or in each where it is global. `RegisterRange` comes exactly where
    /// the number of a register passes 255. Refused, it leaves all as it was.
    pub fn set_int(&mut self, key: IntKey, value: i64, global: bool) -> Result<(), EnvFault>
        requires { IsInt value }
        ensures exact { Agrees (λ _. self.new) env_cause result
            (int_set self.old key value global) }
        ensures refused { OnErr result (self.new ≡ self.old) }
    {
        let place = key.place()?;
        self.ints.set(place, Int::new(value), global)?;
        Ok(())
    }

    /// Sets a dimension, in scaled points. `RegisterRange` comes exactly where the number of a
    /// register passes 255. Refused, it leaves all as it was.
    pub fn set_dim(&mut self, key: DimKey, value: Sp, global: bool) -> Result<(), EnvFault>
        requires { IsDimen value }
        ensures exact { Agrees (λ _. self.new) env_cause result
            (dim_set self.old key value global) }
        ensures refused { OnErr result (self.new ≡ self.old) }
    {
        let place = key.place()?;
        self.dims.set(place, Dimen::new(value), global)?;
        Ok(())
    }

    /// Sets glue, in scaled points. `RegisterRange` comes exactly where the number of a register
    /// passes 255. Refused, it leaves all as it was.
    pub fn set_glue(&mut self, key: GlueKey, value: Glue, global: bool) -> Result<(), EnvFault>
        requires { HasSetDimens value }
        ensures exact { Agrees (λ _. self.new) env_cause result
            (glue_set self.old key value global) }
        ensures refused { OnErr result (self.new ≡ self.old) }
    {
        let place = key.place()?;
        self.glues.set(place, SetGlue::new(value), global)?;
        Ok(())
    }

    /// Sets a list of tokens without parameters. `RegisterRange` comes exactly where the number of
    /// a register passes 255. Refused, it leaves all as it was.
    pub fn set_toks(
        &mut self,
        key: ToksKey,
        value: SharedTokens,
        global: bool,
    ) -> Result<(), EnvFault>
        requires { HasNoParam value }
        ensures exact { Agrees (λ _. self.new) env_cause result
            (toks_set self.old key value global) }
        ensures refused { OnErr result (self.new ≡ self.old) }
    {
        let place = key.place()?;
        self.toks.set(place, PlainTokens::new(value), global)?;
        Ok(())
    }

    /// Sets a box register, to a box or to void. `RegisterRange` comes exactly where its number
    /// passes 255. Refused, it leaves all as it was.
    pub fn set_box(
        &mut self,
        n: u32,
        value: Option<SharedBox>,
        global: bool,
    ) -> Result<(), EnvFault>
        ensures exact { Agrees (λ _. self.new) env_cause result (box_set self.old n value global) }
        ensures refused { OnErr result (self.new ≡ self.old) }
    {
        let place = register(0, n)?;
        self.boxes.set(place, value, global)?;
        Ok(())
    }

    /// Exchanges the present box of a register for another or for void, as `\wd` and `\box` do: in
    /// the environment in which it was set, and in those opened since (TeX: The Program, sections
    /// 1110 and 1247). `RegisterRange` comes exactly where its number passes 255. Refused, it
    /// leaves all as it was.
    pub fn replace_box(&mut self, n: u32, value: Option<SharedBox>) -> Result<(), EnvFault>
        ensures exact { Agrees (λ _. self.new) env_cause result (box_replaced self.old n value) }
        ensures refused { OnErr result (self.new ≡ self.old) }
    {
        let place = register(0, n)?;
        self.boxes.replace(place, value)?;
        Ok(())
    }

    fn set_category(&mut self, code: u8, value: i64, global: bool) -> Result<(), EnvFault>
        ensures exact { Agrees (λ _. self.new) env_cause result
            (category_set self.old code value global) }
        ensures refused { OnErr result (self.new ≡ self.old) }
    {
        let category = Category::new(value).ok_or(EnvFault::CodeRange)?;
        self.cats.set(code as usize, category, global)?;
        Ok(())
    }

    fn set_kind(&mut self, cell: Cell, value: i64, global: bool) -> Result<(), EnvFault>
        ensures exact { Agrees (λ _. self.new) env_cause result
            (kind_set self.old cell value global) }
        ensures refused { OnErr result (self.new ≡ self.old) }
    {
        let kind = Kind::new(value).ok_or(EnvFault::CodeRange)?;
        self.kinds.set(cell.row() as usize, kind, global)?;
        Ok(())
    }

    fn set_spacing(&mut self, place: usize, value: i64, global: bool) -> Result<(), EnvFault>
        ensures exact { Agrees (λ _. self.new) env_cause result
            (spacing_set self.old place value global) }
        ensures refused { OnErr result (self.new ≡ self.old) }
    {
        let spacing = Spacing::new(value).ok_or(EnvFault::CodeRange)?;
        self.spacings.set(place, spacing, global)?;
        Ok(())
    }

    fn set_penalty(
        &mut self,
        character: Char,
        penalty: CharPenalty,
        global: bool,
    ) -> Result<(), EnvFault>
        requires { IsCharPenalty penalty }
        ensures exact { Agrees (λ _. self.new) env_cause result
            (Ok (penalty_set self.old character penalty global)) }
        ensures refused { OnErr result (self.new ≡ self.old) }
    {
        let place = char_place(character);
        self.penalties.set(place, SetPenalty::new(penalty), global)?;
        Ok(())
    }

    /// Sets a code (The TeXbook, chapter 7; pTeX). A kind is set for the whole row of its cell, and
    /// one penalty of a character takes the other away. `CodeRange` comes exactly where the value
    /// is none that the code can have. Refused, it leaves all as it was.
    pub fn set_code(&mut self, key: CodeKey, value: i64, global: bool) -> Result<(), EnvFault>
        ensures exact { Agrees (λ _. self.new) env_cause result
            (code_set self.old key value global) }
        ensures refused { OnErr result (self.new ≡ self.old) }
    {
        match key {
            CodeKey::Cat(code) => self.set_category(code, value, global),
            CodeKey::Kcat(cell) => self.set_kind(cell, value, global),
            CodeKey::Xsp(code) => self.set_spacing(code as usize, value, global),
            CodeKey::InhibitXsp(cell) => self.set_spacing(cell_place(cell), value, global),
            CodeKey::Pre(character) => {
                let value = penalty_of(value).ok_or(EnvFault::CodeRange)?;
                self.set_penalty(character, CharPenalty::Pre(value), global)
            }
            CodeKey::Post(character) => {
                let value = penalty_of(value).ok_or(EnvFault::CodeRange)?;
                self.set_penalty(character, CharPenalty::Post(value), global)
            }
        }
    }

    /// Sets the meaning of a name (The TeXbook, chapters 20 and 24). Refused, it leaves all as it
    /// was.
    pub fn set_meaning(
        &mut self,
        name: NameNo,
        value: Meaning,
        global: bool,
    ) -> Result<(), EnvFault>
        requires { IsMeaning (length self.old.fonts) value }
        ensures exact { Agrees (λ _. self.new) env_cause result
            (Ok (meaning_set self.old name.0 value global)) }
        ensures refused { OnErr result (self.new ≡ self.old) }
    {
        self.meanings.set(name.0 as usize, value, global)?;
        Ok(())
    }

    /// Selects a font that was added (The TeXbook, chapter 4; pTeX). Refused, it leaves all as it
    /// was.
    pub fn set_font(&mut self, slot: FontSlot, value: FontNo, global: bool) -> Result<(), EnvFault>
        requires { IsAdded (length self.old.fonts) value }
        ensures exact { Agrees (λ _. self.new) env_cause result
            (Ok (font_set self.old slot value global)) }
        ensures refused { OnErr result (self.new ≡ self.old) }
    {
        self.selected.set(place_of(slot), value, global)?;
        Ok(())
    }
}
