//! Parameters and codes as they are where a list ends, or where a character comes (pTeX).

ghost use Rattle.std.specs.Prelude.{◌≡◌};
ghost use Rattle.box_tree.specs.Bounds.{IsDimen};
ghost use Rattle.jis_codes.specs.declared.Char.TheVariants as characters;
ghost use Rattle.env_groups.specs.Bounds.{IsInt, HasSetDimens};
ghost use Rattle.env_groups.specs.CharCodes.{kind_number};
ghost use Rattle.env_groups.specs.Environments.{kind_at};
ghost use Rattle.open_lists.specs.EndCodes.{int_param, dim_param, glue_param, is_on, codes_in};
ghost use Rattle.open_lists.specs.Characters.{kinsoku_at};

use env_groups::{CodeKey, DimKey, DimParam, Env, GlueKey, GlueParam, IntKey, IntParam};
use jis_codes::{Cell, Char};
use jlist_builder::Kinsoku;
use kanjiskip_adjust::EndCodes;
use std::marker::Model;
use ts_geometry::{Glue, Sp};

// An integer parameter.
fn int_param(env: &Env, param: IntParam) -> i64
    ensures value { result ≡ int_param env.now param }
    ensures within { IsInt result }
{
    match env.get_int(IntKey::Param(param)) {
        Ok(value) => value,
        Err(_) => unreachable!(),
    }
}

// Whether a switch is on.
fn is_on(env: &Env, switch: IntParam) -> bool
    ensures { result ≡ is_on env.now switch }
{
    int_param(env, switch) != 0
}

/// Returns a dimension parameter in scaled points.
pub(crate) fn dim_param(env: &Env, param: DimParam) -> Sp
    ensures value { result ≡ dim_param env.now param }
    ensures within { IsDimen result }
{
    match env.get_dim(DimKey::Param(param)) {
        Ok(value) => value,
        Err(_) => unreachable!(),
    }
}

/// Returns a glue parameter in scaled points.
pub(crate) fn glue_param(env: &Env, param: GlueParam) -> Glue
    ensures value { result ≡ glue_param env.now param }
    ensures within { HasSetDimens result }
{
    match env.get_glue(GlueKey::Param(param)) {
        Ok(value) => value,
        Err(_) => unreachable!(),
    }
}

/// Returns the kind of a Japanese character, from 16 to 18.
pub(crate) fn kind_of(env: &Env, cell: Cell) -> u8
    ensures { result ≡ kind_number (kind_at env.now cell) }
{
    env.get_code(CodeKey::Kcat(cell)) as u8
}

/// Returns the penalties before and after a Japanese character.
pub(crate) fn kanji_kinsoku(env: &Env, cell: Cell) -> Kinsoku
    ensures { result ≡ kinsoku_at env.now (characters.Ja cell) }
{
    Kinsoku {
        pre: env.get_code(CodeKey::Pre(Char::Ja(cell))) as i32,
        post: env.get_code(CodeKey::Post(Char::Ja(cell))) as i32,
    }
}

/// Returns the penalties before and after a European character.
pub(crate) fn roman_kinsoku(env: &Env, code: u8) -> Kinsoku
    ensures { result ≡ kinsoku_at env.now (characters.One code) }
{
    Kinsoku {
        pre: env.get_code(CodeKey::Pre(Char::One(code))) as i32,
        post: env.get_code(CodeKey::Post(Char::One(code))) as i32,
    }
}

/// The codes of an environment as they are where a list ends. Contracts see the environments.
#[derive(Drop)]
pub struct EnvCodes<'a> {
    env: &'a Env,
}

impl<'a> Model for EnvCodes<'a> {
    ghost use Rattle.env_groups.specs.Environments.{Nest};
    ghost use Rattle.env_groups.specs.ModelCodes.{nest_code};

    ghost Value = { Nest };

    ghost coded = { nest_code };

    ghost view = { λ c. c.env.now };
}

impl<'a> EnvCodes<'a> {
    /// Returns the codes of an environment. Takes no memory.
    pub fn new(env: &'a Env) -> EnvCodes<'a>
        ensures { result ≡ env.now }
    {
        EnvCodes { env }
    }
}

impl<'a> EndCodes for EnvCodes<'a> {
    ghost codes = { codes_in };

    fn kanjiskip(&self) -> Glue {
        glue_param(self.env, GlueParam::KanjiSkip)
    }

    fn xkanjiskip(&self) -> Glue {
        glue_param(self.env, GlueParam::XKanjiSkip)
    }

    fn auto(&self) -> bool {
        is_on(self.env, IntParam::AutoSpacing)
    }

    fn autox(&self) -> bool {
        is_on(self.env, IntParam::AutoXspacing)
    }

    fn widow(&self) -> i32 {
        int_param(self.env, IntParam::JcharWidowPenalty) as i32
    }

    fn xsp(&self, code: u8) -> u8 {
        self.env.get_code(CodeKey::Xsp(code)) as u8
    }

    fn inhibit_xsp(&self, cell: Cell) -> u8 {
        self.env.get_code(CodeKey::InhibitXsp(cell)) as u8
    }
}
