//! What registers, parameters, codes and boxes hold.

ghost use Rattle.std.specs.Prelude.{◌≡◌, IfOk};
ghost use Rattle.ts_geometry.specs.Numbers.{IsWithin, max_dimen};
ghost use Rattle.env_groups.specs.Bounds.{IsInt, HasSetDimens};
ghost use Rattle.env_groups.specs.Environments.{code_at};
ghost use Rattle.box_tree.specs.Bounds.{IsDimen};
ghost use Rattle.scan_numbers.specs.Bounds.{HasDimens, IsBounded};
ghost use Rattle.scan_numbers.specs.Quantities.{integer_of as the_integer_of};
ghost use Rattle.scan_numbers.specs.Quantities.{is_negative as it_is_negative, held_glue};
ghost use Rattle.scan_numbers.specs.Quantities.{int_held as the_int_held, dim_held as the_dim_held};
ghost use Rattle.scan_numbers.specs.Quantities.{glue_held as the_glue_held};
ghost use Rattle.scan_numbers.specs.Quantities.{code_held as the_code_held};
ghost use Rattle.scan_numbers.specs.Quantities.{box_held as the_box_held};
ghost use Rattle.scan_numbers.specs.Quantities.{measure_of as the_measure_of};
ghost use Rattle.scan_numbers.specs.Quantities.{bounded as the_bounded, all_bounded, narrowed};
ghost use Rattle.scan_numbers.specs.Quantities.{held as the_held, reading, range_of};
ghost use Rattle.scan_numbers.specs.Quantities.{code_key as the_code_key, char_of as the_char_of};

use crate::context::Context;
use crate::fault::ScanKind;
use crate::number::Number;
use box_tree::{SharedBox, Side};
use env_groups::{CodeKey, DimKey, GlueKey, IntKey};
use jis_codes::{Char, from_euc};
use ts_geometry::{Dir, Glue, Measures, Order, Sp, seen};

/// Glue that a register or a parameter holds, in scaled points.
#[derive(Clone, Copy, PartialEq, Eq)]
pub struct HeldGlue {
    pub width: i32,
    pub stretch: i32,
    pub stretch_order: Order,
    pub shrink: i32,
    pub shrink_order: Order,
}

/// What an internal quantity holds.
#[derive(Clone, Copy, PartialEq, Eq)]
pub enum Quantity {
    Integer(i32),
    /// In scaled points.
    Dimen(i32),
    Glue(HeldGlue),
}

impl Quantity {
    /// The integer to which it is coerced.
    pub(crate) fn integer(self) -> i32
        ensures { result ≡ the_integer_of self }
    {
        match self {
            Quantity::Integer(n) | Quantity::Dimen(n) => n,
            Quantity::Glue(glue) => glue.width,
        }
    }

    pub(crate) fn is_negative(self) -> bool
        ensures { result ≡ it_is_negative (the_integer_of self) }
    {
        self.integer() < 0
    }
}

/// What is numbered and can be read.
#[derive(Clone, Copy, PartialEq, Eq)]
pub enum Register {
    Count,
    Dimen,
    Skip,
    /// A measure of the box of a register.
    Measure(Side),
    Code(CodeKind),
}

/// The codes of characters.
#[derive(Clone, Copy, PartialEq, Eq)]
pub enum CodeKind {
    Cat,
    Kcat,
    Xsp,
    InhibitXsp,
    Pre,
    Post,
}

// An integer of a source.
fn int(value: i64) -> i32
    requires { IsInt value }
    ensures value { result ≡ value }
    ensures within { IsInt result }
{
    value as i32
}

// A dimension of a source.
fn dimen(value: Sp) -> i32
    requires { IsDimen value }
    ensures value { result ≡ value.0 }
    ensures within { IsWithin max_dimen result }
{
    value.0 as i32
}

fn glue(glue: Glue) -> HeldGlue
    requires { HasSetDimens glue }
    ensures value { result ≡ held_glue glue }
    ensures within { HasDimens result }
{
    HeldGlue {
        width: dimen(glue.width),
        stretch: dimen(glue.stretch),
        stretch_order: glue.stretch_order,
        shrink: dimen(glue.shrink),
        shrink_order: glue.shrink_order,
    }
}

/// What an integer parameter or a `\count` register holds.
pub(crate) fn int_held(key: IntKey, context: &Context<'_>) -> Result<Quantity, ScanKind>
    ensures value { result ≡ the_int_held key context.now.env }
    ensures within { IfOk result IsBounded }
{
    match context.env.get_int(key) {
        Ok(value) => Ok(Quantity::Integer(int(value))),
        Err(_) => Err(ScanKind::RegisterRange),
    }
}

/// What a dimension parameter or a `\dimen` register holds.
pub(crate) fn dim_held(key: DimKey, context: &Context<'_>) -> Result<Quantity, ScanKind>
    ensures value { result ≡ the_dim_held key context.now.env }
    ensures within { IfOk result IsBounded }
{
    match context.env.get_dim(key) {
        Ok(value) => Ok(Quantity::Dimen(dimen(value))),
        Err(_) => Err(ScanKind::RegisterRange),
    }
}

/// What a glue parameter or a `\skip` register holds.
pub(crate) fn glue_held(key: GlueKey, context: &Context<'_>) -> Result<Quantity, ScanKind>
    ensures value { result ≡ the_glue_held key context.now.env }
    ensures within { IfOk result IsBounded }
{
    match context.env.get_glue(key) {
        Ok(value) => Ok(Quantity::Glue(glue(value))),
        Err(_) => Err(ScanKind::RegisterRange),
    }
}

/// The greatest dimension, in scaled points.
const GREATEST: i64 = 1_073_741_823;

// A measure, brought within the greatest dimension.
fn bounded(value: Sp) -> Sp
    ensures value { result ≡ the_bounded value }
    ensures within { IsDimen result }
{
    if value.0 < -GREATEST {
        Sp(-GREATEST)
    } else if value.0 > GREATEST {
        Sp(GREATEST)
    } else {
        value
    }
}

// A dimension, brought within the greatest integer.
fn narrow(value: Sp) -> i32
    ensures value { result ≡ narrowed value.0 }
    ensures within { IsInt result }
{
    if value.0 < -2_147_483_647 {
        -2_147_483_647
    } else if value.0 > 2_147_483_647 {
        2_147_483_647
    } else {
        value.0 as i32
    }
}

// The measures of a box, as a list of this direction sees them.
fn measures(shared: &SharedBox, dir: Dir) -> Measures
    ensures { result ≡ all_bounded shared.now dir }
{
    let node = shared.get();
    let own = Measures {
        wd: bounded(node.size.wd),
        ht: bounded(node.size.ht),
        dp: bounded(node.size.dp),
    };
    seen(own, node.dir, dir)
}

fn measure_of(side: Side, shared: &SharedBox, dir: Dir) -> i32
    ensures value { result ≡ the_measure_of side shared.now dir }
    ensures within { IsInt result }
{
    let measures = measures(shared, dir);
    match side {
        Side::Wd => narrow(measures.wd),
        Side::Ht => narrow(measures.ht),
        Side::Dp => narrow(measures.dp),
    }
}

// A measure of the box of a register.
fn box_held(side: Side, number: u32, context: &Context<'_>) -> Result<Quantity, ScanKind>
    ensures value { result ≡ the_box_held side number context.now.env }
    ensures within { IfOk result IsBounded }
{
    match context.env.get_box(number) {
        Ok(Some(shared)) => {
            let dir = context.env.situation().dir;
            Ok(Quantity::Dimen(measure_of(side, &shared, dir)))
        }
        Ok(None) => Ok(Quantity::Dimen(0)),
        Err(_) => Err(ScanKind::RegisterRange),
    }
}

// The character of a number.
fn char_of(number: u32) -> Option<Char>
    ensures { result ≡ the_char_of number }
{
    match u8::try_from(number) {
        Ok(code) => Some(Char::One(code)),
        Err(_) => from_euc(number).map(Char::Ja),
    }
}

// The code of a character, where the character may have one.
fn code_key(kind: CodeKind, number: u32) -> Option<CodeKey>
    ensures { result ≡ the_code_key kind (the_char_of number) }
{
    match (kind, char_of(number)?) {
        (CodeKind::Cat, Char::One(code)) => Some(CodeKey::Cat(code)),
        (CodeKind::Kcat, Char::Ja(cell)) => Some(CodeKey::Kcat(cell)),
        (CodeKind::Xsp, Char::One(code)) => Some(CodeKey::Xsp(code)),
        (CodeKind::InhibitXsp, Char::Ja(cell)) => Some(CodeKey::InhibitXsp(cell)),
        (CodeKind::Pre, character) => Some(CodeKey::Pre(character)),
        (CodeKind::Post, character) => Some(CodeKey::Post(character)),
        (CodeKind::Cat | CodeKind::Xsp, Char::Ja(_)) => None,
        (CodeKind::Kcat | CodeKind::InhibitXsp, Char::One(_)) => None,
    }
}

fn code_value(key: CodeKey, context: &Context<'_>) -> i32
    ensures value { result ≡ code_at context.now.env key }
    ensures within { IsInt result }
{
    context.env.get_code(key) as i32
}

fn code_held(kind: CodeKind, number: u32, context: &Context<'_>) -> Result<Quantity, ScanKind>
    ensures value { result ≡ the_code_held kind number context.now.env }
    ensures within { IfOk result IsBounded }
{
    match code_key(kind, number) {
        Some(key) => Ok(Quantity::Integer(code_value(key, context))),
        None => Err(ScanKind::CodeRange),
    }
}

/// What the register of this number holds.
#[tactic(auto, unfolding(crate::specs::Quantities::held))]
pub(crate) fn held(
    register: Register,
    number: u32,
    context: &Context<'_>,
) -> Result<Quantity, ScanKind>
    ensures value { result ≡ the_held register number context.now.env }
    ensures within { IfOk result IsBounded }
{
    match register {
        Register::Count => int_held(IntKey::Register(number), context),
        Register::Dimen => dim_held(DimKey::Register(number), context),
        Register::Skip => glue_held(GlueKey::Register(number), context),
        Register::Measure(side) => box_held(side, number, context),
        Register::Code(kind) => code_held(kind, number, context),
    }
}

impl Register {
    // What a number is that is none of a register, or of a character.
    fn range(self) -> ScanKind
        ensures { result ≡ range_of self }
    {
        match self {
            Register::Code(_) => ScanKind::CodeRange,
            Register::Count | Register::Dimen | Register::Skip | Register::Measure(_) => {
                ScanKind::RegisterRange
            }
        }
    }
}

/// Returns what the register, the box or the code of this number holds, dimensions in scaled
/// points and the measures of a box as the innermost list sees them (pTeX). The fault is
/// `RegisterRange` or `CodeRange` exactly where the number has none.
#[tactic(auto, unfolding(crate::specs::Quantities::reading))]
pub fn read(register: Register, number: Number, context: &Context<'_>) -> Result<Quantity, ScanKind>
    ensures value { result ≡ reading register number.value context.now.env }
    ensures within { IfOk result IsBounded }
{
    match u16::try_from(number.value()) {
        Ok(number) => held(register, u32::from(number), context),
        Err(_) => Err(register.range()),
    }
}
