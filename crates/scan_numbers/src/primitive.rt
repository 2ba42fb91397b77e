//! The primitives that are internal quantities.

ghost use Rattle.std.specs.Prelude.{◌≡◌};
ghost use Rattle.scan_numbers.specs.Primitives.{place_of as the_place_of, named_int, named_dim};
ghost use Rattle.scan_numbers.specs.Primitives.{named_glue, named_register};

use crate::quantity::{CodeKind, Register};
use box_tree::Side;
use env_groups::{DimParam, GlueParam, IntParam, Prim};

/// Where a primitive finds what it holds.
#[derive(Clone, Copy, PartialEq, Eq)]
pub(crate) enum Place {
    Int(IntParam),
    Dim(DimParam),
    Glue(GlueParam),
    /// A register, whose number follows.
    Register(Register),
    Nothing,
}

fn int_param(prim: Prim) -> Place
    ensures { result ≡ named_int prim }
{
    match prim {
        Prim::Pretolerance => Place::Int(IntParam::Pretolerance),
        Prim::Tolerance => Place::Int(IntParam::Tolerance),
        Prim::LinePenalty => Place::Int(IntParam::LinePenalty),
        Prim::AdjDemerits => Place::Int(IntParam::AdjDemerits),
        Prim::InterlinePenalty => Place::Int(IntParam::InterlinePenalty),
        Prim::ClubPenalty => Place::Int(IntParam::ClubPenalty),
        Prim::WidowPenalty => Place::Int(IntParam::WidowPenalty),
        Prim::JcharWidowPenalty => Place::Int(IntParam::JcharWidowPenalty),
        Prim::OutputPenalty => Place::Int(IntParam::OutputPenalty),
        Prim::DeadCycles => Place::Int(IntParam::DeadCycles),
        _ => dim_param(prim),
    }
}

fn dim_param(prim: Prim) -> Place
    ensures { result ≡ named_dim prim }
{
    match prim {
        Prim::HSize => Place::Dim(DimParam::HSize),
        Prim::VSize => Place::Dim(DimParam::VSize),
        Prim::ParIndent => Place::Dim(DimParam::ParIndent),
        Prim::MaxDepth => Place::Dim(DimParam::MaxDepth),
        Prim::BoxMaxDepth => Place::Dim(DimParam::BoxMaxDepth),
        Prim::LineSkipLimit => Place::Dim(DimParam::LineSkipLimit),
        Prim::EmergencyStretch => Place::Dim(DimParam::EmergencyStretch),
        Prim::TBaselineShift => Place::Dim(DimParam::TBaselineShift),
        Prim::YBaselineShift => Place::Dim(DimParam::YBaselineShift),
        _ => glue_param(prim),
    }
}

fn glue_param(prim: Prim) -> Place
    ensures { result ≡ named_glue prim }
{
    match prim {
        Prim::BaselineSkip => Place::Glue(GlueParam::BaselineSkip),
        Prim::LineSkip => Place::Glue(GlueParam::LineSkip),
        Prim::ParSkip => Place::Glue(GlueParam::ParSkip),
        Prim::TopSkip => Place::Glue(GlueParam::TopSkip),
        Prim::LeftSkip => Place::Glue(GlueParam::LeftSkip),
        Prim::RightSkip => Place::Glue(GlueParam::RightSkip),
        Prim::ParFillSkip => Place::Glue(GlueParam::ParFillSkip),
        Prim::KanjiSkip => Place::Glue(GlueParam::KanjiSkip),
        Prim::XKanjiSkip => Place::Glue(GlueParam::XKanjiSkip),
        _ => register(prim),
    }
}

fn register(prim: Prim) -> Place
    ensures { result ≡ named_register prim }
{
    match prim {
        Prim::Count => Place::Register(Register::Count),
        Prim::Dimen => Place::Register(Register::Dimen),
        Prim::Skip => Place::Register(Register::Skip),
        Prim::Wd => Place::Register(Register::Measure(Side::Wd)),
        Prim::Ht => Place::Register(Register::Measure(Side::Ht)),
        Prim::Dp => Place::Register(Register::Measure(Side::Dp)),
        Prim::CatCode => Place::Register(Register::Code(CodeKind::Cat)),
        Prim::KCatCode => Place::Register(Register::Code(CodeKind::Kcat)),
        Prim::XspCode => Place::Register(Register::Code(CodeKind::Xsp)),
        Prim::InhibitXspCode => Place::Register(Register::Code(CodeKind::InhibitXsp)),
        Prim::PreBreakPenalty => Place::Register(Register::Code(CodeKind::Pre)),
        Prim::PostBreakPenalty => Place::Register(Register::Code(CodeKind::Post)),
        _ => Place::Nothing,
    }
}

/// Where a primitive finds what it holds.
#[tactic(auto, unfolding(crate::specs::Primitives::place_of))]
pub(crate) fn place_of(prim: Prim) -> Place
    ensures { result ≡ the_place_of prim }
{
    int_param(prim)
}
