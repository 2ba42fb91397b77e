//! Parameters.

ghost use Rattle.std.specs.Prelude.{◌≡◌, ◌<◌};
ghost use Rattle.env_groups.specs.Parameters.{int_param_number, dim_param_number, glue_param_number, int_params, dim_params, glue_params, int_param_start, dim_param_start, glue_param_start, points, finite};
ghost use Rattle.box_tree.specs.Bounds.{IsDimen};
ghost use Rattle.env_groups.specs.Bounds.{IsInt, HasSetDimens};

use ts_geometry::{Glue, MAX_DIMEN, Order, Sp};

/// An integer parameter (The TeXbook, chapter 24; pTeX).
#[derive(Clone, Copy, Debug, PartialEq, Eq, Hash)]
pub enum IntParam {
    Pretolerance,
    Tolerance,
    LinePenalty,
    AdjDemerits,
    InterlinePenalty,
    ClubPenalty,
    WidowPenalty,
    JcharWidowPenalty,
    OutputPenalty,
    DeadCycles,
    /// The space between Japanese characters: 1 for on, 0 for off. No source names it.
    AutoSpacing,
    /// The space between Japanese and European characters: 1 for on, 0 for off. No source names it.
    AutoXspacing,
}

/// A dimension parameter (The TeXbook, chapter 24; pTeX).
#[derive(Clone, Copy, Debug, PartialEq, Eq, Hash)]
pub enum DimParam {
    HSize,
    VSize,
    ParIndent,
    MaxDepth,
    BoxMaxDepth,
    LineSkipLimit,
    EmergencyStretch,
    TBaselineShift,
    YBaselineShift,
}

/// A glue parameter (The TeXbook, chapter 24; pTeX).
#[derive(Clone, Copy, Debug, PartialEq, Eq, Hash)]
pub enum GlueParam {
    BaselineSkip,
    LineSkip,
    ParSkip,
    TopSkip,
    LeftSkip,
    RightSkip,
    ParFillSkip,
    KanjiSkip,
    XKanjiSkip,
}

/// A parameter that is a list of tokens (The TeXbook, chapter 24).
#[derive(Clone, Copy, Debug, PartialEq, Eq, Hash)]
pub enum ToksParam {
    Output,
}

impl IntParam {
    /// Returns its number.
    pub(crate) fn number(self) -> usize
        ensures value { result ≡ int_param_number self }
        ensures most { result < int_params }
    {
        match self {
            IntParam::Pretolerance => 0,
            IntParam::Tolerance => 1,
            IntParam::LinePenalty => 2,
            IntParam::AdjDemerits => 3,
            IntParam::InterlinePenalty => 4,
            IntParam::ClubPenalty => 5,
            IntParam::WidowPenalty => 6,
            IntParam::JcharWidowPenalty => 7,
            IntParam::OutputPenalty => 8,
            IntParam::DeadCycles => 9,
            IntParam::AutoSpacing => 10,
            IntParam::AutoXspacing => 11,
        }
    }

    /// Returns what it is at the start.
    pub(crate) fn start(self) -> i64
        ensures value { result ≡ int_param_start self }
        ensures within { IsInt result }
    {
        match self {
            IntParam::Pretolerance => 100,
            IntParam::Tolerance => 200,
            IntParam::LinePenalty => 10,
            IntParam::AdjDemerits => 10_000,
            IntParam::ClubPenalty | IntParam::WidowPenalty => 150,
            IntParam::JcharWidowPenalty => 500,
            IntParam::InterlinePenalty | IntParam::OutputPenalty | IntParam::DeadCycles => 0,
            IntParam::AutoSpacing | IntParam::AutoXspacing => 1,
        }
    }
}

impl DimParam {
    /// Returns its number.
    pub(crate) fn number(self) -> usize
        ensures value { result ≡ dim_param_number self }
        ensures most { result < dim_params }
    {
        match self {
            DimParam::HSize => 0,
            DimParam::VSize => 1,
            DimParam::ParIndent => 2,
            DimParam::MaxDepth => 3,
            DimParam::BoxMaxDepth => 4,
            DimParam::LineSkipLimit => 5,
            DimParam::EmergencyStretch => 6,
            DimParam::TBaselineShift => 7,
            DimParam::YBaselineShift => 8,
        }
    }

    /// Returns what it is at the start, in scaled points.
    pub(crate) fn start(self) -> Sp
        ensures value { result ≡ dim_param_start self }
        ensures within { IsDimen result }
    {
        match self {
            DimParam::HSize => Sp(30_785_863),
            DimParam::VSize => Sp(42_152_922),
            DimParam::ParIndent => points(20),
            DimParam::MaxDepth => points(4),
            DimParam::BoxMaxDepth => MAX_DIMEN,
            DimParam::LineSkipLimit
            | DimParam::EmergencyStretch
            | DimParam::TBaselineShift
            | DimParam::YBaselineShift => Sp(0),
        }
    }
}

impl GlueParam {
    /// Returns its number.
    pub(crate) fn number(self) -> usize
        ensures value { result ≡ glue_param_number self }
        ensures most { result < glue_params }
    {
        match self {
            GlueParam::BaselineSkip => 0,
            GlueParam::LineSkip => 1,
            GlueParam::ParSkip => 2,
            GlueParam::TopSkip => 3,
            GlueParam::LeftSkip => 4,
            GlueParam::RightSkip => 5,
            GlueParam::ParFillSkip => 6,
            GlueParam::KanjiSkip => 7,
            GlueParam::XKanjiSkip => 8,
        }
    }

    /// Returns what it is at the start, in scaled points.
    pub(crate) fn start(self) -> Glue
        ensures value { result ≡ glue_param_start self }
        ensures within { HasSetDimens result }
    {
        match self {
            GlueParam::BaselineSkip => finite(points(12), Sp(0), Sp(0)),
            GlueParam::LineSkip => finite(points(1), Sp(0), Sp(0)),
            GlueParam::ParSkip => finite(Sp(0), points(1), Sp(0)),
            GlueParam::TopSkip => finite(points(10), Sp(0), Sp(0)),
            GlueParam::LeftSkip | GlueParam::RightSkip => ZERO_GLUE,
            GlueParam::ParFillSkip => Glue {
                stretch: points(1),
                stretch_order: Order::Fil,
                ..ZERO_GLUE
            },
            GlueParam::KanjiSkip => finite(Sp(0), Sp(26_214), Sp(26_214)),
            GlueParam::XKanjiSkip => finite(Sp(163_840), points(1), points(1)),
        }
    }
}

/// Glue of no width that neither stretches nor shrinks.
pub(crate) const ZERO_GLUE: Glue = Glue {
    width: Sp(0),
    stretch: Sp(0),
    stretch_order: Order::Normal,
    shrink: Sp(0),
    shrink_order: Order::Normal,
};

/// Returns so many printer's points.
fn points(count: u8) -> Sp
    ensures { result ≡ points count }
{
    Sp(i64::from(count) * 65_536)
}

/// Returns glue of finite stretch and shrink.
fn finite(width: Sp, stretch: Sp, shrink: Sp) -> Glue
    ensures { result ≡ finite width stretch shrink }
{
    Glue {
        width,
        stretch,
        shrink,
        ..ZERO_GLUE
    }
}
