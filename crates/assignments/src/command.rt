//! Which meanings are assignments.

ghost use Rattle.std.specs.Prelude.{◌≡◌};
ghost use Rattle.assignments.specs.declared.variable.Target.TheVariants.{Known};
ghost use Rattle.assignments.specs.declared.command.Command.TheVariants.{Assigns};
ghost use Rattle.assignments.specs.Commands.{sets as the_sets, switches as the_switches, defines as the_defines, named_int, named_dim, named_glue, named_register, primitive_command as the_primitive_command, command_of as the_command_of, meant as the_meant, is_built as the_is_built, command_in as the_command_in};
ghost use Rattle.assignments.specs.Seeking.{prefixed as the_prefixed};

use crate::variable::{Numbered, Target, Variable};
use box_tree::{FontNo, Side};
use env_groups::{
    DimKey, DimParam, Env, GlueKey, GlueParam, IntKey, IntParam, Meaning, Prim, ToksKey, ToksParam,
};
use raw_texts::meaning_of;
use scan_numbers::CodeKind;
use tok_lists::Token;

/// What is calculated (The TeXbook, chapter 24).
#[derive(Clone, Copy, Debug, PartialEq, Eq)]
pub enum Operation {
    Advance,
    Multiply,
    Divide,
}

/// What a name is made to stand for by a number (TeX: The Program, section 1222).
#[derive(Clone, Copy, Debug, PartialEq, Eq)]
pub enum Shorthand {
    /// `\chardef`.
    Char,
    /// `\countdef`.
    Count,
    /// `\dimendef`.
    Dimen,
    /// `\skipdef`.
    Skip,
    /// `\toksdef`.
    Toks,
}

/// How a macro is defined: `\def` does neither, `\edef` expands the body, `\gdef` is global, and
/// `\xdef` does both.
#[derive(Clone, Copy, Debug, PartialEq, Eq)]
pub struct Defining {
    pub is_expanded: bool,
    pub is_global: bool,
}

/// What assigns (The TeXbook, chapter 24; pTeX).
#[derive(Clone, Copy, PartialEq, Eq)]
pub enum Assignment {
    /// A parameter, a register or a code.
    Set(Target),
    /// `\deadcycles`, which is always global.
    DeadCycles,
    /// A switch of spacing, on or off.
    Switch(IntParam, bool),
    Calculate(Operation),
    Let,
    Shorthand(Shorthand),
    Define(Defining),
    /// `\font`; not here.
    LoadFont,
    /// The name of a font; not here.
    SelectFont(FontNo),
    /// Not here.
    SetBox,
    /// `\wd`, `\ht` or `\dp`; not here.
    Measure(Side),
}

/// What stands before an assignment.
#[derive(Clone, Copy, Debug, PartialEq, Eq)]
pub enum Prefix {
    Global,
    Long,
}

/// The prefixes that stand before an assignment.
#[derive(Clone, Copy, Debug, PartialEq, Eq)]
pub struct Prefixes {
    pub is_global: bool,
    pub is_long: bool,
}

/// What a meaning is to assignments.
#[derive(Clone, Copy, PartialEq, Eq)]
pub enum Command {
    Prefix(Prefix),
    Assigns(Assignment),
    /// No assignment.
    Other,
}

impl Prefixes {
    /// Returns the prefixes with one more.
    pub(crate) fn with(self, prefix: Prefix) -> Prefixes
        ensures { result ≡ the_prefixed self prefix }
    {
        match prefix {
            Prefix::Global => Prefixes {
                is_global: true,
                ..self
            },
            Prefix::Long => Prefixes {
                is_long: true,
                ..self
            },
        }
    }
}

impl Assignment {
    /// Returns whether the assignment has its step here: fonts, `\setbox` and the measures of boxes
    /// have none.
    pub fn is_built(&self) -> bool
        ensures { result ≡ the_is_built self.now }
    {
        !matches!(
            self,
            Assignment::LoadFont
                | Assignment::SelectFont(_)
                | Assignment::SetBox
                | Assignment::Measure(_)
        )
    }
}

fn sets(variable: Variable) -> Command
    ensures { result ≡ the_sets (Known variable) }
{
    Command::Assigns(Assignment::Set(Target::Known(variable)))
}

fn int_param(prim: Prim) -> Command
    ensures { result ≡ named_int prim }
{
    let param = match prim {
        Prim::Pretolerance => IntParam::Pretolerance,
        Prim::Tolerance => IntParam::Tolerance,
        Prim::LinePenalty => IntParam::LinePenalty,
        Prim::AdjDemerits => IntParam::AdjDemerits,
        Prim::InterlinePenalty => IntParam::InterlinePenalty,
        Prim::ClubPenalty => IntParam::ClubPenalty,
        Prim::WidowPenalty => IntParam::WidowPenalty,
        Prim::JcharWidowPenalty => IntParam::JcharWidowPenalty,
        Prim::OutputPenalty => IntParam::OutputPenalty,
        _ => return Command::Other,
    };
    sets(Variable::Int(IntKey::Param(param)))
}

fn dim_param(prim: Prim) -> Command
    ensures { result ≡ named_dim prim }
{
    let param = match prim {
        Prim::HSize => DimParam::HSize,
        Prim::VSize => DimParam::VSize,
        Prim::ParIndent => DimParam::ParIndent,
        Prim::MaxDepth => DimParam::MaxDepth,
        Prim::BoxMaxDepth => DimParam::BoxMaxDepth,
        Prim::LineSkipLimit => DimParam::LineSkipLimit,
        Prim::EmergencyStretch => DimParam::EmergencyStretch,
        Prim::TBaselineShift => DimParam::TBaselineShift,
        Prim::YBaselineShift => DimParam::YBaselineShift,
        _ => return int_param(prim),
    };
    sets(Variable::Dim(DimKey::Param(param)))
}

fn glue_param(prim: Prim) -> Command
    ensures { result ≡ named_glue prim }
{
    let param = match prim {
        Prim::BaselineSkip => GlueParam::BaselineSkip,
        Prim::LineSkip => GlueParam::LineSkip,
        Prim::ParSkip => GlueParam::ParSkip,
        Prim::TopSkip => GlueParam::TopSkip,
        Prim::LeftSkip => GlueParam::LeftSkip,
        Prim::RightSkip => GlueParam::RightSkip,
        Prim::ParFillSkip => GlueParam::ParFillSkip,
        Prim::KanjiSkip => GlueParam::KanjiSkip,
        Prim::XKanjiSkip => GlueParam::XKanjiSkip,
        _ => return dim_param(prim),
    };
    sets(Variable::Glue(GlueKey::Param(param)))
}

fn switches(param: IntParam, on: bool) -> Command
    ensures { result ≡ the_switches param on }
{
    Command::Assigns(Assignment::Switch(param, on))
}

// What sets a register, a code or a switch.
fn register(prim: Prim) -> Command
    ensures { result ≡ named_register prim }
{
    let kind = match prim {
        Prim::Count => Numbered::Count,
        Prim::Dimen => Numbered::Dimen,
        Prim::Skip => Numbered::Skip,
        Prim::Toks => Numbered::Toks,
        Prim::CatCode => Numbered::Code(CodeKind::Cat),
        Prim::KCatCode => Numbered::Code(CodeKind::Kcat),
        Prim::XspCode => Numbered::Code(CodeKind::Xsp),
        Prim::InhibitXspCode => Numbered::Code(CodeKind::InhibitXsp),
        Prim::PreBreakPenalty => Numbered::Code(CodeKind::Pre),
        Prim::PostBreakPenalty => Numbered::Code(CodeKind::Post),
        Prim::Output => return sets(Variable::Toks(ToksKey::Param(ToksParam::Output))),
        Prim::AutoSpacing => return switches(IntParam::AutoSpacing, true),
        Prim::NoAutoSpacing => return switches(IntParam::AutoSpacing, false),
        Prim::AutoXspacing => return switches(IntParam::AutoXspacing, true),
        Prim::NoAutoXspacing => return switches(IntParam::AutoXspacing, false),
        _ => return glue_param(prim),
    };
    Command::Assigns(Assignment::Set(Target::OfNumber(kind)))
}

fn defines(is_expanded: bool, is_global: bool) -> Assignment
    ensures { Assigns result ≡ the_defines is_expanded is_global }
{
    Assignment::Define(Defining {
        is_expanded,
        is_global,
    })
}

fn primitive_command(prim: Prim) -> Command
    ensures { result ≡ the_primitive_command prim }
{
    let assignment = match prim {
        Prim::Global => return Command::Prefix(Prefix::Global),
        Prim::Long => return Command::Prefix(Prefix::Long),
        Prim::Def => defines(false, false),
        Prim::EDef => defines(true, false),
        Prim::GDef => defines(false, true),
        Prim::XDef => defines(true, true),
        Prim::Let => Assignment::Let,
        Prim::CharDef => Assignment::Shorthand(Shorthand::Char),
        Prim::CountDef => Assignment::Shorthand(Shorthand::Count),
        Prim::DimenDef => Assignment::Shorthand(Shorthand::Dimen),
        Prim::SkipDef => Assignment::Shorthand(Shorthand::Skip),
        Prim::ToksDef => Assignment::Shorthand(Shorthand::Toks),
        Prim::Advance => Assignment::Calculate(Operation::Advance),
        Prim::Multiply => Assignment::Calculate(Operation::Multiply),
        Prim::Divide => Assignment::Calculate(Operation::Divide),
        Prim::DeadCycles => Assignment::DeadCycles,
        Prim::Font => Assignment::LoadFont,
        Prim::SetBox => Assignment::SetBox,
        Prim::Wd => Assignment::Measure(Side::Wd),
        Prim::Ht => Assignment::Measure(Side::Ht),
        Prim::Dp => Assignment::Measure(Side::Dp),
        _ => return register(prim),
    };
    Command::Assigns(assignment)
}

/// Returns what a meaning is: an assignment, also the name of a register by `\countdef` and its
/// kin, and that of a font; a prefix; or neither.
#[tactic(auto, unfolding(crate::specs::Commands::command_of))]
pub fn command_of(meaning: &Meaning) -> Command
    ensures { result ≡ the_command_of meaning.now }
{
    match meaning {
        Meaning::Primitive(prim) => primitive_command(*prim),
        Meaning::Count(n) => sets(Variable::Int(IntKey::Register(*n))),
        Meaning::Dimen(n) => sets(Variable::Dim(DimKey::Register(*n))),
        Meaning::Skip(n) => sets(Variable::Glue(GlueKey::Register(*n))),
        Meaning::Toks(n) => sets(Variable::Toks(ToksKey::Register(*n))),
        Meaning::Font(font) => Command::Assigns(Assignment::SelectFont(*font)),
        Meaning::Undefined | Meaning::Macro(_) | Meaning::Letter(_) | Meaning::Code(_) => {
            Command::Other
        }
    }
}

/// Returns what a token means that expansion gave: a Kept one is `\relax`.
pub fn meant(token: &Token, env: &Env) -> Meaning
    ensures { result ≡ the_meant env.now token.now }
{
    match token {
        Token::Kept(_) => Meaning::Primitive(Prim::Relax),
        _ => meaning_of(token, env),
    }
}

/// Returns what a token that expansion gave is to assignments.
pub fn command_in(token: &Token, env: &Env) -> Command
    ensures { result ≡ the_command_in env.now token.now }
{
    let meaning = meant(token, env);
    command_of(&meaning)
}
