//! Which tokens are expanded.

ghost use Rattle.std.specs.Prelude.{◌≡◌};
ghost use Rattle.expander.specs.Actions.{action_of as the_action_of, is_expanded as the_expanded, front_of as the_front, expands as the_expands, IsSound};
ghost use Rattle.expander.specs.Definitions.{is_the as the_is_the};
ghost use Rattle.expander.specs.Questions.{answer as the_answer, is_vertical, is_horizontal, is_inner};

use crate::action::{
    Action, Aspect, BoxTest, CharNumber, Front, Further, NumberTest, Printing, Question,
};
use env_groups::{Env, Meaning, Mode, Prim, Situation};
use raw_texts::Limb;
use tok_lists::Token;
use ts_geometry::Dir;

/// Returns what a primitive does where it is expanded.
pub(crate) fn action_of(prim: Prim) -> Action
    ensures { result ≡ the_action_of prim }
{
    match prim {
        Prim::ExpandAfter => Action::Further(Further::ExpandAfter),
        Prim::NoExpand => Action::NoExpand,
        Prim::String => Action::String,
        Prim::EndInput => Action::EndInput,
        Prim::Else => Action::Ends(Limb::Else),
        Prim::Or => Action::Ends(Limb::Or),
        Prim::Fi => Action::Ends(Limb::Fi),
        Prim::IfX => Action::IfX,
        Prim::IfTrue => Action::Asks(Question::True),
        Prim::IfFalse => Action::Asks(Question::False),
        Prim::IfVMode => Action::Asks(Question::VMode),
        Prim::IfHMode => Action::Asks(Question::HMode),
        Prim::IfInner => Action::Asks(Question::Inner),
        Prim::IfYDir => Action::Asks(Question::YDir),
        Prim::IfTDir => Action::Asks(Question::TDir),
        Prim::IfDDir => Action::Asks(Question::DDir),
        Prim::Number => Action::Further(Further::Prints(Printing::Number)),
        Prim::RomanNumeral => Action::Further(Further::Prints(Printing::RomanNumeral)),
        Prim::The => Action::Further(Further::Prints(Printing::The)),
        Prim::Jis => Action::Further(Further::Prints(Printing::Code(CharNumber::Jis))),
        Prim::Euc => Action::Further(Further::Prints(Printing::Code(CharNumber::Euc))),
        Prim::Sjis => Action::Further(Further::Prints(Printing::Code(CharNumber::Sjis))),
        Prim::Kuten => Action::Further(Further::Prints(Printing::Code(CharNumber::Kuten))),
        Prim::IfNum => Action::Further(Further::IfNum),
        Prim::IfDim => Action::Further(Further::IfDim),
        Prim::IfOdd => Action::Further(Further::Tests(NumberTest::Odd)),
        Prim::IfVoid => Action::Further(Further::Tests(NumberTest::Register(BoxTest::Void))),
        Prim::IfHBox => Action::Further(Further::Tests(NumberTest::Register(BoxTest::HBox))),
        Prim::IfVBox => Action::Further(Further::Tests(NumberTest::Register(BoxTest::VBox))),
        Prim::IfCase => Action::Further(Further::Tests(NumberTest::Case)),
        Prim::If => Action::Further(Further::Compares(Aspect::Code)),
        Prim::IfCat => Action::Further(Further::Compares(Aspect::Category)),
        Prim::CsName => Action::Further(Further::CsName),
        Prim::Input => Action::Further(Further::Input),
        _ => Action::Unexpandable,
    }
}

fn is_expanded(action: Action) -> bool
    ensures { result ≡ the_expanded action }
{
    !matches!(action, Action::Unexpandable)
}

/// Returns what a token is that stands at the front. A Kept token isn't expanded.
pub(crate) fn front_of(token: &Token, env: &Env) -> Front
    ensures value { result ≡ the_front env.now token.now }
    ensures sound { IsSound result }
{
    let Token::Name(name) = token else {
        return Front::Acts(Action::Unexpandable);
    };
    match env.get_meaning(*name) {
        Meaning::Undefined => Front::Undefined,
        Meaning::Macro(definition) => Front::Call(definition),
        Meaning::Primitive(prim) => Front::Acts(action_of(prim)),
        _ => Front::Acts(Action::Unexpandable),
    }
}

/// Returns whether a token is expanded: an undefined name, a macro, or a primitive that is.
pub(crate) fn is_expandable(token: &Token, env: &Env) -> bool
    ensures { result ≡ the_expands env.now token.now }
{
    match front_of(token, env) {
        Front::Undefined | Front::Call(_) => true,
        Front::Acts(action) => is_expanded(action),
    }
}

/// Returns whether a token is expanded as `\the`.
pub(crate) fn is_the(token: &Token, env: &Env) -> bool
    ensures { result ≡ the_is_the (the_front env.now token.now) }
{
    matches!(
        front_of(token, env),
        Front::Acts(Action::Further(Further::Prints(Printing::The)))
    )
}

fn is_vertical_mode(mode: Mode) -> bool
    ensures { result ≡ is_vertical mode }
{
    matches!(mode, Mode::Outer | Mode::InnerVertical)
}

fn is_horizontal_mode(mode: Mode) -> bool
    ensures { result ≡ is_horizontal mode }
{
    matches!(mode, Mode::Paragraph | Mode::Restricted)
}

fn is_inner_mode(mode: Mode) -> bool
    ensures { result ≡ is_inner mode }
{
    matches!(mode, Mode::InnerVertical | Mode::Restricted)
}

/// Returns the answer of a test in a situation.
pub(crate) fn answer(situation: Situation, question: Question) -> bool
    ensures { result ≡ the_answer situation question }
{
    match question {
        Question::True => true,
        Question::False => false,
        Question::VMode => is_vertical_mode(situation.mode),
        Question::HMode => is_horizontal_mode(situation.mode),
        Question::Inner => is_inner_mode(situation.mode),
        Question::YDir => matches!(situation.dir, Dir::Yoko),
        Question::TDir => matches!(situation.dir, Dir::Tate),
        Question::DDir => matches!(situation.dir, Dir::Dtou),
    }
}
