//! What a token does in its turn.

ghost use Rattle.std.specs.Prelude.{◌≡◌};
ghost use Rattle.main_control.specs.Commands.{nothing as the_nothing, refuses as the_refuses, groups_so as the_groups_so, puts as the_puts, category_command as the_category_command, letter_command as the_letter_command, primitive_command as the_primitive_command, code_command as the_code_command, plain_command as the_plain_command, command_of as the_command_of};
ghost use Rattle.main_control.specs.Lists.{cuts as the_cuts, is_missing as the_missing, no_box as the_no_box};

use assignments::{Assignment, Grouping, command_of as assignment_of};
use control_faults::FaultKind;
use env_groups::{GroupKind, Meaning, Prim};
use jis_codes::Char;
use list_commands::char_of;
use tok_lists::Token;

/// What touches what is read and the environments alone.
#[derive(Clone, Copy, PartialEq, Eq)]
pub(crate) enum TextCommand {
    Nothing,
    /// A group begins or ends.
    Group(Grouping),
    /// It is refused with this fault, before anything more is read.
    Refuse(FaultKind),
    /// `\ignorespaces`.
    IgnoreSpaces,
}

/// What ships nothing.
#[derive(Clone, Copy, PartialEq, Eq)]
pub(crate) enum QuietCommand {
    Text(TextCommand),
    /// It assigns, or is a prefix of what assigns.
    Assign(assignments::Command),
    /// A character comes into the innermost list.
    Put(Char),
    /// `\char`.
    PutNumbered,
    /// `\inhibitglue`.
    Inhibit,
    Space,
    /// `\shipout`.
    ShipOut,
}

/// What a token does in its turn.
#[derive(Clone, Copy, PartialEq, Eq)]
pub(crate) enum Command {
    Quiet(QuietCommand),
    /// A group of braces ends, or the list of a box.
    CloseBrace,
    /// `\end`.
    End,
}

impl Command {
    /// Returns whether the command ends the run of characters before it.
    pub(crate) fn cuts(&self) -> bool
        ensures { result ≡ the_cuts self.now }
    {
        !matches!(
            self,
            Command::Quiet(QuietCommand::Put(_))
                | Command::Quiet(QuietCommand::PutNumbered)
                | Command::Quiet(QuietCommand::Inhibit)
        )
    }

    // Whether the command is refused as one that isn't built.
    fn is_missing(&self) -> bool
        ensures { result ≡ the_missing self.now }
    {
        match self {
            Command::Quiet(QuietCommand::Text(TextCommand::Refuse(FaultKind::NotBuilt))) => true,
            Command::Quiet(QuietCommand::Assign(assignments::Command::Assigns(assignment))) => {
                matches!(assignment, Assignment::SetBox | Assignment::Measure(_))
            }
            _ => false,
        }
    }
}

fn nothing() -> Command
    ensures { result ≡ the_nothing }
{
    Command::Quiet(QuietCommand::Text(TextCommand::Nothing))
}

fn refuses(kind: FaultKind) -> Command
    ensures { result ≡ the_refuses kind }
{
    Command::Quiet(QuietCommand::Text(TextCommand::Refuse(kind)))
}

fn groups_so(grouping: Grouping) -> Command
    ensures { result ≡ the_groups_so grouping }
{
    Command::Quiet(QuietCommand::Text(TextCommand::Group(grouping)))
}

fn puts(c: Char) -> Command
    ensures { result ≡ the_puts c }
{
    Command::Quiet(QuietCommand::Put(c))
}

// What a character of one byte does, by its category.
fn category_command(code: u8, cat: u8) -> Command
    ensures { result ≡ the_category_command code cat }
{
    match cat {
        1 => groups_so(Grouping::Begin(GroupKind::Simple)),
        2 => Command::CloseBrace,
        10 => Command::Quiet(QuietCommand::Space),
        11 | 12 => puts(Char::One(code)),
        3 | 4 | 6 | 7 | 8 => refuses(FaultKind::LeftOut),
        _ => refuses(FaultKind::NotBuilt),
    }
}

fn letter_command(token: &Token) -> Command
    ensures { result ≡ the_letter_command token.now }
{
    match token {
        Token::Char(code, cat) => category_command(*code, *cat),
        Token::Ja(cell) => puts(Char::Ja(*cell)),
        _ => refuses(FaultKind::NotBuilt),
    }
}

fn primitive_command(prim: Prim) -> Command
    ensures { result ≡ the_primitive_command prim }
{
    match prim {
        Prim::Relax | Prim::Par => nothing(),
        Prim::BeginGroup => groups_so(Grouping::Begin(GroupKind::Semi)),
        Prim::EndGroup => groups_so(Grouping::End(GroupKind::Semi)),
        Prim::EndCsName => refuses(FaultKind::CsnameEnd),
        Prim::IgnoreSpaces => Command::Quiet(QuietCommand::Text(TextCommand::IgnoreSpaces)),
        Prim::Char => Command::Quiet(QuietCommand::PutNumbered),
        Prim::InhibitGlue => Command::Quiet(QuietCommand::Inhibit),
        Prim::ShipOut => Command::Quiet(QuietCommand::ShipOut),
        Prim::End => Command::End,
        _ => refuses(FaultKind::NotBuilt),
    }
}

// What the character of a code does that `\chardef` gave.
fn code_command(c: Option<Char>) -> Command
    ensures { result ≡ the_code_command c }
{
    match c {
        Some(c) => puts(c),
        None => refuses(FaultKind::CodeRange),
    }
}

// What a token does that neither assigns nor is a prefix.
fn plain_command(meaning: &Meaning) -> Command
    ensures { result ≡ the_plain_command meaning.now }
{
    match meaning {
        Meaning::Primitive(prim) => primitive_command(*prim),
        Meaning::Letter(token) => letter_command(token),
        Meaning::Code(code) => code_command(char_of(*code)),
        _ => refuses(FaultKind::NotBuilt),
    }
}

/// Returns what a token of this meaning does.
pub(crate) fn command_of(meaning: &Meaning) -> Command
    ensures { result ≡ the_command_of meaning.now }
{
    match assignment_of(meaning) {
        assignments::Command::Other => plain_command(meaning),
        command => Command::Quiet(QuietCommand::Assign(command)),
    }
}

/// Returns why a token of this meaning begins no box, where it doesn't: what isn't built comes
/// before what is no box.
pub(crate) fn no_box(meaning: &Meaning) -> Option<FaultKind>
    ensures { result ≡ the_no_box meaning.now }
{
    if matches!(meaning, Meaning::Primitive(Prim::HBox)) {
        return None;
    }
    if command_of(meaning).is_missing() {
        Some(FaultKind::NotBuilt)
    } else {
        Some(FaultKind::NotInMode)
    }
}
