//! What primitives do that are expanded.

use env_groups::MacroDef;
use raw_texts::Limb;

/// A test that reads no token (The TeXbook, chapter 20; pTeX).
#[derive(Clone, Copy, Debug, PartialEq, Eq)]
pub enum Question {
    True,
    False,
    /// `\ifvmode`.
    VMode,
    /// `\ifhmode`.
    HMode,
    /// `\ifinner`.
    Inner,
    /// `\ifydir`.
    YDir,
    /// `\iftdir`.
    TDir,
    /// `\ifddir`.
    DDir,
}

/// In what a number spells a Japanese character (pTeX).
#[derive(Clone, Copy, Debug, PartialEq, Eq)]
pub enum CharNumber {
    /// `\jis`.
    Jis,
    /// `\euc`.
    Euc,
    /// `\sjis`.
    Sjis,
    /// `\kuten`.
    Kuten,
}

/// What a value that is scanned is printed as (The TeXbook, chapter 20; pTeX).
#[derive(Clone, Copy, Debug, PartialEq, Eq)]
pub enum Printing {
    /// `\number`.
    Number,
    /// `\romannumeral`.
    RomanNumeral,
    /// `\the`.
    The,
    /// The internal code of the Japanese character that a number spells.
    Code(CharNumber),
}

/// A test of what a box register holds (The TeXbook, chapter 20).
#[derive(Clone, Copy, Debug, PartialEq, Eq)]
pub enum BoxTest {
    /// `\ifvoid`.
    Void,
    /// `\ifhbox`.
    HBox,
    /// `\ifvbox`.
    VBox,
}

/// A test of one number (The TeXbook, chapter 20).
#[derive(Clone, Copy, Debug, PartialEq, Eq)]
pub enum NumberTest {
    /// `\ifodd`.
    Odd,
    /// `\ifcase`.
    Case,
    /// A test of the box register of the number.
    Register(BoxTest),
}

/// How two values stand to each other (The TeXbook, chapter 20).
#[derive(Clone, Copy, Debug, PartialEq, Eq)]
pub enum Relation {
    Less,
    Equal,
    Greater,
}

/// By what two characters are compared (The TeXbook, chapter 20).
#[derive(Clone, Copy, Debug, PartialEq, Eq)]
pub enum Aspect {
    /// `\if`.
    Code,
    /// `\ifcat`.
    Category,
}

/// What a primitive does that expands further tokens (The TeXbook, chapter 20).
#[derive(Clone, Copy, Debug, PartialEq, Eq)]
pub enum Further {
    ExpandAfter,
    /// It scans a value, and prints it.
    Prints(Printing),
    /// It scans a number, and tests it.
    Tests(NumberTest),
    IfNum,
    IfDim,
    /// It compares two characters.
    Compares(Aspect),
    CsName,
    Input,
}

/// What a primitive does where it is expanded (The TeXbook, chapter 20).
#[derive(Clone, Copy, Debug, PartialEq, Eq)]
pub enum Action {
    NoExpand,
    String,
    EndInput,
    /// `\else`, `\or` or `\fi`.
    Ends(Limb),
    /// A test that reads no token.
    Asks(Question),
    IfX,
    /// It expands further tokens.
    Further(Further),
    /// It isn't expanded.
    Unexpandable,
}

/// What a token is that stands at the front.
#[derive(Drop)]
pub enum Front {
    /// An undefined name.
    Undefined,
    /// The name of a macro.
    Call(MacroDef),
    /// A primitive that is expanded, or a token that isn't.
    Acts(Action),
}
