//! What a source has wrong.

use ts_geometry::BadKind;

/// The kind of a source's fault. Each ends the run: nothing is recovered.
#[derive(Clone, Copy, Debug, PartialEq, Eq, Hash)]
pub enum FaultKind {
    /// A command isn't built yet.
    NotBuilt,
    /// A byte of a line that is needed begins no character and no escape: its place, from 0.
    BadByte(u32),
    /// The metric of a font is bad: what is wrong with it, and at which byte, from 0.
    FontBad(BadKind, u32),
    /// A character has category 15.
    BadChar,
    /// A line has more than 65,535 bytes before its byte 10.
    LineTooLong,
    /// A file has more than 1,000,000 lines.
    TooManyLines,
    /// A new name comes, and there are 50,000.
    NamesFull,
    /// More than 1,000,000 tokens would be pending in a file.
    TokensFull,
    /// An undefined name is expanded.
    Undefined,
    /// A call's tokens differ from the macro's parameter text, or an argument has an extra `}`.
    UseMismatch,
    /// `\par` stands in an argument of a macro without `\long`.
    ArgParagraph,
    /// A file ends inside an argument, a definition, a token list or skipped text.
    FileEnded,
    /// `#` in a definition isn't followed by what may follow it.
    BadParameter,
    /// `\else`, `\or` or `\fi` has no open conditional that allows it.
    ExtraCond,
    /// `\endcsname` stands alone, or something other than a character before it.
    CsnameEnd,
    /// A needed `{` isn't there.
    NoBrace,
    /// A needed control name or file name isn't there, or isn't valid.
    NoName,
    /// There is no file of this name.
    FileMissing,
    /// A 16th file would be open.
    InputsFull,
    /// No number begins where one is needed.
    NoNumber,
    /// An integer is too great.
    NumberRange,
    /// No unit follows a number that needs one.
    NoUnit,
    /// A dimension is too great.
    DimenRange,
    /// The number of a register isn't from 0 to 255.
    RegisterRange,
    /// A number is none of a character, or none that its code can have.
    CodeRange,
    /// A group ends that isn't open, or while one of another kind is innermost.
    GroupEnd,
    /// 1000 groups are open.
    GroupsFull,
    /// A horizontal list has 200,000 items.
    ListFull,
    /// The weight of a box passes 2,000,000.
    BoxTooLarge,
    /// The depth of a box passes 200.
    BoxTooDeep,
    /// Glue of a paragraph or a page shrinks without end.
    InfiniteShrink,
    /// A coordinate of a shipped box passes 2^29 - 1, or a measure of its rules 2^30 - 1.
    PlaceRange,
    /// 65,535 pages are shipped.
    PagesFull,
    /// The weight of the shipped boxes would pass 20,000,000.
    JobTooLarge,
    /// A command can't be used in this mode, or not here.
    NotInMode,
    /// A character belongs to what is left out: mathematics, alignments, parameters, scripts.
    LeftOut,
    /// A direction comes too late: the list has items, or is a paragraph or an output list.
    DirectionLate,
    /// A box has another direction than is needed.
    DirectionClash,
    /// The size of a font isn't from 1 to 2^23 - 1, or its scale isn't from 1 to 32768.
    FontSize,
    /// 255 fonts are there.
    FontsFull,
    /// A result passes its range, or a divisor is 0.
    Arithmetic,
    /// A page is to be put out, and `\deadcycles` is 25 or more.
    DeadCycles,
    /// Box 255 isn't void where a page is to be put into it, or where the output list has ended.
    OutputHeld,
    /// The main file ends.
    NoEnd,
    /// 200 lists are open, or 200 expansions have begun and not ended.
    DepthFull,
}
