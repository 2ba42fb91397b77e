//! What a DVI file has wrong.

/// The kind of a fault of a DVI file. Where one command has several, the first of this list counts.
#[derive(Clone, Copy, Debug, PartialEq, Eq, Hash)]
pub enum DviKind {
    /// The command's bytes aren't all there, or the file ends before post_post.
    Truncated,
    /// The byte begins no command.
    Opcode,
    /// The first command isn't pre with the identification 2, the fraction 25400000/473628672 and
    /// the magnification 1000.
    Preamble,
    /// Another command has to stand here.
    Misplaced,
    /// The pointer of bop or post isn't the place of the last bop before it, -1 where there is
    /// none; or that of post_post isn't the place of post.
    BackPointer,
    /// The name is none of a file, or isn't with the ending of a metric file; the size isn't 1 to
    /// 2^23 - 1; or the number has another definition.
    FontDef,
    /// A number without definition is selected, or a glyph comes with no font.
    FontUndefined,
    /// The font has no such character.
    Width,
    /// pop comes with nothing pushed, or eop with something pushed.
    Stack,
    /// The byte of a direction isn't 0, 1 or 3.
    Direction,
    /// A coordinate passes 2^31 - 1 in absolute value.
    Range,
    /// The number of pages is wrong, the identification isn't 2 or 3, a byte of the fill isn't 223,
    /// there are fewer than four of them, or the file's length isn't a multiple of four.
    Postamble,
}

/// The first fault of a DVI file.
#[derive(Clone, Copy, Debug, PartialEq, Eq, Hash)]
pub struct DviBad {
    /// The place of the first byte of the bad command, of the bad byte of the fill, or of the
    /// file's end.
    pub at: usize,
    pub kind: DviKind,
}
