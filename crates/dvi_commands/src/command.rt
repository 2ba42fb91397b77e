//! The commands of a DVI file.

/// A text of a file: the place where it begins, and the place after its end, in bytes from 0.
#[derive(Clone, Copy, Debug, PartialEq, Eq, Hash)]
pub struct Part {
    pub start: usize,
    pub end: usize,
}

/// A command (TeX: The Program, sections 585 to 590; 255 is pTeX's). Opcodes that differ only in
/// the number of bytes of a number give the same variant. Measures are in scaled points.
#[derive(Clone, Copy, Debug, PartialEq, Eq, Hash)]
pub enum Command {
    /// Sets the character of this code, and steps along by its width.
    Set(u32),
    /// Sets the character of this code.
    Put(u32),
    /// Sets a rule of this height and width, and steps along by its width.
    SetRule(i32, i32),
    /// Sets a rule of this height and width.
    PutRule(i32, i32),
    /// Does nothing.
    Nop,
    /// Begins a page: its counts, and the place of the page before, -1 where there is none.
    Bop {
        counts: [i32; 10],
        back: i32,
    },
    /// Ends a page.
    Eop,
    /// Saves the point, the direction, and w, x, y and z.
    Push,
    /// Takes back what was saved last.
    Pop,
    /// Steps along.
    Right(i32),
    /// Steps along by w.
    W0,
    /// Steps along by what w is from now on.
    W(i32),
    /// Steps along by x.
    X0,
    /// Steps along by what x is from now on.
    X(i32),
    /// Steps across.
    Down(i32),
    /// Steps across by y.
    Y0,
    /// Steps across by what y is from now on.
    Y(i32),
    /// Steps across by z.
    Z0,
    /// Steps across by what z is from now on.
    Z(i32),
    /// Selects the font of this number.
    Font(i32),
    /// Has a text for other programs.
    Xxx(Part),
    /// Defines a font.
    FontDef {
        number: i32,
        check_sum: u32,
        size: u32,
        design: u32,
        area: Part,
        name: Part,
    },
    /// Begins a file.
    Pre {
        id: u8,
        num: u32,
        den: u32,
        mag: u32,
        comment: Part,
    },
    /// Ends the pages, with the place of the last, -1 where there is none.
    Post {
        back: i32,
        num: u32,
        den: u32,
        mag: u32,
        height: u32,
        width: u32,
        stack: u16,
        pages: u16,
    },
    /// Ends the commands, with the place of post.
    PostPost {
        post: i32,
        id: u8,
    },
    /// Turns to the direction of this byte: 0 yoko, 1 tate, 3 dtou.
    Direction(u8),
}
