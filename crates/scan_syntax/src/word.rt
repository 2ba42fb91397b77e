//! Keywords that are no units.

ghost use Rattle.std.specs.Prelude.{◌≡◌};
ghost use Rattle.scan_syntax.specs.Words.{word_letters, letters_of};

/// A keyword that may be looked for.
#[derive(Clone, Copy, Debug, PartialEq, Eq, Hash)]
pub enum Word {
    At,
    Scaled,
    By,
    Width,
    Height,
    Depth,
}

/// A keyword that is looked for, alone or as a part of something.
#[derive(Clone, Copy, Debug, PartialEq, Eq)]
pub(crate) enum Sought {
    Word(Word),
    Plus,
    Minus,
    To,
    Spread,
}

fn of_word(word: Word) -> &'static [u8]
    ensures { result.now ≡ word_letters word }
{
    match word {
        Word::At => b"at",
        Word::Scaled => b"scaled",
        Word::By => b"by",
        Word::Width => b"width",
        Word::Height => b"height",
        Word::Depth => b"depth",
    }
}

impl Sought {
    pub(crate) fn letters(self) -> &'static [u8]
        ensures { result.now ≡ letters_of self }
    {
        match self {
            Sought::Word(word) => of_word(word),
            Sought::Plus => b"plus",
            Sought::Minus => b"minus",
            Sought::To => b"to",
            Sought::Spread => b"spread",
        }
    }
}
