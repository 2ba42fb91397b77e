//! Lines.

ghost use Rattle.std.specs.Prelude.{◌≡◌};

use jis_codes::Chars;
use std::marker::Model;

/// A line of a file: its characters, with character 13 at the end. Contracts see the list.
#[derive(Debug, Drop)]
pub struct Line {
    chars: Chars,
}

impl Model for Line {
    ghost use Rattle.std.specs.Prelude.{List};
    ghost use Rattle.jis_codes.specs.declared.Char.{Char};

    ghost Value = { List Char };

    ghost view = { λ l. l.chars };
}

impl Line {
    pub(crate) fn new(chars: Chars) -> Line
        ensures { result ≡ chars }
    {
        Line { chars }
    }

    /// Its characters.
    pub fn chars(&self) -> &Chars
        ensures { result.now ≡ self.now }
    {
        &self.chars
    }
}
