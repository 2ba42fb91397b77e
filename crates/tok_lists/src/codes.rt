//! The codes by which characters become tokens.

ghost use Rattle.std.specs.Prelude.{◌≡◌, ◌≤◌};
ghost use Rattle.std.proofs.Common.{lit≤};

use jis_codes::Cell;

/// The categories of characters of one byte (The TeXbook, chapter 7) and the kinds of Japanese
/// characters (pTeX: 16 kanji, 17 kana, 18 other).
pub trait CodeTable {
    ghost use Rattle.tok_lists.specs.Codes.{Codes, AreCodes};

    /// The category of each code, and the kind of each cell.
    ghost codes: { Self → Codes };

    /// Returns the category of a code, from 0 to 15.
    fn cat(&self, code: u8) -> u8
        ensures value { result ≡ (codes self.now).cat code }
        ensures most { result ≤ 15 };

    /// Returns the kind of a cell, from 16 to 18.
    fn kcat(&self, cell: Cell) -> u8
        ensures value { result ≡ (codes self.now).kcat cell }
        ensures least { 16 ≤ result }
        ensures most { result ≤ 18 };

    /// Categories are from 0 to 15, and kinds from 16 to 18.
    ghost bounds: { (table : Self) → AreCodes (codes table) };
}

#[cfg(test)]
mod tests {
    use super::*;
    use std::test::Fail;

    struct AllOther;

    impl CodeTable for AllOther {
        ghost codes = { λ _. record { cat = λ _. 12; kcat = λ _. 18 } };

        ghost bounds = { λ _. (λ _. lit≤ tt, λ _. (lit≤ tt, lit≤ tt)) };

        fn cat(&self, _code: u8) -> u8 {
            12
        }

        fn kcat(&self, _cell: Cell) -> u8 {
            18
        }
    }

    fn of_both<C: CodeTable>(codes: &C, code: u8, cell: Cell) -> [u8; 2] {
        let of_categories = [0; 16];
        let of_kinds = [1; 3];
        [
            codes.cat(code) + of_categories[codes.cat(code) as usize],
            codes.kcat(cell) + of_kinds[codes.kcat(cell) as usize - 16],
        ]
    }

    #[test]
    fn codes_are_within_their_tables(rt: HostRuntime) -> Result<(), Fail> {
        let cell = Cell::new(4, 2).ok_or("no cell")?;
        assert_eq!(rt; of_both(&AllOther, 65, cell), [12, 19]);
        Ok(())
    }
}
