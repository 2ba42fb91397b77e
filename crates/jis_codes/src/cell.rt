//! The cells of JIS X 0208.

ghost use Rattle.std.specs.Prelude.{◌≡◌, ◌≤◌, ◌↔◌, IsSome, IfSome};
ghost use Rattle.jis_codes.specs.Kuten.{IsKuten};

use std::marker::Model;

/// A cell of JIS X 0208: one of 94 rows, and one of the 94 cells of that row, both counted from 1.
/// Contracts see its row and its cell.
#[derive(Clone, Copy, Debug, PartialEq, Eq, Hash)]
pub struct Cell {
    row: u8,
    cell: u8,
}

impl Model for Cell {
    ghost use Rattle.jis_codes.specs.Kuten.{Kuten, IsKuten};

    ghost Value = { Kuten };

    ghost view = { λ c. record { row = c.row; cell = c.cell } };

    ghost invariant = { λ c. IsKuten (record { row = c.row; cell = c.cell }) };

    ghost inverse = { λ k. record { row = k.row; cell = k.cell } };
}

impl Cell {
    /// The cell of a row, or `None` where the row or the cell isn't 1 to 94.
    pub fn new(row: u8, cell: u8) -> Option<Cell>
        ensures some { IsSome result ↔ IsKuten (record { row = row; cell = cell }) }
        ensures value { IfSome result (λ c. c ≡ record { row = row; cell = cell }) }
    {
        if 1 <= row && row <= 94 && 1 <= cell && cell <= 94 {
            Some(Cell { row, cell })
        } else {
            None
        }
    }

    /// Its row, from 1 to 94.
    pub fn row(self) -> u8
        ensures value { result ≡ self.row }
        ensures least { 1 ≤ result }
        ensures most { result ≤ 94 }
    {
        self.row
    }

    /// Its place in the row, from 1 to 94.
    pub fn cell(self) -> u8
        ensures value { result ≡ self.cell }
        ensures least { 1 ≤ result }
        ensures most { result ≤ 94 }
    {
        self.cell
    }
}
