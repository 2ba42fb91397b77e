//! The numbers that stand for a cell: its JIS code, its EUC code, its Shift_JIS code, each two
//! bytes with the high byte first, and its row and cell.

ghost use Rattle.std.specs.Prelude.{◌≡◌, ◌+◌, ◌-◌, ◌*◌, ◌/◌, ◌%◌, ◌<◌, ◌≤◌};
ghost use Rattle.jis_codes.specs.Spellings.{Spells, jis, euc, shift_jis, kuten, two_bytes};
ghost use Rattle.jis_codes.specs.Numbers.{number_of, cell_of, cell_at as the_cell_at, first_row as the_first_row, place as the_place, lead as the_lead, trail as the_trail};
ghost use Rattle.jis_codes.specs.OneToOne.{IsCellOf, AtMostOneCell, ExactlyOneNumber};

use crate::cell::Cell;

/// The cell of a row, where there is one.
fn cell_at(row: u32, cell: u32) -> Option<Cell>
    ensures { result ≡ the_cell_at row cell }
{
    Cell::new(u8::try_from(row).ok()?, u8::try_from(cell).ok()?)
}

/// The first of the two rows that have this lead byte in Shift_JIS.
fn first_row(byte: u32) -> Option<u32>
    ensures { result ≡ the_first_row byte }
{
    match byte {
        0x81..=0x9F => Some(2 * (byte - 0x81) + 1),
        0xE0..=0xEF => Some(2 * (byte - 0xC1) + 1),
        _ => None,
    }
}

/// Where a trail byte of Shift_JIS leads: to the first (0) or the second (1) of two rows, and the cell.
fn place(byte: u32) -> Option<(u32, u32)>
    ensures { result ≡ the_place byte }
{
    match byte {
        0x40..=0x7E => Some((0, byte - 0x3F)),
        0x80..=0x9E => Some((0, byte - 0x40)),
        0x9F..=0xFC => Some((1, byte - 0x9E)),
        _ => None,
    }
}

/// The cell of a JIS code, or `None` where no cell has it.
pub fn from_jis(number: u32) -> Option<Cell>
    ensures value { result ≡ cell_of jis number }
    ensures cell { IsCellOf jis number result }
{
    cell_at(
        (number / 256).saturating_sub(0x20),
        (number % 256).saturating_sub(0x20),
    )
}

/// The cell of an EUC code, or `None` where no cell has it.
pub fn from_euc(number: u32) -> Option<Cell>
    ensures value { result ≡ cell_of euc number }
    ensures cell { IsCellOf euc number result }
{
    cell_at(
        (number / 256).saturating_sub(0xA0),
        (number % 256).saturating_sub(0xA0),
    )
}

/// The cell of a Shift_JIS code, or `None` where no cell has it.
pub fn from_sjis(number: u32) -> Option<Cell>
    ensures value { result ≡ cell_of shift_jis number }
    ensures cell { IsCellOf shift_jis number result }
{
    let first = first_row(number / 256)?;
    let (later, cell) = place(number % 256)?;
    cell_at(first + later, cell)
}

/// The cell of `256 * row + cell`, or `None` where there is no such cell.
pub fn from_kuten(number: u32) -> Option<Cell>
    ensures value { result ≡ cell_of kuten number }
    ensures cell { IsCellOf kuten number result }
{
    cell_at(number / 256, number % 256)
}

/// The JIS code of a cell: 0x20 and its row, 0x20 and its place in the row.
pub fn to_jis(cell: Cell) -> u32
    ensures value { result ≡ number_of jis cell }
    ensures number { Spells jis result cell }
{
    256 * (cell.row() as u32 + 0x20) + (cell.cell() as u32 + 0x20)
}

/// The EUC code of a cell, which is also the internal code: its JIS code with 0x80 added to each
/// byte.
pub fn to_euc(cell: Cell) -> u32
    ensures value { result ≡ number_of euc cell }
    ensures number { Spells euc result cell }
{
    256 * (cell.row() as u32 + 0xA0) + (cell.cell() as u32 + 0xA0)
}

fn lead(row: u32) -> u32
    requires { row ≤ 94 }
    ensures value { result ≡ the_lead row }
    ensures most { result < 256 }
{
    let pair = row.saturating_sub(1) / 2;
    if row <= 62 { pair + 0x81 } else { pair + 0xC1 }
}

fn trail(row: u32, cell: u32) -> u32
    requires { cell ≤ 94 }
    ensures value { result ≡ the_trail row cell }
    ensures most { result < 256 }
{
    if row % 2 != 1 {
        cell + 0x9E
    } else if 64 <= cell {
        cell + 0x40
    } else {
        cell + 0x3F
    }
}

/// The Shift_JIS code of a cell.
pub fn to_sjis(cell: Cell) -> u32
    ensures value { result ≡ number_of shift_jis cell }
    ensures number { Spells shift_jis result cell }
{
    let row = cell.row() as u32;
    256 * lead(row) + trail(row, cell.cell() as u32)
}

/// `256 * row + cell`.
pub fn to_kuten(cell: Cell) -> u32
    ensures value { result ≡ number_of kuten cell }
    ensures number { Spells kuten result cell }
{
    256 * cell.row() as u32 + cell.cell() as u32
}

/// In each coding a number belongs to at most one cell, and a cell has exactly one number.
pub fn are_one_to_one()
    ensures cells { AtMostOneCell }
    ensures numbers { ExactlyOneNumber }
{}

#[cfg(test)]
mod tests {
    use super::*;
    use std::test::Fail;

    #[test]
    fn known_spellings_go_both_ways(rt: HostRuntime) -> Result<(), Fail> {
        // あ, い, 亜, 漢, 字
        let known = [
            (4, 2, 0x2422, 0xA4A2, 0x82A0),
            (4, 4, 0x2424, 0xA4A4, 0x82A2),
            (16, 1, 0x3021, 0xB0A1, 0x889F),
            (20, 33, 0x3441, 0xB4C1, 0x8ABF),
            (27, 90, 0x3B7A, 0xBBFA, 0x8E9A),
        ];
        for (row, place, jis, euc, sjis) in known {
            let cell = Cell::new(row, place).ok_or("no cell")?;
            assert_eq!(rt;
                (to_jis(cell), to_euc(cell), to_sjis(cell)),
                (jis, euc, sjis)
            );
            assert_eq!(rt; from_jis(jis), Some(cell));
            assert_eq!(rt; from_euc(euc), Some(cell));
            assert_eq!(rt; from_sjis(sjis), Some(cell));
        }
        Ok(())
    }

    #[test]
    fn other_numbers_are_no_cells(rt: HostRuntime) {
        assert_eq!(rt; [from_sjis(0x827F), from_sjis(0xF040)], [None, None]);
        assert_eq!(rt; [from_jis(0x7F21), from_jis(0x2120)], [None, None]);
    }

    fn comes_back(number: u32) -> bool {
        let Some(cell) = from_kuten(number) else {
            return false;
        };
        to_kuten(cell) == number
            && from_jis(to_jis(cell)) == Some(cell)
            && from_euc(to_euc(cell)) == Some(cell)
            && from_sjis(to_sjis(cell)) == Some(cell)
    }

    #[test]
    fn every_cell_comes_back(rt: HostRuntime) {
        for number in 0..8836u32 {
            let kuten = 256 * (1 + number / 94) + 1 + number % 94;
            assert!(rt; comes_back(kuten), "at {kuten}");
        }
    }
}
