//! Codings of Japanese text.

/// How the bytes of a file stand for characters. In each coding escapes select two-byte state.
#[derive(Clone, Copy, Debug, PartialEq, Eq, Hash)]
pub enum Coding {
    /// JIS: bytes from 128 on don't occur.
    Jis,
    /// EUC-JP, in its pairs of bytes.
    Euc,
    /// Shift_JIS, in its pairs of bytes.
    Sjis,
}
