//! What a metric file has wrong.

/// The kind of a fault of a TFM or JFM file (the TFM format of TeX: The Program, part 30; the JFM
/// specification).
#[derive(Clone, Copy, Debug, PartialEq, Eq, Hash)]
pub enum BadKind {
    /// The file ends before the words that its lengths announce.
    Truncated,
    /// The lengths contradict each other.
    Lengths,
    /// A number that has to be within 16 of 0 isn't, or the design size is below 1.
    FixWord,
    /// The table of character types isn't in order.
    CharType,
    /// An index is beyond its table.
    Index,
    /// A step of a glue, kern or ligature program isn't one, or leads out of its table.
    Program,
    /// A ligature is one that isn't supported, or gives a character that the font lacks.
    Ligature,
}

/// Why a metric file isn't read.
#[derive(Clone, Copy, Debug, PartialEq, Eq, Hash)]
pub enum MetricFault {
    /// The first fault of the file, and its place: the number of bytes before the bad word, or the
    /// length of a file that is too short.
    Bad(BadKind, u32),
    /// Memory ran out.
    NoMemory,
}
