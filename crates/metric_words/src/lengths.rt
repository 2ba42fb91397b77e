//! The halfwords with which a metric file begins, and where they put its parts.

ghost use Rattle.std.specs.Prelude.{◌≡◌, ◌+◌, ◌*◌, ◌≤◌, length, IfOk};
ghost use Rattle.ts_base.specs.Agreement.{Agrees};
ghost use Rattle.metric_words.specs.Checking.{cause};
ghost use Rattle.metric_words.specs.Lengths as spec;
ghost use Rattle.metric_words.specs.Sound.{AreSound};

use crate::words::{halfword_at, truncated};
use ts_geometry::{BadKind, MetricFault};

/// The lengths of the parts of a metric file, in words, under the names of TeX: The Program,
/// section 540, and of the JFM specification.
#[derive(Clone, Copy, Debug)]
pub struct Lengths {
    /// The words that hold the lengths: 6 in a TFM, 7 in a JFM.
    pub front: u16,
    /// The character types of a JFM; 0 in a TFM.
    pub nt: u16,
    /// The whole file.
    pub lf: u16,
    /// The header.
    pub lh: u16,
    /// The first character, no length.
    pub bc: u16,
    /// The last character, no length.
    pub ec: u16,
    /// The widths.
    pub nw: u16,
    /// The heights.
    pub nh: u16,
    /// The depths.
    pub nd: u16,
    /// The italic corrections.
    pub ni: u16,
    /// The commands of programs.
    pub nl: u16,
    /// The kerns.
    pub nk: u16,
    /// The glue of a JFM; the extensible recipes, `ne`, of a TFM.
    pub ng: u16,
    /// The parameters.
    pub np: u16,
}

/// Does a metric file begin as a JFM does, with the halfword 11 for yoko or 9 for tate? That of a
/// TFM is another one.
pub fn begins_as_jfm(bytes: &[u8]) -> bool
    ensures { result ≡ spec.begins_as_jfm bytes.now }
{
    bytes.len() >= 2 && (halfword_at(bytes, 0) == 11 || halfword_at(bytes, 0) == 9)
}

impl Lengths {
    /// Reads the lengths that both formats have, which begin at that halfword.
    #[tactic(auto, unfolding(crate::specs::Lengths::lengths_at))]
    pub fn at(bytes: &[u8], front: u16, nt: u16, first: usize) -> Lengths
        requires { 2 * first + 24 ≤ length bytes.now }
        ensures { result ≡ spec.lengths_at bytes.now front nt first }
    {
        Lengths {
            front,
            nt,
            lf: halfword_at(bytes, first),
            lh: halfword_at(bytes, first + 1),
            bc: halfword_at(bytes, first + 2),
            ec: halfword_at(bytes, first + 3),
            nw: halfword_at(bytes, first + 4),
            nh: halfword_at(bytes, first + 5),
            nd: halfword_at(bytes, first + 6),
            ni: halfword_at(bytes, first + 7),
            nl: halfword_at(bytes, first + 8),
            nk: halfword_at(bytes, first + 9),
            ng: halfword_at(bytes, first + 10),
            np: halfword_at(bytes, first + 11),
        }
    }

    /// Returns how many characters or classes there are.
    pub fn char_count(&self) -> usize
        ensures value { result ≡ spec.char_count self.now }
        ensures most { result ≤ 1 * 65536 }
    {
        (usize::from(self.ec) + 1).saturating_sub(usize::from(self.bc))
    }

    /// Returns the word with which the header begins. It is the check sum, and the design size is
    /// the next one.
    pub fn header_start(&self) -> usize
        ensures value { result ≡ spec.header_start self.now }
        ensures most { result ≤ 1 * 65536 }
    {
        usize::from(self.front)
    }

    /// Returns the word with which the character types begin.
    pub fn char_type_start(&self) -> usize
        ensures value { result ≡ spec.char_type_start self.now }
        ensures most { result ≤ 2 * 65536 }
    {
        self.header_start() + usize::from(self.lh)
    }

    /// Returns the word with which the characters begin.
    pub fn char_info_start(&self) -> usize
        ensures value { result ≡ spec.char_info_start self.now }
        ensures most { result ≤ 3 * 65536 }
    {
        self.char_type_start() + usize::from(self.nt)
    }

    pub(crate) fn width_start(&self) -> usize
        ensures value { result ≡ spec.width_start self.now }
        ensures most { result ≤ 4 * 65536 }
    {
        self.char_info_start() + self.char_count()
    }

    pub(crate) fn height_start(&self) -> usize
        ensures value { result ≡ spec.height_start self.now }
        ensures most { result ≤ 5 * 65536 }
    {
        self.width_start() + usize::from(self.nw)
    }

    pub(crate) fn depth_start(&self) -> usize
        ensures value { result ≡ spec.depth_start self.now }
        ensures most { result ≤ 6 * 65536 }
    {
        self.height_start() + usize::from(self.nh)
    }

    pub(crate) fn italic_start(&self) -> usize
        ensures value { result ≡ spec.italic_start self.now }
        ensures most { result ≤ 7 * 65536 }
    {
        self.depth_start() + usize::from(self.nd)
    }

    /// Returns the word with which the programs begin.
    pub fn program_start(&self) -> usize
        ensures value { result ≡ spec.program_start self.now }
        ensures most { result ≤ 8 * 65536 }
    {
        self.italic_start() + usize::from(self.ni)
    }

    /// Returns the word with which the kerns begin.
    pub fn kern_start(&self) -> usize
        ensures value { result ≡ spec.kern_start self.now }
        ensures most { result ≤ 9 * 65536 }
    {
        self.program_start() + usize::from(self.nl)
    }

    /// Returns the word with which the glue, or the extensible recipes, begin.
    pub fn glue_start(&self) -> usize
        ensures value { result ≡ spec.glue_start self.now }
        ensures most { result ≤ 10 * 65536 }
    {
        self.kern_start() + usize::from(self.nk)
    }

    /// Returns the word with which the parameters begin.
    pub fn param_start(&self) -> usize
        ensures value { result ≡ spec.param_start self.now }
        ensures most { result ≤ 11 * 65536 }
    {
        self.glue_start() + usize::from(self.ng)
    }

    fn file_end(&self) -> usize
        ensures value { result ≡ spec.file_end self.now }
        ensures most { result ≤ 12 * 65536 }
    {
        self.param_start() + usize::from(self.np)
    }

    #[tactic(auto, unfolding(crate::specs::Lengths::contradict))]
    fn contradict(&self) -> bool
        ensures { result ≡ spec.contradict self.now }
    {
        usize::from(self.lf) != self.file_end()
            || self.lh < 2
            || self.nw == 0
            || self.nh == 0
            || self.nd == 0
            || self.ni == 0
            || self.ec > 255
            || u32::from(self.ec) + 1 < u32::from(self.bc)
    }

    /// Returns the lengths where they agree with each other and with the length of the file, and
    /// aren't wrong for another reason. Else it is the fault Lengths at 0, or Truncated at the
    /// length of the file.
    pub fn within(self, bytes: &[u8], wrong: bool) -> Result<Lengths, MetricFault>
        ensures exact { Agrees (λ l. l) cause result (spec.lengths_within bytes.now self wrong) }
        ensures sound { IfOk result (λ l. AreSound l (length bytes.now)) }
    {
        if self.contradict() || wrong {
            return Err(MetricFault::Bad(BadKind::Lengths, 0));
        }
        if bytes.len() < 4 * usize::from(self.lf) {
            return Err(truncated(bytes));
        }
        Ok(self)
    }
}
