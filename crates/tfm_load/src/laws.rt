//! Laws of metrics, over all files.

ghost use Rattle.std.specs.Prelude.{◌≡◌, ℕ, List, ◌+◌, ◌*◌, ◌≤◌, take, Ok, Err, IfSome, IsTrue};
ghost use Rattle.ts_geometry.specs.declared.fault.BadKind.{BadKind};
ghost use Rattle.ts_geometry.specs.declared.fault.MetricFault.TheVariants.{Bad};
ghost use Rattle.metric_words.specs.declared.lengths.Lengths.{Lengths};
ghost use Rattle.metric_words.specs.Words.{halfword};
ghost use Rattle.metric_words.specs.Checking.{IsFirstBad};
ghost use Rattle.tfm_load.specs.Metrics.{Metric, metric_of, lengths_in, kinds_of, measures_of, pair_of};
ghost use Rattle.metric_words.specs.Sound.{AreWithin};
ghost use Rattle.tfm_load.specs.Sound.{HasFixWords, HasItsLigatures, is_fix_step};

/// A metric is in the words that its file counts, or in its first 28 bytes where these are more:
/// what follows them is ignored. Each halfword is in its bytes, so also the count of the words.
#[tactic(auto, using(crate::proofs::Prefix::metric_of_prefix, crate::proofs::Prefix::halfword_of_prefix))]
pub fn a_metric_is_in_its_first_words()
    ensures metric { (file : List ℕ) (most : ℕ) → 28 ≤ most → 4 * halfword file 0 ≤ most
        → metric_of (take most file) ≡ metric_of file }
    ensures halfwords { (file : List ℕ) (most i : ℕ) → 2 * i + 2 ≤ most
        → halfword (take most file) i ≡ halfword file i }
{}

/// Where the lengths have no fault, the first fault is the first bad word in the order of the file,
/// at its first byte.
#[tactic(auto, using(crate::proofs::FirstFault::fault_to_word, crate::proofs::FirstFault::word_to_fault))]
pub fn the_first_fault_is_the_first_bad_word()
    ensures word { (file : List ℕ) (l : Lengths) (kind : BadKind) (at : ℕ)
        → lengths_in file ≡ Ok l → metric_of file ≡ Err (Bad kind at)
        → (i : ℕ) × ((at ≡ 4 * i) × IsFirstBad (kinds_of file l) i kind) }
    ensures fault { (file : List ℕ) (l : Lengths) (kind : BadKind) (i : ℕ)
        → lengths_in file ≡ Ok l → IsFirstBad (kinds_of file l) i kind
        → metric_of file ≡ Err (Bad kind (4 * i)) }
{}

/// Where the words of a metric are within 16 of 0, its kerns are, and the measures of its
/// characters are at each size at most 16 times that size from 0.
pub fn a_metric_stays_near()
    ensures pair { (m : Metric) (left right : ℕ) → HasFixWords m
        → IsTrue (is_fix_step (pair_of m left right)) }
    ensures measures { (m : Metric) (code z : ℕ) → HasFixWords m
        → IfSome (measures_of m code z) (AreWithin (16 * z)) }
{}

/// Each ligature that a program of a metric without a fault puts is a character of the font.
#[tactic(auto, using(crate::proofs::Ligatures::ligatures_there))]
pub fn ligatures_are_there()
    ensures { (file : List ℕ) (m : Metric) → metric_of file ≡ Ok m → HasItsLigatures m }
{}
