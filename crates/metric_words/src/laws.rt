//! Laws of metric files.

ghost use Rattle.std.specs.Prelude.{◌≡◌, ◌*◌, ℕ, ℤ, List, Option, Result, Ok, Err, get_or, None, IsTrue};
ghost use Rattle.ts_geometry.specs.declared.fault.BadKind.{BadKind};
ghost use Rattle.ts_geometry.specs.declared.fault.MetricFault.{MetricFault};
ghost use Rattle.ts_geometry.specs.declared.fault.MetricFault.TheVariants.{Bad};
ghost use Rattle.ts_geometry.specs.Numbers.{scale, IsWithin};
ghost use Rattle.metric_words.specs.Characters.{Character, measures_at};
ghost use Rattle.metric_words.specs.Checking.{checked, IsFirstBad};
ghost use Rattle.metric_words.specs.Sound.{is_fix, has_fix_measures, AreWithin};

/// The first fault is the first bad word in the order of the file, at its first byte; where no word
/// is bad there is none.
#[tactic(auto, using(crate::proofs::FirstBad::fault_to_word, crate::proofs::FirstBad::word_to_fault, crate::proofs::FirstBad::no_fault))]
pub fn the_first_fault_is_the_first_bad_word<A>()
    ensures word { (kinds : List (Option BadKind)) (value : A) (kind : BadKind) (at : ℕ)
        → checked 0 kinds value ≡ Err (Bad kind at)
        → (i : ℕ) × ((at ≡ 4 * i) × IsFirstBad kinds i kind) }
    ensures fault { (kinds : List (Option BadKind)) (value : A) (kind : BadKind) (i : ℕ)
        → IsFirstBad kinds i kind → checked 0 kinds value ≡ Err (Bad kind (4 * i)) }
    ensures none { (kinds : List (Option BadKind)) (value : A)
        → ((j : ℕ) → get_or kinds j None ≡ None) → checked 0 kinds value ≡ Ok value }
{}

/// A fix word within 16 of 0 is at each size at most 16 times that size from 0, and so are the
/// measures of a character.
pub fn fix_words_stay_near()
    ensures word { (fix_word : ℤ) (z : ℕ) → IsTrue (is_fix fix_word)
        → IsWithin (16 * z) (scale fix_word z) }
    ensures measures { (c : Character) (z : ℕ) → IsTrue (has_fix_measures c)
        → AreWithin (16 * z) (measures_at c z) }
{}
