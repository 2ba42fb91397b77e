//! Laws of the widths and the measures of fonts.

ghost use Rattle.std.specs.Prelude.{◌≡◌, ℕ, List, Ok, Err, Some, None, false};
ghost use Rattle.std.specs.Option.{option_map};
ghost use Rattle.jis_codes.specs.Kuten.{Kuten, IsKuten};
ghost use Rattle.jis_codes.specs.Spellings.{jis};
ghost use Rattle.jis_codes.specs.Numbers.{number_of};
ghost use Rattle.ts_outside.specs.States.{Held};
ghost use Rattle.tfm_load.specs.Metrics as tfm;
ghost use Rattle.jfm_load.specs.Metrics as jfm;
ghost use Rattle.jfm_load.specs.CharTypes.{is_jis};
ghost use Rattle.font_store.specs.declared.metric.Metric.TheVariants.{Roman, Japanese};
ghost use Rattle.font_store.specs.declared.loading.LoadFault.{LoadFault};
ghost use Rattle.font_store.specs.Widths.{widths, metric_named};
ghost use Rattle.font_store.specs.Measures.{SpeltAreWhole, NamedAreWhole, FontsAreWhole, CellsHaveTheirMeasures};

use tfm_load::ligatures_are_there;

/// The widths give each character the width that the metric of its font gives: a European one by
/// its code, a Japanese one by the class of its cell. They give none to a code that is no cell of a
/// Japanese font, nor to a font whose metric isn't loaded.
#[tactic(auto, using(crate::proofs::Glyphs::cell_width))]
pub fn widths_are_those_of_the_metrics()
    ensures european { (files : List Held) (name : List ℕ) (size code : ℕ) (m : tfm.Metric)
        → metric_named files name ≡ Ok (Roman m)
        → widths files name size code ≡ option_map (λ s. s.wd) (tfm.measures_of m code size) }
    ensures japanese { (files : List Held) (name : List ℕ) (size : ℕ) (k : Kuten) (m : jfm.Metric)
        → metric_named files name ≡ Ok (Japanese m) → IsKuten k
        → widths files name size (number_of jis k)
        ≡ Some (jfm.measures_of m (jfm.class_of m k) size).wd }
    ensures no_cell { (files : List Held) (name : List ℕ) (size code : ℕ) (m : jfm.Metric)
        → metric_named files name ≡ Ok (Japanese m) → is_jis code ≡ false
        → widths files name size code ≡ None }
    ensures no_metric { (files : List Held) (name : List ℕ) (size code : ℕ) (fault : LoadFault)
        → metric_named files name ≡ Err fault → widths files name size code ≡ None }
{}

/// A metric that a file spells has each ligature that its programs put as a character; so has that
/// of a name among the files that are held, and so have fonts whose metrics are those of their
/// names.
pub fn loaded_metrics_are_whole()
    ensures spelt { SpeltAreWhole }
    ensures named { NamedAreWhole }
    ensures fonts { FontsAreWhole }
{
    ligatures_are_there();
}

/// A cell of a Japanese font has the measures of its class.
#[tactic(auto, using(crate::proofs::Whole::cells_measured))]
pub fn cells_have_their_measures()
    ensures { CellsHaveTheirMeasures }
{}
