//! Laws of the words of contracts: how one call after another leaves files, and what sinks gain.
//! The lemmas that proofs cite for them stand in `proofs/Leaving.antt` and `proofs/Gains.antt`.

ghost use Rattle.std.specs.Prelude.{◌≡◌, ◌++◌, ◌<◌, ℕ, List, Option, length, false};
ghost use Rattle.ts_outside.specs.States.{FilesState, KeepsAll, KeepsOthers, KeepsAllBut, ReadsOn, IsApart, AllOpen, AllTold};
ghost use Rattle.ts_outside.specs.Gaining.{Gained, GainedPrefix, GainedPart};

/// What one call keeps and then another keeps both keep; a file that was opened and is closed
/// again leaves all that there was.
#[tactic(auto, using(crate::proofs::Leaving::all_then, crate::proofs::Leaving::others_then, crate::proofs::Leaving::reads_then, crate::proofs::Leaving::all_but_then, crate::proofs::Leaving::others_among, crate::proofs::Leaving::closed_again))]
pub fn files_are_left()
    ensures all { (old between new : FilesState) → KeepsAll old between → KeepsAll between new
        → KeepsAll old new }
    ensures others { (file : ℕ) (old between new : FilesState) → KeepsOthers file old between
        → KeepsOthers file between new → KeepsOthers file old new }
    ensures reads { (file : ℕ) (old between new : FilesState) → ReadsOn file old between
        → ReadsOn file between new → ReadsOn file old new }
    ensures but { (files : List ℕ) (old between new : FilesState) → KeepsAllBut files old between
        → KeepsAllBut files between new → KeepsAllBut files old new }
    ensures among { (files : List ℕ) (file : ℕ) (old new : FilesState) → (IsApart file files → ⊥)
        → KeepsOthers file old new → KeepsAllBut files old new }
    ensures closed { (file : ℕ) (old between new : FilesState) → old.is_open file ≡ false
        → KeepsOthers file old between → KeepsOthers file between new
        → new.is_open file ≡ false → KeepsAll old new }
{}

/// The open files of a list are open and told still where only another file was called on.
#[tactic(auto, using(crate::proofs::Leaving::open_still, crate::proofs::Leaving::told_still))]
pub fn open_files_stay()
    ensures opened { (files : List ℕ) (file : ℕ) (old new : FilesState) → IsApart file files
        → KeepsOthers file old new → AllOpen files old → AllOpen files new }
    ensures told { (files : List ℕ) (file : ℕ) (old new : FilesState) → IsApart file files
        → KeepsOthers file old new → AllOpen files old → AllTold files old → AllTold files new }
{}

/// A sink that gains bytes, and then more or a part of more, gains both in their order.
#[tactic(auto, using(crate::proofs::Gains::gained_then))]
pub fn sinks_gain()
    ensures all { (old between new : Option (List ℕ)) (first second : List ℕ)
        → Gained old between first → Gained between new second
        → Gained old new (first ++ second) }
    ensures prefix { (old between new : Option (List ℕ)) (first second : List ℕ)
        → Gained old between first → GainedPrefix between new second
        → GainedPrefix old new (first ++ second) }
    ensures part { (old between new : Option (List ℕ)) (first second : List ℕ)
        → 0 < length second → Gained old between first → GainedPart between new second
        → GainedPart old new (first ++ second) }
{}
