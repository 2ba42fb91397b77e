//! Laws of what is read and of what calls leave of files. The lemmas that proofs cite for them
//! stand in `proofs/Falls.antt` and `proofs/Leaving.antt`.

ghost use Rattle.std.specs.Prelude.{◌≡◌, ◌≤◌, ◌<◌, ◌+◌, ℕ, List, Ok};
ghost use Rattle.ts_outside.specs.States.{FilesState, KeepsAll};
ghost use Rattle.tok_lists.specs.declared.token.Token.{Token};
ghost use Rattle.tok_lists.specs.Codes.{Codes};
ghost use Rattle.mouth.specs.Reading.{Reading};
ghost use Rattle.mouth.specs.Tokens.{next};
ghost use Rattle.mouth.specs.Changes.{with_list, spent, begun};
ghost use Rattle.mouth.specs.Sizes.{unread, size};
ghost use Rattle.mouth.specs.Keeping.{LeavesOthers};

/// A token and a unit make what may still be read less, and a list in front makes it more by no
/// more than a full list.
#[tactic(auto, using(crate::proofs::Falls::token_unread, crate::proofs::Falls::token_size, crate::proofs::Falls::list_size, crate::proofs::Falls::unit_size, crate::proofs::Falls::begun_size))]
pub fn sizes_fall()
    ensures unread { (codes : Codes) (old new : Reading) (token : Token)
        → next codes old ≡ Ok (token, new) → unread new < unread old }
    ensures token { (codes : Codes) (old new : Reading) (token : Token)
        → next codes old ≡ Ok (token, new) → size new < size old }
    ensures list { (list : List Token) (old new : Reading) → with_list list old ≡ Ok new
        → size new ≤ size old + 1000000 }
    ensures unit { (old new : Reading) → spent old ≡ Ok new
        → size new + 100000000000 ≡ size old }
    ensures begun { (old new : Reading) → begun old ≡ Ok new
        → size new + 100000000000 ≡ size old }
{}

/// The open files of others stay through one call after another.
#[tactic(auto, using(crate::proofs::Leaving::leaves_all, crate::proofs::Leaving::leaves_then))]
pub fn others_are_left()
    ensures all { (ours : List ℕ) (old new : FilesState) → KeepsAll old new
        → LeavesOthers ours old ours new }
    ensures chain { (first second third : List ℕ) (old between new : FilesState)
        → LeavesOthers first old second between → LeavesOthers second between third new
        → LeavesOthers first old third new }
{}
