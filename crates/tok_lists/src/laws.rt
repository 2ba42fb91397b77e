//! Laws of names that grow. The lemmas that proofs cite for them stand in `proofs/Growing.antt`.

ghost use Rattle.std.specs.Prelude.{◌≡◌, ◌<◌, ◌≤◌, ℕ, List, length, slice_get};
ghost use Rattle.tok_lists.specs.declared.spelling.Spelling.{Spelling};
ghost use Rattle.tok_lists.specs.declared.token.Token.{Token};
ghost use Rattle.tok_lists.specs.Names.{Grew, IsHeld, AreHeld};

/// Names that grow keep their numbers and what is held, and go on growing.
#[tactic(auto, using(crate::proofs::Growing::grew_itself, crate::proofs::Growing::grew_then, crate::proofs::Growing::grew_longer, crate::proofs::Growing::numbers_stay, crate::proofs::Growing::held_still, crate::proofs::Growing::all_held_still))]
pub fn names_grow()
    ensures itself { (names : List Spelling) → Grew names names }
    ensures chain { (old between new : List Spelling) → Grew old between → Grew between new
        → Grew old new }
    ensures longer { (old new : List Spelling) → Grew old new → length old ≤ length new }
    ensures numbers { (old new : List Spelling) (n : ℕ) → Grew old new → n < length old
        → slice_get new n ≡ slice_get old n }
    ensures held { (old new : List Spelling) (token : Token) → Grew old new → IsHeld old token
        → IsHeld new token }
    ensures list { (old new : List Spelling) (list : List Token) → Grew old new
        → AreHeld old list → AreHeld new list }
{}
