//! Laws of the flat list of tokens. The lemmas that proofs cite for them stand in
//! `proofs/Flat.antt`.

ghost use Rattle.std.specs.Prelude.{◌≡◌, ℕ, List, [], ◌∷◌, ◌++◌, slice_get, Option, Some, Ok, IfSome};
ghost use Rattle.tok_lists.specs.declared.spelling.Spelling.{Spelling};
ghost use Rattle.tok_lists.specs.declared.token.Token.{Token};
ghost use Rattle.tok_lists.specs.Names.{Grew, IsHeld, AreHeld, IsNoParam, HasNoParam};
ghost use Rattle.tok_lists.specs.Pending.{with_arguments, put_before, Takes, HaveNoParam, AllHeld};

/// A list that was put stands in front. A list without parameters is as it is, whatever the
/// arguments are.
pub fn flat_lists_are_put()
    ensures put { (list pending new : List Token) → put_before list pending ≡ Ok new
        → new ≡ list ++ pending }
    ensures unchanged { (args : List (List Token)) (list : List Token) → HasNoParam list
        → with_arguments args list ≡ list }
{}

/// Names hold the tokens of lists that are put one in front of the other and of a body with its
/// arguments put in place, where they hold those of its parts; and what is taken and what is left.
#[tactic(auto, using(crate::proofs::Flat::held_together, crate::proofs::Flat::call_held, crate::proofs::Flat::held_at, crate::proofs::Flat::taken_held, crate::proofs::Flat::all_held_last, crate::proofs::Flat::lists_held_still))]
pub fn flat_lists_are_held()
    ensures together { (names : List Spelling) (list pending : List Token) → AreHeld names list
        → AreHeld names pending → AreHeld names (list ++ pending) }
    ensures call { (names : List Spelling) (args : List (List Token)) (body : List Token)
        → AllHeld names args → AreHeld names body → AreHeld names (with_arguments args body) }
    ensures at { (names : List Spelling) (list : List Token) (at : ℕ) (token : Token)
        → AreHeld names list → slice_get list at ≡ Some token → IsHeld names token }
    ensures taken { (names : List Spelling) (old new : List Token) (token : Option Token)
        → Takes old token new → AreHeld names old
        → IfSome token (IsHeld names) × AreHeld names new }
    ensures args { (names : List Spelling) (args : List (List Token)) (last : List Token)
        → AllHeld names args → AreHeld names last → AllHeld names (args ++ last ∷ []) }
    ensures grew { (old new : List Spelling) (args : List (List Token)) → Grew old new
        → AllHeld old args → AllHeld new args }
{}

/// No parameter stands in lists that are put one in front of the other or in a body with its
/// arguments put in place, where none stands in its parts or its arguments; nor in what is taken
/// and what is left.
#[tactic(auto, using(crate::proofs::Flat::no_param_together, crate::proofs::Flat::no_param_at, crate::proofs::Flat::taken_no_param, crate::proofs::Flat::no_param_last))]
pub fn flat_lists_have_no_param()
    ensures together { (list pending : List Token) → HasNoParam list → HasNoParam pending
        → HasNoParam (list ++ pending) }
    ensures call { (args : List (List Token)) (body : List Token) → HaveNoParam args
        → HasNoParam (with_arguments args body) }
    ensures at { (list : List Token) (at : ℕ) (token : Token) → HasNoParam list
        → slice_get list at ≡ Some token → IsNoParam token }
    ensures taken { (old new : List Token) (token : Option Token) → Takes old token new
        → HasNoParam old → IfSome token IsNoParam × HasNoParam new }
    ensures args { (args : List (List Token)) (last : List Token) → HaveNoParam args
        → HasNoParam last → HaveNoParam (args ++ last ∷ []) }
{}
