//! Laws of answers. The lemmas that proofs cite for them stand in `proofs/Composing.antt`.

ghost use Rattle.std.specs.Prelude.{◌≡◌, ℕ, Result, Ok};
ghost use Rattle.ts_base.specs.Agreement.{Cause, followed_by, with_fault, Agrees, AgreesFault, Counts, CountsFault, Uncounted};

/// A first step that refuses refuses for both steps, and a second one after a first that passes.
/// An answer agrees as before where its fault becomes one of the same cause.
#[tactic(auto, using(crate::proofs::Composing::first_refuses, crate::proofs::Composing::second_refuses, crate::proofs::Composing::fault_agrees, crate::proofs::Composing::answer_agrees))]
pub fn answers_agree<X, Y, E, D>()
    ensures first { (cause : Cause) (fault : E) (given : Result X E) (step : X → Result Y E)
        → AgreesFault cause fault given → AgreesFault cause fault (followed_by given step) }
    ensures second { (cause : Cause) (fault : E) (given : Result X E) (x : X)
        (step : X → Result Y E) → given ≡ Ok x → AgreesFault cause fault (step x)
        → AgreesFault cause fault (followed_by given step) }
    ensures fault { (cause : Cause) (becomes : E → D) (fault : E) (given : Result X E)
        → AgreesFault cause fault given
        → AgreesFault cause (becomes fault) (with_fault becomes given) }
    ensures answer { (view : X → Y) (cause : E → Cause) (cause' : D → Cause) (becomes : E → D)
        (result : Result X E) (given : Result Y E)
        → ((e : E) → cause' (becomes e) ≡ cause e) → Agrees view cause result given
        → Agrees view cause' (with_fault becomes result) (with_fault becomes given) }
{}

/// A step that leaves the count, and then one that may not, count as the second does. What answers
/// no counted fault leaves the count, and an answer counts as before where its fault becomes one
/// of the same cause.
#[tactic(auto, using(crate::proofs::Composing::counts_after, crate::proofs::Composing::leaves_count, crate::proofs::Composing::answer_counts))]
pub fn answers_count<X, E, D>()
    ensures after { (cause : Cause) (old between new : ℕ) → between ≡ old
        → CountsFault cause between new → CountsFault cause old new }
    ensures leaves { (cause : E → Cause) (result : Result X E) (n : ℕ)
        → Uncounted cause result → Counts cause result n n }
    ensures answer { (cause : E → Cause) (cause' : D → Cause) (becomes : E → D)
        (result : Result X E) (old new : ℕ) → ((e : E) → cause' (becomes e) ≡ cause e)
        → Counts cause result old new → Counts cause' (with_fault becomes result) old new }
{}
