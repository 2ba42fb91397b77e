//! Laws of scans. The lemmas that proofs cite for them stand in `proofs/Finding.antt`.

ghost use Rattle.std.specs.Prelude.{◌≡◌, ◌≤◌, List, length};
ghost use Rattle.scan_numbers.specs.Contexts.{Context};
ghost use Rattle.scan_numbers.specs.Tokens.{FedToken};
ghost use Rattle.scan_numbers.specs.Answers.{Got};
ghost use Rattle.scan_numbers.specs.Ends.{tokens_of, AreLast};
ghost use Rattle.scan_syntax.specs.declared.want.Value.{Value};
ghost use Rattle.scan_syntax.specs.declared.want.Want.{Want};
ghost use Rattle.scan_syntax.specs.Scans.{grammar};
ghost use Rattle.scan_syntax.specs.Laws.{IsHeldIn, IsMeasured};

/// What a scan leaves are the last tokens of those that it was fed, in their order, so it's no
/// longer; a list of tokens that it finds is what a register or parameter of the environment holds;
/// and a dimension, and the size of a box, is within 2^30 - 1 scaled points.
#[tactic(auto, using(crate::proofs::Finding::last_left, crate::proofs::Finding::no_longer, crate::proofs::Finding::list_held, crate::proofs::Finding::measured))]
pub fn scans_leave_and_find()
    ensures left { (want : Want) (list rest : List FedToken) (value : Value) (context : Context)
        → grammar want list ≡ Got value context rest
        → AreLast (tokens_of list) (tokens_of rest) }
    ensures fewer { (want : Want) (list rest : List FedToken) (value : Value) (context : Context)
        → grammar want list ≡ Got value context rest → length rest ≤ length list }
    ensures held { (want : Want) (list rest : List FedToken) (value : Value) (context : Context)
        → grammar want list ≡ Got value context rest → IsHeldIn context.env value }
    ensures measured { (want : Want) (list rest : List FedToken) (value : Value)
        (context : Context) → grammar want list ≡ Got value context rest
        → IsMeasured want value }
{}
