//! Laws of assignments. The lemmas that proofs cite for them stand in `proofs/Found.antt` and
//! `proofs/Leaving.antt`.

ghost use Rattle.std.specs.Prelude.{◌≡◌, ◌≤◌, ◌<◌, ◌+◌, Bool, IfOk};
ghost use Rattle.tok_lists.specs.declared.token.NameNo.{NameNo};
ghost use Rattle.tok_lists.specs.declared.token.Token.{Token};
ghost use Rattle.env_groups.specs.declared.meaning.Meaning.{Meaning};
ghost use Rattle.mouth.specs.Sizes.{size};
ghost use Rattle.scan_syntax.specs.declared.want.Want.{Want};
ghost use Rattle.scan_syntax.specs.declared.word.Word.{Word};
ghost use Rattle.expander.specs.Worlds.{World};
ghost use Rattle.assignments.specs.declared.command.Assignment.{Assignment};
ghost use Rattle.assignments.specs.declared.command.Command.{Command};
ghost use Rattle.assignments.specs.declared.command.Prefixes.{Prefixes};
ghost use Rattle.assignments.specs.Assignments.{assigned, carried_out, ready};
ghost use Rattle.assignments.specs.Namings.{meaning_stored};
ghost use Rattle.assignments.specs.Reads.{next_token, put_back, scanned};
ghost use Rattle.assignments.specs.Seeking.{name, solid_token, spaces_ignored};
ghost use Rattle.assignments.specs.Values.{dimension, equals, integer, keyword};

use expander::expansions_leave_less;

/// What a token leaves that is taken is less than what was there, and so it is of a name; what a
/// value, an `=` or a keyword leaves is no more. A token that is put back makes it one more, and
/// what is stored changes nothing of it.
#[tactic(auto, using(crate::proofs::Found::next_falls, crate::proofs::Leaving::solid_falls, crate::proofs::Leaving::name_falls, crate::proofs::Leaving::scanned_leaves, crate::proofs::Leaving::integer_leaves, crate::proofs::Leaving::dimension_leaves, crate::proofs::Leaving::equals_leaves, crate::proofs::Leaving::keyword_leaves, crate::proofs::Leaving::put_adds, crate::proofs::Leaving::stored_leaves))]
pub fn readings_leave_less()
    ensures next { (w : World) → IfOk (next_token w) (λ t. size t.1.at < size w.at) }
    ensures solid { (w : World) → IfOk (solid_token w) (λ t. size t.1.at < size w.at) }
    ensures name { (w : World) → IfOk (name w) (λ n. size n.1.at < size w.at) }
    ensures scan { (want : Want) (w : World)
        → IfOk (scanned want w) (λ v. size v.1.at ≤ size w.at) }
    ensures integer { (w : World) → IfOk (integer w) (λ n. size n.1.at ≤ size w.at) }
    ensures dimension { (w : World) → IfOk (dimension w) (λ d. size d.1.at ≤ size w.at) }
    ensures equals { (w : World) → IfOk (equals w) (λ v. size v.at ≤ size w.at) }
    ensures keyword { (word : Word) (w : World)
        → IfOk (keyword word w) (λ k. size k.1.at ≤ size w.at) }
    ensures put_back { (token : Token) (w : World)
        → IfOk (put_back token w) (λ v. size v.at ≡ size w.at + 1) }
    ensures stored { (number : NameNo) (meaning : Meaning) (is_global : Bool) (w : World)
        → IfOk (meaning_stored number meaning is_global w) (λ v. size v.at ≤ size w.at) }
{
    expansions_leave_less();
}

/// What an assignment leaves is no more than what was there, with its prefixes and without them,
/// and so it is where spaces are passed over.
#[tactic(auto, using(crate::proofs::Leaving::ready_leaves, crate::proofs::Leaving::carried_leaves, crate::proofs::Leaving::assigned_leaves, crate::proofs::Leaving::ignored_leaves))]
pub fn assignments_leave_less()
    ensures ready { (command : Command) (w : World)
        → IfOk (ready command w) (λ r. size r.1.at ≤ size w.at) }
    ensures carried { (p : Prefixes) (assignment : Assignment) (w : World)
        → IfOk (carried_out p assignment w) (λ v. size v.at ≤ size w.at) }
    ensures assigned { (command : Command) (w : World)
        → IfOk (assigned command w) (λ v. size v.at ≤ size w.at) }
    ensures ignored { (w : World) → IfOk (spaces_ignored w) (λ v. size v.at ≤ size w.at) }
{
    expansions_leave_less();
}
