//! The law of runs. The lemma that proofs cite for it stands in `proofs/Running.antt`.

ghost use Rattle.std.specs.Prelude.{◌≡◌};
ghost use Rattle.ts_base.specs.Agreement.{followed_by};
ghost use Rattle.env_groups.specs.Environments.{Nest};
ghost use Rattle.mouth.specs.Reading.{Reading};
ghost use Rattle.raw_texts.specs.Runs.{Step, token_from, fed, goes_on, run};

/// A run reads a token and feeds it, and where a further one is taken it goes on in the same way.
#[tactic(auto, using(crate::proofs::Running::run_is))]
pub fn runs_go_on<S>()
    ensures { (nest : Nest) (step : Nest → Step S) (state : S) (r : Reading)
        → run nest step state r ≡ followed_by (token_from nest r)
        (λ t. followed_by (fed (step nest) state t)
        (λ p. goes_on p.0 (p.1, t.1) (run nest step p.1 t.1))) }
{}
