//! What takes tokens one after the other.

ghost use Rattle.std.specs.Prelude.{◌≡◌, List};
ghost use Rattle.ts_base.specs.Agreement.{Agrees, Uncounted};
ghost use Rattle.tok_lists.specs.declared.spelling.Spelling.{Spelling};
ghost use Rattle.mouth.specs.Keeping.{IsToken};
ghost use Rattle.raw_texts.specs.Faults.{macro_cause};

use crate::fault::MacroFault;
use env_groups::Env;
use tok_lists::Token;

/// How a machine goes on after a token.
#[derive(Clone, Copy, Debug, PartialEq, Eq)]
pub enum Progress {
    /// It takes a further token.
    On,
    /// It has taken its last token.
    Done,
}

/// What takes tokens one after the other, until it has taken its last one or refuses one.
pub trait Machine {
    ghost use Rattle.std.specs.Prelude.{List};
    ghost use Rattle.tok_lists.specs.declared.spelling.Spelling.{Spelling};
    ghost use Rattle.tok_lists.specs.Names.{Grew};
    ghost use Rattle.env_groups.specs.Environments.{Nest};
    ghost use Rattle.raw_texts.specs.Runs.{Step};

    /// What a token makes of it.
    ghost step: { Nest → Step Self };

    /// What is true of the tokens that it keeps, where names are these.
    ghost holds: { List Spelling → Self → Type 0 };

    /// Takes a token.
    fn feed(&mut self, token: Token, env: &Env) -> Result<Progress, MacroFault>
        ensures exact { Agrees (λ progress. (progress, self.new)) macro_cause result
            (step env.now self.old token) }
        ensures holds { (names : List Spelling) → IsToken names token → holds names self.old
            → holds names self.new }
        ensures quiet { Uncounted macro_cause result };

    /// What is true of them stays so as names come.
    ghost grows: { (old new : List Spelling) (machine : Self) → Grew old new → holds old machine
        → holds new machine };
}
