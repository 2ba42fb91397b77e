//! Groups of braces, and of `\begingroup` and `\endgroup`.

ghost use Rattle.std.specs.Prelude.{◌≡◌, List};
ghost use Rattle.ts_base.specs.Agreement.{Agrees, Uncounted};
ghost use Rattle.tok_lists.specs.declared.spelling.Spelling.{Spelling};
ghost use Rattle.expander.specs.Holding.{AreFit};
ghost use Rattle.control_faults.specs.TurnFaults.{read_cause, sink_cause};
ghost use Rattle.assignments.specs.Groups.{brace_group as the_brace_group, grouping_of as the_grouping_of, group_changed};

use control_faults::TurnFault;
use env_groups::{Env, GroupKind, Meaning, Prim};
use raw_texts::{Brace, brace_of};

/// What begins or ends a group.
#[derive(Clone, Copy, Debug, PartialEq, Eq)]
pub enum Grouping {
    Begin(GroupKind),
    End(GroupKind),
}

fn brace_group(brace: Brace) -> Option<Grouping>
    ensures { result ≡ the_brace_group brace }
{
    match brace {
        Brace::Begin => Some(Grouping::Begin(GroupKind::Simple)),
        Brace::End => Some(Grouping::End(GroupKind::Simple)),
        Brace::Neither => None,
    }
}

/// Returns what a meaning begins or ends: a brace, also by `\let`, a simple group; `\begingroup`
/// and `\endgroup` a group of their own.
pub fn grouping_of(meaning: &Meaning) -> Option<Grouping>
    ensures { result ≡ the_grouping_of meaning.now }
{
    match meaning {
        Meaning::Letter(token) => brace_group(brace_of(token)),
        Meaning::Primitive(Prim::BeginGroup) => Some(Grouping::Begin(GroupKind::Semi)),
        Meaning::Primitive(Prim::EndGroup) => Some(Grouping::End(GroupKind::Semi)),
        _ => None,
    }
}

/// Begins or ends a group (The TeXbook, chapter 24). `GroupsFull` comes exactly where 1000 groups
/// are open, and `GroupEnd` exactly where no group of this kind is innermost. Refused, it leaves
/// all as it was.
#[tactic(auto, using(crate::proofs::Refusals::env_refuses, crate::proofs::Refusals::env_quiet, crate::proofs::Refusals::env_unshipped, crate::proofs::Fitting::opening_fits, crate::proofs::Fitting::closing_fits, crate::proofs::Beside::opening_situation, crate::proofs::Beside::opening_fonts, crate::proofs::Beside::closing_situation, crate::proofs::Beside::closing_fonts))]
pub fn change_group(env: &mut Env, grouping: Grouping) -> Result<(), TurnFault>
    ensures exact { Agrees (λ _. env.new) read_cause result (group_changed env.old grouping) }
    ensures fit { (names : List Spelling) → AreFit names env.old → AreFit names env.new }
    ensures situation { env.new.situation ≡ env.old.situation }
    ensures fonts { env.new.fonts ≡ env.old.fonts }
    ensures quiet { Uncounted read_cause result }
    ensures unshipped { Uncounted sink_cause result }
{
    match grouping {
        Grouping::Begin(kind) => Ok(env.open(kind)?),
        Grouping::End(kind) => Ok(env.close(kind)?),
    }
}
