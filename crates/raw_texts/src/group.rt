//! The tokens of a group.

ghost use Rattle.std.specs.Prelude.{◌≡◌, ◌<◌, ◌+◌, ◌-◌, OnOk, IfOk, List};
ghost use Rattle.ts_base.specs.Agreement.{Agrees, Counts, Uncounted};
ghost use Rattle.tok_lists.specs.declared.spelling.Spelling.{Spelling};
ghost use Rattle.mouth.specs.Keeping.{reading, AgreesAt, AreOpen, AreTold, IsReadable, IsToken};
ghost use Rattle.mouth.specs.Sizes.{unread, size};
ghost use Rattle.raw_texts.specs.Faults.{macro_cause};
ghost use Rattle.raw_texts.specs.Runs.{Leaves};
ghost use Rattle.raw_texts.specs.Holding.{AreTokens};
ghost use Rattle.raw_texts.specs.Groups.{empty, group, kept, ended, plain};

use crate::fault::MacroFault;
use crate::machine::{Machine, Progress};
use crate::run::read_on;
use crate::token::{Brace, brace_of, is_par};
use env_groups::Env;
use mouth::Mouth;
use std::alloc::Global;
use tok_lists::{Token, Tokens};
use ts_base::NoMemory;
use ts_outside::Files;

/// What reads the tokens of a group, whose `{` was taken: those up to its `}`, how many groups are
/// open in it, and whether `\par` may stand in it.
#[derive(Drop)]
pub(crate) struct Group {
    tokens: Tokens,
    level: u64,
    long: bool,
}

impl Group {
    pub(crate) fn new(alloc: Global, long: bool) -> Group
        ensures { result ≡ empty long }
    {
        Group {
            tokens: Tokens::new(alloc),
            level: 0,
            long,
        }
    }

    pub(crate) fn tokens(&self) -> &[Token]
        ensures { result.now ≡ self.now.tokens }
    {
        self.tokens.as_slice()
    }

    #[tactic(auto, using(crate::proofs::Holding::tokens_last))]
    fn keep(&mut self, token: Token) -> Result<Progress, MacroFault>
        ensures exact { Agrees (λ progress. (progress, self.new)) macro_cause result
            (kept self.old token self.old.level) }
        ensures quiet { Uncounted macro_cause result }
        ensures holds { (names : List Spelling) → IsToken names token
            → AreTokens names self.old.tokens → AreTokens names self.new.tokens }
    {
        self.tokens.push(token)?;
        Ok(Progress::On)
    }

    fn open(&mut self, token: Token) -> Result<Progress, MacroFault>
        ensures exact { Agrees (λ progress. (progress, self.new)) macro_cause result
            (kept self.old token (self.old.level + 1)) }
        ensures quiet { Uncounted macro_cause result }
        ensures holds { (names : List Spelling) → IsToken names token
            → AreTokens names self.old.tokens → AreTokens names self.new.tokens }
    {
        self.level = self.level.checked_add(1).ok_or(NoMemory)?;
        self.keep(token)
    }

    fn close(&mut self, token: Token) -> Result<Progress, MacroFault>
        ensures exact { Agrees (λ progress. (progress, self.new)) macro_cause result
            (ended self.old token) }
        ensures quiet { Uncounted macro_cause result }
        ensures holds { (names : List Spelling) → IsToken names token
            → AreTokens names self.old.tokens → AreTokens names self.new.tokens }
    {
        if self.level == 0 {
            return Ok(Progress::Done);
        }
        self.level -= 1;
        self.keep(token)
    }

    // A token that is no brace.
    fn take_plain(&mut self, token: Token) -> Result<Progress, MacroFault>
        ensures exact { Agrees (λ progress. (progress, self.new)) macro_cause result
            (plain self.old token) }
        ensures quiet { Uncounted macro_cause result }
        ensures holds { (names : List Spelling) → IsToken names token
            → AreTokens names self.old.tokens → AreTokens names self.new.tokens }
    {
        if self.long {
            return self.keep(token);
        }
        if is_par(&token) {
            return Err(MacroFault::ArgParagraph);
        }
        self.keep(token)
    }
}

impl Machine for Group {
    ghost use Rattle.raw_texts.specs.Holding.{AreTokens};
    ghost use Rattle.raw_texts.specs.Groups.{step};
    ghost use Rattle.raw_texts.specs.StillHeld.{tokens_still};

    ghost step = { step };

    ghost holds = { λ names group. AreTokens names group.tokens };

    fn feed(&mut self, token: Token, _env: &Env) -> Result<Progress, MacroFault> {
        match brace_of(&token) {
            Brace::Begin => self.open(token),
            Brace::End => self.close(token),
            Brace::Neither => self.take_plain(token),
        }
    }

    ghost grows = { λ old new group grew holds. tokens_still old new group.tokens grew holds };
}

/// Reads the tokens of a group whose `{` was taken, without the `}` that ends it (The TeXbook,
/// chapter 20). `ArgParagraph` comes exactly where the name `\par` stands in it and it isn't long.
#[tactic(auto, unfolding(crate::specs::Groups::group))]
pub fn read_group<F: Files>(
    alloc: Global,
    mouth: &mut Mouth,
    files: &mut F,
    env: &Env,
    long: bool,
) -> Result<Tokens, MacroFault>
    requires opened { AreOpen mouth.old (F.state files.old) }
    requires readable { IsReadable mouth.old }
    ensures exact { AreTold mouth.old (F.state files.old)
        → AgreesAt (λ tokens. (tokens, reading mouth.new (F.state files.new))) macro_cause
        mouth.new result (group env.now long (reading mouth.old (F.state files.old))) }
    ensures leaves { Leaves mouth.old (F.state files.old) mouth.new (F.state files.new) }
    ensures readable { OnOk result (IsReadable mouth.new) }
    ensures tokens { IfOk result (AreTokens mouth.new.names) }
    ensures unread { OnOk result (unread (reading mouth.new (F.state files.new))
        < unread (reading mouth.old (F.state files.old))) }
    ensures size { OnOk result (size (reading mouth.new (F.state files.new))
        < size (reading mouth.old (F.state files.old))) }
    ensures counted { Counts macro_cause result (F.state files.old).faults
        (F.state files.new).faults }
{
    let mut group = Group::new(alloc, long);
    read_on(mouth, files, env, &mut group)?;
    Ok(group.tokens)
}
