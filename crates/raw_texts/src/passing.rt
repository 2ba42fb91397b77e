//! Tokens that are passed over.

ghost use Rattle.std.specs.Prelude.{◌≡◌, ◌<◌, OnOk, IfOk};
ghost use Rattle.ts_base.specs.Agreement.{Counts};
ghost use Rattle.mouth.specs.Keeping.{reading, AgreesAt, AreOpen, AreTold, IsReadable, IsToken};
ghost use Rattle.mouth.specs.Sizes.{unread, size};
ghost use Rattle.raw_texts.specs.Faults.{macro_cause};
ghost use Rattle.raw_texts.specs.Runs.{Leaves};
ghost use Rattle.raw_texts.specs.Passing.{passes as the_passes, past as the_past};

use crate::fault::MacroFault;
use crate::machine::{Machine, Progress};
use crate::meanings::{is_blank, meaning_of};
use crate::run::read_on;
use crate::token::is_space;
use env_groups::Env;
use mouth::Mouth;
use tok_lists::Token;
use ts_outside::Files;

/// What is passed over before a token.
#[derive(Clone, Copy, Debug, PartialEq, Eq)]
pub enum Past {
    /// Spaces.
    Spaces,
    /// Spaces, also by `\let`, and `\relax`.
    Blanks,
}

/// What passes over tokens: the one that was taken last, a space before the first.
#[derive(Drop)]
pub(crate) struct Passing {
    past: Past,
    last: Token,
}

// Whether a token is passed over.
fn passes(past: Past, token: &Token, env: &Env) -> bool
    ensures { result ≡ the_passes env.now past token.now }
{
    match past {
        Past::Spaces => is_space(token),
        Past::Blanks => is_blank(&meaning_of(token, env)),
    }
}

impl Machine for Passing {
    ghost use Rattle.mouth.specs.Keeping.{IsToken};
    ghost use Rattle.raw_texts.specs.Passing.{step};
    ghost use Rattle.raw_texts.specs.StillHeld.{token_still};

    ghost step = { step };

    ghost holds = { λ names passing. IsToken names passing.last };

    fn feed(&mut self, token: Token, env: &Env) -> Result<Progress, MacroFault> {
        let passed = passes(self.past, &token, env);
        self.last = token;
        if passed {
            return Ok(Progress::On);
        }
        Ok(Progress::Done)
    }

    ghost grows = { λ old new passing grew holds. token_still old new passing.last grew holds };
}

/// Returns the next token without expansion that isn't passed over.
#[tactic(auto, unfolding(crate::specs::Passing::past))]
pub fn read_past<F: Files>(
    mouth: &mut Mouth,
    files: &mut F,
    env: &Env,
    past: Past,
) -> Result<Token, MacroFault>
    requires opened { AreOpen mouth.old (F.state files.old) }
    requires readable { IsReadable mouth.old }
    ensures exact { AreTold mouth.old (F.state files.old)
        → AgreesAt (λ token. (token, reading mouth.new (F.state files.new))) macro_cause
        mouth.new result (the_past env.now past (reading mouth.old (F.state files.old))) }
    ensures leaves { Leaves mouth.old (F.state files.old) mouth.new (F.state files.new) }
    ensures readable { OnOk result (IsReadable mouth.new) }
    ensures token { IfOk result (IsToken mouth.new.names) }
    ensures unread { OnOk result (unread (reading mouth.new (F.state files.new))
        < unread (reading mouth.old (F.state files.old))) }
    ensures size { OnOk result (size (reading mouth.new (F.state files.new))
        < size (reading mouth.old (F.state files.old))) }
    ensures counted { Counts macro_cause result (F.state files.old).faults
        (F.state files.new).faults }
{
    let mut passing = Passing {
        past,
        last: Token::Char(b' ', 10),
    };
    read_on(mouth, files, env, &mut passing)?;
    Ok(passing.last)
}
