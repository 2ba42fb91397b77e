//! Skipped text.

ghost use Rattle.std.specs.Prelude.{◌<◌, ◌+◌, OnOk};
ghost use Rattle.ts_base.specs.Agreement.{Agrees, Counts, Uncounted};
ghost use Rattle.mouth.specs.Keeping.{reading, AgreesAt, AreOpen, AreTold, IsReadable};
ghost use Rattle.mouth.specs.Sizes.{unread, size};
ghost use Rattle.raw_texts.specs.Faults.{macro_cause};
ghost use Rattle.raw_texts.specs.Runs.{Leaves};
ghost use Rattle.raw_texts.specs.Skipping.{skipped, further, done, at_level, inside};

use crate::fault::MacroFault;
use crate::limb::{Limb, limb_of};
use crate::machine::{Machine, Progress};
use crate::text::read_text;
use env_groups::Env;
use mouth::Mouth;
use tok_lists::Token;
use ts_base::NoMemory;
use ts_outside::Files;

/// Up to where text is skipped, at the level where it began.
#[derive(Clone, Copy, Debug, PartialEq, Eq)]
pub enum Until {
    /// Up to `\fi`: after a branch that was taken.
    Fi,
    /// Up to `\else` or `\fi`: after a false test.
    Else,
    /// Up to `\or`, `\else` or `\fi`: in an `\ifcase`.
    Or,
}

/// What skipped text ended with.
#[derive(Clone, Copy, Debug, PartialEq, Eq)]
pub enum Ended {
    Or,
    Else,
    Fi,
}

/// What skips text: how many conditionals are open in it, and what it ended with.
#[derive(Drop)]
pub(crate) struct Skipping {
    until: Until,
    level: u64,
    ended: Ended,
}

impl Skipping {
    fn open(&mut self) -> Result<Progress, MacroFault>
        ensures exact { Agrees (λ progress. (progress, self.new)) macro_cause result
            (further self.old (self.old.level + 1)) }
        ensures quiet { Uncounted macro_cause result }
    {
        self.level = self.level.checked_add(1).ok_or(NoMemory)?;
        Ok(Progress::On)
    }

    fn end(&mut self, ended: Ended) -> Result<Progress, MacroFault>
        ensures exact { Agrees (λ progress. (progress, self.new)) macro_cause result
            (done self.old ended) }
        ensures quiet { Uncounted macro_cause result }
    {
        self.ended = ended;
        Ok(Progress::Done)
    }

    // Where no conditional is open in the text.
    fn take_at_level(&mut self, limb: Limb) -> Result<Progress, MacroFault>
        ensures exact { Agrees (λ progress. (progress, self.new)) macro_cause result
            (at_level self.old limb) }
        ensures quiet { Uncounted macro_cause result }
    {
        match (limb, self.until) {
            (Limb::If, _) => self.open(),
            (Limb::Fi, _) => self.end(Ended::Fi),
            (Limb::Else, Until::Else | Until::Or) => self.end(Ended::Else),
            (Limb::Or, Until::Or) => self.end(Ended::Or),
            (Limb::Or, Until::Else) => Err(MacroFault::ExtraCond),
            _ => Ok(Progress::On),
        }
    }

    // Inside a conditional of the text.
    fn take_inside(&mut self, limb: Limb) -> Result<Progress, MacroFault>
        ensures exact { Agrees (λ progress. (progress, self.new)) macro_cause result
            (inside self.old limb) }
        ensures quiet { Uncounted macro_cause result }
    {
        match limb {
            Limb::If => self.open(),
            Limb::Fi => {
                self.level = self.level.saturating_sub(1);
                Ok(Progress::On)
            }
            _ => Ok(Progress::On),
        }
    }
}

impl Machine for Skipping {
    ghost use Rattle.raw_texts.specs.Skipping.{step};

    ghost step = { step };

    ghost holds = { λ _ _. Unit {0} };

    fn feed(&mut self, token: Token, env: &Env) -> Result<Progress, MacroFault> {
        let limb = limb_of(token, env);
        if self.level == 0 {
            self.take_at_level(limb)
        } else {
            self.take_inside(limb)
        }
    }

    ghost grows = { λ _ _ _ _ _. tt };
}

/// Skips text without expanding it, up to the end of its branch, and returns with what it ended
/// (The TeXbook, chapter 20; TeX: The Program, section 494). `ExtraCond` comes exactly where an
/// `\or` stands in text that is skipped after a false test, at the level of that test.
#[tactic(auto, unfolding(crate::specs::Skipping::skipped))]
pub fn skip_text<F: Files>(
    mouth: &mut Mouth,
    files: &mut F,
    env: &Env,
    until: Until,
) -> Result<Ended, MacroFault>
    requires opened { AreOpen mouth.old (F.state files.old) }
    requires readable { IsReadable mouth.old }
    ensures exact { AreTold mouth.old (F.state files.old)
        → AgreesAt (λ ended. (ended, reading mouth.new (F.state files.new))) macro_cause
        mouth.new result (skipped env.now until (reading mouth.old (F.state files.old))) }
    ensures leaves { Leaves mouth.old (F.state files.old) mouth.new (F.state files.new) }
    ensures readable { OnOk result (IsReadable mouth.new) }
    ensures unread { OnOk result (unread (reading mouth.new (F.state files.new))
        < unread (reading mouth.old (F.state files.old))) }
    ensures size { OnOk result (size (reading mouth.new (F.state files.new))
        < size (reading mouth.old (F.state files.old))) }
    ensures counted { Counts macro_cause result (F.state files.old).faults
        (F.state files.new).faults }
{
    let mut skipping = Skipping {
        until,
        level: 0,
        ended: Ended::Fi,
    };
    read_text(mouth, files, env, &mut skipping)?;
    Ok(skipping.ended)
}
