//! Bodies of definitions.

ghost use Rattle.std.specs.Prelude.{◌≡◌, ◌+◌, ◌-◌, OnOk, List};
ghost use Rattle.ts_base.specs.Agreement.{Agrees, Uncounted};
ghost use Rattle.tok_lists.specs.declared.spelling.Spelling.{Spelling};
ghost use Rattle.tok_lists.specs.Names.{IsHeld};
ghost use Rattle.tok_lists.specs.Pending.{IsParamWithin};
ghost use Rattle.mouth.specs.Keeping.{IsToken};
ghost use Rattle.raw_texts.specs.Holding.{AreTokens};
ghost use Rattle.raw_texts.specs.Kinds.{brace_of as the_brace_of};
ghost use Rattle.raw_texts.specs.Faults.{macro_cause};
ghost use Rattle.macros.specs.Bodies.{empty, Numbers, kept, plain, ended, taken, hashed, stored, IsBody};
ghost use Rattle.macros.specs.Headings.{IsHeading};

use crate::heading::Heading;
use env_groups::Env;
use raw_texts::{Brace, Machine, MacroFault, Progress, brace_of, is_parameter};
use std::alloc::Global;
use tok_lists::{Token, Tokens};
use ts_base::NoMemory;

/// The parameter text of a definition, and its body as far as it was read (The TeXbook, chapter
/// 20).
#[derive(Drop)]
pub struct Body {
    pub(crate) heading: Heading,
    pub(crate) tokens: Tokens,
    // How many groups are open in it.
    level: u64,
    // Whether a `#` was the last token.
    hash: bool,
}

// The number of the parameter, among so many, that a token is the digit of.
fn number_of(count: u8, token: &Token) -> Option<u8>
    ensures { Numbers count token.now result }
{
    match token {
        Token::Char(code, 12) => {
            if *code < b'1' {
                return None;
            }
            let number = *code - b'0';
            if number > count {
                return None;
            }
            Some(number)
        }
        _ => None,
    }
}

impl Body {
    /// Begins the body after a parameter text.
    pub fn new(alloc: Global, heading: Heading) -> Body
        ensures value { result ≡ empty heading }
        ensures holds { (names : List Spelling) → IsHeading names heading → IsBody names result }
    {
        Body {
            heading,
            tokens: Tokens::new(alloc),
            level: 0,
            hash: false,
        }
    }

    /// Returns whether a `#` was the last token.
    pub fn is_hashed(&self) -> bool
        ensures { result ≡ self.now.hash }
    {
        self.hash
    }

    /// Stores tokens as they are, with their braces and `#`, as those that `\the` gives in an
    /// expanded body (TeX: The Program, section 478). Refused, it may have stored some of them.
    pub fn store(&mut self, list: &[Token]) -> Result<(), NoMemory>
        ensures ok { OnOk result (self.new ≡ stored self.old list.now) }
        ensures holds { (names : List Spelling) → AreTokens names list.now
            → IsBody names self.old → OnOk result (IsBody names self.new) }
    {
        for token in list {
            self.tokens.push(*token)?;
        }
        Ok(())
    }

    // Keeps a token, with so many groups open after it.
    fn keep(&mut self, token: Token, level: u64) -> Result<Progress, MacroFault>
        ensures exact { Agrees (λ progress. (progress, self.new)) macro_cause result
            (kept self.old token level) }
        ensures holds { (names : List Spelling) → IsHeld names token
            → IsParamWithin self.old.heading.count token → IsBody names self.old
            → IsBody names self.new }
        ensures quiet { Uncounted macro_cause result }
    {
        self.tokens.push(token)?;
        self.level = level;
        self.hash = false;
        Ok(Progress::On)
    }

    // Keeps a token of the mouth.
    #[tactic(auto, using(crate::proofs::Bodied::param_within))]
    fn keep_plain(&mut self, token: Token, level: u64) -> Result<Progress, MacroFault>
        ensures exact { Agrees (λ progress. (progress, self.new)) macro_cause result
            (kept self.old token level) }
        ensures holds { (names : List Spelling) → IsToken names token → IsBody names self.old
            → IsBody names self.new }
        ensures quiet { Uncounted macro_cause result }
    {
        self.keep(token, level)
    }

    // A `}`.
    fn close(&mut self, token: Token) -> Result<Progress, MacroFault>
        ensures exact { Agrees (λ progress. (progress, self.new)) macro_cause result
            (ended self.old token) }
        ensures holds { (names : List Spelling) → IsToken names token → IsBody names self.old
            → IsBody names self.new }
        ensures quiet { Uncounted macro_cause result }
    {
        if self.level == 0 {
            return Ok(Progress::Done);
        }
        self.keep_plain(token, self.level - 1)
    }

    // A token that is no brace.
    fn take_plain(&mut self, token: Token) -> Result<Progress, MacroFault>
        ensures exact { Agrees (λ progress. (progress, self.new)) macro_cause result
            (plain self.old token) }
        ensures holds { (names : List Spelling) → IsToken names token → IsBody names self.old
            → IsBody names self.new }
        ensures quiet { Uncounted macro_cause result }
    {
        if is_parameter(&token) {
            self.hash = true;
            return Ok(Progress::On);
        }
        self.keep_plain(token, self.level)
    }

    // A token after a `#`.
    fn take_hashed(&mut self, token: Token) -> Result<Progress, MacroFault>
        ensures exact { Agrees (λ progress. (progress, self.new)) macro_cause result
            (hashed self.old token) }
        ensures holds { (names : List Spelling) → IsToken names token → IsBody names self.old
            → IsBody names self.new }
        ensures quiet { Uncounted macro_cause result }
    {
        if is_parameter(&token) {
            return self.keep_plain(token, self.level);
        }
        match number_of(self.heading.count, &token) {
            Some(number) => self.keep(Token::Param(number), self.level),
            None => Err(MacroFault::BadParameter),
        }
    }

    fn take(&mut self, token: Token) -> Result<Progress, MacroFault>
        ensures exact { Agrees (λ progress. (progress, self.new)) macro_cause result
            (taken self.old token (the_brace_of token)) }
        ensures holds { (names : List Spelling) → IsToken names token → IsBody names self.old
            → IsBody names self.new }
        ensures quiet { Uncounted macro_cause result }
    {
        match brace_of(&token) {
            Brace::Begin => {
                let level = self.level.checked_add(1).ok_or(NoMemory)?;
                self.keep_plain(token, level)
            }
            Brace::End => self.close(token),
            Brace::Neither => self.take_plain(token),
        }
    }
}

impl Machine for Body {
    ghost use Rattle.macros.specs.Bodies.{step, IsBody};
    ghost use Rattle.macros.specs.StillHeld.{body_still};

    ghost step = { step };

    ghost holds = { IsBody };

    fn feed(&mut self, token: Token, _env: &Env) -> Result<Progress, MacroFault> {
        if self.hash {
            return self.take_hashed(token);
        }
        self.take(token)
    }

    ghost grows = { body_still };
}
