//! The search for the delimiter of an argument.

ghost use Rattle.std.specs.Prelude.{◌≡◌, ◌<◌, ◌≤◌, ◌&&◌, ◌++◌, ◌∷◌, [], length, not, false, slice_range, OnOk, IfOk, Ok, List};
ghost use Rattle.ts_base.specs.Agreement.{Agrees, Uncounted};
ghost use Rattle.tok_lists.specs.declared.spelling.Spelling.{Spelling};
ghost use Rattle.mouth.specs.Keeping.{IsToken};
ghost use Rattle.raw_texts.specs.Kinds.{brace_of as the_brace_of};
ghost use Rattle.raw_texts.specs.Faults.{macro_cause};
ghost use Rattle.raw_texts.specs.Holding.{AreTokens};
ghost use Rattle.macros.specs.Matching.{matched, argument, has_par as the_has_par, with_text, judged, after_brace, is_ended, is_extra as the_extra};
ghost use Rattle.macros.specs.Delimited.{stripped};
ghost use Rattle.macros.specs.Borders.{IsDelimiter};
ghost use Rattle.macros.specs.Searches.{search_for};

use crate::border::{lets_par_in, next_match};
use crate::stripping::stripped as without_braces;
use env_groups::Env;
use raw_texts::{Brace, Machine, MacroFault, Progress, brace_of};
use std::alloc::Global;
use std::marker::Model;
use tok_lists::{SharedTokens, Token, Tokens};
use ts_base::NoMemory;

/// What searches for the delimiter of an argument. Contracts see the delimiter, whether the macro
/// is long, and the text so far.
#[derive(Drop)]
pub(crate) struct Delimited {
    // The parameter text, of which a part is the delimiter.
    params: SharedTokens,
    from: usize,
    to: usize,
    long: bool,
    text: Tokens,
    // How many groups are open.
    level: u64,
    // How many tokens of the delimiter end the text.
    many: usize,
}

impl Model for Delimited {
    ghost use Rattle.macros.specs.Matching.{Search};
    ghost use Rattle.macros.specs.Searches.{search_for, IsSearch, IsWithin};

    ghost Value = { Search };

    ghost view = { λ d. search_for d.params d.from d.to d.long d.text };

    ghost invariant = { λ d. IsSearch (search_for d.params d.from d.to d.long d.text) d.level d.many
        × IsWithin d.params d.from d.to };
}

// How many groups are open after a token.
fn level_after(level: u64, token: &Token) -> Result<u64, NoMemory>
    ensures { IfOk result (λ after. after ≡ after_brace level (the_brace_of token.now)) }
{
    match brace_of(token) {
        Brace::Begin => Ok(level.checked_add(1).ok_or(NoMemory)?),
        Brace::End => Ok(level.saturating_sub(1)),
        Brace::Neither => Ok(level),
    }
}

impl Delimited {
    /// Begins a search for the part of a parameter text from one place to another.
    pub(crate) fn new(
        alloc: Global,
        params: &SharedTokens,
        from: usize,
        to: usize,
        long: bool,
    ) -> Delimited
        requires order { from ≤ to }
        requires most { to ≤ length params.now }
        requires delimiter { IsDelimiter (slice_range params.now from to) }
        ensures { result ≡ search_for params.now from to long [] }
    {
        Delimited {
            params: params.same_copy(),
            from,
            to,
            long,
            text: Tokens::new(alloc),
            level: 0,
            many: 0,
        }
    }

    fn delimiter(&self) -> &[Token]
        ensures { result.now ≡ self.now.delimiter }
    {
        &self.params.as_slice()[self.from..self.to]
    }

    /// Returns the argument: the text without what of the delimiter ends it, and without its
    /// braces where it is one group.
    #[tactic(auto, using(crate::proofs::Slices::stripped_tokens, crate::proofs::Slices::tokens_take))]
    pub(crate) fn argument(&self, alloc: Global) -> Result<SharedTokens, NoMemory>
        ensures value { IfOk result (λ tokens.
            tokens ≡ stripped (argument self.now.delimiter self.now.text)) }
        ensures tokens { (names : List Spelling) → AreTokens names self.now.text
            → IfOk result (AreTokens names) }
    {
        let text = self.text.as_slice();
        SharedTokens::new(alloc, without_braces(&text[..text.len() - self.many]))
    }

    // Whether the whole delimiter ends the text.
    fn is_ended(&self) -> bool
        ensures value { result ≡ is_ended self.now.delimiter self.now.text }
    {
        self.many == self.delimiter().len()
    }

    // How many tokens of the delimiter end the text after a token.
    #[tactic(auto, using(crate::proofs::Searching::next_inside))]
    fn next_many(&self, token: &Token) -> usize
        requires { is_ended self.now.delimiter self.now.text ≡ false }
        ensures { result ≡ matched self.now.delimiter (self.now.text ++ token.now ∷ []) }
    {
        if self.level > 0 {
            return 0;
        }
        next_match(self.delimiter(), self.many, token)
    }

    // Whether `\par` stands in the argument after a token, and may not.
    fn refuses_par(&self, many: usize, token: &Token) -> bool
        requires { many ≡ matched self.now.delimiter (self.now.text ++ token.now ∷ []) }
        ensures { result ≡ (not self.now.long
            && the_has_par (argument self.now.delimiter (self.now.text ++ token.now ∷ []))) }
    {
        if self.long {
            return false;
        }
        lets_par_in(self.delimiter(), self.many, many, token)
    }

    fn is_extra(&self, token: &Token) -> bool
        ensures { result ≡ the_extra self.now.text token.now }
    {
        if self.level > 0 {
            return false;
        }
        matches!(brace_of(token), Brace::End)
    }

    // What the text comes to by a token.
    fn judge(&self, many: usize, token: &Token) -> Result<Progress, MacroFault>
        requires going { is_ended self.now.delimiter self.now.text ≡ false }
        requires many { many ≡ matched self.now.delimiter (self.now.text ++ token.now ∷ []) }
        ensures exact { Agrees (λ progress.
            (progress, with_text self.now (self.now.text ++ token.now ∷ []))) macro_cause result
            (judged self.now token.now (self.now.text ++ token.now ∷ [])) }
        ensures par { OnOk result ((not self.now.long
            && the_has_par (argument self.now.delimiter (self.now.text ++ token.now ∷ [])))
            ≡ false) }
        ensures quiet { Uncounted macro_cause result }
    {
        let _params = &self.params;
        if many == self.delimiter().len() {
            return Ok(Progress::Done);
        }
        if self.refuses_par(many, token) {
            return Err(MacroFault::ArgParagraph);
        }
        if self.is_extra(token) {
            return Err(MacroFault::UseMismatch);
        }
        Ok(Progress::On)
    }

    #[tactic(auto, using(raw_texts::proofs::Holding::tokens_last))]
    fn put(&mut self, token: Token, many: usize) -> Result<(), MacroFault>
        requires many { many ≡ matched self.old.delimiter (self.old.text ++ token ∷ []) }
        requires par { (not self.old.long
            && the_has_par (argument self.old.delimiter (self.old.text ++ token ∷ []))) ≡ false }
        ensures exact { Agrees (λ _. self.new) macro_cause result
            (Ok (with_text self.old (self.old.text ++ token ∷ []))) }
        ensures holds { (names : List Spelling) → IsToken names token
            → AreTokens names self.old.text → AreTokens names self.new.text }
        ensures quiet { Uncounted macro_cause result }
    {
        let level = level_after(self.level, &token)?;
        self.text.push(token)?;
        self.level = level;
        self.many = many;
        Ok(())
    }
}

impl Machine for Delimited {
    ghost use Rattle.raw_texts.specs.Holding.{AreTokens};
    ghost use Rattle.raw_texts.specs.StillHeld.{tokens_still};
    ghost use Rattle.macros.specs.Matching.{step};

    ghost step = { step };

    ghost holds = { λ names search. AreTokens names search.text };

    fn feed(&mut self, token: Token, _env: &Env) -> Result<Progress, MacroFault> {
        if self.is_ended() {
            return Ok(Progress::Done);
        }
        let many = self.next_many(&token);
        let progress = self.judge(many, &token)?;
        self.put(token, many)?;
        Ok(progress)
    }

    ghost grows = { λ old new search grew holds. tokens_still old new search.text grew holds };
}
