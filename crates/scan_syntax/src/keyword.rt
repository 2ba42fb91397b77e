//! Keywords.

ghost use Rattle.std.specs.Prelude.{◌≡◌, ◌<◌, length};
ghost use Rattle.scan_syntax.specs.Words.{letters_of};

use crate::word::Sought;
use scan_numbers::{Context, ScanFault, is_letter, is_space, letter};
use std::alloc::Global;
use tok_lists::Token;

/// A keyword that is looked for.
#[derive(Drop)]
pub(crate) struct Keyword {
    word: Sought,
    /// The tokens that are its first letters.
    matched: Vec<Token>,
    ghost shorter: { length matched.items < length (letters_of word) },
}

/// What a token makes of a keyword that is looked for.
#[derive(Drop)]
pub(crate) enum Attempt {
    On(Keyword),
    There,
    /// It isn't there, and these tokens were looked at.
    Not(Vec<Token>),
}

impl Keyword {
    ghost use Rattle.scan_syntax.specs.Attempts.{Attempts, keyword_left, within_left};
    ghost use Rattle.std.specs.Prelude.{◌≡◌, List};
    ghost use Rattle.scan_numbers.specs.Tokens.{FedToken, fed};
    ghost use Rattle.scan_numbers.specs.Keywords.{keyword as a_keyword};
    ghost use Rattle.scan_syntax.specs.Words.{letters_of};

    #[tactic(auto, using(crate::proofs::Attempts::fresh, std::proofs::lemmas::Grind::common_steps))]
    pub(crate) fn new(alloc: Global, word: Sought) -> Keyword
        ensures { (list : List FedToken)
            → keyword_left result list ≡ a_keyword (letters_of word) list }
    {
        Keyword {
            word,
            matched: Vec::new(alloc),
        }
    }

    pub(crate) fn feed(self, token: &Token, context: &Context<'_>) -> Result<Attempt, ScanFault>
        ensures { Attempts (fed token.now context.now) (keyword_left self) result }
    {
        if self.matched.is_empty() {
            if is_space(token, context) {
                Ok(Attempt::On(self))
            } else {
                self.attempt(token, context)
            }
        } else {
            self.attempt(token, context)
        }
    }

    // A token that is the next letter or isn't.
    #[tactic(auto, using(crate::proofs::Attempts::attempts, std::proofs::lemmas::Grind::common_steps))]
    fn attempt(mut self, token: &Token, context: &Context<'_>) -> Result<Attempt, ScanFault>
        ensures { Attempts (fed token.now context.now)
            (within_left self.matched.items (letters_of self.word)) result }
    {
        let letters = self.word.letters();
        let count = self.matched.len();
        if !is_letter(letters[count], letter(token)) {
            self.matched.push(*token)?;
            Ok(Attempt::Not(self.matched))
        } else if count + 1 == letters.len() {
            Ok(Attempt::There)
        } else {
            self.matched.push(*token)?;
            Ok(Attempt::On(self))
        }
    }
}
