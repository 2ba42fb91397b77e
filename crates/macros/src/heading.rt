//! Parameter texts of definitions.

ghost use Rattle.std.specs.Prelude.{◌≡◌, ◌<◌, ◌≤◌, OnOk, IfOk, List};
ghost use Rattle.ts_base.specs.Agreement.{Agrees, Counts, Uncounted};
ghost use Rattle.tok_lists.specs.declared.spelling.Spelling.{Spelling};
ghost use Rattle.mouth.specs.Keeping.{reading, AgreesAt, AreOpen, AreTold, IsReadable, IsToken};
ghost use Rattle.mouth.specs.Sizes.{unread, size};
ghost use Rattle.raw_texts.specs.declared.token.Brace.TheVariants.{Begin, Neither};
ghost use Rattle.raw_texts.specs.Kinds.{brace_of as the_brace_of};
ghost use Rattle.raw_texts.specs.Faults.{macro_cause};
ghost use Rattle.raw_texts.specs.Runs.{Leaves};
ghost use Rattle.macros.specs.Headings.{heading, empty, is_digit as the_digit, is_next as the_next, kept, with_next, with_brace, plain, numbered, hashed, IsHeading};

use env_groups::Env;
use mouth::Mouth;
use raw_texts::{Brace, Machine, MacroFault, Progress, brace_of, is_parameter, read_on};
use std::alloc::Global;
use tok_lists::{Token, Tokens};
use ts_outside::Files;

/// How many parameters a macro may have.
const MOST_PARAMS: u8 = 9;

/// The parameter text of a definition, without its `{` (The TeXbook, chapter 20).
#[derive(Drop)]
pub struct Heading {
    pub(crate) tokens: Tokens,
    // How many parameters it has.
    pub(crate) count: u8,
    // Whether a `#` was the last token.
    hash: bool,
    // The `{` of the `#{` with which it ended.
    pub(crate) brace: Option<Token>,
}

/// Returns whether a token is the digit of a number, a character of category 12.
pub(crate) fn is_digit(number: u8, token: &Token) -> bool
    requires { number ≤ 9 }
    ensures { result ≡ the_digit number token.now }
{
    match token {
        Token::Char(code, 12) => *code == b'0' + number,
        _ => false,
    }
}

// Whether a token is the digit of the next parameter.
fn is_next(count: u8, token: &Token) -> bool
    ensures { result ≡ the_next count token.now }
{
    if count < MOST_PARAMS {
        return is_digit(count + 1, token);
    }
    false
}

impl Heading {
    fn new(alloc: Global) -> Heading
        ensures value { result ≡ empty }
        ensures holds { (names : List Spelling) → IsHeading names result }
    {
        Heading {
            tokens: Tokens::new(alloc),
            count: 0,
            hash: false,
            brace: None,
        }
    }

    fn keep(&mut self, token: Token) -> Result<Progress, MacroFault>
        requires { the_brace_of token ≡ Neither }
        ensures exact { Agrees (λ progress. (progress, self.new)) macro_cause result
            (kept self.old token) }
        ensures holds { (names : List Spelling) → IsToken names token
            → IsHeading names self.old → IsHeading names self.new }
        ensures quiet { Uncounted macro_cause result }
    {
        self.tokens.push(token)?;
        Ok(Progress::On)
    }

    // A token that is no brace.
    fn take_plain(&mut self, token: Token) -> Result<Progress, MacroFault>
        requires { the_brace_of token ≡ Neither }
        ensures exact { Agrees (λ progress. (progress, self.new)) macro_cause result
            (plain self.old token) }
        ensures holds { (names : List Spelling) → IsToken names token
            → IsHeading names self.old → IsHeading names self.new }
        ensures quiet { Uncounted macro_cause result }
    {
        if is_parameter(&token) {
            self.hash = true;
            return Ok(Progress::On);
        }
        self.keep(token)
    }

    // A token after a `#`, which is no `{`.
    fn take_number(&mut self, token: &Token) -> Result<Progress, MacroFault>
        ensures exact { Agrees (λ progress. (progress, self.new)) macro_cause result
            (numbered self.old token.now) }
        ensures holds { (names : List Spelling) → IsHeading names self.old
            → IsHeading names self.new }
        ensures quiet { Uncounted macro_cause result }
    {
        if !is_next(self.count, token) {
            return Err(MacroFault::BadParameter);
        }
        self.tokens.push(Token::Param(self.count + 1))?;
        self.count += 1;
        self.hash = false;
        Ok(Progress::On)
    }

    // A token after a `#`.
    fn take_hashed(&mut self, token: Token) -> Result<Progress, MacroFault>
        ensures exact { Agrees (λ progress. (progress, self.new)) macro_cause result
            (hashed self.old token (the_brace_of token)) }
        ensures holds { (names : List Spelling) → IsToken names token
            → IsHeading names self.old → IsHeading names self.new }
        ensures quiet { Uncounted macro_cause result }
    {
        match brace_of(&token) {
            Brace::Begin => {
                self.hash = false;
                self.brace = Some(token);
                Ok(Progress::Done)
            }
            Brace::End => self.take_number(&token),
            Brace::Neither => self.take_number(&token),
        }
    }
}

impl Machine for Heading {
    ghost use Rattle.macros.specs.Headings.{step, IsHeading};
    ghost use Rattle.macros.specs.StillHeld.{heading_still};

    ghost step = { step };

    ghost holds = { IsHeading };

    fn feed(&mut self, token: Token, _env: &Env) -> Result<Progress, MacroFault> {
        if self.hash {
            return self.take_hashed(token);
        }
        match brace_of(&token) {
            Brace::Begin => Ok(Progress::Done),
            Brace::End => Err(MacroFault::NoBrace),
            Brace::Neither => self.take_plain(token),
        }
    }

    ghost grows = { heading_still };
}

/// Reads the parameter text of a definition up to its `{` (The TeXbook, chapter 20; TeX: The
/// Program, section 474). `BadParameter` comes exactly where a `#` isn't followed by the next
/// number or a `{`, a tenth one too, and `NoBrace` exactly where a `}` stands in it.
#[tactic(auto, unfolding(crate::specs::Headings::heading))]
pub fn read_heading<F: Files>(
    alloc: Global,
    mouth: &mut Mouth,
    files: &mut F,
    env: &Env,
) -> Result<Heading, MacroFault>
    requires opened { AreOpen mouth.old (F.state files.old) }
    requires readable { IsReadable mouth.old }
    ensures exact { AreTold mouth.old (F.state files.old)
        → AgreesAt (λ h. (h, reading mouth.new (F.state files.new))) macro_cause
        mouth.new result (heading env.now (reading mouth.old (F.state files.old))) }
    ensures leaves { Leaves mouth.old (F.state files.old) mouth.new (F.state files.new) }
    ensures readable { OnOk result (IsReadable mouth.new) }
    ensures heading { IfOk result (IsHeading mouth.new.names) }
    ensures unread { OnOk result (unread (reading mouth.new (F.state files.new))
        < unread (reading mouth.old (F.state files.old))) }
    ensures size { OnOk result (size (reading mouth.new (F.state files.new))
        < size (reading mouth.old (F.state files.old))) }
    ensures counted { Counts macro_cause result (F.state files.old).faults
        (F.state files.new).faults }
{
    let mut heading = Heading::new(alloc);
    read_on(mouth, files, env, &mut heading)?;
    Ok(heading)
}
