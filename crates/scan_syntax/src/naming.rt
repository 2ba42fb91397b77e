//! Names of files.

ghost use Rattle.std.specs.Prelude.{◌≡◌, List};
ghost use Rattle.scan_numbers.specs.Tokens.{FedToken, fed};
ghost use Rattle.scan_syntax.specs.FileNames.{file_name as a_file_name, name_byte as the_name_byte};
ghost use Rattle.scan_syntax.specs.FileNames.{ends_name as it_ends_name};
ghost use Rattle.scan_numbers.specs.Machines.{Follows};
ghost use Rattle.scan_syntax.specs.Naming.{naming_left, begun_left, same_name};

use scan_numbers::{Context, ScanFault, ScanKind, Step, is_space};
use std::alloc::Global;
use tok_lists::Token;
use ts_outside::{FileName, NameFault};

/// The name of a file that is being read.
#[derive(Drop)]
pub(crate) struct Naming {
    /// Its characters so far. A Japanese one is 0, which no name has.
    bytes: Vec<u8>,
}

// The character of a name that a token is.
fn name_byte(token: &Token) -> Option<u8>
    ensures { result ≡ the_name_byte token.now }
{
    match token {
        Token::Char(b' ', _) => None,
        Token::Char(code, _) => Some(*code),
        Token::Ja(_) => Some(0),
        Token::Name(_) | Token::Kept(_) | Token::Param(_) => None,
    }
}

// Whether a token that ends a name is taken.
fn ends_name(token: &Token) -> bool
    ensures { result ≡ it_ends_name token.now }
{
    matches!(token, Token::Char(b' ', _))
}

impl Naming {
    #[tactic(auto, using(crate::proofs::FileNames::fresh, std::proofs::lemmas::Grind::common_steps))]
    pub(crate) fn new(alloc: Global) -> Naming
        ensures { (list : List FedToken) → naming_left result list ≡ a_file_name list }
    {
        Naming {
            bytes: Vec::new(alloc),
        }
    }

    pub(crate) fn feed(
        self,
        token: &Token,
        context: &Context<'_>,
        alloc: Global,
    ) -> Result<Step<Naming, FileName>, ScanFault>
        ensures { Follows same_name naming_left (fed token.now context.now) (naming_left self)
            result }
    {
        if self.bytes.is_empty() {
            if is_space(token, context) {
                Ok(Step::Further(self))
            } else {
                self.go_on(token, context, alloc)
            }
        } else {
            self.go_on(token, context, alloc)
        }
    }

    // A token after the spaces.
    #[tactic(auto, using(crate::proofs::FileNames::steps, std::proofs::lemmas::Grind::common_steps))]
    fn go_on(
        mut self,
        token: &Token,
        context: &Context<'_>,
        alloc: Global,
    ) -> Result<Step<Naming, FileName>, ScanFault>
        ensures { Follows same_name naming_left (fed token.now context.now)
            (begun_left self.bytes.items) result }
    {
        match name_byte(token) {
            Some(byte) => {
                self.bytes.push(byte)?;
                Ok(Step::Further(self))
            }
            None => match FileName::new(alloc, &self.bytes) {
                Ok(name) => Ok(Step::Done(name, ends_name(token))),
                Err(NameFault::BadName) => Err(ScanFault::Kind(ScanKind::NoName)),
                Err(NameFault::NoMemory) => Err(ScanFault::NoMemory),
            },
        }
    }
}
