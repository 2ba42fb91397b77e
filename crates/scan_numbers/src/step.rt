//! Steps of the machines.

ghost use Rattle.std.specs.Prelude.{◌≡◌, IfOk};
ghost use Rattle.scan_numbers.specs.Tokens.{not_taken as what_is_not_taken};

use std::alloc::{AllocError, Global};
use tok_lists::Token;

/// What a token makes of a part that is being read.
#[derive(Drop)]
pub enum Step<S, V> {
    /// The part wants a further token.
    Further(S),
    /// The part is whole, and whether it takes the token.
    Done(V, bool),
}

/// Returns the token, where it wasn't taken, as the tokens to put back. Takes no memory where it
/// was taken.
pub fn not_taken(alloc: Global, taken: bool, token: &Token) -> Result<Vec<Token>, AllocError>
    ensures { IfOk result (λ tokens. tokens.items ≡ what_is_not_taken taken token.now) }
{
    let mut tokens = Vec::new(alloc);
    if !taken {
        tokens.push(*token)?;
    }
    Ok(tokens)
}
