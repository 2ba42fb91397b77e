//! With what a token is fed.

ghost use Rattle.std.specs.Prelude.{◌≡◌};
ghost use Rattle.scan_numbers.specs.Contexts.{around};

use env_groups::Env;
use std::marker::Model;
use tok_lists::Names;

/// The environment and the names with which a token is fed. Contracts see both.
#[derive(Drop)]
pub struct Context<'a> {
    pub(crate) env: &'a Env,
    pub(crate) names: &'a Names,
}

impl<'a> Model for Context<'a> {
    ghost use Rattle.scan_numbers.specs.Contexts.{Context, around};
    ghost use Rattle.scan_numbers.specs.ContextCodes.{context_code};

    ghost Value = { Context };

    ghost coded = { context_code };

    ghost view = { λ c. around c.env.now c.names.now };
}

impl<'a> Context<'a> {
    /// Returns what a token is fed with. Takes no memory.
    pub fn new(env: &'a Env, names: &'a Names) -> Context<'a>
        ensures { result ≡ around env.now names.now }
    {
        Context { env, names }
    }

    /// Returns the environment.
    pub fn env(&self) -> &'a Env
        ensures { result.now ≡ self.now.env }
    {
        self.env
    }
}
