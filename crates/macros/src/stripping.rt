//! Arguments without their braces.

ghost use Rattle.std.specs.Prelude.{◌≡◌, ◌<◌, ◌+◌, ◌^◌};
ghost use Rattle.raw_texts.specs.Kinds.{brace_of as the_brace_of};
ghost use Rattle.macros.specs.Matching.{after_brace};
ghost use Rattle.macros.specs.Delimited.{closes_last as the_closes_last, is_one_group as the_one_group, stripped as the_stripped};

use raw_texts::{Brace, brace_of};
use tok_lists::Token;

// How many groups are open after a token.
fn groups_after(groups: usize, token: &Token) -> usize
    requires { groups + 1 < 2 ^ 64 }
    ensures { result ≡ after_brace groups (the_brace_of token.now) }
{
    match brace_of(token) {
        Brace::Begin => groups + 1,
        Brace::End => groups.saturating_sub(1),
        Brace::Neither => groups,
    }
}

// Whether the last token closes the one group that is open before a list.
fn closes_last(list: &[Token]) -> bool
    ensures { result ≡ the_closes_last 1 list.now }
{
    let mut groups = 1;
    for token in list {
        if groups == 0 {
            return false;
        }
        groups = groups_after(groups, token);
    }
    groups == 0
}

fn is_one_group(list: &[Token]) -> bool
    ensures { result ≡ the_one_group list.now }
{
    match list.first() {
        Some(first) => match brace_of(first) {
            Brace::Begin => closes_last(&list[1..]),
            Brace::End | Brace::Neither => false,
        },
        None => false,
    }
}

/// Returns a list without its braces, where it is one group.
pub(crate) fn stripped(list: &[Token]) -> &[Token]
    ensures { result.now ≡ the_stripped list.now }
{
    if is_one_group(list) {
        return &list[1..list.len() - 1];
    }
    list
}
