//! Kinds of groups.

ghost use Rattle.std.specs.Prelude.{◌≡◌};
ghost use Rattle.env_groups.specs.Groups.{same_kind};

/// What began a group (The TeXbook, chapter 24).
#[derive(Clone, Copy, Debug, PartialEq, Eq, Hash)]
pub enum GroupKind {
    /// A left brace.
    Simple,
    /// `\begingroup`.
    Semi,
    /// A box.
    Box,
    /// The output list.
    Output,
}

/// Whether two kinds are the same.
pub(crate) fn is_same(a: GroupKind, b: GroupKind) -> bool
    ensures { result ≡ same_kind a b }
{
    a == b
}
