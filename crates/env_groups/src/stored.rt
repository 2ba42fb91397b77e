//! Values of registers and parameters, each within its bounds.

ghost use Rattle.std.specs.Prelude.{◌≡◌};
ghost use Rattle.box_tree.specs.Bounds.{IsDimen};
ghost use Rattle.tok_lists.specs.Names.{HasNoParam};
ghost use Rattle.env_groups.specs.Bounds.{IsInt, HasSetDimens};

use std::marker::Model;
use tok_lists::SharedTokens;
use ts_geometry::{Glue, Sp};

/// An integer within 2^31 - 1 of 0. Contracts see the integer.
#[derive(Clone, Copy, Debug)]
pub(crate) struct Int {
    value: i64,
}

impl Model for Int {
    ghost use Rattle.std.specs.Prelude.{ℤ};
    ghost use Rattle.env_groups.specs.Bounds.{IsInt};

    ghost Value = { ℤ };

    ghost view = { λ n. n.value };

    ghost invariant = { λ n. IsInt n.value };

    ghost inverse = { λ z. record { value = z } };
}

impl Int {
    pub(crate) fn new(value: i64) -> Int
        requires { IsInt value }
        ensures { result ≡ value }
    {
        Int { value }
    }

    pub(crate) fn value(self) -> i64
        ensures value { result ≡ self }
        ensures within { IsInt result }
    {
        self.value
    }
}

/// A dimension within 2^30 - 1 scaled points of 0. Contracts see the dimension.
#[derive(Clone, Copy, Debug)]
pub(crate) struct Dimen {
    value: Sp,
}

impl Model for Dimen {
    ghost use Rattle.ts_geometry.specs.declared.measure.Sp.{Sp};
    ghost use Rattle.box_tree.specs.Bounds.{IsDimen};

    ghost Value = { Sp };

    ghost view = { λ d. d.value };

    ghost invariant = { λ d. IsDimen d.value };

    ghost inverse = { λ s. record { value = s } };
}

impl Dimen {
    pub(crate) fn new(value: Sp) -> Dimen
        requires { IsDimen value }
        ensures { result ≡ value }
    {
        Dimen { value }
    }

    pub(crate) fn value(self) -> Sp
        ensures value { result ≡ self }
        ensures within { IsDimen result }
    {
        self.value
    }
}

/// Glue, each of whose numbers is within 2^30 - 1 scaled points of 0. Contracts see the glue.
#[derive(Clone, Copy, Debug)]
pub(crate) struct SetGlue {
    value: Glue,
}

impl Model for SetGlue {
    ghost use Rattle.ts_geometry.specs.declared.glue.Glue.{Glue};
    ghost use Rattle.env_groups.specs.Bounds.{HasSetDimens};

    ghost Value = { Glue };

    ghost view = { λ g. g.value };

    ghost invariant = { λ g. HasSetDimens g.value };

    ghost inverse = { λ g. record { value = g } };
}

impl SetGlue {
    pub(crate) fn new(value: Glue) -> SetGlue
        requires { HasSetDimens value }
        ensures { result ≡ value }
    {
        SetGlue { value }
    }

    pub(crate) fn value(self) -> Glue
        ensures value { result ≡ self }
        ensures within { HasSetDimens result }
    {
        self.value
    }
}

/// A list of tokens without parameters of macros. Contracts see the list.
#[derive(Debug, Drop)]
pub(crate) struct PlainTokens {
    value: SharedTokens,
}

impl Model for PlainTokens {
    ghost use Rattle.std.specs.Prelude.{List};
    ghost use Rattle.tok_lists.specs.declared.token.Token.{Token};
    ghost use Rattle.tok_lists.specs.Names.{HasNoParam};

    ghost Value = { List Token };

    ghost view = { λ t. t.value };

    ghost invariant = { λ t. HasNoParam t.value };
}

impl PlainTokens {
    pub(crate) fn new(value: SharedTokens) -> PlainTokens
        requires { HasNoParam value }
        ensures { result ≡ value }
    {
        PlainTokens { value }
    }

    /// Returns the list once more, which takes no memory.
    pub(crate) fn value(&self) -> SharedTokens
        ensures value { result ≡ self.now }
        ensures plain { HasNoParam result }
    {
        self.value.same_copy()
    }
}
