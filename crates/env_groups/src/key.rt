//! What can be looked up and set.

ghost use Rattle.std.specs.Prelude.{◌≡◌, ◌≤◌, [], Ok};
ghost use Rattle.box_tree.specs.Bounds.{IsDimen};
ghost use Rattle.env_groups.specs.Bounds.{IsInt, HasSetDimens};
ghost use Rattle.env_groups.specs.Places.{register, int_place, dim_place, glue_place, toks_place, int_start, dim_start, glue_start};

use crate::fault::EnvFault;
use crate::parameter::{DimParam, GlueParam, IntParam, ToksParam, ZERO_GLUE};
use ts_geometry::{Glue, Sp};

/// The number of the last register of each kind.
const LAST_REGISTER: u32 = 255;

/// How many parameters there are of each type.
const INT_PARAMS: usize = 12;

const DIM_PARAMS: usize = 9;

const GLUE_PARAMS: usize = 9;

const TOKS_PARAMS: usize = 1;

/// An integer that can be set: a parameter, or a `\count` register.
#[derive(Clone, Copy, Debug, PartialEq, Eq, Hash)]
pub enum IntKey {
    Param(IntParam),
    Register(u32),
}

/// A dimension that can be set: a parameter, or a `\dimen` register.
#[derive(Clone, Copy, Debug, PartialEq, Eq, Hash)]
pub enum DimKey {
    Param(DimParam),
    Register(u32),
}

/// Glue that can be set: a parameter, or a `\skip` register.
#[derive(Clone, Copy, Debug, PartialEq, Eq, Hash)]
pub enum GlueKey {
    Param(GlueParam),
    Register(u32),
}

/// A list of tokens that can be set: a parameter, or a `\toks` register.
#[derive(Clone, Copy, Debug, PartialEq, Eq, Hash)]
pub enum ToksKey {
    Param(ToksParam),
    Register(u32),
}

/// Returns the place of a register after so many parameters. `RegisterRange` comes exactly where
/// its number passes 255.
pub(crate) fn register(params: usize, n: u32) -> Result<usize, EnvFault>
    requires { params ≤ 12 }
    ensures { result ≡ register params n }
{
    if n <= LAST_REGISTER {
        Ok(params + n as usize)
    } else {
        Err(EnvFault::RegisterRange)
    }
}

impl IntKey {
    /// Returns its place: the parameters come first, and then the registers.
    pub(crate) fn place(self) -> Result<usize, EnvFault>
        ensures { result ≡ int_place self }
    {
        match self {
            IntKey::Param(param) => Ok(param.number()),
            IntKey::Register(n) => register(INT_PARAMS, n),
        }
    }

    /// Returns what it is at the start.
    pub(crate) fn start(self) -> i64
        ensures value { result ≡ int_start self }
        ensures within { IsInt result }
    {
        match self {
            IntKey::Param(param) => param.start(),
            IntKey::Register(_) => 0,
        }
    }
}

impl DimKey {
    /// Returns its place: the parameters come first, and then the registers.
    pub(crate) fn place(self) -> Result<usize, EnvFault>
        ensures { result ≡ dim_place self }
    {
        match self {
            DimKey::Param(param) => Ok(param.number()),
            DimKey::Register(n) => register(DIM_PARAMS, n),
        }
    }

    /// Returns what it is at the start, in scaled points.
    pub(crate) fn start(self) -> Sp
        ensures value { result ≡ dim_start self }
        ensures within { IsDimen result }
    {
        match self {
            DimKey::Param(param) => param.start(),
            DimKey::Register(_) => Sp(0),
        }
    }
}

impl GlueKey {
    /// Returns its place: the parameters come first, and then the registers.
    pub(crate) fn place(self) -> Result<usize, EnvFault>
        ensures { result ≡ glue_place self }
    {
        match self {
            GlueKey::Param(param) => Ok(param.number()),
            GlueKey::Register(n) => register(GLUE_PARAMS, n),
        }
    }

    /// Returns what it is at the start, in scaled points.
    pub(crate) fn start(self) -> Glue
        ensures value { result ≡ glue_start self }
        ensures within { HasSetDimens result }
    {
        match self {
            GlueKey::Param(param) => param.start(),
            GlueKey::Register(_) => ZERO_GLUE,
        }
    }
}

impl ToksKey {
    /// Returns its place: the parameter comes first, and then the registers.
    pub(crate) fn place(self) -> Result<usize, EnvFault>
        ensures { result ≡ toks_place self }
    {
        match self {
            ToksKey::Param(ToksParam::Output) => Ok(0),
            ToksKey::Register(n) => register(TOKS_PARAMS, n),
        }
    }
}
