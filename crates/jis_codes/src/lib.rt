//! The cells of JIS X 0208, and the numbers that stand for them in JIS, EUC and Shift_JIS.
#![tactic(auto)]

mod cell;
mod character;
mod spelling;

pub use cell::Cell;
pub use character::{Char, Chars};
pub use spelling::{
    are_one_to_one, from_euc, from_jis, from_kuten, from_sjis, to_euc, to_jis, to_kuten, to_sjis,
};
