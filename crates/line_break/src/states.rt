//! The states that a pass reaches.

ghost use Rattle.std.specs.Prelude.{◌≡◌, ◌^◌, ◌++◌, ◌+ℤ◌, [], pos, None, int_le, unsigned_abs, ◌&&◌, length, IfOk, OnOk};
ghost use Rattle.std.specs.List.{All, fold, filter, range_with_len};
ghost use Rattle.ts_geometry.specs.Numbers.{IsWithin};
ghost use Rattle.line_break.specs.Codes.{later_of, offered, lower_sum, to_list, found_list, kept_codes, or_rescue_code, is_empty};

use crate::weight::Class;
use std::alloc::{AllocError, Global};

/// A break that is reached by a line of this class, the least sum of demerits with which it is, and
/// the index of the state before it.
#[derive(Clone, Copy, Debug)]
pub(crate) struct Reached {
    pub(crate) at: usize,
    pub(crate) class: Class,
    pub(crate) sum: i64,
    pub(crate) from: usize,
}

/// The best of each class at a break.
#[derive(Clone, Copy, Debug)]
pub(crate) struct Found {
    pub(crate) very_loose: Option<Reached>,
    pub(crate) loose: Option<Reached>,
    pub(crate) decent: Option<Reached>,
    pub(crate) tight: Option<Reached>,
}

fn later(best: Option<Reached>, new: Reached) -> Option<Reached>
    ensures { result ≡ later_of best new }
{
    match best {
        Some(old) => {
            if old.sum < new.sum {
                Some(old)
            } else {
                Some(new)
            }
        }
        None => Some(new),
    }
}

/// Keeps a state if it is the best of its class. Where sums are equal the later one counts.
#[tactic(auto, unfolding(crate::specs::Codes::offered))]
pub(crate) fn offer(found: &mut Found, new: Reached)
    ensures { found.new ≡ offered found.old new }
{
    match new.class {
        Class::VeryLoose => found.very_loose = later(found.very_loose, new),
        Class::Loose => found.loose = later(found.loose, new),
        Class::Decent => found.decent = later(found.decent, new),
        Class::Tight => found.tight = later(found.tight, new),
    }
}

fn lower(best: Option<i64>, candidate: Option<Reached>) -> Option<i64>
    ensures { result ≡ fold lower_sum best (to_list candidate) }
{
    match (best, candidate) {
        (_, None) => best,
        (None, Some(r)) => Some(r.sum),
        (Some(v), Some(r)) => { if r.sum < v { Some(r.sum) } else { Some(v) } }
    }
}

#[tactic(auto, using(crate::proofs::ByClass::in_order))]
fn least_sum(found: &Found) -> Option<i64>
    ensures { result ≡ fold lower_sum None (found_list found.now) }
{
    let best = lower(None, found.very_loose);
    let best = lower(best, found.loose);
    let best = lower(best, found.decent);
    lower(best, found.tight)
}

fn keep(limit: i64, candidate: Option<Reached>, new: &mut Vec<Reached>) -> Result<(), AllocError>
    ensures { OnOk result (new.new.items
        ≡ new.old.items ++ filter (λ r. int_le r.sum limit) (to_list candidate)) }
{
    match candidate {
        None => Ok(()),
        Some(r) => {
            if r.sum <= limit {
                new.push(r)?;
            }
            Ok(())
        }
    }
}

/// Puts what is found with a sum of at most a limit into `new`, in the order of the classes.
#[tactic(auto, using(crate::proofs::ByClass::kept_in_order, std::proofs::lemmas::Grind::common_steps))]
fn kept_below(limit: i64, found: &Found, new: &mut Vec<Reached>) -> Result<(), AllocError>
    requires { new.old.items ≡ [] }
    ensures { OnOk result (new.new.items
        ≡ filter (λ r. int_le r.sum limit) (found_list found.now)) }
{
    keep(limit, found.very_loose, new)?;
    keep(limit, found.loose, new)?;
    keep(limit, found.decent, new)?;
    keep(limit, found.tight, new)?;
    Ok(())
}

/// Returns the greatest sum that is kept.
fn limit_above(least: i64, adj: i32) -> i64
    requires { IsWithin (2 ^ 61) least }
    ensures { result ≡ (least +ℤ pos (unsigned_abs adj)) }
{
    least + (adj as i64).abs()
}

/// Puts what is found and not more than `|\adjdemerits|` above the least into `new`, in place of
/// what was there.
#[tactic(auto, using(crate::proofs::ByClass::nothing_kept))]
pub(crate) fn kept(adj: i32, found: &Found, new: &mut Vec<Reached>) -> Result<(), AllocError>
    requires { All (λ r. IsWithin (2 ^ 61) r.sum) (found_list found.now) }
    ensures { OnOk result (new.new.items ≡ kept_codes adj (found_list found.now)) }
{
    new.clear();
    match least_sum(found) {
        None => Ok(()),
        Some(least) => {
            let limit = limit_above(least, adj);
            kept_below(limit, found, new)?;
            Ok(())
        }
    }
}

/// Puts the rescue into `new` where nothing is there and no state is open.
pub(crate) fn or_rescue(
    is_last: bool,
    left: &[usize],
    rescue: Option<Reached>,
    new: &mut Vec<Reached>,
) -> Result<(), AllocError>
    ensures { OnOk result (new.new.items
        ≡ or_rescue_code (is_last && is_empty left.now) rescue new.old.items) }
{
    if is_last && new.is_empty() && left.is_empty() {
        if let Some(r) = rescue {
            new.push(r)?;
        }
    }
    Ok(())
}

/// Appends the new states, and their indices.
#[tactic(auto, using(crate::proofs::ByClass::range_more, std::proofs::lemmas::Grind::common_steps))]
pub(crate) fn append(
    states: &mut Vec<Reached>,
    left: &mut Vec<usize>,
    new: &[Reached],
) -> Result<(), AllocError>
    ensures states { OnOk result (states.new.items ≡ states.old.items ++ new.now) }
    ensures left { OnOk result (left.new.items
        ≡ left.old.items ++ range_with_len (length states.old.items) (length new.now)) }
{
    for r in new {
        left.push(states.len())?;
        states.push(*r)?;
    }
    Ok(())
}
