//! The passes over a paragraph, and its breaks.

ghost use Rattle.std.specs.Prelude.{◌≡◌, suc, ◌^◌, ◌<◌, ◌≤◌, ◌+◌, ◌∷◌, [], length, IfOk, IfSome, OnOk, true, pos, ◌==◌};
ghost use Rattle.std.specs.List.{All};
ghost use Rattle.std.proofs.Common.{reverse};
ghost use Rattle.ts_base.specs.Agreement.{Agrees};
ghost use Rattle.ts_geometry.specs.Numbers.{IsWithin};
ghost use Rattle.box_tree.specs.Bounds.{IsDimen};
ghost use Rattle.line_break.specs.Best.{last_break};
ghost use Rattle.line_break.specs.Codes.{IsChain, better_end, best_end_of, at_index, walk_to};
ghost use Rattle.line_break.specs.Lines.{skip, totals, with_extra};
ghost use Rattle.line_break.specs.Paragraphs.{any_shrinks, has_infinite_shrink, ends_forced, broken, pairs_made, para_cause, capped, items_of, chosen_ends, ends_before, deciding_ends, pairs_over, made_pass, first_pass, second_pass, third_pass, emergency_passes, later_passes, passes};
ghost use Rattle.line_break.specs.Ready.{pass_of, IsPrepared, pairs, AreSoundItems, IsSoundShape};
ghost use Rattle.line_break.specs.Running.{all_breaks};

use crate::fault::ParaFault;
use crate::items::{item_shrinks_without_end, shrinks_without_end};
use crate::legal::{Break, all_breaks};
use crate::line_items::skip;
use crate::search::{Lines, one_pass};
use crate::shape::{BreakAt, ParaShape};
use crate::states::Reached;
use crate::totals::{Totals, sum};
use crate::weight::limit_above;
use box_tree::Item;
use std::alloc::{AllocError, Global};
use std::sync::ledger::Ledger;
use ts_base::Steps;
use ts_geometry::Sp;

/// Returns the places of the items at which the lines of a paragraph end, the last of them that of
/// its last item, a penalty of -10000 (The TeXbook, chapter 14; TeX: The Program, sections 813 to
/// 890). Of the first pass that reaches the end they are the breaks with the least sum of demerits.
/// Each line from an open state to a break is a step.
///
/// InfiniteShrink comes exactly where glue of the items, or the left or the right skip, has a
/// shrink other than 0 of an order other than Normal; then no line is weighed.
pub fn breaks<L: Ledger>(
    alloc: Global,
    items: &[Item],
    shape: &ParaShape,
    steps: &mut Steps<L>,
) -> Result<Vec<BreakAt>, ParaFault>
    requires sound { AreSoundItems items.now }
    requires shape_sound { IsSoundShape shape.now }
    requires few { length items.now ≤ 700000 }
    requires ends { ends_forced items.now ≡ true }
    ensures value { Agrees (λ at. at.items) para_cause result (broken items.now shape.now) }
    ensures steps { OnOk result (steps.new ≡ steps.old + pairs_made items.now shape.now) }
    ensures most { steps.new ≤ steps.old + pairs_made items.now shape.now }
    ensures least { steps.old ≤ steps.new }
{
    if has_infinite_shrink(items, shape) {
        return Err(ParaFault::InfiniteShrink);
    }
    let breaks = all_breaks(alloc, items)?;
    Ok(all_ends(alloc, items, &breaks, shape, steps)?)
}

fn has_infinite_shrink(items: &[Item], shape: &ParaShape) -> bool
    ensures { result ≡ has_infinite_shrink items.now shape.now }
{
    any_shrinks(items) || shrinks_without_end(&shape.left) || shrinks_without_end(&shape.right)
}

#[tactic(auto, using(crate::proofs::Ends::shrinks_here, crate::proofs::Ends::shrinks_later))]
fn any_shrinks(items: &[Item]) -> bool
    ensures { result ≡ any_shrinks items.now }
{
    for item in items {
        if item_shrinks_without_end(item) {
            return true;
        }
    }
    false
}

/// Returns the ends of the lines by all passes.
fn all_ends<L: Ledger>(
    alloc: Global,
    items: &[Item],
    breaks: &[Break],
    shape: &ParaShape,
    steps: &mut Steps<L>,
) -> Result<Vec<BreakAt>, AllocError>
    requires breaks { breaks.now ≡ all_breaks items.now }
    requires sound { AreSoundItems items.now }
    requires shape_sound { IsSoundShape shape.now }
    requires few { length items.now ≤ 700000 }
    ensures ends { IfOk result (λ ends. ends.items ≡ deciding_ends (passes items.now shape.now)) }
    ensures steps { OnOk result (steps.new ≡ steps.old + pairs_over (passes items.now shape.now)) }
    ensures most { steps.new ≤ steps.old + pairs_over (passes items.now shape.now) }
    ensures least { steps.old ≤ steps.new }
{
    if 0 <= shape.pretolerance {
        first_ends(alloc, items, breaks, shape, steps)
    } else {
        later_ends(alloc, items, breaks, shape, steps)
    }
}

/// Returns the ends of the lines by the pass with `\pretolerance` and the later ones.
#[tactic(auto, using(crate::proofs::Ends::ends_some, crate::proofs::Ends::ends_none, crate::proofs::Ends::pairs_some, crate::proofs::Ends::pairs_none, crate::proofs::Ends::pairs_most, crate::proofs::Ends::pairs_most_none))]
fn first_ends<L: Ledger>(
    alloc: Global,
    items: &[Item],
    breaks: &[Break],
    shape: &ParaShape,
    steps: &mut Steps<L>,
) -> Result<Vec<BreakAt>, AllocError>
    requires breaks { breaks.now ≡ all_breaks items.now }
    requires sound { AreSoundItems items.now }
    requires shape_sound { IsSoundShape shape.now }
    requires few { length items.now ≤ 700000 }
    ensures ends { IfOk result (λ ends. ends.items
        ≡ deciding_ends (first_pass items.now shape.now ∷ later_passes items.now shape.now)) }
    ensures steps { OnOk result (steps.new
        ≡ steps.old + pairs_over (first_pass items.now shape.now
        ∷ later_passes items.now shape.now)) }
    ensures most { steps.new
        ≤ steps.old + pairs_over (first_pass items.now shape.now
        ∷ later_passes items.now shape.now) }
    ensures least { steps.old ≤ steps.new }
{
    match pass_ends(alloc, &first(items, breaks, shape), steps)? {
        Some(ends) => Ok(ends),
        None => later_ends(alloc, items, breaks, shape, steps),
    }
}

/// Returns the ends of the lines by the passes with `\tolerance`.
#[tactic(auto, using(crate::proofs::Ends::ends_some, crate::proofs::Ends::ends_none, crate::proofs::Ends::pairs_some, crate::proofs::Ends::pairs_none, crate::proofs::Ends::pairs_most, crate::proofs::Ends::pairs_most_none))]
fn later_ends<L: Ledger>(
    alloc: Global,
    items: &[Item],
    breaks: &[Break],
    shape: &ParaShape,
    steps: &mut Steps<L>,
) -> Result<Vec<BreakAt>, AllocError>
    requires breaks { breaks.now ≡ all_breaks items.now }
    requires sound { AreSoundItems items.now }
    requires shape_sound { IsSoundShape shape.now }
    requires few { length items.now ≤ 700000 }
    ensures ends { IfOk result (λ ends. ends.items
        ≡ deciding_ends (later_passes items.now shape.now)) }
    ensures steps { OnOk result (steps.new
        ≡ steps.old + pairs_over (later_passes items.now shape.now)) }
    ensures most { steps.new ≤ steps.old + pairs_over (later_passes items.now shape.now) }
    ensures least { steps.old ≤ steps.new }
{
    match pass_ends(alloc, &second(items, breaks, shape), steps)? {
        Some(ends) => Ok(ends),
        None => emergency_ends(alloc, items, breaks, shape, steps),
    }
}

/// Returns the ends of the lines by the pass with `\emergencystretch`, if there is one.
fn emergency_ends<L: Ledger>(
    alloc: Global,
    items: &[Item],
    breaks: &[Break],
    shape: &ParaShape,
    steps: &mut Steps<L>,
) -> Result<Vec<BreakAt>, AllocError>
    requires breaks { breaks.now ≡ all_breaks items.now }
    requires sound { AreSoundItems items.now }
    requires shape_sound { IsSoundShape shape.now }
    requires few { length items.now ≤ 700000 }
    ensures ends { IfOk result (λ ends. ends.items
        ≡ deciding_ends (emergency_passes items.now shape.now)) }
    ensures steps { OnOk result (steps.new
        ≡ steps.old + pairs_over (emergency_passes items.now shape.now)) }
    ensures most { steps.new ≤ steps.old + pairs_over (emergency_passes items.now shape.now) }
    ensures least { steps.old ≤ steps.new }
{
    if 0 < shape.emergency.0 {
        third_ends(alloc, items, breaks, shape, steps)
    } else {
        Ok(Vec::new(alloc))
    }
}

/// Returns the ends of the lines by the pass with `\emergencystretch`.
#[tactic(auto, using(crate::proofs::Ends::ends_some, crate::proofs::Ends::ends_none, crate::proofs::Ends::pairs_some, crate::proofs::Ends::pairs_none, crate::proofs::Ends::pairs_most, crate::proofs::Ends::pairs_most_none))]
fn third_ends<L: Ledger>(
    alloc: Global,
    items: &[Item],
    breaks: &[Break],
    shape: &ParaShape,
    steps: &mut Steps<L>,
) -> Result<Vec<BreakAt>, AllocError>
    requires breaks { breaks.now ≡ all_breaks items.now }
    requires sound { AreSoundItems items.now }
    requires shape_sound { IsSoundShape shape.now }
    requires few { length items.now ≤ 700000 }
    ensures ends { IfOk result (λ ends. ends.items
        ≡ deciding_ends (third_pass items.now shape.now ∷ [])) }
    ensures steps { OnOk result (steps.new
        ≡ steps.old + pairs_over (third_pass items.now shape.now ∷ [])) }
    ensures most { steps.new ≤ steps.old + pairs_over (third_pass items.now shape.now ∷ []) }
    ensures least { steps.old ≤ steps.new }
{
    match pass_ends(alloc, &third(items, breaks, shape), steps)? {
        Some(ends) => Ok(ends),
        None => Ok(Vec::new(alloc)),
    }
}

/// Returns the lines of the pass with `\pretolerance`.
fn first<'a>(items: &'a [Item], breaks: &'a [Break], shape: &ParaShape) -> Lines<'a>
    requires breaks { breaks.now ≡ all_breaks items.now }
    requires sound { AreSoundItems items.now }
    requires shape_sound { IsSoundShape shape.now }
    requires few { length items.now ≤ 700000 }
    ensures prepared { IsPrepared result }
    ensures pass { pass_of result ≡ first_pass items.now shape.now }
{
    Lines::new(
        items,
        breaks,
        shape,
        capped(shape.pretolerance),
        Sp(0),
        false,
    )
}

/// Returns the lines of the pass with `\tolerance`.
fn second<'a>(items: &'a [Item], breaks: &'a [Break], shape: &ParaShape) -> Lines<'a>
    requires breaks { breaks.now ≡ all_breaks items.now }
    requires sound { AreSoundItems items.now }
    requires shape_sound { IsSoundShape shape.now }
    requires few { length items.now ≤ 700000 }
    ensures prepared { IsPrepared result }
    ensures pass { pass_of result ≡ second_pass items.now shape.now }
{
    let is_last = !(0 < shape.emergency.0);
    Lines::new(
        items,
        breaks,
        shape,
        capped(shape.tolerance),
        Sp(0),
        is_last,
    )
}

/// Returns the lines of the pass with `\emergencystretch`.
fn third<'a>(items: &'a [Item], breaks: &'a [Break], shape: &ParaShape) -> Lines<'a>
    requires breaks { breaks.now ≡ all_breaks items.now }
    requires sound { AreSoundItems items.now }
    requires shape_sound { IsSoundShape shape.now }
    requires few { length items.now ≤ 700000 }
    ensures prepared { IsPrepared result }
    ensures pass { pass_of result ≡ third_pass items.now shape.now }
{
    Lines::new(
        items,
        breaks,
        shape,
        capped(shape.tolerance),
        shape.emergency,
        true,
    )
}

/// Returns a tolerance as the greatest badness of a line.
fn capped(tolerance: i32) -> i32
    ensures { result ≡ capped tolerance }
{
    if tolerance < 10_000 {
        tolerance
    } else {
        10_000
    }
}

impl<'a> Lines<'a> {
    fn new(
        items: &'a [Item],
        breaks: &'a [Break],
        shape: &ParaShape,
        threshold: i32,
        extra: Sp,
        is_last: bool,
    ) -> Lines<'a>
        requires breaks { breaks.now ≡ all_breaks items.now }
        requires sound { AreSoundItems items.now }
        requires shape_sound { IsSoundShape shape.now }
        requires few { length items.now ≤ 700000 }
        requires extra { IsDimen extra }
        ensures prepared { IsPrepared result }
        ensures pass { pass_of result
            ≡ made_pass items.now shape.now threshold extra.0 is_last }
    {
        // Once it is read it is known to have 32 bits.
        let _adj = shape.adj_demerits;
        Lines {
            items,
            breaks,
            shape: *shape,
            background: background(shape, extra),
            threshold,
            limit: limit_above(threshold),
            extra,
            is_last,
        }
    }

    /// Returns the number of the last break.
    #[tactic(auto, using(crate::proofs::Ends::last_is, crate::proofs::Ends::last_few))]
    fn last(&self) -> usize
        requires prepared { IsPrepared self.now }
        ensures value { result ≡ last_break (pass_of self.now) }
        ensures few { result ≤ 700000 }
    {
        self.breaks.len() - 1
    }
}

/// Returns the totals of the skips of a line, with what a pass adds to the stretch.
fn background(shape: &ParaShape, extra: Sp) -> Totals
    requires shape_sound { IsSoundShape shape.now }
    requires extra { IsDimen extra }
    ensures { result
        ≡ with_extra extra.0 (totals (skip shape.now.left ∷ skip shape.now.right ∷ [])) }
{
    let skips = skips(shape);
    Totals {
        stretch: sum(skips.stretch, extra),
        ..skips
    }
}

fn skips(shape: &ParaShape) -> Totals
    requires shape_sound { IsSoundShape shape.now }
    ensures { result ≡ totals (skip shape.now.left ∷ skip shape.now.right ∷ []) }
{
    let right = Totals::none().with_item(&skip(shape.right));
    right.with_item(&skip(shape.left))
}

/// Returns the ends of the lines by one pass, if it reaches the last break.
fn pass_ends<L: Ledger>(
    alloc: Global,
    lines: &Lines,
    steps: &mut Steps<L>,
) -> Result<Option<Vec<BreakAt>>, AllocError>
    requires prepared { IsPrepared lines.now }
    ensures ends { IfOk result (λ ends. items_of ends ≡ chosen_ends (pass_of lines.now)) }
    ensures steps { OnOk result (steps.new
        ≡ steps.old + pairs (pass_of lines.now) (last_break (pass_of lines.now))) }
    ensures most { steps.new
        ≤ steps.old + pairs (pass_of lines.now) (last_break (pass_of lines.now)) }
    ensures least { steps.old ≤ steps.new }
{
    let n = lines.last();
    let states = one_pass(alloc, lines, n, steps)?;
    match best_end(&states, n) {
        None => Ok(None),
        Some(end) => {
            let ends = ends_back(alloc, lines, &states, end)?;
            Ok(Some(ends))
        }
    }
}

/// Returns the places at which the lines of the walk to a state end.
fn ends_back(
    alloc: Global,
    lines: &Lines,
    states: &[Reached],
    end: usize,
) -> Result<Vec<BreakAt>, AllocError>
    requires prepared { IsPrepared lines.now }
    requires end { end < length states.now }
    requires chain { IsChain states.now }
    requires inside { All (λ r. r.at < suc (last_break (pass_of lines.now))) states.now }
    ensures { IfOk result (λ ends. ends.items ≡ reverse (ends_before (pass_of lines.now)
        (at_index states.now end).at (walk_to states.now end))) }
{
    let mut ends = Vec::new(alloc);
    let mut i = end;
    while states[i].at != 0 {
        ends.push(break_at(lines.place(states[i].at)))?;
        i = states[i].from;
    }
    ends.reverse();
    Ok(ends)
}

fn break_at(place: usize) -> BreakAt
    requires { place ≤ 700000 }
    ensures { result.0 ≡ place }
{
    BreakAt(place as u32)
}

/// Returns the better end of two, the earlier where sums are equal.
fn better(states: &[Reached], n: usize, best: Option<usize>, i: usize) -> Option<usize>
    requires inside { i < length states.now }
    requires best { IfSome best (λ j. j < length states.now) }
    ensures value { result ≡ better_end states.now n best i }
    ensures inside { IfSome result (λ j. j < length states.now) }
{
    match best {
        None => { if states[i].at == n { Some(i) } else { None } }
        Some(j) => {
            if states[i].at == n && states[i].sum < states[j].sum {
                Some(i)
            } else {
                Some(j)
            }
        }
    }
}

/// Returns the first of the states at break `n` with the least sum.
fn best_end(states: &[Reached], n: usize) -> Option<usize>
    ensures value { result ≡ best_end_of states.now n }
    ensures inside { IfSome result (λ j. j < length states.now) }
{
    let mut best: Option<usize> = None;
    for i in 0..states.len() {
        best = better(states, n, best, i);
    }
    best
}
