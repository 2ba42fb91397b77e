//! One pass over a paragraph: the active list of open states.

ghost use Rattle.std.specs.Prelude.{◌≡◌, ℕ, suc, ◌≤◌, ◌<◌, ◌+◌, ◌*◌, ◌^◌, ◌++◌, ◌∷◌, [], length, List, IfOk, OnOk, ℤ, pos, neg_ℤ, ◌+ℤ◌, ◌≤ℤ◌, int_le, not, ◌||◌, true, false, Some, ◌&&◌};
ghost use Rattle.std.specs.List.{All, fold, filter, range_with_len};
ghost use Rattle.ts_geometry.specs.Numbers.{IsWithin};
ghost use Rattle.line_break.specs.Best.{last_break, states_to};
ghost use Rattle.line_break.specs.Codes.{made, taken, found_with, found_by, left_open, rescue_from, last_rescue, found_list, new_codes, meaning, with_open, open_count, is_empty, IsChain};
ghost use Rattle.line_break.specs.Loose.{IsTooLoose, IsKnown};
ghost use Rattle.line_break.specs.Lines.{weight, closes, penalty, place_of, demerits, totals, line, with_extra};
ghost use Rattle.line_break.specs.Ready.{pass_of, IsPrepared, IsBeforeEnd, IsUntil, MayPass, IsEnd, Ready, HasSmallDemerits, pairs};
ghost use Rattle.line_break.specs.Running.{AreNear};

use crate::demerits::{are_apart, plain_demerits};
use crate::items::penalty_at;
use crate::legal::Break;
use crate::shape::ParaShape;
use crate::states::{Found, Reached, append, kept, offer, or_rescue};
use crate::totals::Totals;
use crate::weight::{Class, Weight, is_past, weight_at};
use box_tree::Item;
use std::alloc::{AllocError, Global};
use std::sync::ledger::Ledger;
use ts_base::Steps;
use ts_geometry::Sp;

/// What a pass asks of its lines. The background is the total of the skips, with what the pass adds
/// to the stretch. The limit is the least ratio of shortfall to stretch, in units of 1/297, that is
/// worse than the threshold.
#[derive(Clone, Copy)]
pub(crate) struct Lines<'a> {
    pub(crate) items: &'a [Item],
    pub(crate) breaks: &'a [Break],
    pub(crate) shape: ParaShape,
    pub(crate) background: Totals,
    pub(crate) threshold: i32,
    pub(crate) limit: u16,
    pub(crate) extra: Sp,
    pub(crate) is_last: bool,
}

/// What the lines to one break have in common.
#[derive(Clone, Copy)]
pub(crate) struct End {
    /// The number of the break.
    pub(crate) at: usize,
    /// The background less the totals of the items from the break on, which every line has in it.
    pub(crate) before: Totals,
    pub(crate) penalty: i64,
    /// The place of the break, or 0 where no line is passed over.
    pub(crate) until: usize,
}

impl End {
    fn is_forced(&self) -> bool
        ensures { result ≡ int_le self.now.penalty (neg_ℤ (pos 10000)) }
    {
        self.penalty <= -10_000
    }
}

impl<'a> Lines<'a> {
    /// Returns what the lines to break `b` have in common.
    fn end(&self, b: usize) -> End
        requires prepared { IsPrepared self.now }
        requires start { 0 < b }
        requires inside { b ≤ last_break (pass_of self.now) }
        ensures value { IsEnd self.now result }
        ensures at { result.at ≡ b }
    {
        let penalty = self.penalty(b);
        End {
            at: b,
            before: self.before_end(b),
            penalty,
            until: self.until(b, penalty),
        }
    }

    fn before_end(&self, b: usize) -> Totals
        requires prepared { IsPrepared self.now }
        requires inside { b ≤ last_break (pass_of self.now) }
        ensures { IsBeforeEnd self.now b result }
    {
        self.background.minus(&self.breaks[b].from)
    }

    /// Returns the place of a break, or 0 where a line that is too short still counts: where the
    /// break is forced, or no line is too bad.
    fn until(&self, b: usize, penalty: i64) -> usize
        requires prepared { IsPrepared self.now }
        requires inside { b ≤ last_break (pass_of self.now) }
        ensures inside { IsUntil self.now b result }
        ensures passes { 0 < result → MayPass self.now.threshold penalty }
    {
        if self.threshold < 10_000 && -10_000 < penalty {
            self.breaks[b].place
        } else {
            0
        }
    }

    /// Returns the totals of the line from break `s`.
    fn totals(&self, end: &End, s: usize) -> Totals
        requires prepared { IsPrepared self.now }
        requires end { IsEnd self.now end.now }
        requires before { s < end.now.at }
        ensures value { result
            ≡ with_extra (pass_of self.now).extra (totals (line (pass_of self.now) s end.now.at)) }
        ensures near { AreNear (2 ^ 58) result }
    {
        let start = &self.breaks[s];
        if start.kept < self.breaks[end.at].place {
            end.before.plus(&start.after)
        } else {
            self.background
        }
    }

    /// Returns how the line from break `s` fits.
    #[tactic(auto, unfolding(crate::specs::Lines::weight))]
    fn weigh(&self, end: &End, s: usize) -> Weight
        requires prepared { IsPrepared self.now }
        requires end { IsEnd self.now end.now }
        requires before { s < end.now.at }
        ensures { result ≡ weight (pass_of self.now) s end.now.at }
    {
        weight_at(self.shape.hsize, &self.totals(end, s))
    }

    /// Returns whether the line from break `s` is one that stretches too far and leaves its start
    /// open. Most lines are such, and their badness isn't needed.
    fn is_too_loose(&self, end: &End, s: usize) -> bool
        requires prepared { IsPrepared self.now }
        requires end { IsEnd self.now end.now }
        requires before { s < end.now.at }
        ensures { result ≡ true → IsTooLoose (pass_of self.now) s end.now.at }
    {
        let start = &self.breaks[s];
        if start.kept < end.until {
            is_past(self.shape.hsize, &end.before.plus(&start.after), self.limit)
        } else {
            false
        }
    }

    fn adj_demerits(&self) -> i32
        ensures { result ≡ (pass_of self.now).shape.adj_demerits }
    {
        self.shape.adj_demerits
    }

    fn is_last(&self) -> bool
        ensures { result ≡ (pass_of self.now).is_last }
    {
        self.is_last
    }

    /// Returns the place of a break after the start.
    #[tactic(auto, using(crate::proofs::Prepared::inside, crate::proofs::Prepared::place_is, crate::proofs::Prepared::place_inside))]
    pub(crate) fn place(&self, b: usize) -> usize
        requires prepared { IsPrepared self.now }
        requires start { 0 < b }
        requires inside { b ≤ last_break (pass_of self.now) }
        ensures value { result ≡ place_of (pass_of self.now) b }
        ensures inside { result < length self.now.items.now }
    {
        self.breaks[b].place
    }

    fn penalty(&self, b: usize) -> i64
        requires prepared { IsPrepared self.now }
        requires start { 0 < b }
        requires inside { b ≤ last_break (pass_of self.now) }
        ensures { result ≡ penalty (pass_of self.now) b }
    {
        penalty_at(&self.items[self.place(b)])
    }
}

/// The demerits of the line from `x`.
fn demerits_after(lines: &Lines, end: &End, x: &Reached, line: Weight) -> i64
    requires end { IsEnd lines.now end.now }
    requires line { line ≡ weight (pass_of lines.now) x.now.at end.now.at }
    ensures value { result ≡ demerits (pass_of lines.now) x.now.class x.now.at end.now.at }
    ensures bounded { IsWithin (2 ^ 33) result }
{
    let plain = plain_demerits(lines.shape.line_penalty, line.badness, end.penalty);
    if are_apart(x.class, line.class) {
        plain + lines.adj_demerits() as i64
    } else {
        plain
    }
}

/// Keeps what the line from the state with the index `i` leads to if it is admissible.
fn find_from(lines: &Lines, end: &End, found: &mut Found, i: usize, x: &Reached, line: Weight)
    requires end { IsEnd lines.now end.now }
    requires line { line ≡ weight (pass_of lines.now) x.now.at end.now.at }
    requires bounded { IsWithin (2 ^ 60) x.now.sum }
    ensures { found.new ≡ found_with (pass_of lines.now) end.now.at found.old i x.now }
{
    if is_fit(line, lines.threshold) {
        let demerits = demerits_after(lines, end, x, line);
        offer(found, reach(end.at, line, x, demerits, i));
    }
}

fn is_fit(line: Weight, threshold: i32) -> bool
    ensures { result ≡ (not line.overfull && int_le (pos line.badness) threshold) }
{
    !line.overfull && line.badness as i32 <= threshold
}

fn reach(b: usize, line: Weight, x: &Reached, demerits: i64, i: usize) -> Reached
    requires bounded { IsWithin (2 ^ 60) x.now.sum }
    requires demerits_bounded { IsWithin (2 ^ 33) demerits }
    ensures { result ≡ made b line x.now demerits i }
{
    Reached {
        at: b,
        class: line.class,
        sum: x.sum + demerits,
        from: i,
    }
}

/// Returns whether a start stays open after a break to which its line fits like this.
#[tactic(auto, unfolding(crate::specs::Lines::closes))]
fn stays_open(line: Weight, forced: bool) -> bool
    ensures { result ≡ not (line.overfull || forced) }
{
    !line.overfull && !forced
}

/// Puts the index of a state that stays open after the first `left` ones, and returns how many
/// these are then.
fn keep_open(active: &mut Vec<usize>, left: usize, i: usize, stays: bool) -> usize
    requires { left < length active.old.items }
    ensures active { active.new.items ≡ with_open active.old.items left i stays }
    ensures left { result ≡ open_count left stays }
{
    if stays {
        active[left] = i;
        left + 1
    } else {
        left
    }
}

/// What a break comes to: the best of each class, the line that is taken where nothing else is
/// left, and the start whose line was last found too loose, or the break itself where none was.
#[derive(Clone, Copy)]
pub(crate) struct Met {
    pub(crate) found: Found,
    pub(crate) rescue: Option<Reached>,
    pub(crate) loose: usize,
}

impl Met {
    /// Returns whether the line from break `s` is too loose. Often the states of one break follow
    /// one another, so that the answer is known.
    fn is_too_loose(&self, lines: &Lines, end: &End, s: usize) -> bool
        requires prepared { IsPrepared lines.now }
        requires end { IsEnd lines.now end.now }
        requires before { s < end.now.at }
        requires known { IsKnown (pass_of lines.now) self.now.loose end.now.at }
        ensures { result ≡ true → IsTooLoose (pass_of lines.now) s end.now.at }
    {
        s == self.loose || lines.is_too_loose(end, s)
    }

    /// Weighs the line from the state with the index `i`, and returns whether this stays open.
    fn weigh(&mut self, lines: &Lines, end: &End, i: usize, x: &Reached) -> bool
        requires prepared { IsPrepared lines.now }
        requires end { IsEnd lines.now end.now }
        requires before { x.now.at < end.now.at }
        requires bounded { IsWithin (2 ^ 60) x.now.sum }
        requires known { IsKnown (pass_of lines.now) self.old.loose end.now.at }
        ensures found { self.new.found
            ≡ found_with (pass_of lines.now) end.now.at self.old.found i x.now }
        ensures stays { result ≡ not (closes (pass_of lines.now) x.now.at end.now.at) }
        ensures rescue { result ≡ false
            → self.new.rescue ≡ Some (rescue_from (pass_of lines.now) end.now.at i x.now) }
        ensures known { IsKnown (pass_of lines.now) self.new.loose end.now.at }
    {
        if self.is_too_loose(lines, end, x.at) {
            self.loose = x.at;
            true
        } else {
            self.take(lines, end, i, x)
        }
    }

    /// Keeps what the line from the state with the index `i` leads to, and returns whether this
    /// stays open. It is kept out of the loop, which would save its many values each time.
    #[inline(never)]
    fn take(&mut self, lines: &Lines, end: &End, i: usize, x: &Reached) -> bool
        requires prepared { IsPrepared lines.now }
        requires end { IsEnd lines.now end.now }
        requires before { x.now.at < end.now.at }
        requires bounded { IsWithin (2 ^ 60) x.now.sum }
        ensures found { self.new.found
            ≡ found_with (pass_of lines.now) end.now.at self.old.found i x.now }
        ensures stays { result ≡ not (closes (pass_of lines.now) x.now.at end.now.at) }
        ensures rescue { result ≡ false
            → self.new.rescue ≡ Some (rescue_from (pass_of lines.now) end.now.at i x.now) }
        ensures loose { self.new.loose ≡ self.old.loose }
    {
        let line = lines.weigh(end, x.at);
        find_from(lines, end, &mut self.found, i, x, line);
        let stays = stays_open(line, end.is_forced());
        if !stays {
            self.rescue = Some(rescue(end.at, line, x, i));
        }
        stays
    }
}

/// Returns what a line leads to that is taken at no cost.
fn rescue(b: usize, line: Weight, x: &Reached, i: usize) -> Reached
    ensures { result ≡ taken b line x.now i }
{
    Reached {
        at: b,
        class: line.class,
        sum: x.sum,
        from: i,
    }
}

/// Weighs the line from each open state to `b`, and keeps those states open that it doesn't close.
#[inline(never)]
fn weigh_open<L: Ledger>(
    lines: &Lines,
    b: usize,
    states: &[Reached],
    active: &mut Vec<usize>,
    steps: &mut Steps<L>,
) -> Met
    requires prepared { IsPrepared lines.now }
    requires start { 0 < b }
    requires end { b ≤ last_break (pass_of lines.now) }
    requires within { All (λ i. i < length states.now) active.old.items }
    requires before { All (λ x. x.at < b) states.now }
    requires bounded { All (λ x. IsWithin (2 ^ 60) x.sum) states.now }
    ensures found { result.found ≡ found_by (pass_of lines.now) b states.now active.old.items }
    ensures active { active.new.items
        ≡ left_open (pass_of lines.now) b states.now active.old.items }
    ensures rescue { is_empty active.new.items ≡ true → result.rescue
        ≡ last_rescue (pass_of lines.now) b states.now active.old.items }
    ensures steps { steps.new ≡ steps.old + length active.old.items }
{
    let mut met = Met {
        found: Found {
            very_loose: None,
            loose: None,
            decent: None,
            tight: None,
        },
        rescue: None,
        loose: b,
    };
    let mut left = 0;
    let end = lines.end(b);
    for k in 0..active.len() {
        let i = active[k];
        steps.tick();
        let stays = met.weigh(lines, &end, i, &states[i]);
        left = keep_open(active, left, i, stays);
    }
    active.truncate(left);
    met
}

/// Meets the break `b`: weighs the lines to it, and appends the states that are new, to which `new`
/// lends its room.
fn meet<L: Ledger>(
    lines: &Lines,
    b: usize,
    states: &mut Vec<Reached>,
    active: &mut Vec<usize>,
    new: &mut Vec<Reached>,
    steps: &mut Steps<L>,
) -> Result<(), AllocError>
    requires prepared { IsPrepared lines.now }
    requires start { 0 < b }
    requires end { b ≤ last_break (pass_of lines.now) }
    requires within { All (λ i. i < length states.old.items) active.old.items }
    requires before { All (λ x. x.at < b) states.old.items }
    requires bounded { All (λ x. IsWithin (2 ^ 60) x.sum) states.old.items }
    requires found { All (λ r. IsWithin (2 ^ 61) r.sum)
        (found_list (found_by (pass_of lines.now) b states.old.items active.old.items)) }
    ensures states { OnOk result (states.new.items ≡ states.old.items
        ++ new_codes (pass_of lines.now) b states.old.items active.old.items) }
    ensures active { OnOk result (active.new.items
        ≡ left_open (pass_of lines.now) b states.old.items active.old.items
        ++ range_with_len (length states.old.items)
        (length (new_codes (pass_of lines.now) b states.old.items active.old.items))) }
    ensures steps { steps.new ≡ steps.old + length active.old.items }
{
    let met = weigh_open(lines, b, states, active, steps);
    kept(lines.adj_demerits(), &met.found, new)?;
    or_rescue(lines.is_last(), active, met.rescue, new)?;
    append(states, active, new)?;
    Ok(())
}

/// Meets one break more.
fn meet_next<L: Ledger>(
    lines: &Lines,
    k: usize,
    states: &mut Vec<Reached>,
    active: &mut Vec<usize>,
    new: &mut Vec<Reached>,
    steps: &mut Steps<L>,
) -> Result<(), AllocError>
    requires prepared { IsPrepared lines.now }
    requires end { k < last_break (pass_of lines.now) }
    requires few { k < 700000 }
    requires small { HasSmallDemerits (pass_of lines.now) }
    requires ready { Ready (pass_of lines.now) k states.old.items active.old.items }
    ensures ready { OnOk result
        (Ready (pass_of lines.now) (k + 1) states.new.items active.new.items) }
    ensures steps { steps.new + pairs (pass_of lines.now) k
        ≡ steps.old + pairs (pass_of lines.now) (k + 1) }
{
    meet(lines, k + 1, states, active, new, steps)?;
    Ok(())
}

/// Returns the states of one pass, once `n` breaks have been met.
pub(crate) fn one_pass<L: Ledger>(
    alloc: Global,
    lines: &Lines,
    n: usize,
    steps: &mut Steps<L>,
) -> Result<Vec<Reached>, AllocError>
    requires prepared { IsPrepared lines.now }
    requires end { n ≡ last_break (pass_of lines.now) }
    requires few { n ≤ 700000 }
    requires small { HasSmallDemerits (pass_of lines.now) }
    ensures chain { IfOk result (λ states. IsChain states.items) }
    ensures before { IfOk result (λ states. All (λ r. r.at < suc n) states.items) }
    ensures states { IfOk result (λ states. meaning states.items
        ≡ states_to (pass_of lines.now) n) }
    ensures steps { OnOk result (steps.new ≡ steps.old + pairs (pass_of lines.now) n) }
    ensures most { steps.new ≤ steps.old + pairs (pass_of lines.now) n }
    ensures least { steps.old ≤ steps.new }
{
    let mut states = Vec::new(alloc);
    states.push(Reached {
        at: 0,
        class: Class::Decent,
        sum: 0,
        from: 0,
    })?;
    let mut active = Vec::new(alloc);
    active.push(0)?;
    let mut new = Vec::new(alloc);
    for k in 0..n {
        meet_next(lines, k, &mut states, &mut active, &mut new, steps)?;
    }
    Ok(states)
}
