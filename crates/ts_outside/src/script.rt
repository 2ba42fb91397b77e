//! Which calls on the memory fail, and how its pieces are cut.

ghost use Rattle.std.specs.Prelude.{◌≡◌, ◌<◌, ◌≤◌, ◌^◌};
ghost use Rattle.ts_outside.specs.Memory.{next_count, fails_at, cut_at};

/// One later, or the last value.
pub(crate) fn count_on(count: u64) -> u64
    ensures { result ≡ next_count count }
{
    count.saturating_add(1)
}

/// Whether a call is one of those that fail.
pub(crate) fn fails_at_call(fails: &[u64], call: u64) -> bool
    ensures { result ≡ fails_at fails.now call }
{
    fails.iter().any(|n| *n == call)
}

/// How many bytes a piece has at most, where there is room for so many. The cuts go round.
pub(crate) fn cut_of(cuts: &[usize], piece: u64, room: usize) -> usize
    requires { 0 < room }
    ensures value { result ≡ cut_at cuts.now piece room }
    ensures least { 1 ≤ result }
    ensures most { result ≤ room }
{
    if cuts.is_empty() {
        return room;
    }
    let cut = cuts[piece as usize % cuts.len()];
    cut.max(1).min(room)
}
