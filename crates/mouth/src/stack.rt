//! The open files below the innermost one.

ghost use Rattle.std.specs.Prelude.{◌≡◌, ◌<◌, [], ◌∷◌, length, reverse, MatchOption, vec_len, vec_capacity};

use crate::input::InputFile;

/// Returns how many files there are.
pub(crate) fn count(below: &Vec<InputFile>) -> usize
    ensures { result ≡ length (reverse below.now.items) }
{
    below.len()
}

/// Takes the file away that was put there last, or answers `None` exactly where there is none.
pub(crate) fn pop_file(below: &mut Vec<InputFile>) -> Option<InputFile>
    ensures { MatchOption result
        ((reverse below.old.items ≡ []) × (reverse below.new.items ≡ []))
        (λ file. reverse below.old.items ≡ file ∷ reverse below.new.items) }
{
    below.pop()
}

/// Puts a file there, for which there is room.
pub(crate) fn push_file(below: &mut Vec<InputFile>, file: InputFile)
    requires { vec_len below.old < vec_capacity below.old }
    ensures { reverse below.new.items ≡ file ∷ reverse below.old.items }
{
    if below.push(file).is_err() {
        unreachable!();
    }
}
