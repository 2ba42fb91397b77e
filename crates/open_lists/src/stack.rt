//! The lists between the main one and the innermost one.

ghost use Rattle.std.specs.Prelude.{◌≡◌, ◌<◌, [], ◌∷◌, length, reverse, None, IfNone, vec_len, vec_capacity};
ghost use Rattle.open_lists.specs.Standing.{with_innermost};

use crate::list::OpenList;

/// Returns how many there are.
pub(crate) fn count(around: &Vec<OpenList>) -> usize
    ensures { result ≡ length (reverse around.now.items) }
{
    around.len()
}

/// Puts the innermost list, where there is one, among those around, where there is room.
pub(crate) fn put_around(innermost: &mut Option<OpenList>, around: &mut Vec<OpenList>)
    requires { vec_len around.old < vec_capacity around.old }
    ensures lists { reverse around.new.items
        ≡ with_innermost innermost.old (reverse around.old.items) }
    ensures none { innermost.new ≡ None }
{
    if let Some(list) = innermost.take() {
        around.push_reserved(list);
    }
}

/// Takes the list away that was put there last, or answers `None` exactly where there is none.
pub(crate) fn pop_list(around: &mut Vec<OpenList>) -> Option<OpenList>
    ensures lists { reverse around.old.items ≡ with_innermost result (reverse around.new.items) }
    ensures none { IfNone result (reverse around.new.items ≡ []) }
{
    around.pop()
}
