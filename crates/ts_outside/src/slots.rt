//! Open files under their numbers.

ghost use Rattle.std.specs.Prelude.{◌≡◌, ◌≢◌, ◌<◌, ◌≤◌, ℕ, length, Some, None, true, get_or, is_some, IfOk, OnErr};

use std::alloc::AllocError;
use std::mem;

// The first number that no open file has.
fn free_number<T>(files: &[Option<T>]) -> usize
    ensures free { get_or files.now result None ≡ None }
    ensures within { result ≤ length files.now }
{
    for (n, file) in files.iter().enumerate() {
        if file.is_none() {
            return n;
        }
    }
    files.len()
}

// Puts an open file, or none, under a number.
pub(crate) fn set_open<T: Drop>(files: &mut Vec<Option<T>>, n: usize, file: Option<T>)
    requires { n < length files.old.items }
    ensures here { get_or files.new.items n None ≡ file }
    ensures others { (k : ℕ) → k ≢ n → get_or files.new.items k None ≡ get_or files.old.items k None }
    ensures len { length files.new.items ≡ length files.old.items }
{
    files[n] = file;
}

// Takes the open file of a number.
pub(crate) fn take_open<T: Drop>(files: &mut Vec<Option<T>>, n: usize) -> T
    requires { is_some (get_or files.old.items n None) ≡ true }
    ensures others { (k : ℕ) → k ≢ n → get_or files.new.items k None ≡ get_or files.old.items k None }
    ensures within { n < length files.new.items }
{
    let Some(file) = mem::replace(&mut files[n], None) else {
        unreachable!();
    };
    file
}

// Puts an open file under a number that no open file has.
pub(crate) fn add_open<T: Drop>(files: &mut Vec<Option<T>>, file: T) -> Result<usize, AllocError>
    ensures fresh { IfOk result (λ n. get_or files.old.items n None ≡ None) }
    ensures here { IfOk result (λ n. get_or files.new.items n None ≡ Some file) }
    ensures others { IfOk result
        (λ n. (k : ℕ) → k ≢ n → get_or files.new.items k None ≡ get_or files.old.items k None) }
    ensures err { OnErr result ((k : ℕ) → get_or files.new.items k None ≡ get_or files.old.items k None) }
{
    let n = free_number(files);
    if n == files.len() {
        files.push(None)?;
    }
    set_open(files, n, Some(file));
    Ok(n)
}
