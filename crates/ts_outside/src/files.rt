//! Files to read.

ghost use Rattle.std.specs.Prelude.{◌≡◌, ◌<◌, true, length};
ghost use Rattle.ts_outside.specs.States.{ReadsOn, Closes};
ghost use Rattle.ts_outside.specs.Reading.{Opens, LeavesOpened, CountsOpened, Fills, Gives, CountsGot};

use crate::name::FileName;

/// The number of an open file. After the file is closed, its number may be given again.
#[derive(Clone, Copy, Debug, PartialEq, Eq, Hash)]
pub struct FileNo(pub usize);

/// What `Files::open` answers.
#[derive(Clone, Copy, Debug, PartialEq, Eq)]
pub enum Opened {
    /// The file is open under this number, at its first byte.
    Found(FileNo),
    /// There is no file of this name.
    Missing,
    /// The outside failed, which is counted.
    Failed,
    NoMemory,
}

/// What `Files::read` answers.
#[derive(Clone, Copy, Debug, PartialEq, Eq)]
pub enum Got {
    /// So many bytes, at least one, at the front of the buffer.
    Bytes(usize),
    /// The file has no more.
    End,
    /// The outside failed, which is counted.
    Failed,
}

/// Files that are held under names, and read piece by piece.
pub trait Files {
    ghost use Rattle.ts_outside.specs.States.{FilesState};

    /// What the files stand for.
    ghost state: { Self → FilesState };

    /// Opens a file at its first byte. A name may be open more than once.
    fn open(&mut self, name: &FileName) -> Opened
        ensures opens { Opens (state self.old).held name.now result (state self.new).left }
        ensures leaves { LeavesOpened result (state self.old) (state self.new) }
        ensures counted { CountsOpened result (state self.old).faults (state self.new).faults };

    /// Reads the next bytes of an open file, as many as the outside likes to give.
    fn read(&mut self, file: FileNo, buffer: &mut [u8]) -> Got
        requires number { (state self.old).is_open file.0 ≡ true }
        requires room { 0 < length buffer.old }
        ensures fills { Fills result (length buffer.old) }
        ensures gives { Gives ((state self.old).left file.0) result buffer.new
            ((state self.new).left file.0) }
        ensures leaves { ReadsOn file.0 (state self.old) (state self.new) }
        ensures counted { CountsGot result (state self.old).faults (state self.new).faults };

    /// Closes an open file.
    fn close(&mut self, file: FileNo)
        requires { (state self.old).is_open file.0 ≡ true }
        ensures leaves { Closes file.0 (state self.old) (state self.new) }
        ensures counted { (state self.new).faults ≡ (state self.old).faults };
}
