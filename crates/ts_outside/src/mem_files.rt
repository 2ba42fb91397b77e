//! Files in memory.

ghost use Rattle.std.specs.Prelude.{◌≡◌, ◌≢◌, ◌+◌, ◌^◌, ◌<◌, ◌≤◌, ◌↔◌, [], true, false, ℕ, map, min, length, Option, Some, None, get_or, is_some, take, MatchOption, IfSome, IfOk, OnErr};
ghost use Rattle.ts_outside.specs.States.{ReadsOn, Closes};
ghost use Rattle.ts_outside.specs.Reading.{bytes_of, Opens, LeavesOpened, CountsOpened, Fills, Gives, CountsGot};
ghost use Rattle.ts_outside.specs.Memory.{next_count, fails_at, cut_at, faults_after, left_at, shelf_state};
ghost use Rattle.ts_outside.specs.Holding.{held_of, bytes_at, seat_left};

use crate::files::{FileNo, Files, Got, Opened};
use crate::name::FileName;
use crate::script::{count_on, cut_of, fails_at_call};
use crate::slots::{add_open, set_open};
use std::alloc::Global;
use std::marker::Model;

/// A file that is held in memory.
#[derive(Debug, Drop)]
pub struct MemFile {
    pub name: FileName,
    pub bytes: Vec<u8>,
}

// An open file: its index among those that are held, and the number of bytes that were read of it.
#[derive(Clone, Copy, Debug, PartialEq, Eq)]
struct Seat {
    file: usize,
    place: usize,
}

/// Files in memory. Of equal names the first counts. Read number k, from 0, gives at
/// most `cuts[k mod len]` bytes, but at least one; where there are no cuts it gives as many as
/// there are and as the buffer has room for. Calls of `open` and `read` are numbered together from
/// 0, and those whose numbers are in `fails` answer `Failed`.
#[derive(Drop)]
pub struct MemFiles {
    held: Vec<MemFile>,
    seats: Vec<Option<Seat>>,
    cuts: Vec<usize>,
    fails: Vec<u64>,
    calls: u64,
    reads: u64,
    faults: u64,
}

impl Model for MemFiles {
    ghost use Rattle.std.specs.Prelude.{map};
    ghost use Rattle.ts_outside.specs.Memory.{Shelf};
    ghost use Rattle.ts_outside.specs.Holding.{held_of, seat_left};

    ghost Value = { Shelf };

    ghost view = { λ m. record { held = map held_of m.held.items; left = map (seat_left m.held.items) m.seats.items; cuts = m.cuts.items; fails = m.fails.items; calls = m.calls; reads = m.reads; faults = m.faults } };
}

// The index of the first file of a name.
#[tactic(auto, using(crate::proofs::Held::found_here))]
fn find(files: &[MemFile], name: &FileName) -> Option<usize>
    ensures { MatchOption result (bytes_of (map held_of files.now) name.now ≡ None) (λ i. bytes_of (map held_of files.now) name.now ≡ Some (bytes_at files.now i)) }
{
    for (i, file) in files.iter().enumerate() {
        if file.name.bytes() == name.bytes() {
            return Some(i);
        }
    }
    None
}

// The open file of a number.
fn seat_at(seats: &[Option<Seat>], n: usize) -> Option<Seat>
    ensures { result ≡ get_or seats.now n None }
{
    if n < seats.len() { seats[n] } else { None }
}

// The bytes of the file of an index.
#[tactic(auto, using(crate::proofs::Held::bytes_here, crate::proofs::Held::bytes_past))]
fn file_bytes(files: &[MemFile], i: usize) -> &[u8]
    ensures { result.now ≡ bytes_at files.now i }
{
    if i < files.len() {
        files[i].bytes.as_slice()
    } else {
        &[]
    }
}

// What is left of an open file.
#[tactic(auto, using(crate::proofs::Gains::range_from, crate::proofs::Held::nothing_left))]
fn rest_of(files: &[MemFile], seat: Seat) -> &[u8]
    ensures value { Some result.now ≡ seat_left files.now (Some seat) }
    ensures room { 0 < length result.now → seat.place + length result.now < 2 ^ 64 }
{
    let bytes = file_bytes(files, seat.file);
    if seat.place <= bytes.len() {
        &bytes[seat.place..]
    } else {
        &[]
    }
}

// Gives the next bytes of an open file, as many as the buffer has room for.
fn give(files: &[MemFile], seats: &mut Vec<Option<Seat>>, n: usize, buffer: &mut [u8]) -> Got
    requires number { is_some (get_or seats.old.items n None) ≡ true }
    requires room { 0 < length buffer.old }
    ensures fills { Fills result (length buffer.old) }
    ensures gives { Gives (seat_left files.now (get_or seats.old.items n None)) result buffer.new (seat_left files.now (get_or seats.new.items n None)) }
    ensures most { (m : ℕ) → result ≡ Got.Bytes m → IfSome (seat_left files.now (get_or seats.old.items n None)) (λ left. m ≡ min (length buffer.old) (length left)) }
    ensures quiet { result ≢ Got.Failed }
    ensures number { is_some (get_or seats.new.items n None) ≡ true }
    ensures others { (k : ℕ) → k ≢ n → get_or seats.new.items k None ≡ get_or seats.old.items k None }
{
    let Some(seat) = seat_at(seats, n) else {
        unreachable!();
    };
    let rest = rest_of(files, seat);
    if rest.is_empty() {
        return Got::End;
    }
    let count = buffer.len().min(rest.len());
    buffer[..count].copy_from_slice(&rest[..count]);
    let place = seat.place + count;
    set_open(
        seats,
        n,
        Some(Seat {
            file: seat.file,
            place,
        }),
    );
    Got::Bytes(count)
}

impl MemFiles {
    /// These files, none of them open.
    pub fn new(alloc: Global, held: Vec<MemFile>, cuts: Vec<usize>, fails: Vec<u64>) -> MemFiles
        ensures { result ≡ record { held = map held_of held.items; left = []; cuts = cuts.items; fails = fails.items; calls = 0; reads = 0; faults = 0 } }
    {
        MemFiles {
            held,
            seats: Vec::new(alloc),
            cuts,
            fails,
            calls: 0,
            reads: 0,
            faults: 0,
        }
    }
}

impl Files for MemFiles {
    ghost state = { shelf_state };

    fn open(&mut self, name: &FileName) -> Opened
        ensures opens { Opens (Some self.old.held) name.now result (left_at self.new) }
        ensures leaves { LeavesOpened result (shelf_state self.old) (shelf_state self.new) }
        ensures counted { CountsOpened result self.old.faults self.new.faults }
        ensures fails { (result ≡ Opened.Failed) ↔ (fails_at self.old.fails self.old.calls ≡ true) }
        ensures faults { self.new.faults
            ≡ faults_after (fails_at self.old.fails self.old.calls) self.old.faults }
        ensures calls { self.new.calls ≡ next_count self.old.calls }
        ensures reads { self.new.reads ≡ self.old.reads }
        ensures cuts { self.new.cuts ≡ self.old.cuts }
        ensures plan { self.new.fails ≡ self.old.fails }
    {
        let call = self.calls;
        self.calls = count_on(call);
        if fails_at_call(&self.fails, call) {
            self.faults = count_on(self.faults);
            return Opened::Failed;
        }
        let Some(file) = find(&self.held, name) else {
            return Opened::Missing;
        };
        let Ok(n) = add_open(&mut self.seats, Seat { file, place: 0 }) else {
            return Opened::NoMemory;
        };
        Opened::Found(FileNo(n))
    }

    fn read(&mut self, file: FileNo, buffer: &mut [u8]) -> Got
        requires number { is_some (left_at self.old file.0) ≡ true }
        requires room { 0 < length buffer.old }
        ensures fills { Fills result (length buffer.old) }
        ensures gives { Gives (left_at self.old file.0) result buffer.new (left_at self.new file.0) }
        ensures leaves { ReadsOn file.0 (shelf_state self.old) (shelf_state self.new) }
        ensures counted { CountsGot result self.old.faults self.new.faults }
        ensures fails { (result ≡ Got.Failed) ↔ (fails_at self.old.fails self.old.calls ≡ true) }
        ensures cut { (n : ℕ) → result ≡ Got.Bytes n → IfSome (left_at self.old file.0)
            (λ left. n ≡ min (cut_at self.old.cuts self.old.reads (length buffer.old)) (length left)) }
        ensures faults { self.new.faults
            ≡ faults_after (fails_at self.old.fails self.old.calls) self.old.faults }
        ensures calls { self.new.calls ≡ next_count self.old.calls }
        ensures reads { self.new.reads ≡ next_count self.old.reads }
        ensures cuts { self.new.cuts ≡ self.old.cuts }
        ensures plan { self.new.fails ≡ self.old.fails }
    {
        let call = self.calls;
        let most = cut_of(&self.cuts, self.reads, buffer.len());
        self.calls = count_on(call);
        self.reads = count_on(self.reads);
        if fails_at_call(&self.fails, call) {
            self.faults = count_on(self.faults);
            return Got::Failed;
        }
        give(&self.held, &mut self.seats, file.0, &mut buffer[..most])
    }

    fn close(&mut self, file: FileNo)
        requires { is_some (left_at self.old file.0) ≡ true }
        ensures leaves { Closes file.0 (shelf_state self.old) (shelf_state self.new) }
        ensures counted { self.new.faults ≡ self.old.faults }
        ensures calls { self.new.calls ≡ self.old.calls }
        ensures reads { self.new.reads ≡ self.old.reads }
        ensures cuts { self.new.cuts ≡ self.old.cuts }
        ensures plan { self.new.fails ≡ self.old.fails }
    {
        set_open(&mut self.seats, file.0, None);
    }
}
