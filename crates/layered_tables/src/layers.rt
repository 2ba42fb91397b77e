//! One table under groups.

ghost use Rattle.std.specs.Prelude.{◌≡◌, ◌+◌, ◌<◌, ◌≤◌, ◌^◌, [], ◌∷◌, ◌++◌, Some, None, length, option_copied, reverse, OnOk, OnErr, IfSome};
ghost use Rattle.std.specs.FinMap as map;
ghost use Rattle.layered_tables.specs.Environments.{opened, closed};
ghost use Rattle.layered_tables.specs.Tables.{value_at, member_at, innermost, with_set, with_replaced};
ghost use Rattle.layered_tables.specs.Undoing.{table_from, write, put_back as as_put_back, saved_at, tables_to, ArePast, IsSound};

use crate::kept::Kept;
use std::alloc::Global;
use std::marker::Model;
use std::mem;
use ts_base::NoMemory;

/// A cell as it was before a group set it.
#[derive(Drop)]
pub(crate) struct Saved<T> {
    place: usize,
    old: Option<Kept<T>>,
    // The number of the environment that set it.
    member: u32,
}

/// A table from numbers to values, under groups. Contracts see the tables of all environments, the
/// innermost first.
#[derive(Drop)]
pub struct Layers<T> {
    cells: Vec<Option<Kept<T>>>,
    saves: Vec<Saved<T>>,
    // How many groups are open.
    groups: u32,
}

impl<T> Model for Layers<T> {
    ghost use Rattle.std.specs.Prelude.{List, reverse};
    ghost use Rattle.std.specs.Coded.{coded_list};
    ghost use Rattle.layered_tables.specs.Tables.{Table, table_code};

    ghost Value = { List (Table T) };

    ghost coded = { coded_list (table_code T.code) };

    ghost use Rattle.layered_tables.specs.Undoing.{all_tables, IsSoundAt};

    ghost view = { λ l. all_tables l.cells.items (reverse l.saves.items) l.groups };

    ghost invariant = { λ l. IsSoundAt l.cells.items (reverse l.saves.items) l.groups };
}

/// Makes room for a place, by cells that were never set.
#[tactic(auto, using(crate::proofs::Calls::tables))]
fn grow<T>(cells: &mut Vec<Option<Kept<T>>>, place: usize) -> Result<(), NoMemory>
where
    T: Drop,
    ensures same { table_from 0 cells.new.items ≡ table_from 0 cells.old.items }
    ensures longer { length cells.old.items ≤ length cells.new.items }
    ensures room { OnOk result (place < length cells.new.items) }
{
    while cells.len() <= place {
        if cells.push(None).is_err() {
            return Err(NoMemory);
        }
    }
    Ok(())
}

/// Returns the value that stands at a place, if one was set there.
#[tactic(auto, using(crate::proofs::Calls::tables))]
fn stands_at<T>(cells: &[Option<Kept<T>>], place: usize) -> Option<&T>
    ensures { option_copied result ≡ value_at (table_from 0 cells.now) place }
{
    if cells.len() <= place {
        return None;
    }
    match &cells[place] {
        Some(kept) => Some(&kept.value),
        None => None,
    }
}

/// Exchanges a cell, and returns the old one.
#[tactic(auto, using(crate::proofs::Calls::tables))]
fn exchange<T>(
    cells: &mut Vec<Option<Kept<T>>>,
    place: usize,
    cell: Option<Kept<T>>,
) -> Option<Kept<T>>
    requires { place < length cells.old.items }
    ensures table { table_from 0 cells.new.items
        ≡ write place cell (table_from 0 cells.old.items) }
    ensures old { result ≡ map.get (table_from 0 cells.old.items) place }
    ensures len { length cells.new.items ≡ length cells.old.items }
{
    mem::replace(&mut cells[place], cell)
}

/// Returns the number of the environment in which a cell was set.
#[tactic(auto, using(crate::proofs::Calls::tables))]
fn member_of<T>(cells: &[Option<Kept<T>>], place: usize) -> u32
    requires { place < length cells.now }
    ensures { result ≡ member_at (table_from 0 cells.now) place }
{
    match &cells[place] {
        Some(kept) => kept.member,
        None => 1,
    }
}

/// Sets a cell, and saves what it was. Refused, it leaves all as it was.
#[tactic(auto, using(crate::proofs::Calls::tables))]
fn save<T>(
    cells: &mut Vec<Option<Kept<T>>>,
    saves: &mut Vec<Saved<T>>,
    place: usize,
    kept: Kept<T>,
) -> Result<(), NoMemory>
where
    T: Drop,
    requires { place < length cells.old.items }
    ensures table { OnOk result (table_from 0 cells.new.items
        ≡ write place (Some kept) (table_from 0 cells.old.items)) }
    ensures saved { OnOk result (reverse saves.new.items
        ≡ saved_at place (table_from 0 cells.old.items) kept.member ∷ reverse saves.old.items) }
    ensures same { OnErr result
        (table_from 0 cells.new.items ≡ table_from 0 cells.old.items) }
    ensures unsaved { OnErr result (saves.new.items ≡ saves.old.items) }
    ensures len { length cells.new.items ≡ length cells.old.items }
{
    let member = kept.member;
    let old = exchange(cells, place, Some(kept));
    match saves.push(Saved { place, old, member }) {
        Ok(()) => Ok(()),
        Err(failed) => {
            let _kept = exchange(cells, place, failed.value.old);
            Err(NoMemory)
        }
    }
}

/// Takes the newest save, where it was made in an environment after this one.
fn pop_after<T>(saves: &mut Vec<Saved<T>>, member: u32) -> Option<Saved<T>>
    ensures popped { IfSome result (λ s. reverse saves.old.items ≡ s ∷ reverse saves.new.items) }
    ensures later { IfSome result (λ s. member < s.member) }
    ensures none { result ≡ None → ArePast member (reverse saves.new.items) }
    ensures same { result ≡ None → saves.new.items ≡ saves.old.items }
{
    match saves.last() {
        Some(saved) if member < saved.member => saves.pop(),
        _ => None,
    }
}

/// Puts a cell back, unless it was set globally since.
fn put_back<T>(cells: &mut Vec<Option<Kept<T>>>, saved: Saved<T>)
where
    T: Drop,
    requires { saved.place < length cells.old.items }
    ensures table { table_from 0 cells.new.items
        ≡ as_put_back saved (table_from 0 cells.old.items) }
    ensures len { length cells.new.items ≡ length cells.old.items }
{
    if member_of(cells, saved.place) != 1 {
        let _dropped = exchange(cells, saved.place, saved.old);
    }
}

/// Puts back what was saved in the environments after this one, the newest first.
fn put_back_after<T>(cells: &mut Vec<Option<Kept<T>>>, saves: &mut Vec<Saved<T>>, member: u32)
where
    T: Drop,
    requires { IsSound cells.old.items (reverse saves.old.items) (member + 1) }
    ensures sound { IsSound cells.new.items (reverse saves.new.items) member }
    ensures tables { tables_to member (reverse saves.new.items) (table_from 0 cells.new.items)
        ≡ tables_to member (reverse saves.old.items) (table_from 0 cells.old.items) }
{
    while let Some(saved) = pop_after(saves, member) {
        put_back(cells, saved);
    }
}

impl<T> Layers<T> {
    /// Returns the tables of one environment, in which nothing was set. Takes no memory.
    pub fn new(alloc: Global) -> Layers<T>
        ensures { result ≡ map.empty ∷ [] }
    {
        Layers {
            cells: Vec::new(alloc),
            saves: Vec::new(alloc),
            groups: 0,
        }
    }

    /// Returns the value that stands at a number, if one was set there.
    pub fn get(&self, place: usize) -> Option<&T>
        ensures { option_copied result ≡ value_at (innermost self.now) place }
    {
        stands_at(&self.cells, place)
    }

    /// Opens a group (The TeXbook, chapter 24). Takes no memory.
    pub fn open(&mut self)
        requires { length self.old < 2 ^ 31 }
        ensures { self.new ≡ opened self.old }
    {
        self.groups += 1;
    }

    /// Closes a group. Takes no memory.
    pub fn close(&mut self)
    where
        T: Drop,
        requires { 1 < length self.old }
        ensures { self.new ≡ closed self.old }
    {
        self.groups -= 1;
        put_back_after(&mut self.cells, &mut self.saves, self.groups + 1);
    }

    /// Sets a value at a number, in the innermost environment or in all. Refused, it leaves all as
    /// it was.
    pub fn set(&mut self, place: usize, value: T, global: bool) -> Result<(), NoMemory>
    where
        T: Drop,
        ensures ok { OnOk result (self.new ≡ with_set place value global self.old) }
        ensures err { OnErr result (self.new ≡ self.old) }
    {
        grow(&mut self.cells, place)?;
        if global || self.groups == 0 {
            let _old = exchange(&mut self.cells, place, Some(Kept { value, member: 1 }));
            return Ok(());
        }
        let member = self.groups + 1;
        let kept = Kept { value, member };
        if member == member_of(&self.cells, place) {
            let _old = exchange(&mut self.cells, place, Some(kept));
            return Ok(());
        }
        save(&mut self.cells, &mut self.saves, place, kept)?;
        Ok(())
    }

    /// Exchanges the value at a number for another one: in the environment in which it was set, and
    /// in all after it. Refused, it leaves all as it was.
    pub fn replace(&mut self, place: usize, value: T) -> Result<(), NoMemory>
    where
        T: Drop,
        ensures ok { OnOk result (self.new ≡ with_replaced place value self.old) }
        ensures err { OnErr result (self.new ≡ self.old) }
    {
        grow(&mut self.cells, place)?;
        let member = member_of(&self.cells, place);
        let _old = exchange(&mut self.cells, place, Some(Kept { value, member }));
        Ok(())
    }
}
