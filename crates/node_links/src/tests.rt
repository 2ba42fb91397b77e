//! Lists as they grow at the end and between their items.

ghost use Rattle.std.specs.Prelude.{◌≡◌, ◌<◌};

use crate::{ListFault, NodeList};
use box_tree::{Item, KernFrom};
use std::alloc::Global;
use std::marker::Brand;
use std::sync::ledger::{Blank, Ledger};
use std::test::Fail;
use ts_base::Steps;
use ts_geometry::Sp;

fn kern(width: i64) -> Item {
    Item::Kern {
        width: Sp(width),
        from: KernFrom::Given,
    }
}

fn penalty(value: i64) -> Item {
    Item::Penalty { value, auto: true }
}

// The widths of kerns and the values of penalties, with 0 for other items.
fn numbers(alloc: Global, list: &NodeList) -> Result<Vec<i64>, Fail> {
    let items = match list.to_items(alloc) {
        Ok(items) => items,
        Err(_) => return Err(Fail::from("memory")),
    };
    let mut numbers = Vec::new(alloc);
    for item in items.as_slice() {
        numbers.push(match item {
            Item::Kern { width, .. } => width.0,
            Item::Penalty { value, auto: true } => *value,
            _ => 0,
        })?;
    }
    Ok(numbers)
}

// A list of two kerns, with three more put between and after them, and then one last.
fn grown<L: Ledger>(alloc: Global, steps: &mut Steps<L>) -> Result<NodeList, Fail> {
    let mut list = NodeList::new(alloc);
    for width in [1, 2] {
        list.append(kern(width), steps).or(Err("refused"))?;
    }
    list.reserve(3).or(Err("memory"))?;
    let first = list.first().ok_or("empty")?;
    let last = list.next(first, steps).ok_or("one node")?;
    if list.next(last, steps).is_some() {
        return Err(Fail::from("more nodes"));
    }
    list.insert_after(last, kern(4), steps);
    let first = list.first().ok_or("empty")?;
    list.insert_after(first, kern(5), steps);
    let first = list.first().ok_or("empty")?;
    list.insert_after(first, kern(6), steps);
    list.append(kern(7), steps).or(Err("refused"))?;
    Ok(list)
}

// A list of one penalty, which gets another value.
fn revalued<L: Ledger>(alloc: Global, steps: &mut Steps<L>) -> Result<NodeList, Fail> {
    let mut list = NodeList::new(alloc);
    list.append(penalty(50), steps).or(Err("refused"))?;
    let first = list.first().ok_or("empty")?;
    if let Item::Penalty { .. } = list.item(first) {
        list.set_penalty(first, -20);
    }
    Ok(list)
}

// What a list of 200,000 items answers to one more.
fn one_more<L: Ledger>(alloc: Global, steps: &mut Steps<L>) -> Result<Option<ListFault>, Fail> {
    let mut list = NodeList::new(alloc);
    for _ in 0..200_000 {
        list.append(kern(0), steps).or(Err("full too early"))?;
    }
    Ok(list.append(kern(0), steps).err())
}

// The numbers of the two lists, one after the other, and the fault.
fn answers<L: Ledger>(alloc: Global, blank: Blank) -> Result<(Vec<i64>, Option<ListFault>), Fail>
    requires name { blank.name ≡ L.name }
    requires parts { blank.parts ≡ L.parts }
    requires some { 0 < blank.parts }
{
    let mut steps = Steps::<L>::new(blank);
    let mut all = numbers(alloc, &grown(alloc, &mut steps)?)?;
    all.extend_from_slice(&numbers(alloc, &revalued(alloc, &mut steps)?)?)?;
    Ok((all, one_more(alloc, &mut steps)?))
}

#[test]
fn lists_grow_at_the_end_and_between_their_items(rt: HostRuntime) -> Result<(), Fail> {
    assert_eq!(rt; NodeList::new(rt.alloc()).first(), None);
    let (numbers, fault) = answers::<Brand>(rt.alloc(), Blank::new(1))?;
    assert_eq!(rt; numbers.as_slice(), [1, 6, 5, 2, 4, 7, -20].as_slice());
    assert_eq!(rt; fault, Some(ListFault::ListFull));
    Ok(())
}
