//! When the value is dropped, which no clause says.

use super::Shared;
use std::cell::Cell;
use ts_base::List;

// A value that counts its drops.
struct Counted<'a> {
    drops: &'a Cell<u64>,
    number: u64,
}

impl<'a> Drop for Counted<'a> {
    fn drop(self) {
        let Counted { drops, number: _ } = self;
        drops.set(drops.get().wrapping_add(1));
    }
}

#[test]
fn the_last_owner_drops_the_value_in_every_order(rt: HostRuntime) {
    let orders = [
        [0usize, 1, 2],
        [0, 2, 1],
        [1, 0, 2],
        [1, 2, 0],
        [2, 0, 1],
        [2, 1, 0],
    ];
    for order in orders {
        let drops = Cell::new(0);
        let counted = Counted {
            drops: &drops,
            number: 7,
        };
        let first = Shared::new(rt.alloc(), counted).expect(&rt, "memory");
        let second = first.same_copy();
        let third = second.same_copy();
        let mut owners = [Some(first), Some(second), Some(third)];
        for place in order {
            assert_eq!(rt; drops.get(), 0);
            match owners[place].take() {
                Some(owner) => assert_eq!(rt; owner.get().number, 7),
                None => assert!(rt; false),
            }
        }
        assert_eq!(rt; drops.get(), 1);
    }
}

#[test]
fn a_shared_list_stands_in_a_shared_list(rt: HostRuntime) {
    let drops = Cell::new(0);
    let mut inner = List::new(rt.alloc());
    for number in 0..3u64 {
        let counted = Counted {
            drops: &drops,
            number,
        };
        assert_eq!(rt; inner.push(counted), Ok(()));
    }
    let inner = Shared::new(rt.alloc(), inner).expect(&rt, "memory");
    let mut outer = List::new(rt.alloc());
    assert_eq!(rt; outer.push(inner.same_copy()), Ok(()));
    assert_eq!(rt; outer.push(inner.same_copy()), Ok(()));
    let outer = Shared::new(rt.alloc(), outer).expect(&rt, "memory");
    let other = outer.same_copy();
    drop(inner);
    drop(outer);
    assert_eq!(rt; drops.get(), 0);
    for inner in other.get().as_slice() {
        for (number, counted) in inner.get().as_slice().iter().enumerate() {
            assert_eq!(rt; counted.number, number as u64);
        }
    }
    drop(other);
    assert_eq!(rt; drops.get(), 3);
}

#[test]
fn a_million_copies(rt: HostRuntime) {
    let drops = Cell::new(0);
    let counted = Counted {
        drops: &drops,
        number: 3,
    };
    let first = Shared::new(rt.alloc(), counted).expect(&rt, "memory");
    let mut owners = List::new(rt.alloc());
    for _ in 0..1_000_000u64 {
        assert_eq!(rt; owners.push(first.same_copy()), Ok(()));
    }
    drop(first);
    assert_eq!(rt; drops.get(), 0);
    drop(owners);
    assert_eq!(rt; drops.get(), 1);
}

#[test]
fn equal_and_printed_as_the_value(rt: HostRuntime) {
    let six = Shared::new(rt.alloc(), 6u64).expect(&rt, "memory");
    let other = Shared::new(rt.alloc(), 6u64).expect(&rt, "memory");
    let seven = Shared::new(rt.alloc(), 7u64).expect(&rt, "memory");
    let copy = six.clone().expect(&rt, "a copy is never refused");
    assert!(rt; six == copy);
    assert!(rt; six == other);
    assert!(rt; six != seven);
    assert_eq!(rt; *copy, 6);
    let text = format!(in rt.alloc(); "{seven:?}").expect(&rt, "memory");
    assert_eq!(rt; text.as_str(), "7");
}
