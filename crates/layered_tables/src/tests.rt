//! A table under groups.

use crate::Layers;

#[test]
fn a_group_ends_with_what_stood_before(rt: HostRuntime) {
    let mut layers = Layers::new(rt.alloc());
    layers.set(3, 5u8, false).expect(&rt, "memory");
    layers.open();
    layers.set(3, 6, false).expect(&rt, "memory");
    layers.set(3, 7, false).expect(&rt, "memory");
    layers.set(4, 8, true).expect(&rt, "memory");
    assert_eq!(rt; layers.get(3).copied(), Some(7));
    layers.close();
    assert_eq!(rt; layers.get(3).copied(), Some(5));
    assert_eq!(rt; layers.get(4).copied(), Some(8));
    assert_eq!(rt; layers.get(5).copied(), None);
}

#[test]
fn a_value_is_exchanged_where_it_was_set(rt: HostRuntime) {
    let mut layers = Layers::new(rt.alloc());
    layers.set(3, 5u8, false).expect(&rt, "memory");
    layers.open();
    layers.replace(3, 9).expect(&rt, "memory");
    layers.close();
    assert_eq!(rt; layers.get(3).copied(), Some(9));
}
