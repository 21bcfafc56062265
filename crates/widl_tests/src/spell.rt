//! The order of the ids of interfaces.

use crate::shared::{add_interface, expect, sure, with_parents};
use std::alloc::Global;
use std::mem::ManuallyDrop;
use std::process::Abort;
use widl_idl::{Iface, Ifaces};
use widl_spell::id_order;

/// Parents of interfaces, and the interfaces in the order of their ids. What leads to a circle has none.
type Order = (&'static [Option<u32>], &'static [u32]);

const ORDERS: [Order; 2] = [
    (&[Some(2), None, None, Some(0)], &[1, 2, 0, 3]),
    (&[Some(1), Some(0), Some(0), None], &[3]),
];

fn order_of(rt: &impl Abort, alloc: Global, ifaces: &[Iface]) -> Vec<u32> {
    assert!(rt; ifaces.len() < 4_294_967_296);
    sure(rt, id_order(alloc, ifaces))
}

fn expect_orders(rt: &impl Abort, alloc: Global, rows: &[Order]) {
    for (parents, wanted) in rows {
        let ifaces = ManuallyDrop::new(with_parents(rt, alloc, parents));
        let order = order_of(rt, alloc, ifaces.as_slice());
        expect(rt, order.as_slice() == *wanted, "the order");
    }
}

/// A chain of interfaces in which each but the last stands before its parent.
fn expect_chain(rt: &impl Abort, alloc: Global, count: u32) {
    let mut ifaces = ManuallyDrop::new(Ifaces::new(alloc));
    for number in 1..count {
        add_interface(rt, alloc, &mut ifaces, Some(number));
    }
    add_interface(rt, alloc, &mut ifaces, None);
    let order = order_of(rt, alloc, ifaces.as_slice());
    expect(rt, order.len() == count as usize, "the length");
    expect(rt, order.ends_with(&[1, 0]), "the end");
}

#[test]
fn an_interface_follows_its_parent(rt: HostRuntime) {
    expect_orders(&rt, rt.alloc(), &ORDERS);
    expect_chain(&rt, rt.alloc(), 60_000);
}
