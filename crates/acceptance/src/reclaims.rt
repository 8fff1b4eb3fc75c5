//! Reclaims after a restart, in every order, and one of a lock that nobody had (XNFS, "Grace period").
use daemon_scripts::{Misplayed, play, play_with_hosts};
use std::alloc::Global;
use std::test::*;

/// Honest: each of bytes that its owner held, in no stronger mode.
const HONEST: &[&str] = &[
    "160 reclaim-shared a 0 5 = granted",
    "161 reclaim a 0 10 = granted",
    "162 reclaim-shared b 20 10 = granted",
    "163 reclaim-shared c 22 2 = granted",
];

/// The same calls once more, under other xids.
const AGAIN: &[&str] = &[
    "170 reclaim-shared a 0 5 = granted",
    "171 reclaim a 0 10 = granted",
    "172 reclaim-shared b 20 10 = granted",
    "173 reclaim-shared c 22 2 = granted",
];

// The places of the four in an order, which has a number of two bits for each; not every number has one.
fn order_of(number: usize) -> Option<[usize; 4]> {
    let [a, b, c, d] = [number % 4, number / 4 % 4, number / 16 % 4, number / 64 % 4];
    let is_order = a != b && a != c && a != d && b != c && b != d && c != d;
    is_order.then_some([a, b, c, d])
}

fn at(lines: &[&'static str], place: usize) -> &'static str {
    lines.get(place).copied().unwrap_or("")
}

// All are granted in this order, and once more: of a server that begins anew, and of a new one over their stored hosts.
fn are_granted(alloc: Global, order: [usize; 4]) -> bool {
    let [first, second, third, last] = order;
    let a = at(HONEST, first);
    let b = at(HONEST, second);
    let c = at(HONEST, third);
    let d = at(HONEST, last);
    let e = at(AGAIN, first);
    let f = at(AGAIN, second);
    let g = at(AGAIN, third);
    let h = at(AGAIN, last);
    let anew = [
        "begins",
        "150 lock a 0 10 = granted",
        "151 block-shared b 20 10 = granted",
        "152 block-shared c 20 5 = granted",
        "restarts",
        a,
        b,
        c,
        d,
        e,
        f,
        g,
        h,
    ];
    let of_rows = ["restarts", a, b, c, d, e, f, g, h];
    play(alloc, &anew).is_ok() && play_with_hosts(alloc, 0, b"abc", &of_rows).is_ok()
}

// How many orders there are. The number of one that goes otherwise is the error.
fn granted_orders(alloc: Global) -> Result<u32, usize> {
    let mut orders = 0u32;
    for number in 0..256 {
        if let Some(order) = order_of(number) {
            if !are_granted(alloc, order) {
                return Err(number);
            }
            orders = orders.wrapping_add(1);
        }
    }
    Ok(orders)
}

#[test]
fn reclaims_in_any_order(rt: HostRuntime) {
    assert!(rt; granted_orders(rt.alloc()) == Ok(24));
}

/// Whoever reclaims what nobody had gets it, and who had a lock there does not.
const DISHONEST_RECLAIM: &[&str] = &[
    "begins",
    "150 lock a 0 10 = granted",
    "151 block-shared b 20 10 = granted",
    "152 block-shared c 20 5 = granted",
    "restarts",
    "164 reclaim b 0 10 = granted",
    "161 reclaim a 0 10 = denied",
];

#[test]
fn dishonest_reclaim(rt: HostRuntime) -> Result<(), Misplayed> {
    play(rt.alloc(), DISHONEST_RECLAIM)
}
