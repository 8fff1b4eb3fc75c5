//! Where hosts are that named themselves: the newest address, when a store is told, and who goes.
use learned_addresses::{Heard, Learned, LearnedAddresses, MOST_LEARNED};
use owner_ids::Starved;
use std::alloc::Global;

const HERE: [u8; 16] = [1; 16];

const THERE: [u8; 16] = [2; 16];

fn learned(address: [u8; 16], is_kept: bool, kept_at: Option<u64>) -> Option<Learned> {
    Some(Learned {
        address,
        is_kept,
        kept_at,
    })
}

#[test]
fn learned_once(rt: HostRuntime) -> Result<(), Starved> {
    let mut hosts = LearnedAddresses::new(rt.alloc())?;
    assert!(rt; hosts.look(b"a").is_none());
    assert!(rt; hosts.hear(b"a", HERE, 5)? == Heard::IsToBeKept);
    assert!(rt; hosts.hear(b"a", HERE, 6)? == Heard::IsToBeKept);
    hosts.keep(b"a", HERE, 7)?;
    assert!(rt; hosts.hear(b"a", HERE, 8)? == Heard::Known);
    assert!(rt; hosts.look(b"a") == learned(HERE, true, Some(7)));
    assert!(rt; hosts.look(b"b").is_none());
    Ok(())
}

#[test]
fn learned_anew(rt: HostRuntime) -> Result<(), Starved> {
    let mut hosts = LearnedAddresses::new(rt.alloc())?;
    hosts.restore(b"a", HERE)?;
    assert!(rt; hosts.hear(b"a", HERE, 0)? == Heard::Known);
    assert!(rt; hosts.hear(b"a", THERE, 0)? == Heard::IsToBeKept);
    hosts.keep(b"a", THERE, 1_000)?;
    assert!(rt; hosts.hear(b"a", HERE, 10_999)? == Heard::Known);
    assert!(rt; hosts.look(b"a") == learned(HERE, false, Some(1_000)));
    assert!(rt; hosts.hear(b"a", HERE, 11_000)? == Heard::IsToBeKept);
    hosts.keep(b"a", THERE, 11_000)?;
    assert!(rt; hosts.look(b"a") == learned(HERE, false, Some(11_000)));
    hosts.keep(b"b", THERE, 11_000)?;
    assert!(rt; hosts.look(b"b").is_none());
    Ok(())
}

// Hears of so many hosts, whose names are their numbers.
fn hear_of(hosts: &mut LearnedAddresses, count: u32) -> Result<(), Starved> {
    for number in 0..count {
        hosts.hear(&number.to_be_bytes(), HERE, 0)?;
    }
    Ok(())
}

#[test]
fn longest_unheard_goes(rt: HostRuntime) -> Result<(), Starved> {
    let alloc: Global = rt.alloc();
    let mut hosts = LearnedAddresses::new(alloc)?;
    hear_of(&mut hosts, MOST_LEARNED as u32)?;
    hosts.hear(&0u32.to_be_bytes(), HERE, 0)?;
    hosts.hear(b"one more", THERE, 0)?;
    assert!(rt; hosts.look(&0u32.to_be_bytes()).is_some());
    assert!(rt; hosts.look(&1u32.to_be_bytes()).is_none());
    assert!(rt; hosts.look(&2u32.to_be_bytes()).is_some());
    assert!(rt; hosts.look(b"one more") == learned(THERE, false, None));
    Ok(())
}
