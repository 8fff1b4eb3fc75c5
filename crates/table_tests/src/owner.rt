//! Owners out of text.
use owner_ids::{Owner, OwnerId, Owners};
use std::alloc::{AllocError, Global};

/// The owner of this svid and handle at the host of this name.
fn remote(alloc: Global, name: &[u8], svid: i32, oh: &[u8]) -> Result<Owner, AllocError> {
    let name = name.to_vec(alloc)?;
    let oh = oh.to_vec(alloc)?;
    Ok(Owner::Remote { name, svid, oh })
}

/// `a/7/A` is an owner at the host `a`, with its svid and its handle; `p42` is a process, and `d7` a description.
pub(crate) fn read_owner(alloc: Global, text: &str) -> Option<Owner> {
    match text.split_once("/") {
        Some((name, rest)) => {
            let (svid, oh) = rest.split_once("/")?;
            let svid = svid.parse().ok()?;
            remote(alloc, name.as_bytes(), svid, oh.as_bytes()).ok()
        }
        None => read_local(text),
    }
}

fn read_local(text: &str) -> Option<Owner> {
    match text.strip_prefix("p") {
        Some(pid) => Some(Owner::Process(pid.parse().ok()?)),
        None => Some(Owner::Description(text.strip_prefix("d")?.parse().ok()?)),
    }
}

/// The number of the owner, which gets one where it has none.
pub(crate) fn intern(alloc: Global, owners: &mut Owners, text: &str) -> Option<OwnerId> {
    let owner = read_owner(alloc, text)?;
    owners.intern(&owner).ok()
}

/// The number of the owner, if it has one.
pub(crate) fn number(alloc: Global, owners: &Owners, text: &str) -> Option<OwnerId> {
    let owner = read_owner(alloc, text)?;
    owners.number(&owner)
}
