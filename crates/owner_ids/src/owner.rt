//! Who holds a lock.
ghost use Rattle.std.specs.Prelude.{◌≡◌, refl, Some};
ghost use Rattle.std.specs.Cmp.{partial_equiv_from_equiv, partial_order_from_agreeing_total};
ghost use Rattle.definitions.specs.Owners.{is_of_host, is_description};
ghost use Rattle.owner_ids.specs.Views.{view_of_owner, held_cmp, same_held, IsCopy};
ghost use Rattle.owner_ids.specs.Held.{held_total, held_equiv};

use std::alloc::AllocError;
use std::cmp::Ordering;

/// An owner that a client names, a process, or an open file description.
#[derive(Drop)]
pub enum Owner {
    /// What a client says of an owner (XNFS, `nlm4_lock`): its host's name, its number there, and its own bytes.
    Remote {
        name: Vec<u8>,
        svid: i32,
        oh: Vec<u8>,
    },
    /// A process of this host, by its pid, 0 to 2^31 - 1.
    Process(u32),
    /// An open file description of this host, by its number.
    Description(u64),
}

impl Owner {
    /// Whether a client of this host named it.
    pub fn is_of_host(&self, host: &[u8]) -> bool
        ensures { result ≡ is_of_host host.now (view_of_owner self.now) }
    {
        match self {
            Owner::Remote { name, .. } => name.as_slice() == host,
            Owner::Process(_) | Owner::Description(_) => false,
        }
    }
}

impl Owner {
    /// Whether it is an open file description.
    pub fn is_description(&self) -> bool
        ensures { result ≡ is_description (view_of_owner self.now) }
    {
        match self {
            Owner::Description(_) => true,
            Owner::Remote { .. } | Owner::Process(_) => false,
        }
    }
}

impl Clone for Owner {
    ghost is_clone = { IsCopy };

    fn clone(&self) -> Result<Owner, AllocError> {
        Ok(match self {
            Owner::Remote { name, svid, oh } => Owner::Remote {
                name: name.clone()?,
                svid: *svid,
                oh: oh.clone()?,
            },
            Owner::Process(pid) => Owner::Process(*pid),
            Owner::Description(number) => Owner::Description(*number),
        })
    }
}

impl PartialEq for Owner {
    ghost eq = { same_held };

    ghost laws = { partial_equiv_from_equiv held_equiv };

    fn eq(&self, other: &Owner) -> bool {
        self.cmp(other).is_eq()
    }
}

impl Eq for Owner {
    ghost laws = { held_equiv };
}

impl PartialOrd for Owner {
    ghost partial_cmp = { λ x y. Some (held_cmp x y) };

    ghost laws = { partial_order_from_agreeing_total held_cmp held_total (λ x y. refl) (λ x y. refl) };

    fn partial_cmp(&self, other: &Owner) -> Option<Ordering> {
        Some(self.cmp(other))
    }
}

/// Remote owners by name, svid and oh, then processes by pid, then descriptions by number.
impl Ord for Owner {
    ghost cmp = { held_cmp };

    ghost total = { held_total };

    ghost matches_partial_cmp = { λ x y. refl };

    ghost matches_eq = { λ x y. refl };

    fn cmp(&self, other: &Owner) -> Ordering {
        match (self, other) {
            (
                Owner::Remote { name, svid, oh },
                Owner::Remote {
                    name: other_name,
                    svid: other_svid,
                    oh: other_oh,
                },
            ) => name.as_slice().cmp(other_name.as_slice()).then(
                svid.cmp(other_svid)
                    .then(oh.as_slice().cmp(other_oh.as_slice())),
            ),
            (Owner::Remote { .. }, _) => Ordering::Less,
            (Owner::Process(_), Owner::Remote { .. }) => Ordering::Greater,
            (Owner::Process(pid), Owner::Process(other_pid)) => pid.cmp(other_pid),
            (Owner::Process(_), Owner::Description(_)) => Ordering::Less,
            (Owner::Description(number), Owner::Description(other_number)) => {
                number.cmp(other_number)
            }
            (Owner::Description(_), _) => Ordering::Greater,
        }
    }
}
