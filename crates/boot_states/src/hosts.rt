//! The hosts whose reports are remembered.
ghost use Rattle.std.specs.Prelude.{◌≡◌, ◌↔◌, IsTrue, [], length, take, ◌∷◌, None, false, IfOk, OnOk, OnErr, IfSome, IfNone};
ghost use Rattle.boot_states.specs.Reports.{has_no_number, finding, finding_of_state};
ghost use Rattle.boot_states.specs.Hosts.{host_of, reports_of, heard, with_report};

use crate::host::HostBoots;
use crate::reports::{Finding, Kind, Report};
use lru::LruCache;
use owner_ids::Starved;
use std::alloc::Global;
use std::marker::Model;
use std::num::NonZeroUsize;

/// How many hosts are remembered at most.
pub const MOST_HOSTS: usize = 4_096;

/// What hosts reported of their boots, of `MOST_HOSTS` hosts at most: past that the host is forgotten that reported nothing for
/// longest. Contracts see the hosts, the one that reported last first, and the reports of each, the newest first.
#[derive(Drop)]
pub struct BootStates {
    alloc: Global,
    cache: LruCache<Vec<u8>, HostBoots>,
}

impl Model for BootStates {
    ghost use Rattle.std.specs.Prelude.{◌≡◌, List};
    ghost use Rattle.boot_states.specs.Hosts.{Host};
    ghost use Rattle.boot_states.specs.Views.{view_of_entries};

    ghost Value = { List Host };

    ghost view = { λ b. view_of_entries b.cache.entries };

    ghost invariant = { λ b. b.cache.cap ≡ 4096 };
}

// Whether this is a LOCK with the number 0.
fn is_without_number(report: Report) -> bool
    ensures { result ≡ has_no_number report }
{
    report.kind == Kind::Lock && report.state == 0
}

impl BootStates {
    /// No host has reported anything. Starved: there is no memory for the table.
    pub fn new(alloc: Global) -> Result<BootStates, Starved>
        ensures { IfOk result (λ boots. boots ≡ []) }
    {
        let Some(most) = NonZeroUsize::new(MOST_HOSTS) else {
            unreachable!()
        };
        Ok(BootStates {
            alloc,
            cache: LruCache::new(alloc, most)?,
        })
    }

    /// How many hosts are remembered.
    pub fn len(&self) -> usize
        ensures { result ≡ length self.now }
    {
        self.cache.len()
    }

    /// Whether no host is remembered.
    pub fn is_empty(&self) -> bool
        ensures { IsTrue result ↔ (self.now ≡ []) }
    {
        self.cache.is_empty()
    }

    /// What this report says of the boots of its host, after all earlier ones of that host. It is remembered, but for a LOCK with
    /// the number 0. Starved: there is no memory for a host that is not remembered; nothing has changed. It never comes for a
    /// LOCK with the number 0.
    pub fn hear(&mut self, name: &[u8], report: Report) -> Result<Finding, Starved>
        ensures found { IfOk result (λ found. found ≡ finding (reports_of name.now self.old) report) }
        ensures heard { OnOk result (self.new ≡ heard name.now report self.old) }
        ensures starved { OnErr result ((self.new ≡ self.old) × (host_of name.now self.old ≡ None) × (has_no_number report ≡ false)) }
    {
        if is_without_number(report) {
            return Ok(Finding::SameBoot);
        }
        match self.hear_known(name, report) {
            Some(finding) => Ok(finding),
            None => {
                let mut host = HostBoots::new();
                let finding = host.hear(report);
                self.add(name, host)?;
                Ok(finding)
            }
        }
    }

    // A report with a number, of a host that is remembered. None: it is not, and nothing has changed.
    fn hear_known(&mut self, name: &[u8], report: Report) -> Option<Finding>
        ensures some { IfSome result (λ found. (found ≡ finding_of_state (reports_of name.now self.old) report) × (self.new ≡ with_report name.now report self.old)) }
        ensures none { IfNone result ((self.new ≡ self.old) × (host_of name.now self.old ≡ None)) }
    {
        let host = self.cache.get_mut(name)?;
        Some(host.hear(report))
    }

    // Remembers a host that is not remembered.
    fn add(&mut self, name: &[u8], host: HostBoots) -> Result<(), Starved>
        requires new { host_of name.now self.old ≡ None }
        ensures ok { OnOk result (self.new ≡ take 4096 (record { name = name.now; reports = host } ∷ self.old)) }
        ensures err { OnErr result (self.new ≡ self.old) }
    {
        let name = Vec::from_slice(self.alloc, name)?;
        match self.cache.put(name, host) {
            Ok(_) => Ok(()),
            Err(_) => Err(Starved),
        }
    }
}
