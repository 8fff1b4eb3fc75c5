//! The pages by name.
ghost use Rattle.std.specs.Prelude.{◌≡◌};
ghost use Rattle.status_pages.specs.Requests.{page_of};

/// A page.
#[derive(Clone, Copy, Debug, PartialEq, Eq)]
pub enum Page {
    /// `/`: locks, waiters and hosts for a browser.
    Index,
    /// `/metrics`: numbers, in the text format 0.0.4 of Prometheus.
    Metrics,
    /// `/locks.json`.
    Locks,
    /// `/waiters.json`.
    Waiters,
    /// `/hosts.json`.
    Hosts,
    /// `/status.json`: the same numbers as `/metrics`.
    Status,
}

impl Page {
    /// The page of a request target (RFC 9112, section 3.2.1: origin-form), byte for byte. `None` for any other.
    #[tactic(auto, unfolding(crate::specs::Requests::page_of))]
    pub fn of(target: &str) -> Option<Page>
        ensures { result ≡ page_of target.now }
    {
        if target == "/" {
            Some(Page::Index)
        } else if target == "/metrics" {
            Some(Page::Metrics)
        } else if target == "/locks.json" {
            Some(Page::Locks)
        } else if target == "/waiters.json" {
            Some(Page::Waiters)
        } else if target == "/hosts.json" {
            Some(Page::Hosts)
        } else if target == "/status.json" {
            Some(Page::Status)
        } else {
            None
        }
    }
}
