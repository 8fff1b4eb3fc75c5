//! The grace period: after a restart only reclaims are admitted, and afterwards none (XNFS, "Grace period").
#![tactic(auto)]

ghost use Rattle.std.specs.Prelude.{◌≡◌};
ghost use Rattle.definitions.specs.Phases.{admits as is_admitted};
ghost use Rattle.grace.specs.Meanings.{view_of_phase, view_of_kind};

/// Where the daemon is after a restart.
#[derive(Clone, Copy, PartialEq, Eq)]
pub enum Phase {
    /// Clients reclaim the locks and shares that they held before the restart.
    Grace,
    /// The grace period is over.
    Normal,
}

/// The kinds of call, as far as the phase asks. A message form is of its procedure's kind.
#[derive(Clone, Copy, PartialEq, Eq)]
pub enum CallKind {
    /// TEST.
    Testing,
    /// LOCK and NM_LOCK.
    Locking { reclaim: bool },
    /// SHARE.
    Sharing { reclaim: bool },
    /// CANCEL.
    Cancelling,
    /// UNLOCK.
    Unlocking,
    /// UNSHARE, whose reclaim flag is unused.
    Unsharing,
    /// A local lock request.
    LocalLocking,
    /// FREE_ALL, GRANTED_RES, every NSM call, and the local lines close, table, hosts, quota and stop.
    Always,
}

/// Whether a call of this kind acts in the phase, or is answered DENIED_GRACE_PERIOD (XNFS, "Grace period").
pub fn admits(phase: Phase, kind: &CallKind) -> bool
    ensures { result ≡ is_admitted (view_of_phase phase) (view_of_kind kind.now) }
{
    match kind {
        CallKind::Always => true,
        CallKind::Locking { reclaim } | CallKind::Sharing { reclaim } => {
            *reclaim == (phase == Phase::Grace)
        }
        CallKind::Testing
        | CallKind::Cancelling
        | CallKind::Unlocking
        | CallKind::Unsharing
        | CallKind::LocalLocking => phase == Phase::Normal,
    }
}
