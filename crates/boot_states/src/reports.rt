//! What a host reports of its boots, and what is found.

/// Which call a report comes in.
#[derive(Clone, Copy, Debug, PartialEq, Eq)]
pub enum Kind {
    /// A LOCK.
    Lock,
    /// A notice (SM_NOTIFY).
    Notice,
}

/// A report of a host. Its number is the same for all calls of one kind while the host is up, and another one after a reboot.
#[derive(Clone, Copy, Debug, PartialEq, Eq)]
pub struct Report {
    /// Which call it comes in.
    pub kind: Kind,
    /// The number in the call's field `state`, any of 32 bits. In a LOCK 0 stands for no number.
    pub state: i32,
}

/// What a report says of its host's boots, after all earlier ones.
#[derive(Clone, Copy, Debug, PartialEq, Eq)]
pub enum Finding {
    /// Nothing new. The number is the last one of its kind; or it is the host's first LOCK, since nothing is known of a boot
    /// before that; or it is a LOCK with the number 0.
    SameBoot,
    /// The host began anew: the number is another one than the last of its kind, or it is the host's first notice. No report of
    /// the other kind was of this boot.
    Reboot,
    /// The host began anew, and a report of the other kind was the first of this boot. Where the other kind reported a boot that
    /// this one did not, the next new number of this kind is taken for that boot.
    Reported,
}
