use xdr_core::{Cursor, Frame, FrameFull, Opaque, Wire, XdrError, get_record, put_record};

/// The arguments of FREE_ALL: a host whose locks are to be dropped (nlm4_notify).
#[derive(Clone, Copy)]
pub struct Notify<'r> {
    /// May be one byte longer than other names.
    pub name: Opaque<'r, 1025>,
    pub state: i32,
}

#[tactic(auto, unfolding(crate::specs::Notify::notify))]
impl<'r> Wire<'r> for Notify<'r> {
    ghost use Rattle.nlm4_types.specs.Notify.{NotifyArgs, view_of_notify, notify};

    ghost Value = { NotifyArgs };

    ghost view = { view_of_notify };

    ghost codec = { notify };

    fn get(c: &mut Cursor<'r>) -> Result<Self, XdrError> {
        get_record!(c, Notify, name, state)
    }

    fn put(&self, f: &mut Frame) -> Result<(), FrameFull> {
        put_record!(self, f, name, state)
    }
}
