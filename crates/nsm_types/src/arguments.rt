ghost use Rattle.std.specs.Prelude.{◌≡◌};

use xdr_core::{Cursor, Fixed, Frame, FrameFull, Opaque, Wire, XdrError, get_record, put_record};

/// The name of a host, of any bytes.
pub type SmName<'r> = Opaque<'r, 1024>;

/// Whom to call when a monitored host has restarted (my_id).
#[derive(Clone, Copy)]
pub struct MyId<'r> {
    pub my_name: SmName<'r>,
    pub prog: i32,
    pub vers: i32,
    pub proc: i32,
}

#[tactic(auto, unfolding(crate::specs::Arguments::my_id))]
impl<'r> Wire<'r> for MyId<'r> {
    ghost use Rattle.definitions.specs.Nsm as nsm;
    ghost use Rattle.nsm_types.specs.Arguments.{view_of_my_id, my_id};

    ghost Value = { nsm.MyId };

    ghost view = { view_of_my_id };

    ghost codec = { my_id };

    fn get(c: &mut Cursor<'r>) -> Result<Self, XdrError> {
        get_record!(c, MyId, my_name, prog, vers, proc)
    }

    fn put(&self, f: &mut Frame) -> Result<(), FrameFull> {
        put_record!(self, f, my_name, prog, vers, proc)
    }
}

/// A host, and who watches it (mon_id): the arguments of SM_UNMON.
#[derive(Clone, Copy)]
pub struct MonId<'r> {
    pub mon_name: SmName<'r>,
    pub my_id: MyId<'r>,
}

#[tactic(auto, unfolding(crate::specs::Arguments::mon_id))]
impl<'r> Wire<'r> for MonId<'r> {
    ghost use Rattle.nsm_types.specs.Arguments.{MonIdArgs, view_of_mon_id, mon_id};

    ghost Value = { MonIdArgs };

    ghost view = { view_of_mon_id };

    ghost codec = { mon_id };

    fn get(c: &mut Cursor<'r>) -> Result<Self, XdrError> {
        get_record!(c, MonId, mon_name, my_id)
    }

    fn put(&self, f: &mut Frame) -> Result<(), FrameFull> {
        put_record!(self, f, mon_name, my_id)
    }
}

/// The arguments of SM_MON (mon): a host to watch, who watches it, and 16 bytes that are handed back.
#[derive(Clone, Copy)]
pub struct Mon<'r> {
    pub mon_name: SmName<'r>,
    pub my_id: MyId<'r>,
    pub private_bytes: Fixed<'r, 16>,
}

#[tactic(auto, unfolding(crate::specs::Arguments::mon))]
impl<'r> Wire<'r> for Mon<'r> {
    ghost use Rattle.nsm_types.specs.Arguments.{MonArgs, view_of_mon, mon};

    ghost Value = { MonArgs };

    ghost view = { view_of_mon };

    ghost codec = { mon };

    fn get(c: &mut Cursor<'r>) -> Result<Self, XdrError> {
        get_record!(c, Mon, mon_name, my_id, private_bytes)
    }

    fn put(&self, f: &mut Frame) -> Result<(), FrameFull> {
        put_record!(self, f, mon_name, my_id, private_bytes)
    }
}

/// A host and its state (stat_chge): the arguments of SM_NOTIFY.
#[derive(Clone, Copy)]
pub struct StatChge<'r> {
    pub mon_name: SmName<'r>,
    pub state: i32,
}

#[tactic(auto, unfolding(crate::specs::Arguments::stat_chge))]
impl<'r> Wire<'r> for StatChge<'r> {
    ghost use Rattle.nsm_types.specs.Arguments.{StatChgeArgs, view_of_stat_chge, stat_chge};

    ghost Value = { StatChgeArgs };

    ghost view = { view_of_stat_chge };

    ghost codec = { stat_chge };

    fn get(c: &mut Cursor<'r>) -> Result<Self, XdrError> {
        get_record!(c, StatChge, mon_name, state)
    }

    fn put(&self, f: &mut Frame) -> Result<(), FrameFull> {
        put_record!(self, f, mon_name, state)
    }
}

/// The arguments of the call to a watcher (status).
#[derive(Clone, Copy)]
pub struct Status<'r> {
    pub mon_name: SmName<'r>,
    pub state: i32,
    pub private_bytes: Fixed<'r, 16>,
}

#[tactic(auto, unfolding(crate::specs::Arguments::status))]
impl<'r> Wire<'r> for Status<'r> {
    ghost use Rattle.nsm_types.specs.Arguments.{StatusArgs, view_of_status, status};

    ghost Value = { StatusArgs };

    ghost view = { view_of_status };

    ghost codec = { status };

    fn get(c: &mut Cursor<'r>) -> Result<Self, XdrError> {
        get_record!(c, Status, mon_name, state, private_bytes)
    }

    fn put(&self, f: &mut Frame) -> Result<(), FrameFull> {
        put_record!(self, f, mon_name, state, private_bytes)
    }
}
