use xdr_core::{Below, Cursor, Frame, FrameFull, Wire, XdrError, get_record, put_record};

/// Whether the monitor does what it was asked (res).
#[derive(Clone, Copy, PartialEq, Eq)]
pub enum MonitorRes {
    Succ,
    Fail,
}

// Each at the place of its word.
const ANSWERS: [MonitorRes; 2] = [MonitorRes::Succ, MonitorRes::Fail];

#[tactic(auto, unfolding(crate::specs::Results::monitor_res))]
impl<'r> Wire<'r> for MonitorRes {
    ghost use Rattle.definitions.specs.Nsm as nsm;
    ghost use Rattle.nsm_types.specs.Results.{view_of_monitor_res, monitor_res};

    ghost Value = { nsm.MonitorRes };

    ghost view = { view_of_monitor_res };

    ghost codec = { monitor_res };

    fn get(c: &mut Cursor<'r>) -> Result<Self, XdrError> {
        let word = Below::<2>::get(c)?;
        Ok(ANSWERS[word.number as usize])
    }

    fn put(&self, f: &mut Frame) -> Result<(), FrameFull> {
        Below::<2> {
            number: *self as u32,
        }
        .put(f)
    }
}

/// The result of SM_STAT and SM_MON (sm_stat_res).
#[derive(Clone, Copy)]
pub struct SmStatRes {
    pub res: MonitorRes,
    /// The monitor's own state.
    pub state: i32,
}

#[tactic(auto, unfolding(crate::specs::Results::sm_stat_res))]
impl<'r> Wire<'r> for SmStatRes {
    ghost use Rattle.nsm_types.specs.Results.{StatRes, view_of_sm_stat_res, sm_stat_res};

    ghost Value = { StatRes };

    ghost view = { view_of_sm_stat_res };

    ghost codec = { sm_stat_res };

    fn get(c: &mut Cursor<'r>) -> Result<Self, XdrError> {
        get_record!(c, SmStatRes, res, state)
    }

    fn put(&self, f: &mut Frame) -> Result<(), FrameFull> {
        put_record!(self, f, res, state)
    }
}

/// The result of SM_UNMON and SM_UNMON_ALL (sm_stat).
#[derive(Clone, Copy)]
pub struct SmStat {
    /// The monitor's own state.
    pub state: i32,
}

#[tactic(auto, unfolding(crate::specs::Results::sm_stat))]
impl<'r> Wire<'r> for SmStat {
    ghost use Rattle.nsm_types.specs.Results.{OwnState, view_of_sm_stat, sm_stat};

    ghost Value = { OwnState };

    ghost view = { view_of_sm_stat };

    ghost codec = { sm_stat };

    fn get(c: &mut Cursor<'r>) -> Result<Self, XdrError> {
        get_record!(c, SmStat, state)
    }

    fn put(&self, f: &mut Frame) -> Result<(), FrameFull> {
        put_record!(self, f, state)
    }
}
