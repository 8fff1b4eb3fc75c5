use xdr_core::{Below, Cursor, Frame, FrameFull, Wire, XdrError};

/// The status of a reply (RFC 1813, appendix II, nlm4_stats).
#[derive(Clone, Copy, Debug, PartialEq, Eq)]
pub enum Stat {
    Granted,
    Denied,
    DeniedNolocks,
    Blocked,
    DeniedGracePeriod,
    Deadlck,
    Rofs,
    StaleFh,
    Fbig,
    Failed,
}

// Each status at the place of its word.
const STATS: [Stat; 10] = [
    Stat::Granted,
    Stat::Denied,
    Stat::DeniedNolocks,
    Stat::Blocked,
    Stat::DeniedGracePeriod,
    Stat::Deadlck,
    Stat::Rofs,
    Stat::StaleFh,
    Stat::Fbig,
    Stat::Failed,
];

#[tactic(auto, unfolding(crate::specs::Stat::stat))]
impl<'r> Wire<'r> for Stat {
    ghost use Rattle.definitions.specs.Nlm as nlm;
    ghost use Rattle.nlm4_types.specs.Stat.{view_of_stat, stat};

    ghost Value = { nlm.Stat };

    ghost view = { view_of_stat };

    ghost codec = { stat };

    fn get(c: &mut Cursor<'r>) -> Result<Stat, XdrError> {
        let word = Below::<10>::get(c)?;
        Ok(STATS[word.number as usize])
    }

    fn put(&self, f: &mut Frame) -> Result<(), FrameFull> {
        Below::<10> {
            number: *self as u32,
        }
        .put(f)
    }
}
