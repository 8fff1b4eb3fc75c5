//! Lines of local programs that list: `table` and `hosts`.
ghost use Rattle.std.specs.Prelude.{◌≡◌, IfOk};
ghost use Rattle.definitions.specs.Replies.{LineTable, LineHosts};
ghost use Rattle.definitions.specs.Starts.{runs};
ghost use Rattle.local_ops.specs.Answers.{view_of_local_answer};

use ghost_list::History;
use hosts_db::HostStore;
use local_ops::{HostsText, ListedHost, ListedRun, LocalAnswer, TableText};
use lock_state::World;
use owner_ids::Starved;
use range_table::RangeTable;
use table_text::{WriteFault, print_end, print_hosts, print_table};

// The texts are made in memory of their own, so that whoever writes them holds up nobody: a write to memory fails for want of
// it alone.

fn starved(_unwritten: WriteFault) -> Starved {
    Starved
}

/// `table`: all locks. Changes nothing.
pub fn list_table<R: RangeTable, S: HostStore>(world: &World<R, S>) -> Result<LocalAnswer, Starved>
    ensures { IfOk result (λ answer. view_of_local_answer answer ≡ LineTable (runs world.now.world.settings)) }
{
    let mut text = Vec::new(world.alloc());
    print_table(world.locks(), &mut text).map_err(starved)?;
    print_end(&mut text).map_err(starved)?;
    let runs = History::<ListedRun>::new().after(world.locks());
    Ok(LocalAnswer::Table(TableText::of(text, runs)))
}

/// `hosts`: all stored hosts. Changes nothing.
pub fn list_hosts<R: RangeTable, S: HostStore>(world: &World<R, S>) -> Result<LocalAnswer, Starved>
    ensures { IfOk result (λ answer. view_of_local_answer answer ≡ LineHosts world.now.world.hosts.rows) }
{
    let mut text = Vec::new(world.alloc());
    print_hosts(world.store().hosts(), &mut text).map_err(starved)?;
    print_end(&mut text).map_err(starved)?;
    let rows = History::<ListedHost>::new().after(world.store());
    Ok(LocalAnswer::Hosts(HostsText::of(text, rows)))
}
