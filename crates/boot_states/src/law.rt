//! What the definitions say of boots.
ghost use Rattle.boot_states.specs.Laws.{BootIsFoundOnce, FirstLockIsLevel, RepeatsFindNothing};

/// A LOCK and a notice, in either order, are the first reports of the next boot, and before them neither kind is ahead. The first
/// of the two finds the boot, the other finds it reported, and neither kind is ahead then.
pub fn boot_is_found_once()
    ensures { BootIsFoundOnce }
{}

/// Behind a host's first LOCK neither kind is ahead, whatever notices came before it: its next boot is found once.
pub fn first_lock_is_level()
    ensures { FirstLockIsLevel }
{}

/// A report that comes again, with nothing in between, finds no reboot.
pub fn repeats_find_nothing()
    ensures { RepeatsFindNothing }
{}
