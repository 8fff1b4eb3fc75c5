//! Numbers side by side.
ghost use Rattle.std.specs.Prelude.{◌≤◌, length};
ghost use Rattle.tiered_vec.specs.Moves.{PushedIn, PulledIn};

/// Puts a number in at the begin and takes the one in front of the end out.
pub(crate) fn push_in(cells: &mut [u16], begin: usize, end: usize, number: u16) -> u16
    requires order { begin ≤ end }
    requires within { end ≤ length cells.old }
    ensures { PushedIn cells.old begin end number cells.new result }
{
    let mut carried = number;
    for at in begin..end {
        let next = cells[at];
        cells[at] = carried;
        carried = next;
    }
    carried
}

/// Puts a number in in front of the end and takes the one at the begin out.
pub(crate) fn pull_in(cells: &mut [u16], begin: usize, end: usize, number: u16) -> u16
    requires order { begin ≤ end }
    requires within { end ≤ length cells.old }
    ensures { PulledIn cells.old begin end number cells.new result }
{
    let mut carried = number;
    for back in 0..end - begin {
        let at = end - (back + 1);
        let next = cells[at];
        cells[at] = carried;
        carried = next;
    }
    carried
}
