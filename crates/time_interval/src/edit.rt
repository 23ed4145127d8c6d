// Edits of a line.
ghost use Rattle.std.specs.Prelude.{◌≡◌, suc, ◌<◌, ◌≤◌, length};
ghost use Rattle.time_interval.specs.Gaps.{IsGapped};
ghost use Rattle.time_interval.specs.Places.{without_place, bar_of};

use line_model::{Item, Items};

/// What is done to a line.
#[derive(Clone, Copy, Debug, PartialEq, Eq)]
pub enum Edit {
    /// The barrier at this place of the queue is removed.
    Remove { index: u8 },
    /// The barrier at this place of the queue and the next one become one, at the earlier place.
    Merge { index: u8 },
}

impl Edit {
    /// The first barrier that is edited.
    pub(crate) fn index(self) -> u8
        ensures { result ≡ bar_of self }
    {
        match self {
            Edit::Remove { index } => index,
            Edit::Merge { index } => index,
        }
    }
}

/// Makes the target the items without the one at a place.
pub(crate) fn copy_without(target: &mut Items, items: &[Item], dropped: usize)
    requires shorter { suc (length target.old) ≡ length items.now }
    requires inside { dropped < length items.now }
    ensures { target.new ≡ without_place dropped items.now }
{
    for k in 0..target.items().len() {
        let item = if k < dropped { items[k] } else { items[k + 1] };
        target.set(k, item);
    }
}

/// Moves the gap of the target, which is the items without the one at the gap, to a later place.
fn move_on(target: &mut Items, items: &[Item], gap: usize, dropped: usize)
    requires gapped { target.old ≡ without_place gap items.now }
    requires later { gap ≤ dropped }
    requires inside { dropped < length items.now }
    ensures { target.new ≡ without_place dropped items.now }
{
    for k in gap..dropped {
        target.set(k, items[k]);
    }
}

/// Moves the gap of the target, which is the items without the one at the gap, to an earlier place.
fn move_back(target: &mut Items, items: &[Item], gap: usize, dropped: usize)
    requires gapped { target.old ≡ without_place gap items.now }
    requires earlier { dropped ≤ gap }
    requires inside { gap < length items.now }
    ensures { target.new ≡ without_place dropped items.now }
{
    for k in (dropped..gap).rev() {
        target.set(k, items[k + 1]);
    }
}

/// Makes the target the items without the one at a place, where it is the items without the one at
/// the gap, if the gap is a place of theirs.
pub(crate) fn move_gap(target: &mut Items, items: &[Item], gap: usize, dropped: usize)
    requires shorter { suc (length target.old) ≡ length items.now }
    requires gapped { IsGapped gap items.now target.old }
    requires inside { dropped < length items.now }
    ensures { target.new ≡ without_place dropped items.now }
{
    if gap >= items.len() {
        copy_without(target, items, dropped)
    } else if gap < dropped {
        move_on(target, items, gap, dropped)
    } else {
        move_back(target, items, gap, dropped)
    }
}
