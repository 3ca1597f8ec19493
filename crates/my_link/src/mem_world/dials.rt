//! The items for the dials of a world in memory.
ghost use Rattle.std.specs.Prelude.{ℕ, ◌≡◌, ◌≢◌};
ghost use Rattle.my_link.specs.MemDials.{dials_at, dial_place, TakesDial};

use crate::dialer::DialItem;

/// An item for the dials of the link of a number.
#[derive(Clone, Copy)]
pub(crate) struct PlannedDial {
    pub number: u64,
    pub item: DialItem,
}

// The place of the first item of this number, or the end.
fn place_of(dials: &[PlannedDial], number: u64) -> usize
    ensures { result ≡ dial_place number dials.now }
{
    for (i, planned) in dials.iter().enumerate() {
        if planned.number == number {
            return i;
        }
    }
    dials.len()
}

/// Takes out the first item of this number; none where none is left.
pub(crate) fn take_dial(dials: &mut Vec<PlannedDial>, number: u64) -> Option<DialItem>
    ensures first { TakesDial (dials_at number dials.old.items) (dials_at number dials.new.items) result }
    ensures others { (n : ℕ) → n ≢ number → dials_at n dials.new.items ≡ dials_at n dials.old.items }
{
    let place = place_of(dials, number);
    if place >= dials.len() {
        return None;
    }
    let planned = dials.remove(place);
    Some(planned.item)
}
