// What the takings of a walk do to the side that was walked.
ghost use Rattle.std.specs.Prelude.{true, ◌≡◌, ◌≤◌, length};
ghost use Rattle.basics.specs.Lists.{All, every};
ghost use Rattle.side.specs.Shifts.{keeps};
ghost use Rattle.orders.specs.Walk.{is_below};
ghost use Rattle.orders.specs.Fills.{MinimumRemains, after_takings};

use crate::takings::Takings;
use side::table::Table;

// Takes the takings off the side, from which the orders go that have nothing left. No taking is from `at` on.
pub(crate) fn take_off(t: &mut Table, at: usize, took: &Takings)
    requires within { at ≤ length t.old }
    requires below { All (is_below at) took.now }
    requires keep { every keeps t.old ≡ true }
    requires remain { All MinimumRemains t.old }
    ensures { t.new ≡ after_takings took.now t.old }
{
    for taking in took.as_slice() {
        t.reduce(taking.place, taking.shares);
    }
    t.close_up(at);
}
