// The records of the ten goals, one after the other.
ghost use Rattle.std.specs.Prelude.{◌≡◌, ◌<◌, ◌/◌, ◌%◌, get_or};
ghost use Rattle.suit_replay.specs.Ten.{goal_record, Ten};

use crate::record::record_of;
use tile::one_suit::SuitGoals;

fn goal_record(all: SuitGoals, goal: usize) -> [u8; 8]
    requires { goal < 10 }
    ensures { result ≡ goal_record all goal }
{
    record_of(all.checked.map(|()| all.goals[goal]))
}

fn record_byte(all: SuitGoals, i: usize) -> u8
    requires { i < 80 }
    ensures { result ≡ get_or (goal_record all (i / 8)) (i % 8) 0 }
{
    goal_record(all, i / 8)[i % 8]
}

// A loop, since with `array::from_fn` the proof of eighty bytes did not close (`returns`).
pub(crate) fn ten_records(all: SuitGoals) -> [u8; 80]
    ensures { Ten all result }
{
    let mut out = [0; 80];
    for i in 0..80 {
        out[i] = record_byte(all, i);
    }
    out
}
