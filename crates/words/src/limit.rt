// Whether values fit their fields (01's refusal 9).
ghost use Rattle.std.specs.Prelude.{◌≡◌};
ghost use Rattle.words.specs.Limit.{all_low, all_within};

use tile::found::Found;

// All nine kinds: no set is larger.
const ALL: u16 = 0x1FF;

// The most that each goal's number may be. That of goal 0 has no field.
const NUMBERS: [u8; 10] = [0, 3, 7, 15, 15, 3, 7, 15, 15, 15];

// But for goal 0's necessary set, which has no field either, and is tested by itself.
fn all_low(goals: [Found; 10]) -> bool
    ensures { result ≡ all_low goals }
{
    goals.iter().zip(NUMBERS.iter()).all(|(goal, most)| {
        goal.number <= *most && goal.necessary <= ALL && goal.unnecessary <= ALL
    })
}

pub(crate) fn all_fit(goals: [Found; 10]) -> bool
    ensures { result ≡ all_within goals }
{
    goals[0].necessary == 0 && all_low(goals)
}
