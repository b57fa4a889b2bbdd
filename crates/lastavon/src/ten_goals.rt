// The ten goals of a suit at once for C and Rust to call (01 "One suit"), from the table: word 5p + m is the one which
// `one_suit` gives for p pairs and m melds. Counts and the place for the words cross as a pointer and a length each. The
// entries take all counts and all places.
ghost use Rattle.tile.specs.Board.{ranks, honours, ends};
ghost use Rattle.lastavon.specs.Goals.{GoalsWritten};

use crate::goal_words::tell_goals;
use tile::suit_tiles::{Ends, Honours, Ranks};

// Nine ranks.
#[unsafe(no_mangle)]
pub extern "C" fn lastavon_ranks_goals(counts: &[u8], words: &mut [u64]) -> u8
    ensures { GoalsWritten ranks counts.now words.old result words.new }
{
    tell_goals::<Ranks>(counts, words)
}

// Seven honours.
#[unsafe(no_mangle)]
pub extern "C" fn lastavon_honours_goals(counts: &[u8], words: &mut [u64]) -> u8
    ensures { GoalsWritten honours counts.now words.old result words.new }
{
    tell_goals::<Honours>(counts, words)
}

// 1m/9m: nine ranks, of which the first and the last may be held.
#[unsafe(no_mangle)]
pub extern "C" fn lastavon_ends_goals(counts: &[u8], words: &mut [u64]) -> u8
    ensures { GoalsWritten ends counts.now words.old result words.new }
{
    tell_goals::<Ends>(counts, words)
}
