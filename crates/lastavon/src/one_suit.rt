// One suit for C and Rust to call (01 "One suit"). Counts cross as a pointer and a length, and an answer comes back in
// one word. The entries take all counts and all goals.
ghost use Rattle.tile.specs.Board.{ranks, honours, ends};
ghost use Rattle.lastavon.specs.Word.{WordFor};

use crate::suit_word::word;
use suit::entry::answer_for;
use tile::suit_tiles::{Ends, Honours, Ranks};

// Nine ranks.
#[unsafe(no_mangle)]
pub extern "C" fn lastavon_ranks(counts: &[u8], pairs: u8, melds: u8) -> u64
    ensures { WordFor ranks pairs melds counts.now result }
{
    word(answer_for::<Ranks>(counts, pairs, melds))
}

// Seven honours.
#[unsafe(no_mangle)]
pub extern "C" fn lastavon_honours(counts: &[u8], pairs: u8, melds: u8) -> u64
    ensures { WordFor honours pairs melds counts.now result }
{
    word(answer_for::<Honours>(counts, pairs, melds))
}

// 1m/9m: nine ranks, of which the first and the last may be held.
#[unsafe(no_mangle)]
pub extern "C" fn lastavon_ends(counts: &[u8], pairs: u8, melds: u8) -> u64
    ensures { WordFor ends pairs melds counts.now result }
{
    word(answer_for::<Ends>(counts, pairs, melds))
}
