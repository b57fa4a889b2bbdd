// A whole hand for C and Rust to call (01 "What a target is"). Counts and the place for the answer cross as a pointer
// and a length each. The entries take all counts, all numbers of melds, all games and all places: the number of a
// refusal, or 0 for an answer, is returned, and the answer is three words.
ghost use Rattle.lastavon.specs.Words.{Written};

use crate::hand_words::tell_hand;
use hand::entry::{answer, fast_answer};

// From the table of each suit.
#[unsafe(no_mangle)]
pub extern "C" fn lastavon_hand(counts: &[u8], k: u8, game: u8, words: &mut [u64]) -> u8
    ensures { Written game k counts.now words.old result words.new }
{
    let found = fast_answer(counts, k, game);
    tell_hand(found, words)
}

// The same by searching each suit, as in the Rust source: for those who compare the two.
#[unsafe(no_mangle)]
pub extern "C" fn lastavon_hand_search(counts: &[u8], k: u8, game: u8, words: &mut [u64]) -> u8
    ensures { Written game k counts.now words.old result words.new }
{
    let found = answer(counts, k, game);
    tell_hand(found, words)
}
