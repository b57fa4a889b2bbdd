// Answers as bytes, lowest byte first: ten goals of five bytes each; or the code and seven words of four bytes each.
ghost use Rattle.std.specs.Prelude.{◌≡◌, ◌<◌};
ghost use Rattle.words_replay.specs.Answer.{Bytes, five_bytes, four_bytes, word_list, goal_byte, word_byte, packed_byte};

use std::array;
use tile::found::Found;
use words::packed::{Packed, Words};

// (`suit_replay` writes the two sets alike, behind four bytes: they share two lines.)
fn five_bytes(goal: Found) -> [u8; 5]
    ensures { result ≡ five_bytes goal }
{
    let [low, high] = goal.necessary.to_le_bytes();
    let [spare_low, spare_high] = goal.unnecessary.to_le_bytes();
    [goal.number, low, high, spare_low, spare_high]
}

// Byte i of the ten goals.
fn goal_byte(goals: [Found; 10], i: usize) -> u8
    requires { i < 50 }
    ensures { result ≡ goal_byte goals i }
{
    five_bytes(goals[i / 5])[i % 5]
}

pub(crate) fn goal_bytes(goals: [Found; 10]) -> [u8; 50]
    ensures { Bytes 50 (goal_byte goals) result }
{
    array::from_fn(|i| goal_byte(goals, i))
}

// Its clause is what `word_byte` proves by: with `to_le_bytes` in its place `returns` stays open there.
fn four_bytes(word: u32) -> [u8; 4]
    ensures { result ≡ four_bytes word }
{
    word.to_le_bytes()
}

// The words in the order of a question. (No `From`: `Words` is of another crate.)
fn word_list(words: Words) -> [u32; 7]
    ensures { result ≡ word_list words }
{
    let [a, b, c] = words.necessary;
    let [d, e, f] = words.unnecessary;
    [words.number, a, b, c, d, e, f]
}

// Byte i of the seven words.
fn word_byte(words: Words, i: usize) -> u8
    requires { i < 28 }
    ensures { result ≡ word_byte words i }
{
    four_bytes(word_list(words)[i / 4])[i % 4]
}

// The code comes first, whether or not the goals were packed.
fn packed_byte(packed: Packed, i: usize) -> u8
    requires { i < 29 }
    ensures { result ≡ packed_byte packed i }
{
    if i == 0 {
        packed.code
    } else {
        word_byte(packed.words, i - 1)
    }
}

pub(crate) fn packed_bytes(packed: Packed) -> [u8; 29]
    ensures { Bytes 29 (packed_byte packed) result }
{
    array::from_fn(|i| packed_byte(packed, i))
}
