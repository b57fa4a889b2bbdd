// What a question asks about: ten goals, or seven words. Both begin at byte 2, and numbers stand lowest byte first.
ghost use Rattle.std.specs.Prelude.{◌≡◌, ◌+◌, ◌≤◌};
ghost use Rattle.words_replay.specs.Question.{goal_at, goals_in, word_at, words_in};

use std::array;
use tile::found::Found;
use words::packed::Words;

// Five bytes are a goal: its number, its necessary set, its unnecessary set.
fn goal_at(question: &[u8; 52], from: usize) -> Found
    requires { from + 5 ≤ 52 }
    ensures { result ≡ goal_at question.now from }
{
    Found {
        number: question[from],
        necessary: u16::from_le_bytes([question[from + 1], question[from + 2]]),
        unnecessary: u16::from_le_bytes([question[from + 3], question[from + 4]]),
    }
}

// One by one: with `array::from_fn` the proof of ten goals out of a lent question did not close (`returns`).
pub(crate) fn goals_in(question: &[u8; 52]) -> [Found; 10]
    ensures { result ≡ goals_in question.now }
{
    [
        goal_at(question, 2),
        goal_at(question, 7),
        goal_at(question, 12),
        goal_at(question, 17),
        goal_at(question, 22),
        goal_at(question, 27),
        goal_at(question, 32),
        goal_at(question, 37),
        goal_at(question, 42),
        goal_at(question, 47),
    ]
}

fn word_at(question: &[u8; 52], from: usize) -> u32
    requires { from + 4 ≤ 52 }
    ensures { result ≡ word_at question.now from }
{
    u32::from_le_bytes([
        question[from],
        question[from + 1],
        question[from + 2],
        question[from + 3],
    ])
}

pub(crate) fn words_in(question: &[u8; 52]) -> Words
    ensures { result ≡ words_in question.now }
{
    Words {
        number: word_at(question, 2),
        necessary: array::from_fn(|word| word_at(question, 6 + 4 * word)),
        unnecessary: array::from_fn(|word| word_at(question, 18 + 4 * word)),
    }
}
