// Packing (01 "Packed words"): ten goals give seven words, or a refusal.
ghost use Rattle.std.specs.Prelude.{◌≡◌};
ghost use Rattle.words.specs.Layout.{Number, Necessary, Unnecessary, seven_words};
ghost use Rattle.words.specs.Packing.{word_by, first_of};
ghost use Rattle.words.specs.Promise.{seven, PackedFrom};
ghost use Rattle.words.specs.Code.{three_sets};

use crate::field::Field;
use crate::limit::all_fit;
use crate::packed::{Packed, Words};
use tile::found::Found;

// 01's number for what cannot be packed.
const UNFIT: u8 = 9;

// Each word is a part of 01's layout, field by field; alike as some are, 01 fixes them apart.
fn number_word(goals: [Found; 10]) -> u32
    ensures { result ≡ word_by seven_words goals Number 0 }
{
    Field::new(0, 2).put(goals[1].number.into())
        + Field::new(2, 3).put(goals[2].number.into())
        + Field::new(5, 4).put(goals[3].number.into())
        + Field::new(9, 4).put(goals[4].number.into())
        + Field::new(13, 2).put(goals[5].number.into())
        + Field::new(15, 3).put(goals[6].number.into())
        + Field::new(18, 4).put(goals[7].number.into())
        + Field::new(22, 4).put(goals[8].number.into())
        + Field::new(26, 4).put(goals[9].number.into())
}

// Three sets, one above the other.
fn three_sets(a: u16, b: u16, c: u16) -> u32
    ensures { result ≡ three_sets a b c }
{
    Field::set(0).put(a) + Field::set(9).put(b) + Field::set(18).put(c)
}

fn necessary_words(goals: [Found; 10]) -> [u32; 3]
    ensures { result ≡ first_of 3 (word_by seven_words goals Necessary) }
{
    [
        three_sets(goals[1].necessary, goals[2].necessary, goals[3].necessary),
        three_sets(goals[4].necessary, goals[5].necessary, goals[6].necessary),
        three_sets(goals[7].necessary, goals[8].necessary, goals[9].necessary),
    ]
}

// Words 0 and 1 share goal 3.
fn unnecessary_word_0(goals: [Found; 10]) -> u32
    ensures { result ≡ word_by seven_words goals Unnecessary 0 }
{
    Field::set(0).put(goals[0].unnecessary)
        + Field::set(9).put(goals[1].unnecessary)
        + Field::set(18).put(goals[2].unnecessary)
        + Field::new(27, 5).put(goals[3].unnecessary >> 4)
}

fn unnecessary_word_1(goals: [Found; 10]) -> u32
    ensures { result ≡ word_by seven_words goals Unnecessary 1 }
{
    Field::new(0, 4).put(goals[3].unnecessary)
        + Field::set(4).put(goals[4].unnecessary)
        + Field::set(13).put(goals[5].unnecessary)
        + Field::set(22).put(goals[6].unnecessary)
}

fn unnecessary_words(goals: [Found; 10]) -> [u32; 3]
    ensures { result ≡ first_of 3 (word_by seven_words goals Unnecessary) }
{
    [
        unnecessary_word_0(goals),
        unnecessary_word_1(goals),
        three_sets(
            goals[7].unnecessary,
            goals[8].unnecessary,
            goals[9].unnecessary,
        ),
    ]
}

fn words_of(goals: [Found; 10]) -> Words
    ensures { result ≡ seven (word_by seven_words goals) }
{
    Words {
        number: number_word(goals),
        necessary: necessary_words(goals),
        unnecessary: unnecessary_words(goals),
    }
}

/// Code 0 and the words; or code 9, exactly where a value is larger than its field.
pub fn pack(goals: [Found; 10]) -> Packed
    ensures { PackedFrom goals result }
{
    if all_fit(goals) {
        return Packed {
            code: 0,
            words: words_of(goals),
        };
    }
    Packed {
        code: UNFIT,
        words: Words::default(),
    }
}
