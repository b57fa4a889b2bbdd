// Unpacking (01 "Packed words"): any seven words give ten goals.
ghost use Rattle.std.specs.Prelude.{◌≡◌, [], ◌∷◌, map, get_or};
ghost use Rattle.words.specs.Field.{back, made};
ghost use Rattle.words.specs.Layout.{Number, Necessary, Unnecessary, ten_goals};
ghost use Rattle.words.specs.Packing.{first_of};
ghost use Rattle.words.specs.Promise.{goals_of};
ghost use Rattle.words.specs.Code.{goals_from};

use crate::field::{Field, split_set};
use crate::packed::Words;
use std::array;
use tile::found::Found;

// Each list is a part of 01's layout, field by field; alike as two of them are, 01 fixes them apart.
fn numbers(word: u32) -> [u8; 10]
    ensures { result ≡ first_of 10 (made (map back (ten_goals Number)) (λ j. get_or (word ∷ []) j 0)) }
{
    [
        0,
        Field::new(0, 2).number(word),
        Field::new(2, 3).number(word),
        Field::new(5, 4).number(word),
        Field::new(9, 4).number(word),
        Field::new(13, 2).number(word),
        Field::new(15, 3).number(word),
        Field::new(18, 4).number(word),
        Field::new(22, 4).number(word),
        Field::new(26, 4).number(word),
    ]
}

fn necessary_sets(words: [u32; 3]) -> [u16; 10]
    ensures { result ≡ first_of 10 (made (map back (ten_goals Necessary)) (λ j. get_or words j 0)) }
{
    [
        0,
        Field::set(0).read(words[0]),
        Field::set(9).read(words[0]),
        Field::set(18).read(words[0]),
        Field::set(0).read(words[1]),
        Field::set(9).read(words[1]),
        Field::set(18).read(words[1]),
        Field::set(0).read(words[2]),
        Field::set(9).read(words[2]),
        Field::set(18).read(words[2]),
    ]
}

fn unnecessary_sets(words: [u32; 3]) -> [u16; 10]
    ensures { result ≡ first_of 10 (made (map back (ten_goals Unnecessary)) (λ j. get_or words j 0)) }
{
    [
        Field::set(0).read(words[0]),
        Field::set(9).read(words[0]),
        Field::set(18).read(words[0]),
        split_set(words[1], words[0]),
        Field::set(4).read(words[1]),
        Field::set(13).read(words[1]),
        Field::set(22).read(words[1]),
        Field::set(0).read(words[2]),
        Field::set(9).read(words[2]),
        Field::set(18).read(words[2]),
    ]
}

// Three lists with one index, since each is read from words of its own.
fn ten_goals(numbers: [u8; 10], necessary: [u16; 10], unnecessary: [u16; 10]) -> [Found; 10]
    ensures { result ≡ goals_from numbers necessary unnecessary }
{
    array::from_fn(|goal| Found {
        number: numbers[goal],
        necessary: necessary[goal],
        unnecessary: unnecessary[goal],
    })
}

/// The goals that the words say, whatever they are: bits without a field are not read.
pub fn unpack(words: Words) -> [Found; 10]
    ensures { result ≡ goals_of words }
{
    ten_goals(
        numbers(words.number),
        necessary_sets(words.necessary),
        unnecessary_sets(words.unnecessary),
    )
}
