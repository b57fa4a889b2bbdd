// Fields: bits taken from a word, and bits put into one.
ghost use Rattle.std.specs.Prelude.{◌≡◌, ◌+◌, ◌*◌, ◌%◌, ◌^◌, ◌≤◌};
ghost use Rattle.words.specs.Field.{bits};
ghost use Rattle.words.specs.Code.{alone, split};

// `width` bits of a word, from bit `shift` on. None is wider than a set of nine kinds.
#[derive(Clone, Copy)]
pub(crate) struct Field {
    shift: u32,
    width: u32,
    ghost inside: { shift + width ≤ 32 },
    ghost some: { 1 ≤ width },
    ghost narrow: { width ≤ 9 },
}

impl Field {
    pub(crate) const fn new(shift: u32, width: u32) -> Field
        requires inside { shift + width ≤ 32 }
        requires some { 1 ≤ width }
        requires narrow { width ≤ 9 }
        ensures shift { result.shift ≡ shift }
        ensures width { result.width ≡ width }
    {
        Field { shift, width }
    }

    // The field of a whole set.
    pub(crate) const fn set(shift: u32) -> Field
        requires inside { shift ≤ 23 }
        ensures shift { result.shift ≡ shift }
        ensures width { result.width ≡ 9 }
    {
        Field::new(shift, 9)
    }

    // As many bits as it has, from the lowest on.
    fn cut(self, bits: u32) -> u32
        ensures { result ≡ bits % 2 ^ self.width }
    {
        bits & ((1 << self.width) - 1)
    }

    // What stands in it.
    pub(crate) fn read(self, word: u32) -> u16
        ensures { result ≡ alone word self.shift self.width }
    {
        self.cut(word >> self.shift) as u16
    }

    // The same of a number, which has fewer bits.
    pub(crate) fn number(self, word: u32) -> u8
        requires { self.width ≤ 8 }
        ensures { result ≡ alone word self.shift self.width }
    {
        self.read(word) as u8
    }

    // The lowest bits of a value, put into it.
    pub(crate) fn put(self, value: u16) -> u32
        ensures { result ≡ bits value 0 self.width * 2 ^ self.shift }
    {
        self.cut(value.into()) << self.shift
    }
}

// A set read from two words: its low four bits stand at the foot of one, the five above them at the head of the other.
pub(crate) fn split_set(foot: u32, head: u32) -> u16
    ensures { result ≡ split foot head }
{
    Field::new(0, 4).read(foot) + (Field::new(27, 5).read(head) << 4)
}
