// Room for many records. The contract gives the length alone: a proof that sees all the zeros computes with them.
ghost use Rattle.std.specs.Prelude.{◌≡◌, length};

pub(crate) fn room<const N: usize>() -> [u8; N]
    ensures { N ≡ length result }
{
    [0; N]
}
