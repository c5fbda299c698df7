// A part in the middle of some bytes.
ghost use Rattle.std.specs.Prelude.{◌≡◌, ◌+◌, ◌^◌, ◌<◌, take, drop};

// The n bytes from `at` on; where the bytes end before, what is there. A part of constant length that is there is read with no further
// test of its length.
pub(crate) fn part_of(s: &[u8], at: usize, n: usize) -> &[u8]
    requires { at + n < 2 ^ 64 }
    ensures { result.now ≡ take n (drop at s.now) }
{
    match s.get(at..at + n) {
        Some(whole) => whole,
        None => s.get(at..).unwrap_or(&[]),
    }
}
