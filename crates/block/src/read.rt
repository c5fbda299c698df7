// Numbers at an offset, least byte first. What lies past the end counts as 0, so that nothing is asked of a caller.
ghost use Rattle.std.specs.Prelude.{◌≡◌, ◌+◌, drop};
ghost use Rattle.block.specs.Bytes.{byte_at, half_at, word_at, long_at};
ghost use Rattle.block.specs.Code.Parts.{StandsAt};

use crate::Longs;
use std::array;

// The byte at `at`.
pub fn byte_at(s: &[u8], at: usize) -> u8
    ensures { result ≡ byte_at s.now at }
{
    s.get(at).copied().unwrap_or(0)
}

// What is left of s from `at` on: nothing, where that is past the end.
fn rest_at(s: &[u8], at: usize) -> &[u8]
    ensures { result.now ≡ drop at s.now }
{
    s.get(at..).unwrap_or(&[])
}

// The readers' slow way: some of the N bytes may lie past the end. It is called, and never compiled in their places: there the fast way
// stands alone.
#[cold]
#[inline(never)]
fn cut_bytes<const N: usize>(s: &[u8], at: usize) -> [u8; N]
    ensures { StandsAt N s.now at result }
{
    let rest = rest_at(s, at);
    // at the end and past it no byte is left, and none is asked for
    if rest.is_empty() {
        return [0; N];
    }
    array::from_fn(|k| byte_at(rest, k))
}

// The N bytes from `at` on. Their fast way is two tests and a wide load.
fn bytes_at<const N: usize>(s: &[u8], at: usize) -> [u8; N]
    ensures { StandsAt N s.now at result }
{
    if let Some(rest) = s.get(at..) {
        if let Some(bytes) = rest.first_chunk() {
            return *bytes;
        }
    }
    cut_bytes(s, at)
}

// The 16-bit number at `at`.
pub fn half_at(s: &[u8], at: usize) -> u16
    ensures { result ≡ half_at s.now at }
{
    u16::from_le_bytes(bytes_at(s, at))
}

// The 32-bit number at `at`.
pub fn word_at(s: &[u8], at: usize) -> u32
    ensures { result ≡ word_at s.now at }
{
    u32::from_le_bytes(bytes_at(s, at))
}

// The 64-bit number at `at`.
pub fn long_at(s: &[u8], at: usize) -> u64
    ensures { result ≡ long_at s.now at }
{
    u64::from_le_bytes(bytes_at(s, at))
}

// The three 64-bit numbers from `at` on, tested for together.
pub fn longs_at(s: &[u8], at: usize) -> Longs
    ensures { (result.first ≡ long_at s.now at) × (result.second ≡ long_at s.now (at + 8)) × (result.third ≡ long_at s.now (at + 16)) }
{
    let bytes: [u8; 24] = bytes_at(s, at);
    Longs {
        first: long_at(&bytes, 0),
        second: long_at(&bytes, 8),
        third: long_at(&bytes, 16),
    }
}
