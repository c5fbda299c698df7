// Bytes put at an offset. What does not fit whole is not written at all.
ghost use Rattle.std.specs.Prelude.{◌≡◌, length, replicate};
ghost use Rattle.block.specs.Bytes.{bytes_of, put};

// Puts the bytes of src at `at`.
pub fn put_bytes(dst: &mut [u8], at: usize, src: &[u8])
    ensures { dst.new ≡ put dst.old at src.now }
{
    if dst.len() < src.len() {
        return;
    }
    if dst.len() - src.len() < at {
        return;
    }
    // Kept: by index, since `copy_from_slice` is compiled to a `memmove`, and the C library asks for `memcpy` and `memset` alone.
    for i in 0..src.len() {
        dst[at + i] = src[i];
    }
}

// Puts a 16-bit number at `at`.
#[tactic(auto, unfolding(crate::specs::Bytes::bytes_of))]
pub fn put_half(s: &mut [u8], at: usize, x: u16)
    ensures { s.new ≡ put s.old at (bytes_of 2 x) }
{
    put_bytes(s, at, &x.to_le_bytes())
}

// Puts a 32-bit number at `at`.
#[tactic(auto, unfolding(crate::specs::Bytes::bytes_of))]
pub fn put_word(s: &mut [u8], at: usize, x: u32)
    ensures { s.new ≡ put s.old at (bytes_of 4 x) }
{
    put_bytes(s, at, &x.to_le_bytes())
}

// Puts a 64-bit number at `at`.
#[tactic(auto, unfolding(crate::specs::Bytes::bytes_of))]
pub fn put_long(s: &mut [u8], at: usize, x: u64)
    ensures { s.new ≡ put s.old at (bytes_of 8 x) }
{
    put_bytes(s, at, &x.to_le_bytes())
}

// Makes every byte zero.
pub fn clear(s: &mut [u8])
    ensures { s.new ≡ replicate (length s.old) 0 }
{
    s.fill(0);
}
