// Is every byte of a slice zero? By many bytes at a time.
ghost use Rattle.std.specs.Prelude.{◌≡◌, ◌<◌, ◌≤◌, length};
ghost use Rattle.block.specs.Bytes.{is_zero};

// Are these N? All of them are looked at, with no way out ahead of the end, so that it is compiled to a few wide steps.
fn is_chunk_zero<const N: usize>(chunk: &[u8; N]) -> bool
    ensures { result ≡ is_zero chunk.now }
{
    chunk.iter().fold(true, |zero, byte| zero & (*byte == 0))
}

// By N; the last N bytes, some of which were looked at already, have those that are left.
fn is_zero_by<const N: usize>(s: &[u8]) -> bool
    requires { (0 < N) × (N ≤ 128) × (N ≤ length s.now) }
    ensures { result ≡ is_zero s.now }
{
    let (chunks, _) = s.as_chunks::<N>();
    chunks.iter().all(is_chunk_zero) && s.last_chunk::<N>().is_some_and(is_chunk_zero)
}

// By 128 bytes, or by 8 where there are fewer; fewer than 8 one by one.
pub fn is_zero(s: &[u8]) -> bool
    ensures { result ≡ is_zero s.now }
{
    match s.len() {
        0..8 => s.iter().all(|byte| *byte == 0),
        8..128 => is_zero_by::<8>(s),
        _ => is_zero_by::<128>(s),
    }
}
