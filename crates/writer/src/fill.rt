// What a block starts with, put into a whole block that is cleared first.
ghost use Rattle.std.specs.Prelude.{◌≡◌, length};
ghost use Rattle.layout.specs.Layout.{filled, head_bytes, period_start, continuation_start};

use block::{clear, put_bytes, put_half, put_word};
use plan::{Head, Header};

// Kept: slices, with their length in the contract, since of a part of the buffer that is lent as a `&mut [u8; 512]` (`as_mut_array`) no
// proof says what the buffer holds afterwards.

// A head that counts no further block yet.
pub(crate) fn fill_head(b: &mut [u8], head: Head)
    requires { length b.old ≡ 512 }
    ensures { b.new ≡ head_bytes head 0 }
{
    clear(b);
    put_bytes(b, 0, &[1, 0]);
    put_half(b, 2, head.unit);
    put_word(b, 4, head.start);
    put_word(b, 8, head.end);
    put_word(b, 12, head.number);
    put_word(b, 16, head.revision);
    put_bytes(b, 20, &[head.vka]);
}

// A period with no doses yet.
pub(crate) fn fill_period(b: &mut [u8], header: Header)
    requires { length b.old ≡ 512 }
    ensures { b.new ≡ filled (period_start header 0) }
{
    clear(b);
    put_bytes(b, 0, &[2, 0]);
    put_half(b, 2, header.interval);
    put_word(b, 4, header.first);
    put_word(b, 8, header.end);
}

// A continuation with no doses yet.
#[tactic(auto, using(crate::proofs::Filling::continuation_filled))]
pub(crate) fn fill_continuation(b: &mut [u8])
    requires { length b.old ≡ 512 }
    ensures { b.new ≡ filled (continuation_start 0) }
{
    clear(b);
    put_bytes(b, 0, &[3, 0]);
}
