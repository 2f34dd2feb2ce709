// Bytes laid into a lent output; nothing else of it changes.
ghost use Rattle.std.specs.Prelude.{◌≡◌, ◌+◌, ◌≤◌, length};
ghost use Rattle.wire.specs.Bytes.{laid};

use crate::copy::copy;

// The bytes of src, from a place of out on.
pub(crate) fn put(out: &mut [u8], at: usize, src: &[u8])
    requires { at + length src.now ≤ length out.old }
    ensures { out.new ≡ laid out.old at src.now }
{
    copy(src, &mut out[at..at + src.len()]);
}
