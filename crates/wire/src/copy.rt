// Bytes copied over others.
ghost use Rattle.std.specs.Prelude.{◌≡◌, ◌++◌, ◌≤◌, length, take, drop};

use std::cmp::min;

// The bytes of src, over the first of dst; of a src that is longer than dst those that it has room for. They are copied one by one, and not by std's
// `copy_from_slice`: that calls the C library's memmove, and whoever links the library for C owes it memcpy and memset alone.
// As it is: by index: `zip` over `iter_mut` was tried, and leaves a proof knowing only the length.
pub fn copy(src: &[u8], dst: &mut [u8])
    ensures room { length src.now ≤ length dst.old → dst.new ≡ src.now ++ drop (length src.now) dst.old }
    ensures no_room { length dst.old ≤ length src.now → dst.new ≡ take (length dst.old) src.now }
{
    let n = min(src.len(), dst.len());
    for i in 0..n {
        dst[i] = src[i];
    }
}
