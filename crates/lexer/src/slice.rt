// Copying, for the crates above.
ghost use Rattle.std.specs.Prelude.{◌≡◌, length};

// Copies `from` to `to`, which is as long. The library's `copy_from_slice` does the same, and calls the C library's `memmove` where the length is known only at
// run time: the archive is to need `memset` and `memcpy` alone. It is public for the crates above, and is no interface: it asks for the length.
pub fn copy_slice<T: Copy>(to: &mut [T], from: &[T])
    requires { length to.old ≡ length from.now }
    ensures after { to.new ≡ from.now }
{
    for i in 0..from.len() {
        to[i] = from[i];
    }
}
