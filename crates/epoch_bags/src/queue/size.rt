//! What a list of values tells of their size.
ghost use Rattle.std.specs.Prelude.{◌≤◌, ◌<◌, length};
ghost use Rattle.std.specs.Mem.{type_size};

use std::mem;

/// Tells that a `T` takes fewer than 2^63 bytes, since the number of bytes of two of them is a `usize`.
///
/// Only a value of a type that is known to fit in memory may be dropped, and of a generic type that isn't known.
pub(super) fn tell_size<T>(values: &[T])
    requires { 2 ≤ length values.now }
    ensures { type_size T.row < 9223372036854775808 }
{
    let _bytes = mem::size_of_val(values);
}
