//! A value that is read through parts, and is whole again once each part is back. It follows `Part` of the kit's
//! `left_right`.
ghost use Rattle.std.specs.Prelude.{ℕ};
ghost use Rattle.epoch_lend.specs.Parted.{part_owns};

use std::marker::Model;

/// The right to read the value, for as long as this is held. A value has 2^63 parts, and this is `count` of them.
#[derive(Drop)]
pub struct Part<T> {
    pub ptr: *const T,
    pub ghost value: { T },
    pub ghost lifetime: { ℕ },
    pub ghost count: { ℕ },
}

impl<T> Model for Part<T> {
    ghost also_owns = { λ p. part_owns T.row p.ptr p.value p.lifetime p.count };
}
