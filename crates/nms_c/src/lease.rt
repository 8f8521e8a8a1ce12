//! A share of the right to read a value. It works like `Part` in the `left_right` package of the toolchain.
ghost use Rattle.std.specs.Prelude.{◌≡◌, ℕ};
ghost use Rattle.left_right.specs.Parted.{part_owns, part_shares};

use std::marker::Model;

/// One of the equal shares into which a loan of a value was cut: `count` shares of the loan named `round`. The holder of a
/// share may read the value. No one may write it until all shares are back.
#[derive(Drop)]
pub(crate) struct Lease<T> {
    pub(crate) ptr: *const T,
    pub(crate) ghost value: { T },
    pub(crate) ghost round: { ℕ },
    pub(crate) ghost count: { ℕ },
}

impl<T> Model for Lease<T> {
    ghost also_owns = { λ p. part_owns T.row p.ptr p.value p.round p.count };

    ghost also_shares = { λ p _ κ. part_shares T.row p.ptr p.value p.round κ };
}

impl<T> Lease<T> {
    /// The value, for reading.
    pub(crate) fn get(&self) -> &T
        ensures { result.now ≡ self.now.value }
    {
        unsafe { &*self.ptr }
    }
}
