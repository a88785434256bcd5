// The slots of a link that makes its own counts: how many were carried, how many are left, and the frame of the last one.
ghost use Rattle.std.specs.Prelude.{◌≡◌, ◌+◌, ◌≤◌, [], length};

use arrayvec::ArrayVec;

mod carry;

// `short` says the capacity once more, since a clause cannot read it off an `ArrayVec`.
#[derive(Drop)]
pub struct Slots {
    pub(crate) carried: u16,
    pub(crate) left: u16,
    frame: ArrayVec<u16, 64>,
    ghost within: { carried + left ≤ 65535 },
    ghost short: { length frame.items ≤ 64 },
    ghost fresh: { carried ≡ 0 → frame.items ≡ [] },
}
