// The list: an array, and how many of its slots hold items.
ghost use Rattle.std.specs.Prelude.{◌≡◌, ◌≤◌, length};

mod methods;

#[derive(Drop)]
pub struct FixedVec<T, const N: usize> {
    // the items, and after them whatever the unused slots hold
    slots: [T; N],
    count: usize,
    ghost long: { length slots ≡ N },
    ghost fits: { count ≤ N },
}
