// Places on a ring of slots, and a write into one of them.
ghost use Rattle.std.specs.Prelude.{◌≡◌, ◌+◌, ◌-◌, ◌<◌, ◌≤◌, length, slice_set};
ghost use Rattle.queue.specs.Line.{along};

/// The place `step` slots after `head`, round a ring of `size` slots.
pub(crate) fn place(head: usize, step: usize, size: usize) -> usize
    requires { (head ≤ size) × (step ≤ size) }
    ensures is { result ≡ along head step size }
    ensures below { step < size → result < size }
{
    let left = size - head;
    if step < left {
        head + step
    } else {
        step - left
    }
}

/// Copies the item into the slot `at`.
pub(crate) fn put<T: Copy>(slots: &mut [T], at: usize, item: &T)
    requires { at < length slots.old }
    ensures { slots.new ≡ slice_set slots.old at item.now }
{
    slots[at] = *item;
}
