// That items leave in the order in which they came.
ghost use Rattle.queue.specs.Order.{FirstInFirstOut};

/// Names the law of the line: whatever is pushed and popped, what has left and what is still held
/// is, in order, what was taken in.
#[tactic(auto, using(crate::proofs::Seen::in_order))]
pub fn first_in_first_out<T: Copy>()
    ensures { FirstInFirstOut T }
{}
