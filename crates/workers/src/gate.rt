//! A gate through which every block of the work passes.

/// What workers call as they go. It learns how many images are judged before any of them is. Then each worker calls it when it is
/// about to judge a block, and when it has judged it or passed over it. A test holds workers by it, and a
/// run may count by it how far it is.
pub trait Gate {
    /// Is called with how many images are to be judged. It does nothing where an implementation leaves it out.
    fn begin(&self, _images: u64) {}

    /// Is called when the worker takes the block.
    fn before(&self, worker: u8, block: u32);

    /// Is called when the worker has the piece of the block.
    fn after(&self, worker: u8, block: u32);
}

/// A gate that does nothing.
#[derive(Clone, Copy)]
pub struct OpenGate;

impl Gate for OpenGate {
    fn before(&self, _worker: u8, _block: u32) {}

    fn after(&self, _worker: u8, _block: u32) {}
}
