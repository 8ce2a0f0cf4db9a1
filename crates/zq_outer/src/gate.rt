/// What each worker passes before and after its step. It returns, and promises nothing.
pub trait Gate {
    fn pass(&self, worker: u32, after: bool);
}

/// A gate that does nothing.
#[derive(Clone, Copy, Debug)]
pub struct OpenGate;

impl Gate for OpenGate {
    fn pass(&self, _: u32, _: bool) {}
}
