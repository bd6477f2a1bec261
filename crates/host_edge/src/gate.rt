//! Who is told of the host's calls.

/// Is told of each call by its number, and changes nothing of what the host does.
///
/// Any thread that makes calls may tell it.
pub trait Gate: Sync {
    /// The call has all its slots, and its first instruction comes next.
    fn entered(&self, call: u64);

    /// The call was answered, and all that it took is given back.
    fn answered(&self, call: u64);
}

/// A gate that holds no call and notes nothing.
#[derive(Clone, Copy, Debug)]
pub struct OpenGate;

impl Gate for OpenGate {
    fn entered(&self, _call: u64) {}

    fn answered(&self, _call: u64) {}
}
