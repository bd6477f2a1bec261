//! The functions that a module may import.

/// A function of the host, which a module imports from `host` under the name `len`, `read` or `write`: the length of the
/// request, bytes of the request into memory, and bytes of memory onto the answer.
#[derive(Clone, Copy, Debug, PartialEq, Eq)]
pub enum HostFunction {
    Len,
    Read,
    Write,
}
