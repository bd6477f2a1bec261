//! Which WebAssembly a module is read as.

/// Which WebAssembly the bytes of a module are read as: `One` is version 1.0; `Two` has the sign extensions, `memory.copy`,
/// `memory.fill` and the data count section of later versions beside that; `Three` is `Two` with three functions of the host
/// that a module may import.
#[derive(Clone, Copy, Debug, PartialEq, Eq)]
pub enum Profile {
    One,
    Two,
    Three,
}
