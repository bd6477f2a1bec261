//! What bounds a run and a module, beside what the module itself says.

/// How many bytes a page of a memory has. Source: Core Specification 1.0, section 4.2.8.
pub const PAGE_SIZE: u64 = 65536;

/// What bounds a run beside its fuel: the pages that a memory may have, and how many calls may be open
/// at once.
#[derive(Clone, Copy, Debug, PartialEq, Eq)]
pub struct RunLimits {
    pub pages: u32,
    pub depth: u32,
}

/// What a module may ask for: pages of a memory, elements of a table, and entries of a function's frame, which are
/// its locals, operands and labels.
#[derive(Clone, Copy, Debug, PartialEq, Eq)]
pub struct LoadLimits {
    pub pages: u32,
    pub elements: u32,
    pub frame: u32,
}
