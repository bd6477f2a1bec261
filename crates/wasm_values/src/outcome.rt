//! Values and how a call ends.

/// A value of an integer type. Source: Core Specification 1.0, section 4.2.1.
#[derive(Clone, Copy, Debug, PartialEq, Eq)]
pub enum Val {
    I32(u32),
    I64(u64),
}

/// Why a call trapped. Source: section 4.4, where each instruction says when it traps.
#[derive(Clone, Copy, Debug, PartialEq, Eq)]
pub enum TrapKind {
    Unreachable,
    Memory,
    Element,
    Uninit,
    Signature,
    Divide,
    Overflow,
    Exhausted,
}

/// How a call ended: with its result, by a trap, or for want of fuel.
#[derive(Clone, Copy, Debug, PartialEq, Eq)]
pub enum Outcome {
    Done(Option<Val>),
    Trap(TrapKind),
    Fuel,
}

/// Memory was refused.
#[derive(Clone, Copy, Debug, PartialEq, Eq, thiserror::Error)]
#[error("out of memory")]
pub struct NoMemory;
