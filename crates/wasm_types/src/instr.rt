//! Instructions, and code as numbered sequences of them.

use crate::types::ValType;
use wasm_values::{Items, Val};

/// An integer type's width, in bits.
#[derive(Clone, Copy, Debug, PartialEq, Eq)]
pub enum Width {
    W32,
    W64,
}

/// Whether an integer is read as signed. Source: Core Specification 1.0, section 2.4.1 (sx).
#[derive(Clone, Copy, Debug, PartialEq, Eq)]
pub enum Sign {
    Signed,
    Unsigned,
}

/// How many bits of memory a narrow load or store moves. Source: section 2.4.4.
#[derive(Clone, Copy, Debug, PartialEq, Eq)]
pub enum PackSize {
    Pack8,
    Pack16,
    Pack32,
}

/// The immediate of a load or store: the exponent of its alignment, and an offset in bytes. Source: section 2.4.4.
#[derive(Clone, Copy, Debug, PartialEq, Eq)]
pub struct MemArg {
    pub align: u32,
    pub offset: u32,
}

/// Operators of one integer operand. Source: section 2.4.1 (iunop).
///
/// `ExtendS` reads the lowest bits, as many as the size says, as a signed number. It is of profile 2.
#[derive(Clone, Copy, Debug, PartialEq, Eq)]
pub enum UnaryOp {
    Clz,
    Ctz,
    Popcnt,
    ExtendS(PackSize),
}

/// Operators of two integer operands. Source: section 2.4.1 (ibinop).
#[derive(Clone, Copy, Debug, PartialEq, Eq)]
pub enum BinaryOp {
    Add,
    Sub,
    Mul,
    DivS,
    DivU,
    RemS,
    RemU,
    And,
    Or,
    Xor,
    Shl,
    ShrS,
    ShrU,
    Rotl,
    Rotr,
}

/// Comparisons of two integer operands. Source: section 2.4.1 (irelop).
#[derive(Clone, Copy, Debug, PartialEq, Eq)]
pub enum CompareOp {
    Eq,
    Ne,
    LtS,
    LtU,
    GtS,
    GtU,
    LeS,
    LeU,
    GeS,
    GeU,
}

/// An instruction that holds no other and calls none. Source: section 2.4.
///
/// The instructions on floats are all the one `Float`: a module that has one is never run. `MemoryCopy` and `MemoryFill` are
/// of profile 2.
#[derive(Drop)]
pub enum Instr {
    Unreachable,
    Nop,
    Br(u32),
    BrIf(u32),
    BrTable(Items<u32>, u32),
    Return,
    Drop,
    Select,
    LocalGet(u32),
    LocalSet(u32),
    LocalTee(u32),
    GlobalGet(u32),
    GlobalSet(u32),
    Load(Width, MemArg),
    LoadPacked(Width, PackSize, Sign, MemArg),
    Store(Width, MemArg),
    StorePacked(Width, PackSize, MemArg),
    MemorySize,
    MemoryGrow,
    MemoryCopy,
    MemoryFill,
    Const(Val),
    Eqz(Width),
    Compare(Width, CompareOp),
    Unary(Width, UnaryOp),
    Binary(Width, BinaryOp),
    Wrap,
    Extend(Sign),
    Float,
}

/// One instruction of a sequence. A block, a loop and an if name their inner sequences by number; an `if` without
/// an `else` names an empty second sequence. Source: section 2.4.5.
#[derive(Drop)]
pub enum Op {
    Plain(Instr),
    Block(Option<ValType>, usize),
    Loop(Option<ValType>, usize),
    If(Option<ValType>, usize, usize),
    Call(u32),
    CallIndirect(u32),
}

/// Code as numbered sequences, each of which names only earlier ones. The last one is the outermost.
pub struct Expr {
    pub sequences: Items<Items<Op>>,
}

impl Drop for Expr {
    fn drop(self) {
        let Expr { sequences: _ } = self;
    }
}
