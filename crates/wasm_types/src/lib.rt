//! The public types of WebAssembly 1.0 modules, and the tree that a module stands for.
//!
//! Source: WebAssembly Core Specification 1.0, chapter 2 (structure).
#![tactic(auto)]

mod host;
mod instr;
mod limits;
mod module;
mod sequences;
mod types;

pub use host::HostFunction;
pub use instr::{BinaryOp, CompareOp, Expr, Instr, MemArg, Op, PackSize, Sign, UnaryOp, Width};
pub use limits::{LoadLimits, PAGE_SIZE, RunLimits};
pub use module::{
    DataSegment, ElementSegment, Export, ExportDesc, Function, Global, Import, ImportDesc,
    LocalRun, Module,
};
pub use sequences::{named, op_at};
pub use types::{FuncType, GlobalType, Limits, ValType, same_function_types, same_types};
pub use wasm_values::{NoMemory, Outcome, TrapKind, Val};
