//! A load is made line by line.
ghost use Rattle.std.specs.Prelude.{◌≡◌, ◌++◌, IfOk, OnOk, decimal};
ghost use Rattle.load_maker.specs.Load.{call_text, made_file, module_lines};

use crate::generator::{draw_of, state_after};
use crate::modules::{ADD, BUMP, GROWN};
use itoa::Buffer;
use std::alloc::{AllocError, Global};
use wasm_values::NoMemory;

/// The fuel of a call that ends by itself, in instructions.
pub const FUEL: u64 = 100;

/// The fuels of a call that loops are below this, in instructions.
pub const LOOP_FUELS: u64 = 50;

// The lines of the modules.
#[tactic(auto, unfolding(crate::specs::Load::module_lines))]
fn module_lines(alloc: Global) -> Result<Vec<u8>, AllocError>
    ensures { IfOk result (λ lines. lines.items ≡ module_lines) }
{
    let mut lines = Vec::from_slice(alloc, b"module add ")?;
    lines.extend_from_slice(ADD)?;
    lines.extend_from_slice(b"\nmodule bump ")?;
    lines.extend_from_slice(BUMP)?;
    lines.extend_from_slice(b"\nmodule g ")?;
    lines.extend_from_slice(GROWN)?;
    lines.extend_from_slice(b"\n")?;
    Ok(lines)
}

// Appends a text that ends in a number.
fn push_numbered(file: &mut Vec<u8>, text: &[u8], number: u64) -> Result<(), AllocError>
    ensures { OnOk result (file.new.items ≡ file.old.items ++ (text.now ++ decimal number)) }
{
    let mut digits = Buffer::new();
    file.extend_from_slice(text)?;
    file.extend_from_slice(digits.format(number).as_bytes())
}

// Appends the call with this number, for what is drawn for it.
#[tactic(auto, unfolding(crate::specs::Load::call_text))]
fn push_call(file: &mut Vec<u8>, number: u32, draw: u64) -> Result<(), AllocError>
    ensures { OnOk result (file.new.items ≡ file.old.items ++ call_text number draw) }
{
    let quarter = draw / 4;
    match draw % 4 {
        0 => {
            push_numbered(file, b"call add add ", FUEL)?;
            push_numbered(file, b" i32:", quarter)?;
            push_numbered(file, b" i32:", u64::from(number))
        }
        1 => push_numbered(file, b"call bump bump ", FUEL),
        2 => push_numbered(file, b"call g dirty ", quarter % LOOP_FUELS),
        _ => push_numbered(file, b"call g look ", FUEL),
    }
}

// The request file, if memory lasts.
fn made_file(alloc: Global, seed: u64, count: u32) -> Result<Vec<u8>, AllocError>
    ensures { IfOk result (λ file. file.items ≡ made_file seed count) }
{
    let mut file = module_lines(alloc)?;
    let mut state = seed;
    for calls in 0..count {
        state = state_after(state);
        push_call(&mut file, calls + 1, draw_of(state))?;
        file.push(b'\n')?;
    }
    Ok(file)
}

/// A request file of three modules and so many calls of them, which the seed picks. Source: `specs/Load.antt`,
/// `made_file`.
///
/// # Errors
///
/// `NoMemory` where memory is refused.
pub fn make(alloc: Global, seed: u64, count: u32) -> Result<Vec<u8>, NoMemory>
    ensures { IfOk result (λ file. file.items ≡ made_file seed count) }
{
    made_file(alloc, seed, count).map_err(|_| NoMemory)
}
