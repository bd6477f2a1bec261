//! Plain instructions, by their opcodes and the profile.

ghost use Rattle.std.specs.Prelude.{◌≡◌, ◌<◌, ◌≤◌, length, get_or, IsErrOf};
ghost use Rattle.std.specs.Option.{option_map_or};
ghost use Rattle.wasm_spec.specs.Numbers.{TakesUnsigned, TakesVec};
ghost use Rattle.wasm_values.specs.declared.profile.Profile.TheVariants.{One, Two};
ghost use Rattle.wasm_spec.specs.InstrGrammar.{shape, comparisons, extensions, operators, Alone, NotPlain, WithLabels, TakesPrefixed, TakesShape};
ghost use Rattle.leb_read.specs.Reading.{rest};
ghost use Rattle.instr_decode.specs.Decoding.{Reads, ReadsAs};
ghost use Rattle.instr_decode.specs.Wants.{WantsVec, WantsShape};
ghost use Rattle.instr_decode.specs.Opcodes.{TakesAddress, TakesZeros, made_with_index, made_with_address, shape_of};

use crate::fault::DecodeFault;
use leb_read::Cursor;
use std::alloc::Global;
use wasm_types::{BinaryOp, CompareOp, Instr, MemArg, PackSize, Sign, UnaryOp, Width};
use wasm_values::{Items, Profile, Val};

// What an opcode makes of an index.
#[derive(Clone, Copy)]
enum IndexOp {
    Br,
    BrIf,
    LocalGet,
    LocalSet,
    LocalTee,
    GlobalGet,
    GlobalSet,
}

// What an opcode makes of a place in memory.
#[derive(Clone, Copy)]
enum AddressOp {
    Load(Width),
    LoadPacked(Width, PackSize, Sign),
    Store(Width),
    StorePacked(Width, PackSize),
    Float,
}

// What follows an opcode, and what the opcode makes of that.
#[derive(Drop)]
enum Form {
    Alone(Instr),
    Index(IndexOp),
    Labels,
    Address(AddressOp),
    Zero(Instr),
    I32,
    I64,
    Bytes(usize),
}

// The comparison of a number, from `eqz` on.
fn comparison(width: Width, number: u8) -> Instr
    requires { number < 11 }
    ensures { get_or (comparisons width) number NotPlain ≡ Alone result }
{
    match number {
        0 => Instr::Eqz(width),
        1 => Instr::Compare(width, CompareOp::Eq),
        2 => Instr::Compare(width, CompareOp::Ne),
        3 => Instr::Compare(width, CompareOp::LtS),
        4 => Instr::Compare(width, CompareOp::LtU),
        5 => Instr::Compare(width, CompareOp::GtS),
        6 => Instr::Compare(width, CompareOp::GtU),
        7 => Instr::Compare(width, CompareOp::LeS),
        8 => Instr::Compare(width, CompareOp::LeU),
        9 => Instr::Compare(width, CompareOp::GeS),
        10 => Instr::Compare(width, CompareOp::GeU),
        _ => unreachable!(),
    }
}

// The operator of a number, from `clz` on.
fn operator(width: Width, number: u8) -> Instr
    requires { number < 18 }
    ensures { get_or (operators width) number NotPlain ≡ Alone result }
{
    match number {
        0 => Instr::Unary(width, UnaryOp::Clz),
        1 => Instr::Unary(width, UnaryOp::Ctz),
        2 => Instr::Unary(width, UnaryOp::Popcnt),
        3 => Instr::Binary(width, BinaryOp::Add),
        4 => Instr::Binary(width, BinaryOp::Sub),
        5 => Instr::Binary(width, BinaryOp::Mul),
        6 => Instr::Binary(width, BinaryOp::DivS),
        7 => Instr::Binary(width, BinaryOp::DivU),
        8 => Instr::Binary(width, BinaryOp::RemS),
        9 => Instr::Binary(width, BinaryOp::RemU),
        10 => Instr::Binary(width, BinaryOp::And),
        11 => Instr::Binary(width, BinaryOp::Or),
        12 => Instr::Binary(width, BinaryOp::Xor),
        13 => Instr::Binary(width, BinaryOp::Shl),
        14 => Instr::Binary(width, BinaryOp::ShrS),
        15 => Instr::Binary(width, BinaryOp::ShrU),
        16 => Instr::Binary(width, BinaryOp::Rotl),
        17 => Instr::Binary(width, BinaryOp::Rotr),
        _ => unreachable!(),
    }
}

// The form of an opcode of memory. Source: Core Specification 1.0, section 5.4.4.
#[tactic(auto, unfolding(wasm_spec::specs::InstrGrammar::shape))]
fn memory(opcode: u8) -> Form
    requires first { 0x28 ≤ opcode }
    requires last { opcode ≤ 0x40 }
    ensures { shape One opcode ≡ shape_of result }
{
    use PackSize::{Pack8, Pack16, Pack32};
    use Sign::{Signed, Unsigned};
    use Width::{W32, W64};
    match opcode {
        0x28 => Form::Address(AddressOp::Load(W32)),
        0x29 => Form::Address(AddressOp::Load(W64)),
        0x2A => Form::Address(AddressOp::Float),
        0x2B => Form::Address(AddressOp::Float),
        0x2C => Form::Address(AddressOp::LoadPacked(W32, Pack8, Signed)),
        0x2D => Form::Address(AddressOp::LoadPacked(W32, Pack8, Unsigned)),
        0x2E => Form::Address(AddressOp::LoadPacked(W32, Pack16, Signed)),
        0x2F => Form::Address(AddressOp::LoadPacked(W32, Pack16, Unsigned)),
        0x30 => Form::Address(AddressOp::LoadPacked(W64, Pack8, Signed)),
        0x31 => Form::Address(AddressOp::LoadPacked(W64, Pack8, Unsigned)),
        0x32 => Form::Address(AddressOp::LoadPacked(W64, Pack16, Signed)),
        0x33 => Form::Address(AddressOp::LoadPacked(W64, Pack16, Unsigned)),
        0x34 => Form::Address(AddressOp::LoadPacked(W64, Pack32, Signed)),
        0x35 => Form::Address(AddressOp::LoadPacked(W64, Pack32, Unsigned)),
        0x36 => Form::Address(AddressOp::Store(W32)),
        0x37 => Form::Address(AddressOp::Store(W64)),
        0x38 => Form::Address(AddressOp::Float),
        0x39 => Form::Address(AddressOp::Float),
        0x3A => Form::Address(AddressOp::StorePacked(W32, Pack8)),
        0x3B => Form::Address(AddressOp::StorePacked(W32, Pack16)),
        0x3C => Form::Address(AddressOp::StorePacked(W64, Pack8)),
        0x3D => Form::Address(AddressOp::StorePacked(W64, Pack16)),
        0x3E => Form::Address(AddressOp::StorePacked(W64, Pack32)),
        0x3F => Form::Zero(Instr::MemorySize),
        0x40 => Form::Zero(Instr::MemoryGrow),
        _ => unreachable!(),
    }
}

// The form of an opcode of numbers. Source: section 5.4.5.
#[tactic(auto, unfolding(wasm_spec::specs::InstrGrammar::shape))]
fn numeric(opcode: u8) -> Form
    requires first { 0x41 ≤ opcode }
    requires last { opcode ≤ 0xBF }
    ensures { shape One opcode ≡ shape_of result }
{
    match opcode {
        0x41 => Form::I32,
        0x42 => Form::I64,
        0x43 => Form::Bytes(4),
        0x44 => Form::Bytes(8),
        0x45..=0x4F => Form::Alone(comparison(Width::W32, opcode - 0x45)),
        0x50..=0x5A => Form::Alone(comparison(Width::W64, opcode - 0x50)),
        0x5B..=0x66 => Form::Alone(Instr::Float),
        0x67..=0x78 => Form::Alone(operator(Width::W32, opcode - 0x67)),
        0x79..=0x8A => Form::Alone(operator(Width::W64, opcode - 0x79)),
        0x8B..=0xA6 => Form::Alone(Instr::Float),
        0xA7 => Form::Alone(Instr::Wrap),
        0xA8..=0xAB => Form::Alone(Instr::Float),
        0xAC => Form::Alone(Instr::Extend(Sign::Signed)),
        0xAD => Form::Alone(Instr::Extend(Sign::Unsigned)),
        0xAE..=0xBF => Form::Alone(Instr::Float),
        _ => unreachable!(),
    }
}

// The form of an opcode of profile 1, if it is that of a plain instruction. Source: section 5.4.
#[tactic(auto, unfolding(wasm_spec::specs::InstrGrammar::shape))]
fn form_at(opcode: u8) -> Option<Form>
    ensures { shape One opcode ≡ option_map_or shape_of result NotPlain }
{
    match opcode {
        0x00 => Some(Form::Alone(Instr::Unreachable)),
        0x01 => Some(Form::Alone(Instr::Nop)),
        0x0C => Some(Form::Index(IndexOp::Br)),
        0x0D => Some(Form::Index(IndexOp::BrIf)),
        0x0E => Some(Form::Labels),
        0x0F => Some(Form::Alone(Instr::Return)),
        0x1A => Some(Form::Alone(Instr::Drop)),
        0x1B => Some(Form::Alone(Instr::Select)),
        0x20 => Some(Form::Index(IndexOp::LocalGet)),
        0x21 => Some(Form::Index(IndexOp::LocalSet)),
        0x22 => Some(Form::Index(IndexOp::LocalTee)),
        0x23 => Some(Form::Index(IndexOp::GlobalGet)),
        0x24 => Some(Form::Index(IndexOp::GlobalSet)),
        0x28..=0x40 => Some(memory(opcode)),
        0x41..=0xBF => Some(numeric(opcode)),
        _ => None,
    }
}

// The instruction that an opcode makes of an index.
fn with_index(op: IndexOp, index: u32) -> Instr
    ensures { result ≡ made_with_index op index }
{
    match op {
        IndexOp::Br => Instr::Br(index),
        IndexOp::BrIf => Instr::BrIf(index),
        IndexOp::LocalGet => Instr::LocalGet(index),
        IndexOp::LocalSet => Instr::LocalSet(index),
        IndexOp::LocalTee => Instr::LocalTee(index),
        IndexOp::GlobalGet => Instr::GlobalGet(index),
        IndexOp::GlobalSet => Instr::GlobalSet(index),
    }
}

// The instruction that an opcode makes of a place in memory.
fn with_address(op: AddressOp, arg: MemArg) -> Instr
    ensures { result ≡ made_with_address op arg }
{
    match op {
        AddressOp::Load(width) => Instr::Load(width, arg),
        AddressOp::LoadPacked(width, size, sign) => Instr::LoadPacked(width, size, sign, arg),
        AddressOp::Store(width) => Instr::Store(width, arg),
        AddressOp::StorePacked(width, size) => Instr::StorePacked(width, size, arg),
        AddressOp::Float => Instr::Float,
    }
}

// A vector of indices. Source: section 5.1.3.
fn indices(alloc: Global, cursor: &mut Cursor) -> Result<Items<u32>, DecodeFault>
    ensures read { Reads (TakesVec (TakesUnsigned 32)) cursor.old cursor.new result }
    ensures wanted { IsErrOf result DecodeFault.NoMemory → WantsVec (TakesUnsigned 32) (λ _. ⊥) (rest cursor.old) }
{
    let count = cursor.u32()?;
    let mut indices = Vec::new(alloc);
    for _ in 0..count {
        let index = cursor.u32()?;
        indices.push(index)?;
    }
    Ok(Items::new(indices))
}

// A place in memory: its alignment and its offset.
fn address(cursor: &mut Cursor) -> Result<MemArg, DecodeFault>
    ensures read { Reads TakesAddress cursor.old cursor.new result }
    ensures wanted { IsErrOf result DecodeFault.NoMemory → ⊥ }
{
    let align = cursor.u32()?;
    let offset = cursor.u32()?;
    Ok(MemArg { align, offset })
}

// The labels of a `br_table`.
fn labels(alloc: Global, cursor: &mut Cursor) -> Result<Instr, DecodeFault>
    ensures read { Reads (TakesShape WithLabels) cursor.old cursor.new result }
    ensures wanted { IsErrOf result DecodeFault.NoMemory → WantsShape WithLabels (rest cursor.old) }
{
    let labels = indices(alloc, cursor)?;
    let label = cursor.u32()?;
    Ok(Instr::BrTable(labels, label))
}

// The plain instruction of an opcode of profile 1, with what follows that.
fn read_common(alloc: Global, cursor: &mut Cursor, opcode: u8) -> Result<Instr, DecodeFault>
    requires { cursor.old.place ≤ length cursor.old.whole }
    ensures read { Reads (TakesShape (shape One opcode)) cursor.old cursor.new result }
    ensures wanted { IsErrOf result DecodeFault.NoMemory → WantsShape (shape One opcode) (rest cursor.old) }
{
    let Some(form) = form_at(opcode) else {
        return Err(DecodeFault::Malformed);
    };
    match form {
        Form::Alone(instr) => Ok(instr),
        Form::Index(op) => {
            let index = cursor.u32()?;
            Ok(with_index(op, index))
        }
        Form::Labels => labels(alloc, cursor),
        Form::Address(op) => {
            let arg = address(cursor)?;
            Ok(with_address(op, arg))
        }
        Form::Zero(instr) => {
            if cursor.u8()? != 0 {
                return Err(DecodeFault::Malformed);
            }
            Ok(instr)
        }
        Form::I32 => {
            let value = cursor.s32()?;
            Ok(Instr::Const(Val::I32(value.cast_unsigned())))
        }
        Form::I64 => {
            let value = cursor.s64()?;
            Ok(Instr::Const(Val::I64(value.cast_unsigned())))
        }
        Form::Bytes(count) => {
            cursor.take(count)?;
            Ok(Instr::Float)
        }
    }
}

// The extension of a number, from the first on.
fn extension(number: u8) -> Instr
    requires { number < 5 }
    ensures { get_or extensions number NotPlain ≡ Alone result }
{
    use PackSize::{Pack8, Pack16, Pack32};
    match number {
        0 => Instr::Unary(Width::W32, UnaryOp::ExtendS(Pack8)),
        1 => Instr::Unary(Width::W32, UnaryOp::ExtendS(Pack16)),
        2 => Instr::Unary(Width::W64, UnaryOp::ExtendS(Pack8)),
        3 => Instr::Unary(Width::W64, UnaryOp::ExtendS(Pack16)),
        4 => Instr::Unary(Width::W64, UnaryOp::ExtendS(Pack32)),
        _ => unreachable!(),
    }
}

// So many zero bytes, behind which the cursor then stands.
fn zeros(cursor: &mut Cursor, count: usize) -> Result<(), DecodeFault>
    ensures read { ReadsAs (TakesZeros count) (λ _. tt) cursor.old cursor.new result }
    ensures wanted { IsErrOf result DecodeFault.NoMemory → ⊥ }
{
    let bytes = cursor.take(count)?;
    if bytes.iter().all(|byte| *byte == 0) {
        Ok(())
    } else {
        Err(DecodeFault::Malformed)
    }
}

// What follows the prefix: the number of an instruction, and its zero bytes.
fn prefixed(cursor: &mut Cursor) -> Result<Instr, DecodeFault>
    ensures read { Reads TakesPrefixed cursor.old cursor.new result }
    ensures wanted { IsErrOf result DecodeFault.NoMemory → ⊥ }
{
    let number = cursor.u32()?;
    match number {
        10 => {
            zeros(cursor, 2)?;
            Ok(Instr::MemoryCopy)
        }
        11 => {
            zeros(cursor, 1)?;
            Ok(Instr::MemoryFill)
        }
        _ => Err(DecodeFault::Malformed),
    }
}

// The plain instruction of an opcode, with what follows that and with what profile 2 adds.
fn read_later(alloc: Global, cursor: &mut Cursor, opcode: u8) -> Result<Instr, DecodeFault>
    requires { cursor.old.place ≤ length cursor.old.whole }
    ensures read { Reads (TakesShape (shape Two opcode)) cursor.old cursor.new result }
    ensures wanted { IsErrOf result DecodeFault.NoMemory → WantsShape (shape Two opcode) (rest cursor.old) }
{
    match opcode {
        0xC0..=0xC4 => Ok(extension(opcode - 0xC0)),
        0xFC => prefixed(cursor),
        _ => read_common(alloc, cursor, opcode),
    }
}

// The plain instruction of an opcode, with what follows that.
pub(crate) fn read_instr(
    alloc: Global,
    profile: Profile,
    cursor: &mut Cursor,
    opcode: u8,
) -> Result<Instr, DecodeFault>
    requires { cursor.old.place ≤ length cursor.old.whole }
    ensures read { Reads (TakesShape (shape profile opcode)) cursor.old cursor.new result }
    ensures wanted { IsErrOf result DecodeFault.NoMemory → WantsShape (shape profile opcode) (rest cursor.old) }
{
    match profile {
        Profile::One => read_common(alloc, cursor, opcode),
        Profile::Two => read_later(alloc, cursor, opcode),
        Profile::Three => read_later(alloc, cursor, opcode),
    }
}
