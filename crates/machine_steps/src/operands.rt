//! Instructions that only take operands and give others.
ghost use Rattle.std.specs.Prelude.{◌≡◌, ◌≢◌, ℕ, ◌<◌, List, ◌∷◌, None, Some, Ok, length, vec_len, vec_capacity};
ghost use Rattle.wasm_values.specs.declared.outcome.Val.{Val as AVal};
ghost use Rattle.wasm_values.specs.declared.outcome.Val.TheVariants as val;
ghost use Rattle.wasm_types.specs.declared.instr.Instr.TheVariants as instr;
ghost use Rattle.wasm_types.specs.declared.instr.Width.TheVariants as width;
ghost use Rattle.wasm_spec.specs.Execution.{Terms};
ghost use Rattle.wasm_types.specs.Tree.{ModuleTree};
ghost use Rattle.wasm_spec.specs.Typing.{number};
ghost use Rattle.wasm_spec.specs.Execution.{extended, value};
ghost use Rattle.wasm_spec.specs.Operators as operators;
ghost use Rattle.wasm_spec.specs.Store.{Store};
ghost use Rattle.machine_steps.specs.Configuration.{Configuration};
ghost use Rattle.machine_steps.specs.StackLayout.{KeepsRoom, Represents};
ghost use Rattle.machine_steps.specs.InstructionKinds.{IsOfOne, IsOfTwo, gives_width, of_one, of_two, takes_width};
ghost use Rattle.machine_steps.specs.PlainSteps.{CanExecute, Executes, HasNumber, HasOperand, valued};

use crate::cells::Cell;
use crate::machine::Machine;
use wasm_numeric::{
    binary32, binary64, compare32, compare64, i32_wrap_i64, i64_extend_i32_s, i64_extend_i32_u,
    unary32, unary64,
};
use wasm_types::{BinaryOp, CompareOp, Instr, Sign, UnaryOp, Width};
use wasm_values::TrapKind;

// Whether a number is 0.
fn eqz(width: Width, v: Cell) -> Cell
    requires { number width v ≢ None }
    ensures { (a : ℕ) → number width v ≡ Some a → result ≡ val.I32 (operators.eqz a) }
{
    match width {
        Width::W32 => Cell::of32(u32::from(v.number32() == 0)),
        Width::W64 => Cell::of32(u32::from(v.number64() == 0)),
    }
}

// The value of an operator on one value of its width.
#[inline(always)]
fn unary(width: Width, op: UnaryOp, v: Cell) -> Cell
    requires { number width v ≢ None }
    ensures { (a : ℕ) → number width v ≡ Some a → result ≡ value width (operators.unary (operators.bit_width width) op a) }
{
    match width {
        Width::W32 => Cell::of32(unary32(op, v.number32())),
        Width::W64 => Cell::of64(unary64(op, v.number64())),
    }
}

// An i32 as an i64.
fn extend(sign: Sign, n: u32) -> Cell
    ensures { result ≡ val.I64 (extended 32 64 sign n) }
{
    match sign {
        Sign::Signed => Cell::of64(i64_extend_i32_s(n)),
        Sign::Unsigned => Cell::of64(i64_extend_i32_u(n)),
    }
}

// The value of a comparison of two values of a width.
#[inline(always)]
fn compare(width: Width, op: CompareOp, first: Cell, second: Cell) -> Cell
    requires first { number width first ≢ None }
    requires second { number width second ≢ None }
    ensures { (a b : ℕ) → number width first ≡ Some a → number width second ≡ Some b
        → result ≡ val.I32 (operators.compare (operators.bit_width width) op a b) }
{
    match width {
        Width::W32 => Cell::of32(compare32(op, first.number32(), second.number32())),
        Width::W64 => Cell::of32(compare64(op, first.number64(), second.number64())),
    }
}

// The value of an operator on two values of its width.
#[inline(always)]
fn binary(width: Width, op: BinaryOp, first: Cell, second: Cell) -> Result<Cell, TrapKind>
    requires first { number width first ≢ None }
    requires second { number width second ≢ None }
    ensures { (a b : ℕ) → number width first ≡ Some a → number width second ≡ Some b
        → result ≡ valued width (operators.binary (operators.bit_width width) op a b) }
{
    match width {
        Width::W32 => match binary32(op, first.number32(), second.number32()) {
            Ok(n) => Ok(Cell::of32(n)),
            Err(t) => Err(t),
        },
        Width::W64 => match binary64(op, first.number64(), second.number64()) {
            Ok(n) => Ok(Cell::of64(n)),
            Err(t) => Err(t),
        },
    }
}

// The first where a condition isn't 0, and else the second.
fn chosen(condition: u32, first: Cell, second: Cell) -> Cell
    ensures zero { condition ≡ 0 → result ≡ second }
    ensures other { condition ≢ 0 → result ≡ first }
{
    if condition == 0 { second } else { first }
}

// What an instruction makes of one operand.
#[inline(always)]
fn one(instr: &Instr, v: Cell) -> Cell
    requires kind { IsOfOne instr.now }
    requires number { number (takes_width instr.now) v ≢ None }
    ensures { (a : ℕ) → number (takes_width instr.now) v ≡ Some a → result ≡ value (gives_width instr.now) (of_one instr.now a) }
{
    match instr {
        Instr::Eqz(width) => eqz(*width, v),
        Instr::Unary(width, op) => unary(*width, *op, v),
        Instr::Wrap => Cell::of32(i32_wrap_i64(v.number64())),
        Instr::Extend(sign) => extend(*sign, v.number32()),
        _ => unreachable!(),
    }
}

// What an instruction makes of two operands.
#[inline(always)]
fn two(instr: &Instr, first: Cell, second: Cell) -> Result<Cell, TrapKind>
    requires kind { IsOfTwo instr.now }
    requires first { number (takes_width instr.now) first ≢ None }
    requires second { number (takes_width instr.now) second ≢ None }
    ensures { (a b : ℕ) → number (takes_width instr.now) first ≡ Some a → number (takes_width instr.now) second ≡ Some b
        → result ≡ valued (gives_width instr.now) (of_two instr.now a b) }
{
    match instr {
        Instr::Compare(width, op) => Ok(compare(*width, *op, first, second)),
        Instr::Binary(width, op) => binary(*width, *op, first, second),
        _ => unreachable!(),
    }
}

impl Machine {
    // Puts an operand on the top.
    #[inline(always)]
    pub(crate) fn push(&mut self, v: Cell)
        requires { length self.old.values.items < self.old.values.room }
        ensures represents { (k : Configuration) → Represents k self.old → Represents (record k { operands = v ∷ k.operands }) self.new }
        ensures room { KeepsRoom self.old self.new }
    {
        self.values.push_cell(v);
    }

    // Takes the topmost operand off.
    #[inline(always)]
    pub(crate) fn pop(&mut self) -> Cell
        requires { HasOperand self.old }
        ensures represents { (k : Configuration) (x : AVal) (vs : List AVal) → Represents k self.old → k.operands ≡ x ∷ vs
            → (result ≡ x) × Represents (record k { operands = vs }) self.new }
        ensures room { KeepsRoom self.old self.new }
        ensures free { length self.new.values.items < self.new.values.room }
    {
        self.values.pop()
    }

    // Puts an i32 on the top.
    #[inline(always)]
    pub(crate) fn push32(&mut self, n: u32)
        requires { length self.old.values.items < self.old.values.room }
        ensures represents { (k : Configuration) → Represents k self.old → Represents (record k { operands = val.I32 n ∷ k.operands }) self.new }
        ensures room { KeepsRoom self.old self.new }
    {
        self.push(Cell::of32(n));
    }

    // The topmost operand.
    #[inline(always)]
    pub(crate) fn last(&self) -> Cell
        requires { HasOperand self.now }
        ensures { (k : Configuration) (x : AVal) (vs : List AVal) → Represents k self.now → k.operands ≡ x ∷ vs → result ≡ x }
    {
        self.values.last()
    }

    // The topmost operand, which is an i32.
    #[inline(always)]
    pub(crate) fn last32(&self) -> u32
        requires { HasNumber self.now }
        ensures { (k : Configuration) (n : ℕ) (vs : List AVal) → Represents k self.now → k.operands ≡ val.I32 n ∷ vs → result ≡ n }
    {
        self.last().number32()
    }

    // Puts an operand in the place of the topmost one.
    #[inline(always)]
    pub(crate) fn replace(&mut self, v: Cell)
        requires { HasOperand self.old }
        ensures represents { (k : Configuration) (x : AVal) (vs : List AVal) → Represents k self.old → k.operands ≡ x ∷ vs
            → Represents (record k { operands = v ∷ vs }) self.new }
        ensures room { KeepsRoom self.old self.new }
    {
        self.values.replace(v);
    }

    /// Takes the topmost operand off, which is an i32.
    #[inline(always)]
    pub fn pop32(&mut self) -> u32
        requires { HasNumber self.old }
        ensures represents { (k : Configuration) (n : ℕ) (vs : List AVal) → Represents k self.old → k.operands ≡ val.I32 n ∷ vs
            → (result ≡ n) × Represents (record k { operands = vs }) self.new }
        ensures room { KeepsRoom self.old self.new }
        ensures free { length self.new.values.items < self.new.values.room }
    {
        self.pop().number32()
    }

    // An instruction that makes a number of the topmost operand.
    #[inline(always)]
    pub(crate) fn on_one(&mut self, instr: &Instr)
        requires kind { IsOfOne instr.now }
        requires can { CanExecute instr.now self.old }
        ensures does { (m : ModuleTree) (limits : Terms) (store : Store) → Executes m limits instr.now self.old store None self.new store }
        ensures room { KeepsRoom self.old self.new }
    {
        let v = self.last();
        self.replace(one(instr, v));
    }

    // An instruction that makes a number of the two topmost operands, or traps. Who names its kind anew saves a look at it behind the pops.
    #[inline(always)]
    pub(crate) fn on_two(&mut self, instr: &Instr) -> Option<TrapKind>
        requires kind { IsOfTwo instr.now }
        requires can { CanExecute instr.now self.old }
        ensures does { (m : ModuleTree) (limits : Terms) (store : Store) → Executes m limits instr.now self.old store result self.new store }
        ensures room { KeepsRoom self.old self.new }
    {
        let second = self.pop();
        let first = self.last();
        match two(instr, first, second) {
            Ok(v) => {
                self.replace(v);
                None
            }
            Err(t) => Some(t),
        }
    }

    // Keeps the first of two operands where the topmost one isn't 0, and else the second.
    pub(crate) fn select(&mut self)
        requires { CanExecute instr.Select self.old }
        ensures does { (m : ModuleTree) (limits : Terms) (store : Store) → Executes m limits instr.Select self.old store None self.new store }
        ensures room { KeepsRoom self.old self.new }
    {
        let condition = self.pop32();
        let second = self.pop();
        let first = self.last();
        self.replace(chosen(condition, first, second));
    }
}
