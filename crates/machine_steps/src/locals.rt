//! Locals and globals.
ghost use Rattle.std.specs.Prelude.{◌≡◌, ◌<◌, None, Some, get_or, length, set, slice_get, vec_len, vec_capacity};
ghost use Rattle.wasm_values.specs.declared.outcome.Val.{Val as AVal};
ghost use Rattle.wasm_types.specs.declared.instr.Instr.TheVariants as instr;
ghost use Rattle.wasm_spec.specs.Execution.{Terms};
ghost use Rattle.wasm_types.specs.Tree.{ModuleTree};
ghost use Rattle.wasm_spec.specs.Store.{Store};
ghost use Rattle.machine_steps.specs.StackLayout.{KeepsRoom};
ghost use Rattle.machine_steps.specs.PlainSteps.{CanExecute, Executes, HasLocal, SetsLocal};

use crate::cells::Cell;
use crate::machine::Machine;
use wasm_values::Val;

// The value at a place.
#[inline(always)]
fn value_at(values: &[Val], i: usize) -> Val
    requires { i < length values.now }
    ensures at { (d : AVal) → result ≡ get_or values.now i d }
    ensures there { slice_get values.now i ≡ Some result }
{
    values[i]
}

impl Machine {
    // Puts a local's value on the top.
    #[inline(always)]
    pub(crate) fn get_local(&mut self, x: u32)
        requires can { CanExecute (instr.LocalGet x) self.old }
        requires free { length self.old.values.items < self.old.values.room }
        ensures does { (m : ModuleTree) (limits : Terms) (store : Store) → Executes m limits (instr.LocalGet x) self.old store None self.new store }
        ensures room { KeepsRoom self.old self.new }
    {
        let v = self.values.at(self.at.locals, x);
        self.push(v);
    }

    // Gives a local this value.
    #[inline(always)]
    fn put_local(&mut self, x: u32, v: Cell)
        requires { HasLocal self.old x }
        ensures represents { SetsLocal x v self.old self.new }
        ensures room { KeepsRoom self.old self.new }
        ensures free { length self.old.values.items < self.old.values.room → length self.new.values.items < self.new.values.room }
    {
        self.values.put(self.at.locals, x, v);
    }

    // Gives a local the topmost operand, which is taken off.
    #[inline(always)]
    pub(crate) fn set_local(&mut self, x: u32)
        requires { CanExecute (instr.LocalSet x) self.old }
        ensures does { (m : ModuleTree) (limits : Terms) (store : Store) → Executes m limits (instr.LocalSet x) self.old store None self.new store }
        ensures room { KeepsRoom self.old self.new }
    {
        let v = self.pop();
        self.put_local(x, v);
    }

    // Gives a local the topmost operand.
    #[inline(always)]
    pub(crate) fn tee_local(&mut self, x: u32)
        requires { CanExecute (instr.LocalTee x) self.old }
        ensures does { (m : ModuleTree) (limits : Terms) (store : Store) → Executes m limits (instr.LocalTee x) self.old store None self.new store }
        ensures room { KeepsRoom self.old self.new }
    {
        let v = self.last();
        self.put_local(x, v);
    }

    // Puts a global's value on the top.
    pub(crate) fn get_global(&mut self, globals: &[Val], x: u32)
        requires there { x < length globals.now }
        requires free { length self.old.values.items < self.old.values.room }
        ensures does { (m : ModuleTree) (limits : Terms) (store : Store) → store.globals ≡ globals.now
            → Executes m limits (instr.GlobalGet x) self.old store None self.new store }
        ensures room { KeepsRoom self.old self.new }
    {
        self.push(Cell::of(value_at(globals, x as usize)));
    }

    // Gives a global the topmost operand, which is taken off.
    pub(crate) fn set_global(&mut self, globals: &mut [Val], x: u32)
        requires can { CanExecute (instr.GlobalSet x) self.old }
        requires there { x < length globals.old }
        ensures does { (m : ModuleTree) (limits : Terms) (store : Store) → store.globals ≡ globals.old
            → Executes m limits (instr.GlobalSet x) self.old store None self.new (record store { globals = globals.new }) }
        ensures room { KeepsRoom self.old self.new }
        ensures globals { length globals.new ≡ length globals.old }
    {
        let v = self.pop();
        globals[x as usize] = v.value();
    }
}
