//! The walk over a function's sequences, in the order of their text.

ghost use Rattle.std.specs.Prelude.{◌≡◌, ℕ, ◌+◌, ◌<◌, ◌^◌, List, [], Option, None, Some, slice_get, length};
ghost use Rattle.wasm_checker.specs.Check.{Stack};
ghost use Rattle.wasm_types.specs.Sequences.{ops_of};
ghost use Rattle.wasm_checker.specs.Subject.{HaveOneResult, all_locals};
ghost use Rattle.wasm_checker.specs.Walk.{ComesTo, Advances, Counts, whole};

use crate::checker::Checker;
use crate::fault::CheckFault;
use crate::locals::Locals;
use crate::lookup::result_of;
use std::alloc::Global;
use wasm_types::{Function, Module, Op, ValType, named, op_at};

impl Checker {
    /// The instruction at which the walk stands.
    pub(crate) fn instruction(
        &mut self,
        m: &Module,
        f: &Function,
        locals: &Locals,
        op: &Op,
    ) -> Result<(), CheckFault>
        requires types { HaveOneResult m.now }
        requires locals { locals.now ≡ all_locals m.now f.now }
        requires is { slice_get (ops_of f.now.body self.old.sequence) self.old.place ≡ Some op.now }
        requires fits { self.old.place + 1 < 2 ^ 64 }
        ensures { Advances m.now f.now self.old result self.new }
    {
        self.place += 1;
        match op {
            Op::Plain(i) => self.plain(m, f, locals, i),
            Op::Block(t, q) => {
                let inner = named(&f.body, self.sequence, *q);
                self.enter(*t, *t, None, inner)
            }
            Op::Loop(t, q) => {
                let inner = named(&f.body, self.sequence, *q);
                self.enter(None, *t, None, inner)
            }
            Op::If(t, q, p) => {
                let first = named(&f.body, self.sequence, *q);
                let second = named(&f.body, self.sequence, *p);
                self.pop_type(ValType::I32)?;
                self.enter(*t, *t, Some(second), first)
            }
            Op::Call(x) => self.call(m, *x),
            Op::CallIndirect(x) => self.call_indirect(m, *x),
        }
    }

    /// The end of inner code: its results are given, or the other arm is entered.
    pub(crate) fn close(&mut self, m: &Module, f: &Function) -> Result<(), CheckFault>
        requires some { 0 < length self.old.frames.items }
        requires over { slice_get (ops_of f.now.body self.old.sequence) self.old.place ≡ None }
        ensures { Advances m.now f.now self.old result self.new }
    {
        let frame = self.frames[self.frames.len() - 1];
        self.end(frame.end_type)?;
        self.leave();
        match frame.second {
            Some(q) => self.enter(frame.label_type, frame.end_type, None, q),
            None => self.push_result(frame.end_type),
        }
    }

    /// The end of the body: what was counted, where exactly the function's results are left.
    pub(crate) fn finish(&mut self, m: &Module, f: &Function) -> Result<(u32, u32), CheckFault>
        requires outermost { length self.old.frames.items ≡ 0 }
        requires over { slice_get (ops_of f.now.body self.old.sequence) self.old.place ≡ None }
        ensures { (o : Option Stack) → ComesTo m.now f.now self.old o → Counts o result }
    {
        self.end(result_of(m, f))?;
        Ok((self.peak_operands, self.peak_labels))
    }
}

// A walk that begins with a function's outermost sequence.
fn start(alloc: Global, m: &Module, f: &Function) -> Checker
    ensures { ComesTo m.now f.now result (whole m.now f.now) }
{
    Checker {
        sequence: f.body.sequences.len().saturating_sub(1),
        place: 0,
        unreachable: false,
        base: 0,
        operands: Vec::new(alloc),
        frames: Vec::new(alloc),
        peak_operands: 0,
        peak_labels: 1,
    }
}

/// The greatest numbers of operands and of labels of a function, if its body is typed.
pub(crate) fn walk(
    alloc: Global,
    m: &Module,
    f: &Function,
    locals: &Locals,
) -> Result<(u32, u32), CheckFault>
    requires types { HaveOneResult m.now }
    requires locals { locals.now ≡ all_locals m.now f.now }
    ensures { Counts (whole m.now f.now) result }
{
    let mut walk = start(alloc, m, f);
    loop {
        match op_at(&f.body, walk.sequence, walk.place) {
            Some(op) => walk.instruction(m, f, locals, op)?,
            None => {
                if walk.frames.is_empty() {
                    return walk.finish(m, f);
                }
                walk.close(m, f)?;
            }
        }
    }
}
