//! Functions without runs of no locals.

ghost use Rattle.std.specs.Prelude.{◌≡◌, All, flat_map, map};
ghost use Rattle.wasm_types.specs.Tree.{function_tree, locals_of, module_tree};
ghost use Rattle.wasm_validate.specs.Locals.{HasLocals, HasNoEmptyRun, HaveNoEmptyRun};

use std::alloc::Global;
use std::mem;
use wasm_types::{Function, LocalRun, Module};
use wasm_values::Items;

// The runs that have locals.
fn with_locals(runs: Items<LocalRun>) -> Items<LocalRun>
    ensures locals { flat_map locals_of result ≡ flat_map locals_of runs }
    ensures kept { All HasLocals result }
{
    let mut runs = runs.into_vec();
    runs.retain(|run| run.count > 0);
    Items::new(runs)
}

// Drops the runs of no locals of a function.
fn drop_empty_runs(alloc: Global, f: &mut Function)
    ensures tree { function_tree f.new ≡ function_tree f.old }
    ensures kept { HasNoEmptyRun f.new }
{
    let runs = mem::replace(&mut f.locals, Items::new(Vec::new(alloc)));
    f.locals = with_locals(runs);
}

// Drops the runs of no locals of each function.
fn drop_all_empty_runs(alloc: Global, functions: &mut Vec<Function>)
    ensures trees { map function_tree functions.new.items ≡ map function_tree functions.old.items }
    ensures kept { All HasNoEmptyRun functions.new.items }
{
    for f in functions.iter_mut() {
        drop_empty_runs(alloc, f);
    }
}

// The module without runs of no locals, which a call would walk over. Its tree stays the same, and it takes no memory.
pub(crate) fn without_empty_runs(alloc: Global, m: Module) -> Module
    ensures tree { module_tree result ≡ module_tree m }
    ensures kept { HaveNoEmptyRun result }
{
    let mut functions = m.functions.into_vec();
    drop_all_empty_runs(alloc, &mut functions);
    Module {
        functions: Items::new(functions),
        ..m
    }
}
