//! The stacks that are lent to a run.
ghost use Rattle.std.specs.Prelude.{◌≡◌, IfOk};

use machine_steps::Machine;
use std::alloc::Global;
use std::marker::Model;
use wasm_values::NoMemory;

/// Room for the frames of a run: so many of them, each of so many entries.
pub struct Stacks {
    pub(crate) machine: Machine,
    depth: u32,
    frame: u32,
}

impl Model for Stacks {
    ghost use Rattle.wasm_machine.specs.Room.{StacksView};
    ghost use Rattle.machine_steps.specs.StackLayout.{HasRoom};

    ghost Value = { StacksView };

    ghost view = { λ s. record { room = record { depth = s.depth; frame = s.frame }; machine = s.machine } };

    ghost invariant = { λ s. HasRoom s.depth s.frame s.machine };
}

impl Drop for Stacks {
    fn drop(self) {
        let Stacks {
            machine: _,
            depth: _,
            frame: _,
        } = self;
    }
}

impl Stacks {
    /// Stacks for `depth` frames of `frame` entries each.
    ///
    /// # Errors
    ///
    /// `NoMemory` where memory was refused.
    pub fn open(alloc: Global, depth: u32, frame: u32) -> Result<Stacks, NoMemory>
        ensures { IfOk result (λ s. s.room ≡ record { depth = depth; frame = frame }) }
    {
        let entries = depth as usize * frame as usize;
        match Machine::with_room(alloc, entries, depth as usize) {
            Ok(machine) => Ok(Stacks {
                machine,
                depth,
                frame,
            }),
            Err(_) => Err(NoMemory),
        }
    }
}
