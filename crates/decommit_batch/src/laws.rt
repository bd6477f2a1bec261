//! What holds of the definitions alone. Each function does nothing: its contract is the law.
ghost use Rattle.std.specs.Prelude.{ℕ, List};
ghost use Rattle.slot_words.specs.declared.views.Operation.{Operation};
ghost use Rattle.decommit_batch.specs.HandIn.{FlushesAt, WaitsAt};
ghost use Rattle.decommit_batch.specs.Sweep.{IsSweep};
ghost use Rattle.decommit_batch.specs.Swept.{AccountsForSlots};
ghost use Rattle.decommit_batch.specs.SweptPools.{SweepsAlone};
ghost use Rattle.decommit_batch.specs.WorkedSweeps.{worked_sweep};

/// Batches of 4: the third slot that awaits is not flushed, the fourth completes the batch, and a fifth, which another pass counted first, flushes too.
pub fn the_fourth_slot_completes_a_batch_of_four()
    ensures third { WaitsAt 4 2 }
    ensures fourth { FlushesAt 4 3 }
    ensures fifth { FlushesAt 4 4 }
{}

/// A sweep looks at each slot once and claims those that it sees free and of the module. Each that it wins it gives back: cold with its permit or its mark where it is of the module still, and else as it was.
pub fn a_sweep_gives_back_what_it_wins()
    ensures { (tag slots cleaned : ℕ) (done : List Operation) → IsSweep tag slots cleaned done → AccountsForSlots tag slots cleaned done }
{}

/// In a pool in which nothing else is done meanwhile, a sweep leaves no free slot of the module but cold, and each other slot as it was. It tells how many it cleaned.
pub fn a_sweep_alone_leaves_none_of_its_module()
    ensures { SweepsAlone }
{}

/// A sweep worked by hand: two of seven slots are cleaned.
pub fn worked_sweeps()
    ensures { IsSweep 5 7 2 worked_sweep }
{}
