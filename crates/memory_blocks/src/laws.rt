//! What marks promise. Each function does nothing: its contract is the law.
ghost use Rattle.std.specs.Prelude.{ℕ, List, Bool};
ghost use Rattle.memory_blocks.specs.Blocks.{KeepsUnmarked};

/// What two runs one after the other leave outside the marked blocks, both together leave there.
pub fn unmarked_blocks_stay_over_two_runs()
    ensures { (first second third : List ℕ) (before between after : List Bool) → KeepsUnmarked first second before between
        → KeepsUnmarked second third between after → KeepsUnmarked first third before after }
{}
