//! The name of a store.
use std::marker::Brand;

/// Which store it is: its table of modules, its numbers, and how many modules it may have. It stands in the types of the store, of
/// its desk and of its references, and is picked by the proof of the function that opens the store.
pub trait Naming {
    ghost use Rattle.std.specs.Prelude.{ℕ};
    ghost use Rattle.boxcar.specs.Table.{Shelves};
    ghost use Rattle.pool_limits.specs.declared.numbers.Numbers.{Numbers};

    ghost shelves: { Shelves };

    ghost config: { Numbers };

    ghost most: { ℕ };
}

impl Naming for Brand {
    ghost use Rattle.std.specs.Prelude.{[]};

    ghost shelves = { record { tag = []; buckets = [] } };

    ghost config = { record { workers = 1; instances = 1; memories = 1; tables = 1; warm = 0; batch = 1; pages = 1; elements = 0; depth = 1; frame = 1 } };

    ghost most = { 0 };
}
