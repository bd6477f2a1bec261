//! What a run queue may hold.
use std::marker::Brand;

/// Which items a queue may hold. It stands in the type of the queue. Where `Brand` stands for it, the proof of the call of the function
/// that opens the queue picks it from the arguments of that call. Where the items' type depends on ghost members of its own, `Brand` can't
/// stand for it: then name the run by a trait whose members can be picked, and implement this one for a type with that name.
pub trait Admits<T> {
    ghost fits: { T → Type 0 };
}

impl<T> Admits<T> for Brand {
    ghost use Rattle.std.specs.Prelude.{⊤};

    ghost fits = { λ x. ⊤ };
}
