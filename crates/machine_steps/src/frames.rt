//! A caller's position in the room of the stack of frames.
ghost use Rattle.std.specs.Prelude.{◌≡◌};

use crate::machine::Position;
use std::marker::Model;

/// Where a caller goes on. (No two fields stand side by side here that do so in a position, so that each is moved by itself: one
/// move of two would wait for the writes that made them.)
#[derive(Clone, Copy)]
pub struct Frame {
    labels: usize,
    sequence: usize,
    place: usize,
    locals: usize,
    function: usize,
}

impl Model for Frame {
    ghost use Rattle.machine_steps.specs.declared.machine.Position.{Position};

    ghost Value = { Position };

    ghost view = { λ f. record { function = f.function; sequence = f.sequence; locals = f.locals; labels = f.labels; place = f.place } };

    ghost inverse = { λ at. record { labels = at.labels; sequence = at.sequence; place = at.place; locals = at.locals; function = at.function } };
}

impl Frame {
    /// A frame that keeps a position.
    #[inline(always)]
    pub fn of(at: Position) -> Frame
        ensures { result ≡ at }
    {
        Frame {
            labels: at.labels,
            sequence: at.sequence,
            place: at.place,
            locals: at.locals,
            function: at.function,
        }
    }

    /// The position that it keeps.
    #[inline(always)]
    pub fn position(self) -> Position
        ensures { result ≡ self }
    {
        Position {
            function: self.function,
            sequence: self.sequence,
            locals: self.locals,
            labels: self.labels,
            place: self.place,
        }
    }
}
