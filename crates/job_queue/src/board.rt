//! The board that collects one line for each call.
ghost use Rattle.std.specs.Prelude.{◌≡◌, ◌-◌, ◌↔◌, replicate, slice_set, Some, None, IfOk, IsOk, OnOk, OnErr};
ghost use Rattle.job_queue.specs.Boards.{IsCollected, IsOpen, IsStranger};

use report_text::CallLine;
use std::alloc::Global;
use std::marker::Model;
use wasm_values::NoMemory;

/// One place for the line of each call, in order of the calls' numbers, which begin at 1.
pub struct Board {
    lines: Vec<Option<CallLine>>,
}

impl Drop for Board {
    fn drop(self) {
        let Board { lines: _ } = self;
    }
}

impl Model for Board {
    ghost use Rattle.std.specs.Prelude.{List, Option};
    ghost use Rattle.report_text.specs.declared.report.CallLine.{CallLine};

    ghost Value = { List (Option CallLine) };

    ghost view = { λ board. board.lines.items };
}

/// Why a line was not collected.
#[derive(Clone, Copy, Debug, PartialEq, Eq, thiserror::Error)]
pub enum Stray {
    /// A line was collected for this number before.
    #[error("call {0} was collected before")]
    Double(u32),
    /// The number is 0, or greater than the number of calls.
    #[error("there is no call {0}")]
    Stranger(u32),
}

impl Board {
    /// A board for calls 1 to `count`, with nothing collected.
    ///
    /// # Errors
    ///
    /// [`NoMemory`] where memory is refused.
    pub fn open(alloc: Global, count: u32) -> Result<Board, NoMemory>
        ensures { IfOk result (λ board. board ≡ replicate count None) }
    {
        let mut lines = Vec::with_capacity(alloc, count as usize).map_err(|_| NoMemory)?;
        for _ in 0..count {
            lines.push(None).map_err(|_| NoMemory)?;
        }
        Ok(Board { lines })
    }

    /// Collects the line of a call. Takes no memory.
    ///
    /// # Errors
    ///
    /// [`Stray::Double`] where a line of this number was collected, and [`Stray::Stranger`] where the number is 0 or past the
    /// board's calls. The board is then as before.
    pub fn collect(&mut self, number: u32, line: CallLine) -> Result<(), Stray>
        ensures ok { IsOk result ↔ IsOpen self.old number }
        ensures double { (result ≡ Err (Stray.Double number)) ↔ IsCollected self.old number }
        ensures stranger { (result ≡ Err (Stray.Stranger number)) ↔ IsStranger self.old number }
        ensures collected { OnOk result (self.new ≡ slice_set self.old (number - 1) (Some line)) }
        ensures kept { OnErr result (self.new ≡ self.old) }
    {
        let lines = self.lines.as_mut_slice();
        if number == 0 || number as usize > lines.len() {
            return Err(Stray::Stranger(number));
        }
        let at = number as usize - 1;
        if lines[at].is_some() {
            return Err(Stray::Double(number));
        }
        lines[at] = Some(line);
        Ok(())
    }

    /// The lines, as [`Board::lines`] shows them. Takes no memory.
    pub fn into_lines(self) -> Vec<Option<CallLine>>
        ensures { result.items ≡ self }
    {
        let Board { lines } = self;
        lines
    }

    /// The lines in order of their calls' numbers, none where nothing was collected.
    pub fn lines(&self) -> &[Option<CallLine>]
        ensures { result.now ≡ self.now }
    {
        self.lines.as_slice()
    }
}
