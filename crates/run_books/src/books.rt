//! What is written down of a run: the entries of its modules, and the lines of its calls.
ghost use Rattle.std.specs.Prelude.{◌≡◌, ◌≤◌, IfOk, length};
ghost use Rattle.request_text.specs.Text.{modules_of};
ghost use Rattle.run_books.specs.Books.{AreBooks, IsSpan, whole_file};

use crate::counts::count_calls;
use crate::modules::Entry;
use job_queue::Board;
use module_store::{Desk, Naming};
use request_text::Requests;
use std::alloc::Global;
use wasm_values::NoMemory;

/// The directives of a round, from a place among all up to another, and how many calls stand before them.
#[derive(Clone, Copy)]
pub struct Span {
    pub from: usize,
    pub to: usize,
    pub calls: u32,
}

impl Span {
    /// All directives.
    pub fn of_all(requests: &Requests) -> Span
        ensures whole { result ≡ whole_file requests.now }
        ensures span { IsSpan requests.now.directives result }
        ensures from { result.from ≡ 0 }
        ensures to { result.to ≡ length requests.now.directives }
        ensures calls { result.calls ≡ 0 }
    {
        Span {
            from: 0,
            to: requests.directives().len(),
            calls: 0,
        }
    }
}

/// The entries of the module lines so far, and the desk at which the next module is registered.
pub struct Registry<N: Naming> {
    pub entries: Vec<Entry<N>>,
    pub desk: Desk<N>,
}

impl<N: Naming> Drop for Registry<N> {
    fn drop(self) {
        let Registry {
            entries: _,
            desk: _,
        } = self;
    }
}

/// The entries of the module lines so far, and the lines of the calls that were made so far.
#[derive(Drop)]
pub struct Books<N: Naming> {
    pub registry: Registry<N>,
    pub board: Board,
}

impl<N: Naming> Books<N> {
    /// The books before the first directive: no entry, and a board for the calls of the file without a line.
    ///
    /// # Errors
    ///
    /// `NoMemory` where memory is refused.
    pub fn open(alloc: Global, requests: &Requests, desk: Desk<N>) -> Result<Books<N>, NoMemory>
        requires desk { desk.registered ≡ 0 }
        requires room { length (modules_of requests.now.directives) ≤ desk.most }
        ensures { IfOk result (AreBooks N.config requests.now 0 0 0) }
    {
        let entries = Vec::new(alloc);
        let board = Board::open(alloc, count_calls(requests.directives()))?;
        let registry = Registry { entries, desk };
        Ok(Books { registry, board })
    }
}
