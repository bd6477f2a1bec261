//! Calls that are due.
ghost use Rattle.std.specs.Prelude.{◌≡◌, ◌-◌, ◌<◌, ◌≤◌, Some, length, slice_get};
ghost use Rattle.call_jobs.specs.Entries.{AreNumbered};

use module_store::ModuleRef;
use request_text::Invocation;

/// A call that is due.
pub struct Due {
    /// Its number. Calls are numbered from 1.
    pub number: u32,
    /// The tenant on whose slots it is made, where workers make calls whole.
    pub tenant: u32,
    /// Whether its module is retired where it stands.
    pub retired: bool,
    pub invocation: Invocation,
}

impl Drop for Due {
    fn drop(self) {
        let Due {
            number: _,
            tenant: _,
            retired: _,
            invocation: _,
        } = self;
    }
}

/// What a queue hands on with a call's number: its module, or none where that was refused.
pub type Item<N> = Option<ModuleRef<N>>;

/// The call of this number, among calls that are numbered from 1.
pub fn due_at(calls: &[Due], number: u32) -> &Due
    requires numbered { AreNumbered calls.now }
    requires counted { 0 < number }
    requires enough { number ≤ length calls.now }
    ensures there { slice_get calls.now (number - 1) ≡ Some result.now }
    ensures number { result.now.number ≡ number }
{
    &calls[number as usize - 1]
}
