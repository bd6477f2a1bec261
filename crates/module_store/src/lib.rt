//! Modules that threads share: each is loaded once, and stands under a number for good.
#![tactic(auto)]

mod desk;
mod fault;
mod loaded_module;
mod loader;
mod naming;
mod opened;
mod reference;
mod registry;
mod store;

pub use desk::{Desk, DeskCounts, MOST_MODULES};
pub use fault::LoadFault;
pub use loaded_module::{Found, LoadedModule};
pub use naming::Naming;
pub use opened::Opened;
pub use reference::ModuleRef;
pub use registry::Registry;
pub use store::ModuleStore;
