//! A store that has no name yet.
ghost use Rattle.std.specs.Prelude.{◌≤◌};
ghost use Rattle.module_store.specs.declared.desk.TheConstants.{MOST_MODULES};

use crate::desk::{Desk, DeskCounts, MOST_MODULES};
use crate::naming::Naming;
use crate::reference::Stored;
use crate::store::ModuleStore;
use boxcar::Vec;
use pool_limits::PoolConfig;
use std::alloc::Global;
use std::marker::PhantomData;
use wasm_values::NoMemory;

/// A store that has no name yet.
#[derive(Drop)]
pub struct Opened {
    modules: Vec<Box<Stored>>,
    config: PoolConfig,
    most: u32,
    ghost few: { most ≤ MOST_MODULES },
}

impl Opened {
    ghost use Rattle.std.specs.Prelude.{◌≡◌, ◌≤◌, IfOk};
    ghost use Rattle.module_store.specs.Names.{Bears};

    /// A store without a module, for [`MOST_MODULES`] modules at most.
    ///
    /// # Errors
    ///
    /// `NoMemory` where memory is refused.
    pub fn open(alloc: Global, config: PoolConfig) -> Result<Opened, NoMemory>
        ensures config { IfOk result (λ s. s.config ≡ config) }
        ensures most { IfOk result (λ s. s.most ≡ MOST_MODULES) }
    {
        Opened::open_for(alloc, config, MOST_MODULES)
    }

    /// A store without a module, for so many modules at most. What is kept for each module that a store may have is as large.
    ///
    /// # Errors
    ///
    /// `NoMemory` where memory is refused.
    pub fn open_for(alloc: Global, config: PoolConfig, most: u32) -> Result<Opened, NoMemory>
        requires { most ≤ MOST_MODULES }
        ensures config { IfOk result (λ s. s.config ≡ config) }
        ensures most { IfOk result (λ s. s.most ≡ most) }
    {
        let modules = Vec::new(alloc).map_err(|_| NoMemory)?;
        Ok(Opened {
            modules,
            config,
            most,
        })
    }

    /// The store under a name, and its desk. The name is picked by the caller's proof. Takes no memory.
    pub fn named<N: Naming>(self) -> (ModuleStore<N>, Desk<N>)
        requires { Bears self N.shelves N.config N.most }
        ensures store { result.0 ≡ N.config }
        ensures desk { result.1.registered ≡ 0 }
        ensures most { result.1.most ≡ N.most }
    {
        let Opened {
            modules,
            config,
            most,
        } = self;
        let registered = 0;
        let desk = Desk {
            counts: DeskCounts { registered, most },
            of: PhantomData,
        };
        let store = ModuleStore {
            modules,
            config,
            most,
            of: PhantomData,
        };
        (store, desk)
    }
}
