//! Computed examples of the machine of pools: a definition that asks too much, or too little, makes one fail. Nothing stands on this crate.
#![tactic(auto)]
