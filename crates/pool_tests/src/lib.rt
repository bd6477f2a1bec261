//! Tests of what lies below the slots: the core, the words that threads share, the order of claims, takes and gives, and retired tags. Nothing stands on this crate.
#![tactic(auto)]

#[cfg(test)]
mod claim_orders;
#[cfg(test)]
mod core_rows;
#[cfg(test)]
mod noted_values;
#[cfg(test)]
mod retired_bits;
#[cfg(test)]
mod reused_slots;
#[cfg(test)]
mod shared_slots;
#[cfg(test)]
mod visits;
