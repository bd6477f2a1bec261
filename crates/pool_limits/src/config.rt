//! A configuration whose numbers are in range.
ghost use Rattle.std.specs.Prelude.{◌≡◌, Some, None, IfErr, IfOk, OnOk, ◌+◌, ◌^◌, length, ◌<◌, ◌≤◌};
ghost use Rattle.pool_limits.specs.Ranges.{AreInRange, bad_number};
ghost use Rattle.pool_limits.specs.Shares.{lane_share, shared_share};
ghost use Rattle.wasm_types.specs.Tree.{module_tree};
ghost use Rattle.wasm_spec.specs.Loading.{first_over};
ghost use Rattle.wasm_spec.specs.Store.{minimum_of};
ghost use Rattle.pool_limits.specs.Limits.{load_limits, demand_of, first_frame_over};

use crate::numbers::{BadNumber, Numbers};
use crate::over::{MOST_GLOBALS, Measure, Over};
use crate::share::Share;
use std::marker::Model;
use wasm_types::Limits;
use wasm_validate::Valid;

/// A configuration of the pools. Contracts see its numbers.
#[derive(Clone, Copy, Debug, PartialEq, Eq)]
pub struct PoolConfig {
    numbers: Numbers,
}

impl Model for PoolConfig {
    ghost use Rattle.pool_limits.specs.declared.numbers.Numbers.{Numbers};
    ghost use Rattle.pool_limits.specs.Ranges.{AreInRange};

    ghost Value = { Numbers };

    ghost view = { λ c. c.numbers };

    ghost invariant = { λ c. AreInRange c.numbers };

    ghost inverse = { λ numbers. record { numbers = numbers } };
}

impl Default for PoolConfig {
    ghost use Rattle.std.specs.Prelude.{◌≡◌};
    ghost use Rattle.pool_limits.specs.Ranges.{default_numbers};

    ghost is_default = { λ config. config ≡ default_numbers };

    /// With the numbers of [`Numbers::default`]. Takes no memory.
    fn default() -> PoolConfig {
        PoolConfig {
            numbers: Numbers::default(),
        }
    }
}

impl PoolConfig {
    /// The configuration with these numbers. Takes no memory.
    ///
    /// # Errors
    ///
    /// The first number, in the order of the fields, that is out of its range.
    pub fn new(numbers: Numbers) -> Result<PoolConfig, BadNumber>
        ensures ok { IfOk result (λ c. c ≡ numbers) }
        ensures in_range { OnOk result (bad_number numbers ≡ None) }
        ensures bad { IfErr result (λ e. bad_number numbers ≡ Some e) }
    {
        match numbers.first_outside() {
            Some(bad) => Err(bad),
            None => Ok(PoolConfig { numbers }),
        }
    }

    /// The numbers that it was made with. Takes no memory.
    pub fn numbers(&self) -> Numbers
        ensures same { result ≡ self.now }
        ensures in_range { AreInRange result }
    {
        self.numbers
    }

    /// The slots of the lane: all where there is one worker, else one of each kind. Takes no memory.
    pub fn lane_share(&self) -> Share
        ensures { result ≡ lane_share self.now }
    {
        if self.numbers.workers == 1 {
            Share {
                instances: self.numbers.instances,
                memories: self.numbers.memories,
                tables: self.numbers.tables,
            }
        } else {
            Share {
                instances: 1,
                memories: 1,
                tables: 1,
            }
        }
    }

    /// The slots that the lane has not. Takes no memory.
    pub fn shared_share(&self) -> Share
        ensures { result ≡ shared_share self.now }
    {
        let lane = self.lane_share();
        Share {
            instances: self.numbers.instances - lane.instances,
            memories: self.numbers.memories - lane.memories,
            tables: self.numbers.tables - lane.tables,
        }
    }

    /// Whether the module is within the limits of the configuration. Takes no memory.
    ///
    /// # Errors
    ///
    /// What the module asks for past its limit: first its memory's least pages, then its table's least elements, its
    /// globals, and each function's frame in order.
    pub fn check(&self, valid: &Valid) -> Result<(), Over>
        ensures ok { OnOk result (first_over (load_limits self.now) (module_tree valid.now) ≡ None) }
        ensures over { IfErr result (λ o. first_over (load_limits self.now) (module_tree valid.now) ≡ Some (demand_of o)) }
    {
        let numbers = self.numbers();
        let module = valid.module();
        let pages = minimum(module.memories.as_slice());
        let elements = minimum(module.tables.as_slice());
        let globals = module.globals.len() as u64;
        within(Measure::Pages, pages, numbers.pages)?;
        within(Measure::Elements, elements, numbers.elements)?;
        within(Measure::Globals, globals, MOST_GLOBALS)?;
        let imported = module.imports.len();
        module.imports.are_few();
        module.functions.are_few();
        frames_within(imported, valid.frame_needs(), numbers.frame)
    }
}

// The least size of the one memory or table, or 0 where there is none.
fn minimum(limits: &[Limits]) -> u64
    ensures { result ≡ minimum_of limits.now }
{
    limits.first().map_or(0, |l| l.min as u64)
}

// A demand is at most its limit.
fn within(which: Measure, value: u64, limit: u32) -> Result<(), Over>
    ensures ok { OnOk result (value ≤ limit) }
    ensures over { IfErr result (λ o. (limit < value) × (o ≡ record { which = which; value = value; limit = limit })) }
{
    if value <= limit as u64 {
        Ok(())
    } else {
        Err(Over {
            which,
            value,
            limit: limit as u64,
        })
    }
}

// Each frame need is at most the limit, or the first that is not, of functions numbered from `first` on.
fn frames_within(first: usize, needs: &[u64], limit: u32) -> Result<(), Over>
    requires { first + length needs.now < 2 ^ 64 }
    ensures ok { OnOk result (first_frame_over first limit needs.now ≡ None) }
    ensures over { IfErr result (λ o. first_frame_over first limit needs.now ≡ Some (demand_of o)) }
{
    for (place, need) in needs.iter().enumerate() {
        within(Measure::Frame(first + place), *need, limit)?;
    }
    Ok(())
}
