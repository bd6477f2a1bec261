//! Valid modules.

ghost use Rattle.std.specs.Prelude.{◌≡◌, ◌<◌, ◌↔◌, ℕ, List, length, slice_get, IfSome, IfNone, IfOk, OnOk, IsErrOf, IsTrue, map};
ghost use Rattle.wasm_types.specs.Tree.{module_tree};
ghost use Rattle.wasm_values.specs.declared.profile.Profile.TheVariants.{Three};
ghost use Rattle.wasm_spec.specs.Need.{need};
ghost use Rattle.wasm_spec.specs.Validity.{IsSupported, IsValid, Exports};
ghost use Rattle.wasm_validate.specs.Checked.{IsValidated};
ghost use Rattle.wasm_validate.specs.ByName.{AreByName};
ghost use Rattle.wasm_validate.specs.Fault.{valid_fault};
ghost use Rattle.wasm_validate.specs.Locals.{HaveNoEmptyRun};
ghost use Rattle.wasm_validate.specs.declared.valid.ValidFault.TheVariants.{NoMemory};

use crate::floats::uses_floats;
use crate::functions::frame_needs;
use crate::imports::are_run_imports;
use crate::locals::without_empty_runs;
use crate::module::has_valid_parts;
use crate::names::{exported, exports_by_name};
use std::alloc::{AllocError, Global};
use std::marker::Model;
use thiserror::Error;
use wasm_checker::CheckFault;
use wasm_types::Module;
use wasm_values::Profile;

/// Why a module is refused.
#[derive(Clone, Copy, Debug, PartialEq, Eq, Error)]
pub enum ValidFault {
    /// It uses floats, or imports what the profile does not run.
    #[error("a module with floats or with imports that the profile does not run is not supported")]
    Unsupported,
    /// It is not valid. Source: Core Specification 1.0, section 3.4.
    #[error("the module is not valid")]
    Invalid,
    /// Memory was refused.
    #[error("out of memory")]
    NoMemory,
}

impl From<AllocError> for ValidFault {
    ghost from_gives = { λ _ e. e ≡ NoMemory };

    fn from(_e: AllocError) -> ValidFault {
        ValidFault::NoMemory
    }
}

impl From<CheckFault> for ValidFault {
    ghost from_gives = { λ fault e. e ≡ valid_fault fault };

    fn from(fault: CheckFault) -> ValidFault {
        match fault {
            CheckFault::Invalid => ValidFault::Invalid,
            CheckFault::NoMemory => ValidFault::NoMemory,
        }
    }
}

/// A valid module, the numbers of its exports by name, and what each of its functions' frames needs. Contracts see it as the
/// module.
pub struct Valid {
    module: Module,
    by_name: Vec<u32>,
    needs: Vec<u64>,
}

impl Model for Valid {
    ghost use Rattle.wasm_types.specs.declared.module.Module.{Module};
    ghost use Rattle.wasm_validate.specs.Checked.{IsValidated};

    ghost Value = { Module };

    ghost view = { λ v. v.module };

    ghost invariant = { λ v. IsValidated v.module v.by_name.items v.needs.items };
}

impl Drop for Valid {
    fn drop(self) {
        let Valid {
            module: _,
            by_name: _,
            needs: _,
        } = self;
    }
}

// Whether this host runs modules of this kind in a profile.
fn is_supported(alloc: Global, profile: Profile, m: &Module) -> Result<bool, AllocError>
    ensures { IfOk result (λ b. IsTrue b ↔ IsSupported profile (module_tree m.now)) }
{
    Ok(are_run_imports(profile, m) && !uses_floats(alloc, m)?)
}

// The numbers of a module's exports by name, and each function's frame need.
fn check_module(alloc: Global, m: &Module) -> Result<(Vec<u32>, Vec<u64>), CheckFault>
    ensures valid { OnOk result (IsValid (module_tree m.now)) }
    ensures by_name { IfOk result (λ v. AreByName m.now.exports v.0.items) }
    ensures needs { IfOk result (λ v. v.1.items ≡ map (need (module_tree m.now)) (module_tree m.now).functions) }
    ensures invalid { IsErrOf result CheckFault.Invalid → ¬ (IsValid (module_tree m.now)) }
{
    if !has_valid_parts(m) {
        return Err(CheckFault::Invalid);
    }
    let by_name = exports_by_name(alloc, m.exports.as_slice())?;
    let needs = frame_needs(alloc, m)?;
    Ok((by_name, needs))
}

/// The module, where this host runs it in the profile and it is valid, without the runs of no locals that its functions may have.
///
/// Source: Core Specification 1.0, section 3.4.10.
///
/// # Errors
///
/// `Unsupported` exactly where the module uses floats or has an import that the profile does not run, `Invalid` exactly where
/// it has neither and is not valid. `NoMemory` in place of any answer.
#[tactic(auto, using(wasm_spec::proofs::Supported::widest))]
pub fn validate(alloc: Global, profile: Profile, m: Module) -> Result<Valid, ValidFault>
    ensures tree { IfOk result (λ v. module_tree v ≡ module_tree m) }
    ensures supported { OnOk result (IsSupported profile (module_tree m)) }
    ensures valid { OnOk result (IsValid (module_tree m)) }
    ensures unsupported { IsErrOf result ValidFault.Unsupported → ¬ (IsSupported profile (module_tree m)) }
    ensures invalid { IsErrOf result ValidFault.Invalid → IsSupported profile (module_tree m) × ¬ (IsValid (module_tree m)) }
{
    if !is_supported(alloc, profile, &m)? {
        return Err(ValidFault::Unsupported);
    }
    let (by_name, needs) = check_module(alloc, &m)?;
    Ok(Valid {
        module: without_empty_runs(alloc, m),
        by_name,
        needs,
    })
}

impl Valid {
    /// The module.
    pub fn module(&self) -> &Module
        ensures same { result.now ≡ self.now }
        ensures supported { IsSupported Three (module_tree self.now) }
        ensures valid { IsValid (module_tree self.now) }
        ensures locals { HaveNoEmptyRun self.now }
    {
        &self.module
    }

    /// How many operands, locals and labels the frame of one of the module's own functions holds at most.
    ///
    /// The number is that among the module's own functions: 0 is the first one, whatever is imported. It is not the number that
    /// `function` gives, which is greater by the number of imports.
    pub fn frame_need(&self, function: u32) -> u64
        requires { function < length self.now.functions }
        ensures { IfSome (slice_get (module_tree self.now).functions function) (λ f. result ≡ need (module_tree self.now) f) }
    {
        self.needs[function as usize]
    }

    /// The frame need of each of the module's own functions, in their order.
    pub fn frame_needs(&self) -> &[u64]
        ensures { result.now ≡ map (need (module_tree self.now)) (module_tree self.now).functions }
    {
        &self.needs
    }

    /// The function that is exported under a name, if there is one, found in steps that grow with the logarithm of the number
    /// of exports. Its number counts the imported functions first, as the standard's do (section 2.5.1), and as `run` takes it.
    pub fn function(&self, export: &[u8]) -> Option<u32>
        ensures found { IfSome result (Exports self.now.exports export.now) }
        ensures none { IfNone result ((x : ℕ) → ¬ (Exports self.now.exports export.now x)) }
    {
        exported(
            self.module.exports.as_slice(),
            self.by_name.as_slice(),
            export,
        )
    }
}
