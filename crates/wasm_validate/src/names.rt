//! Exports by their names.

ghost use Rattle.std.specs.Prelude.{◌≡◌, ◌≢◌, ◌↔◌, ◌≤◌, ◌^◌, ℕ, AllPairs, IsTrue, IsErr, IsErrOf, IfOk, IfSome, IfNone, OnOk, IsPermutation, IsSorted, length, slice_get, option_and_then};
ghost use Rattle.std.specs.List.{range_with_len};
ghost use Rattle.wasm_spec.specs.Validity.{Exports};
ghost use Rattle.wasm_validate.specs.ByName as names;
ghost use Rattle.wasm_validate.specs.ByName.{AreByName, Rise};

use std::alloc::{AllocError, Global};
use std::cmp::Ordering;
use wasm_checker::CheckFault;
use wasm_types::{Export, ExportDesc};

// The name of an export, empty where there is none of this number.
fn name_of(exports: &[Export], i: u32) -> &[u8]
    ensures { result.now ≡ names.name_of exports.now i }
{
    match exports.get(i as usize) {
        Some(e) => e.name.as_slice(),
        None => &[],
    }
}

// How an export's name compares with this one.
fn compare(exports: &[Export], i: u32, name: &[u8]) -> Ordering
    ensures { result ≡ names.compare (names.name_of exports.now i) name.now }
{
    name_of(exports, i).cmp(&name)
}

// How many exports there are: 2^32 of them, which no spelled module has, are taken as want of memory.
fn count(exports: &[Export]) -> Result<u32, AllocError>
    ensures is { IfOk result (λ n. n ≡ length exports.now) }
    ensures refused { IsErr result → 2 ^ 32 ≤ length exports.now }
{
    u32::try_from(exports.len()).map_err(|_| AllocError)
}

// The numbers of all exports.
fn numbers(alloc: Global, exports: &[Export]) -> Result<Vec<u32>, AllocError>
    ensures { IfOk result (λ v. v.items ≡ range_with_len 0 (length exports.now)) }
{
    let count = count(exports)?;
    (0..count).collect(alloc)
}

// The numbers of all exports, sorted by name.
fn sorted(alloc: Global, exports: &[Export]) -> Result<Vec<u32>, AllocError>
    ensures all { IfOk result (λ v. IsPermutation (range_with_len 0 (length exports.now)) v.items) }
    ensures sorted { IfOk result (λ v. IsSorted (names.of_numbers exports.now) v.items) }
{
    let mut numbers = numbers(alloc, exports)?;
    numbers.sort_unstable_by(|i, j| compare(exports, *i, name_of(exports, *j)));
    Ok(numbers)
}

// Whether each export's name is below the next.
fn rise(exports: &[Export], numbers: &[u32]) -> bool
    ensures { IsTrue result ↔ Rise exports.now numbers.now (length numbers.now) }
{
    for k in 1..numbers.len() {
        if compare(exports, numbers[k - 1], name_of(exports, numbers[k])) != Ordering::Less {
            return false;
        }
    }
    true
}

/// The numbers of all exports, sorted by name, where no two have one name.
///
/// # Errors
///
/// `Invalid` exactly where two have one name. `NoMemory` in place of any answer.
pub(crate) fn exports_by_name(alloc: Global, exports: &[Export]) -> Result<Vec<u32>, CheckFault>
    ensures sorted { IfOk result (λ v. AreByName exports.now v.items) }
    ensures differ { OnOk result (AllPairs (λ a b. a.name ≢ b.name) exports.now) }
    ensures invalid { IsErrOf result CheckFault.Invalid → ¬ (AllPairs (λ a b. a.name ≢ b.name) exports.now) }
{
    let numbers = sorted(alloc, exports)?;
    if rise(exports, numbers.as_slice()) {
        Ok(numbers)
    } else {
        Err(CheckFault::Invalid)
    }
}

// The function of this export, if it is one.
fn function_of(exports: &[Export], i: u32) -> Option<u32>
    ensures { result ≡ option_and_then names.function_exported (slice_get exports.now i) }
{
    match exports.get(i as usize)?.desc {
        ExportDesc::Func(x) => Some(x),
        _ => None,
    }
}

/// The function that is exported under a name, if there is one, found in steps that grow with the logarithm of the number of
/// exports.
pub(crate) fn exported(exports: &[Export], by_name: &[u32], name: &[u8]) -> Option<u32>
    requires { AreByName exports.now by_name.now }
    ensures found { IfSome result (Exports exports.now name.now) }
    ensures none { IfNone result ((x : ℕ) → ¬ (Exports exports.now name.now x)) }
{
    match by_name.binary_search_by(|i| compare(exports, *i, name)) {
        Ok(at) => function_of(exports, by_name[at]),
        Err(_) => None,
    }
}
