//! Loading: a module from its bytes, with its image.
ghost use Rattle.std.specs.Prelude.{◌≡◌, ◌≢◌, Ok, IfErr, IfOk};
ghost use Rattle.wasm_types.specs.Tree.{module_tree};
ghost use Rattle.wasm_spec.specs.Loading.{Loads};
ghost use Rattle.initial_image.specs.Image.{IsImageOf};
ghost use Rattle.pool_limits.specs.Limits.{load_limits};
ghost use Rattle.module_store.specs.Faults.{IsRefusal};
ghost use Rattle.module_store.specs.declared.fault.LoadFault.TheVariants as fault;

use crate::fault::LoadFault;
use initial_image::{Image, build};
use pool_limits::PoolConfig;
use std::alloc::Global;
use wasm_decode::decode;
use wasm_validate::{Valid, validate};
use wasm_values::Profile;

// The module that the bytes spell in a profile, where it is supported, valid and within the limits, and its image. `TooMany` is
// no answer.
pub(crate) fn load(
    alloc: Global,
    config: &PoolConfig,
    profile: Profile,
    bytes: &[u8],
) -> Result<(Valid, Image), LoadFault>
    ensures loaded { IfOk result (λ l. Loads profile bytes.now (load_limits config.now) (Ok (module_tree l.0))) }
    ensures image { IfOk result (λ l. IsImageOf (module_tree l.0) l.1) }
    ensures refused { IfErr result (IsRefusal profile bytes.now (load_limits config.now)) }
    ensures counted { IfErr result (λ e. e ≢ fault.TooMany) }
{
    let module = decode(alloc, profile, bytes)?;
    let valid = validate(alloc, profile, module)?;
    config.check(&valid)?;
    let image = build(alloc, &valid)?;
    Ok((valid, image))
}
