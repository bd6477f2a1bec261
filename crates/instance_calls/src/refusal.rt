//! Which function a call is of, or why it can't be made.
ghost use Rattle.std.specs.Prelude.{IfErr, IfOk};
ghost use Rattle.instance_calls.specs.CallWords.{IsRefusal, MayCall};

use crate::arguments::fit;
use call_payload::Call;
use module_store::{LoadedModule, Naming};
use thiserror::Error;

/// Why a call can't be made.
#[derive(Clone, Copy, Debug, PartialEq, Eq, Error)]
pub enum Refusal {
    #[error("no function is exported under this name")]
    NoExport,
    #[error("the arguments aren't of the function's types")]
    BadArgs,
}

/// The function that the module exports under the name that is asked, where it may be called with these arguments. Takes no memory.
///
/// # Errors
///
/// `NoExport` exactly where no function is exported under the name, and `BadArgs` exactly where one is and the arguments
/// aren't of its types.
pub fn find_function<N: Naming>(
    loaded: &LoadedModule<'_, N>,
    call: &Call<'_>,
) -> Result<u32, Refusal>
    ensures found { IfOk result (λ function. MayCall loaded.now.module.now.tree call.now.export.now function call.now.args.now) }
    ensures refused { IfErr result (IsRefusal loaded.now.module.now.tree call.now.export.now call.now.args.now) }
{
    let valid = loaded.valid();
    let Some(function) = valid.function(call.export) else {
        return Err(Refusal::NoExport);
    };
    if !fit(valid.module(), function, call.args) {
        return Err(Refusal::BadArgs);
    }
    Ok(function)
}
