//! The calls that are due.
ghost use Rattle.std.specs.Prelude.{◌≡◌, ◌≤◌, IfOk};
ghost use Rattle.request_text.specs.declared.request.TheConstants.{MOST_CALLS};
ghost use Rattle.request_text.specs.Text.{call_count};
ghost use Rattle.run_books.specs.Due.{dues_from};

use call_jobs::Due;
use request_text::Directive;
use std::alloc::Global;
use wasm_values::NoMemory;

/// The calls of a request file, numbered from 1, each with a copy of what it asks.
///
/// # Errors
///
/// `NoMemory` where memory is refused.
pub fn dues(alloc: Global, requests: &[Directive]) -> Result<Vec<Due>, NoMemory>
    requires { call_count requests.now ≤ MOST_CALLS }
    ensures { IfOk result (λ calls. calls.items ≡ dues_from 1 requests.now) }
{
    let mut calls = Vec::new(alloc);
    let mut number = 0;
    for directive in requests {
        if let Directive::Call {
            tenant,
            retired,
            invocation,
            ..
        } = directive
        {
            number += 1;
            let call = Due {
                number,
                tenant: *tenant,
                retired: *retired,
                invocation: invocation.copy(alloc)?,
            };
            calls.push(call).map_err(|_| NoMemory)?;
        }
    }
    Ok(calls)
}
