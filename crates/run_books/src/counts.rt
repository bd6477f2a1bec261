//! How many calls and modules there are.
ghost use Rattle.std.specs.Prelude.{◌≡◌, ◌≤◌, length};
ghost use Rattle.std.specs.List.{count_by};
ghost use Rattle.module_store.specs.declared.desk.TheConstants.{MOST_MODULES};
ghost use Rattle.request_text.specs.declared.request.TheConstants.{MOST_CALLS};
ghost use Rattle.request_text.specs.Text.{AreRequests, call_count, is_call, modules_of};
ghost use Rattle.run_books.specs.Entries.{is_module};
ghost use Rattle.run_books.specs.Books.{IsSpan, calls_in};

use crate::books::Span;
use request_text::{Directive, Requests};

fn is_call(directive: &Directive) -> bool
    ensures { result ≡ is_call directive.now }
{
    match directive {
        Directive::Module { .. } | Directive::Retire { .. } => false,
        Directive::Call { .. } => true,
    }
}

// How many calls there are.
pub(crate) fn count_calls(requests: &[Directive]) -> u32
    requires { call_count requests.now ≤ MOST_CALLS }
    ensures { result ≡ call_count requests.now }
{
    let calls = requests.iter().filter(|directive| is_call(directive));
    calls.count() as u32
}

fn is_module(directive: &Directive) -> bool
    ensures { result ≡ is_module directive.now }
{
    match directive {
        Directive::Module { .. } => true,
        Directive::Call { .. } | Directive::Retire { .. } => false,
    }
}

// How many module lines there are.
fn count_module_lines(requests: &[Directive]) -> u32
    requires { count_by is_module requests.now ≤ MOST_MODULES }
    ensures { result ≡ count_by is_module requests.now }
{
    let modules = requests.iter().filter(|directive| is_module(directive));
    modules.count() as u32
}

/// How many modules a request file has.
pub fn count_modules(requests: &Requests) -> u32
    ensures count { result ≡ length (modules_of requests.now.directives) }
    ensures few { result ≤ MOST_MODULES }
{
    count_module_lines(requests.directives())
}

/// How many calls a round of a request file has.
pub fn calls_in(requests: &Requests, span: Span) -> u32
    requires { IsSpan requests.now.directives span }
    ensures count { result ≡ calls_in requests.now.directives span }
    ensures lawful { AreRequests requests.now.wants requests.now.directives }
{
    count_calls(&requests.directives()[span.from..span.to])
}
