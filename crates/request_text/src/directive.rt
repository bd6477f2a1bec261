//! One line of a request file is read.
ghost use Rattle.std.specs.Prelude.{◌≡◌, ◌&&◌, [], false, IfOk, codes};
ghost use Rattle.std.specs.Option.{ok_or, option_map};
ghost use Rattle.std.specs.Str.{bytes_eq};
ghost use Rattle.request_words.specs.Words.{arguments_of, hex_bytes, line_words};
ghost use Rattle.request_text.specs.Profiles.{sends};
ghost use Rattle.request_text.specs.Text.{directive_of, module_directive_of, request_of, retire_directive_of};
ghost use Rattle.request_text.specs.Reading.{Agrees, HasRoom, Leaves};

use crate::fault::LineFault;
use crate::file_profile::FileProfile;
use crate::request::{Directive, MOST_NAME_BYTES, Reason};
use crate::scope::Scope;
use call_payload::Payload;
use request_calls::Arguments;
use request_words::{from_word, leading_argument, next_word};
use std::alloc::Global;
use wasm_values::Items;

// A copy of some bytes.
fn copied(alloc: Global, bytes: &[u8]) -> Result<Items<u8>, LineFault>
    ensures { Agrees result (Ok bytes.now) }
{
    let copy = Vec::from_slice(alloc, bytes)?;
    Ok(Items::new(copy))
}

// What was spelt, or this reason where nothing was.
fn spelt(bytes: Option<Vec<u8>>, reason: Reason) -> Result<Items<u8>, Reason>
    ensures { result ≡ ok_or (option_map (λ b. b.items) bytes) reason }
{
    match bytes {
        Some(bytes) => Ok(Items::new(bytes)),
        None => Err(reason),
    }
}

// The bytes that hex digits spell, or this reason.
fn hex_bytes(alloc: Global, digits: &[u8], reason: Reason) -> Result<Items<u8>, LineFault>
    ensures { Agrees result (ok_or (hex_bytes digits.now) reason) }
{
    let bytes = request_words::hex_bytes(alloc, digits)?;
    Ok(spelt(bytes, reason)?)
}

// What the words after `module` ask for.
#[inline(never)]
#[tactic(auto, unfolding(crate::specs::Text::module_directive_of))]
fn module_directive(alloc: Global, scope: &Scope, words: &[u8]) -> Result<Directive, LineFault>
    ensures meaning { Agrees result (module_directive_of scope.now (line_words words.now)) }
    ensures room { IfOk result (HasRoom scope.now) }
{
    let (name, rest) = next_word(words).ok_or(Reason::BadWords)?;
    let (digits, rest) = next_word(rest).ok_or(Reason::BadWords)?;
    if next_word(rest).is_some() {
        return Err(LineFault::Refused(Reason::BadWords));
    }
    if name.len() > MOST_NAME_BYTES {
        return Err(LineFault::Refused(Reason::BadName));
    }
    let bytes = hex_bytes(alloc, digits, Reason::BadHex)?;
    if scope.place(name).is_some() {
        return Err(LineFault::Refused(Reason::NameUsedTwice));
    }
    if !scope.takes_module() {
        return Err(LineFault::Refused(Reason::TooManyModules));
    }
    let name = copied(alloc, name)?;
    Ok(Directive::Module { name, bytes })
}

// Reads the arguments that the words give.
pub(crate) fn read_arguments(
    alloc: Global,
    words: &[u8],
    args: &mut Arguments,
) -> Result<(), LineFault>
    requires { args.old ≡ [] }
    ensures { Leaves result args.new (ok_or (arguments_of (line_words words.now)) Reason.BadArgument) }
{
    let mut rest = words;
    while let Some(text) = from_word(rest) {
        let (arg, after) = leading_argument(text).ok_or(Reason::BadArgument)?;
        args.push(alloc, arg)?;
        rest = after;
    }
    Ok(())
}

// The bytes of a request.
#[tactic(auto, unfolding(crate::specs::Text::request_of))]
pub(crate) fn request(alloc: Global, word: &[u8]) -> Result<Payload, LineFault>
    ensures { Agrees result (request_of word.now) }
{
    let bytes = if word == b"-".as_slice() {
        Items::new(Vec::new(alloc))
    } else {
        hex_bytes(alloc, word, Reason::BadRequest)?
    };
    let request = Payload::new(bytes).ok_or(Reason::RequestTooLong)?;
    Ok(request)
}

// What the words after `retire` ask for.
#[inline(never)]
#[tactic(auto, unfolding(crate::specs::Text::retire_directive_of))]
fn retire_directive(alloc: Global, scope: &Scope, words: &[u8]) -> Result<Directive, LineFault>
    ensures meaning { Agrees result (retire_directive_of scope.now (line_words words.now)) }
    ensures room { IfOk result (HasRoom scope.now) }
{
    let (name, rest) = next_word(words).ok_or(Reason::BadWords)?;
    if next_word(rest).is_some() {
        return Err(LineFault::Refused(Reason::BadWords));
    }
    let module = scope.place(name).ok_or(Reason::UnknownModule)?;
    if scope.is_retired(module) {
        return Err(LineFault::Refused(Reason::RetiredTwice));
    }
    let name = copied(alloc, name)?;
    Ok(Directive::Retire { module, name })
}

// What a line asks for whose first word is this one, which is neither `call` nor `send`, with these behind it.
#[tactic(auto, unfolding(crate::specs::Text::directive_of))]
pub(crate) fn other_directive(
    alloc: Global,
    profile: FileProfile,
    scope: &Scope,
    word: &[u8],
    words: &[u8],
) -> Result<Directive, LineFault>
    requires call { bytes_eq word.now (codes "call") ≡ false }
    requires send { (sends profile && bytes_eq word.now (codes "send")) ≡ false }
    ensures meaning { Agrees result (directive_of profile scope.now word.now (line_words words.now)) }
    ensures room { IfOk result (HasRoom scope.now) }
{
    if word == b"module".as_slice() {
        module_directive(alloc, scope, words)
    } else if profile.retires() && word == b"retire".as_slice() {
        retire_directive(alloc, scope, words)
    } else {
        Err(LineFault::Refused(Reason::UnknownDirective))
    }
}
