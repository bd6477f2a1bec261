//! What a request file asks for, and why one is refused.
ghost use Rattle.std.specs.Prelude.{◌≡◌, ◌≤◌, Some, false, length, map};
ghost use Rattle.request_text.specs.Refusal.{reason_text};
ghost use Rattle.request_text.specs.Profiles.{has_tenants, modules_profile};
ghost use Rattle.request_text.specs.Quiet.{quiet, quiet_directive};
ghost use Rattle.request_text.specs.Text.{AreRequests, MayRunInSlices};

use crate::file_profile::FileProfile;
use pool_limits::{MOST_TENANTS, Want};
use request_calls::Invocation;
use std::fmt;
use std::marker::Model;
use thiserror::Error;
use wasm_values::{Items, Profile};

/// The greatest size of a request file, in bytes.
pub const MOST_BYTES: usize = 67_108_864;

/// The greatest length of the name of a module or a tenant, in bytes.
pub const MOST_NAME_BYTES: usize = 64;

/// The greatest number of module lines of a request file.
pub const MOST_MODULES: usize = 1_048_576;

/// The greatest number of call lines of a request file.
pub const MOST_CALLS: usize = 1_000_000;

/// One directive of a request file.
#[derive(Drop)]
pub enum Directive {
    /// The bytes of a module binary, known by a name from here on.
    Module {
        name: Items<u8>,
        bytes: Items<u8>,
    },
    /// A call, by a `call` or a `send` line. `tenant` is the number of the tenant whose slots it has where workers share them:
    /// that of its `tenant` line among these, from 1, or 0. `module` is the place of its module line among the module lines,
    /// from 0, and `retired` whether a retire line of its module stands before it.
    Call {
        tenant: u32,
        module: u32,
        retired: bool,
        invocation: Invocation,
    },
    /// The retirement of a module: each call of it that stands behind is refused. `module` is the place of its module line among
    /// the module lines, from 0, and `name` its name.
    Retire {
        module: u32,
        name: Items<u8>,
    },
}

/// What a request file asks for, which contracts see as the profile of its modules, whether each call is made whole, what
/// tenants 1, 2, .. want, and the list of its directives, in file order. `parse` alone makes one.
#[derive(Drop)]
pub struct Requests {
    profile: FileProfile,
    wants: Vec<Want>,
    directives: Vec<Directive>,
}

impl Model for Requests {
    ghost use Rattle.request_text.specs.Profiles.{has_tenants, modules_profile};
    ghost use Rattle.request_text.specs.Text.{Asked, IsFile};

    ghost Value = { Asked };

    ghost view = { λ r. record { profile = modules_profile r.profile; whole = has_tenants r.profile; wants = r.wants.items; directives = r.directives.items } };

    ghost invariant = { λ r. IsFile r.profile r.wants.items r.directives.items };
}

impl Directive {
    // From here on its line shows no bytes.
    fn show_no_bytes(&mut self)
        ensures { self.new ≡ quiet_directive self.old }
    {
        if let Directive::Call { invocation, .. } = self {
            invocation.shows = false;
        }
    }
}

// From here on no line shows bytes.
#[tactic(auto, using(std::proofs::lemmas::List::Edits::map_over_more))]
fn show_no_bytes(directives: &mut Vec<Directive>)
    ensures { directives.new.items ≡ map quiet_directive directives.old.items }
{
    for directive in directives.iter_mut() {
        directive.show_no_bytes();
    }
}

impl Requests {
    // The requests of these directives, in this profile, of tenants that want this. Takes no memory.
    pub(crate) fn new(profile: FileProfile, wants: Vec<Want>, directives: Vec<Directive>) -> Self
        requires lawful { AreRequests wants.items directives.items }
        requires slices { has_tenants profile ≡ false → MayRunInSlices wants.items directives.items }
        ensures profile { result.profile ≡ modules_profile profile }
        ensures whole { result.whole ≡ has_tenants profile }
        ensures wants { result.wants ≡ wants.items }
        ensures directives { result.directives ≡ directives.items }
    {
        Requests {
            profile,
            wants,
            directives,
        }
    }

    /// The same requests, where no line shows bytes that a call answers. Takes no memory.
    #[tactic(auto, using(crate::proofs::QuietLemmas::quiet_requests, crate::proofs::QuietLemmas::quiet_in_slices))]
    pub fn quiet(self) -> Requests
        ensures { result ≡ quiet self }
    {
        let Requests {
            profile,
            wants,
            mut directives,
        } = self;
        show_no_bytes(&mut directives);
        Requests::new(profile, wants, directives)
    }

    /// The profile in which the modules are read.
    pub fn profile(&self) -> Profile
        ensures { result ≡ self.now.profile }
    {
        self.profile.of_modules()
    }

    /// Whether each call is made whole, and not in slices, as those of a file are from profile 4 on. Where they may be made in slices,
    /// no tenant wants a share and no module is retired.
    pub fn runs_whole(&self) -> bool
        ensures whole { result ≡ self.now.whole }
        ensures slices { self.now.whole ≡ false → MayRunInSlices self.now.wants self.now.directives }
    {
        self.profile.runs_whole()
    }

    /// What tenants 1, 2, .. want of the slots.
    pub fn wants(&self) -> &[Want]
        ensures all { result.now ≡ self.now.wants }
        ensures few { length result.now ≤ MOST_TENANTS }
    {
        self.wants.as_slice()
    }

    /// The directives: at most `MOST_MODULES` module lines and `MOST_CALLS` call lines. The module of each call and of each
    /// retire line is a module line before it, a call is `retired` exactly where a retire line before it has its module, its tenant
    /// is 0 or one of those that want a share, and no module is retired twice.
    pub fn directives(&self) -> &[Directive]
        ensures all { result.now ≡ self.now.directives }
        ensures lawful { AreRequests self.now.wants self.now.directives }
    {
        self.directives.as_slice()
    }
}

/// Why a line of a request file is refused: the first of these that applies, in this order. Source:
/// `specs/Text.antt`, `requests_after`.
#[derive(Clone, Copy, Debug, PartialEq, Eq)]
pub enum Reason {
    /// A byte is outside 0x20 to 0x7E.
    BadByte,
    /// The first word is none of `profile`, `module` and `call`, nor, from profile 3 on, `send`, nor, from profile 4 on, `tenant`
    /// or `for`, nor, from profile 5 on, `retire`.
    UnknownDirective,
    /// `profile` where a line that isn't skipped stands before.
    LateProfile,
    /// `profile` without exactly one more word, which is `1`, `2`, `3`, `4` or `5`.
    BadProfile,
    /// `module` without exactly two more words, `call` with fewer than three, `send` with fewer than four, `tenant` without
    /// exactly five, or `for` or `retire` without exactly one.
    BadWords,
    /// The name on a module line, a tenant line or a `for` line has more than 64 bytes.
    BadName,
    /// A module's bytes have an odd number of digits, or a byte that is no hex digit.
    BadHex,
    /// A number of a share isn't digits alone, or is above 1,024, or one of the first three is 0.
    BadShare,
    /// An earlier module line has the name of this module line, or an earlier tenant line that of this tenant line.
    NameUsedTwice,
    /// 1,048,576 module lines stand before.
    TooManyModules,
    /// 15 tenant lines stand before.
    TooManyTenants,
    /// The tenants so far, this one among them, want more together than there is for them.
    ShareTooLarge,
    /// No earlier module line has this name.
    UnknownModule,
    /// No earlier tenant line has this name.
    UnknownTenant,
    /// An earlier retire line has the name of this retire line.
    RetiredTwice,
    /// The fuel isn't digits alone, or is above 4,294,967,295.
    BadFuel,
    /// A request is neither `-` nor an even number of hex digits.
    BadRequest,
    /// A request has more than 65,536 bytes.
    RequestTooLong,
    /// An argument is no `i32:n` or `i64:n` with n in the range of its type, read as signed or as unsigned.
    BadArgument,
    /// 1,000,000 call lines stand before.
    TooManyCalls,
}

impl Reason {
    /// The reason in words.
    pub fn text(self) -> &'static str
        ensures { result.now ≡ reason_text self }
    {
        match self {
            Reason::BadByte => "bad byte",
            Reason::UnknownDirective => "unknown directive",
            Reason::LateProfile => "late profile",
            Reason::BadProfile => "bad profile",
            Reason::BadWords => "bad words",
            Reason::BadName => "bad name",
            Reason::BadHex => "bad hex",
            Reason::BadShare => "bad share",
            Reason::NameUsedTwice => "name used twice",
            Reason::TooManyModules => "too many modules",
            Reason::TooManyTenants => "too many tenants",
            Reason::ShareTooLarge => "share too large",
            Reason::UnknownModule => "unknown module",
            Reason::UnknownTenant => "unknown tenant",
            Reason::RetiredTwice => "retired twice",
            Reason::BadFuel => "bad fuel",
            Reason::BadRequest => "bad request",
            Reason::RequestTooLong => "request too long",
            Reason::BadArgument => "bad argument",
            Reason::TooManyCalls => "too many calls",
        }
    }
}

impl fmt::Display for Reason {
    ghost output = { λ reason. Some (reason_text reason) };

    fn fmt<W: fmt::Write>(&self, f: &mut fmt::Formatter<W>) -> fmt::Result {
        f.write_str(self.text())
    }
}

/// Why a request file is not read.
#[derive(Clone, Copy, Debug, PartialEq, Eq, Error)]
pub enum ParseFault {
    /// The first bad line, counted from 1.
    #[error("line {line}: {reason}")]
    TextFault { line: u32, reason: Reason },
    #[error("file too long")]
    TooLong,
    #[error("out of memory")]
    NoMemory,
}
