//! What was read so far.
ghost use Rattle.std.specs.Prelude.{◌≡◌, ◌<◌, ◌∷◌, IfErr, IsTrue, OnOk, false, length, true};
ghost use Rattle.std.specs.List.{list_all};
ghost use Rattle.request_words.specs.Words.{is_printable, line_words};
ghost use Rattle.request_text.specs.Calls.{with_asked};
ghost use Rattle.request_text.specs.Profiles.{has_tenants};
ghost use Rattle.request_text.specs.Tenants.{for_after, tenant_after};
ghost use Rattle.request_text.specs.Text.{MayRunInSlices, asked_by, call_directive_of, call_of, declared_by, nothing_read, profile_after, profile_in, requests_after, send_directive_of, with_directive, with_tenants, words_after};
ghost use Rattle.request_text.specs.Reading.{Agrees, HasRoom, IsOwnPlace, Leaves};

use crate::directive::{other_directive, read_arguments, request};
use crate::fault::LineFault;
use crate::file_profile::FileProfile;
use crate::request::{Directive, Reason, Requests};
use crate::scope::Scope;
use call_payload::Payload;
use pool_limits::PoolConfig;
use request_calls::{Arguments, ExportName, Invocation};
use request_words::{
    from_word, fuel, is_comment, is_printable, leading_fuel, next_word, strip_word,
};
use std::alloc::Global;
use std::marker::Model;
use std::mem;

// The profile and the directives that were read so far, and what the next line is judged by.
#[derive(Drop)]
pub(crate) struct Reading {
    profile: Option<FileProfile>,
    directives: Vec<Directive>,
    scope: Scope,
}

impl Model for Reading {
    ghost use Rattle.request_text.specs.Text.{HaveDeclared, ReadLines};

    ghost Value = { ReadLines };

    ghost view = { λ r. record { profile = r.profile; tenants = r.scope.tenants; directives = r.directives.items } };

    ghost invariant = { λ r. HaveDeclared (record { profile = r.profile; tenants = r.scope.tenants; directives = r.directives.items }) r.scope };
}

impl Reading {
    // Nothing is read yet. Takes no memory.
    pub(crate) fn new(alloc: Global) -> Reading
        ensures { result ≡ nothing_read }
    {
        Reading {
            profile: None,
            directives: Vec::new(alloc),
            scope: Scope::new(alloc),
        }
    }

    // The profile of the lines that follow.
    fn profile(&self) -> FileProfile
        ensures { result ≡ profile_in self.now }
    {
        self.profile.unwrap_or(FileProfile::One)
    }

    // Adds one more directive.
    #[inline(always)]
    fn add(&mut self, alloc: Global, directive: Directive) -> Result<(), LineFault>
        requires { HasRoom (declared_by self.old) directive }
        ensures more { OnOk result (self.new ≡ with_directive self.old directive) }
        ensures memory { IfErr result (λ fault. fault ≡ LineFault.NoMemory) }
    {
        self.directives.reserve(1).map_err(|_| LineFault::NoMemory)?;
        self.scope.add(alloc, &directive)?;
        self.directives.push_reserved(directive);
        Ok(())
    }

    // The reading once the words after `profile` are read.
    #[tactic(auto, unfolding(crate::specs::Text::profile_after))]
    fn after_profile(self, words: &[u8]) -> Result<Reading, Reason>
        ensures { result ≡ profile_after self (line_words words.now) }
    {
        if self.profile.is_some() || !self.directives.is_empty() {
            return Err(Reason::LateProfile);
        }
        let profile = FileProfile::read(words)?;
        Ok(Reading {
            profile: Some(profile),
            ..self
        })
    }

    // The reading once the words after `tenant` are read.
    fn after_tenant(
        self,
        alloc: Global,
        config: &PoolConfig,
        words: &[u8],
    ) -> Result<Reading, LineFault>
        ensures { Agrees result (with_tenants self (tenant_after config.now self.tenants (line_words words.now))) }
    {
        let scope = self.scope.after_tenant(alloc, config, words)?;
        Ok(Reading { scope, ..self })
    }

    // The reading once the words after `for` are read.
    fn after_for(self, words: &[u8]) -> Result<Reading, Reason>
        ensures { result ≡ with_tenants self (for_after self.tenants (line_words words.now)) }
    {
        let scope = self.scope.after_for(words)?;
        Ok(Reading { scope, ..self })
    }

    // Reads the words after `profile`.
    #[inline(never)]
    fn read_profile(&mut self, alloc: Global, words: &[u8]) -> Result<(), LineFault>
        ensures { Leaves result self.new (profile_after self.old (line_words words.now)) }
    {
        let before = mem::replace(self, Reading::new(alloc));
        *self = before.after_profile(words)?;
        Ok(())
    }

    // Reads the words after `tenant`.
    #[inline(never)]
    fn read_tenant(
        &mut self,
        alloc: Global,
        config: &PoolConfig,
        words: &[u8],
    ) -> Result<(), LineFault>
        ensures { Leaves result self.new (with_tenants self.old (tenant_after config.now self.old.tenants (line_words words.now))) }
    {
        let before = mem::replace(self, Reading::new(alloc));
        *self = before.after_tenant(alloc, config, words)?;
        Ok(())
    }

    // Reads the words after `for`.
    #[inline(never)]
    fn read_for(&mut self, alloc: Global, words: &[u8]) -> Result<(), LineFault>
        ensures { Leaves result self.new (with_tenants self.old (for_after self.old.tenants (line_words words.now))) }
    {
        let before = mem::replace(self, Reading::new(alloc));
        *self = before.after_for(words)?;
        Ok(())
    }

    // Adds a call of the module at this place, which may be retired, with the arguments that the words are, by the tenant whose calls
    // follow.
    #[inline(always)]
    #[tactic(auto, unfolding(crate::specs::Text::call_of))]
    fn add_call(
        &mut self,
        alloc: Global,
        place: u32,
        export: &[u8],
        fuel: u32,
        request: Option<Payload>,
        words: &[u8],
    ) -> Result<(), LineFault>
        requires placed { place < length (declared_by self.old).names }
        requires own { IsOwnPlace (declared_by self.old).names place }
        ensures { Leaves result self.new (with_asked self.old (call_of (declared_by self.old) place export.now fuel request (line_words words.now))) }
    {
        let mut args = Arguments::new(alloc);
        read_arguments(alloc, words, &mut args)?;
        if !self.scope.takes_call() {
            return Err(LineFault::Refused(Reason::TooManyCalls));
        }
        let invocation = Invocation {
            export: ExportName::from_slice(alloc, export)?,
            fuel,
            shows: request.is_some(),
            request,
            args,
        };
        let directive = Directive::Call {
            tenant: self.scope.tenant(),
            module: place,
            retired: self.scope.is_retired(place),
            invocation,
        };
        self.add(alloc, directive)
    }

    // Reads the words after `call`.
    #[inline(never)]
    #[tactic(auto, unfolding(crate::specs::Text::call_directive_of))]
    fn read_call(&mut self, alloc: Global, words: &[u8]) -> Result<(), LineFault>
        ensures { Leaves result self.new (with_asked self.old (call_directive_of (declared_by self.old) (line_words words.now))) }
    {
        let (name, rest) = next_word(words).ok_or(Reason::BadWords)?;
        let (export, rest) = next_word(rest).ok_or(Reason::BadWords)?;
        let text = from_word(rest).ok_or(Reason::BadWords)?;
        let module = self.scope.place(name).ok_or(Reason::UnknownModule)?;
        let (fuel, rest) = leading_fuel(text).ok_or(Reason::BadFuel)?;
        self.add_call(alloc, module, export, fuel, None, rest)
    }

    // Reads the words after `send`.
    #[inline(never)]
    #[tactic(auto, unfolding(crate::specs::Text::send_directive_of))]
    fn read_send(&mut self, alloc: Global, words: &[u8]) -> Result<(), LineFault>
        ensures { Leaves result self.new (with_asked self.old (send_directive_of (declared_by self.old) (line_words words.now))) }
    {
        let (name, rest) = next_word(words).ok_or(Reason::BadWords)?;
        let (export, rest) = next_word(rest).ok_or(Reason::BadWords)?;
        let (fuel_word, rest) = next_word(rest).ok_or(Reason::BadWords)?;
        let (digits, rest) = next_word(rest).ok_or(Reason::BadWords)?;
        let module = self.scope.place(name).ok_or(Reason::UnknownModule)?;
        let fuel = fuel(fuel_word).ok_or(Reason::BadFuel)?;
        let request = request(alloc, digits)?;
        self.add_call(alloc, module, export, fuel, Some(request), rest)
    }

    // Reads a line whose first word is this one, with these behind it.
    #[inline(never)]
    #[tactic(auto, unfolding(crate::specs::Text::words_after), using(crate::proofs::LineLemmas::call_after, crate::proofs::LineLemmas::send_after))]
    fn read_first(
        &mut self,
        alloc: Global,
        config: &PoolConfig,
        word: &[u8],
        words: &[u8],
    ) -> Result<(), LineFault>
        ensures { Leaves result self.new (words_after config.now self.old (word.now ∷ line_words words.now)) }
    {
        let profile = self.profile();
        if word == b"call".as_slice() {
            self.read_call(alloc, words)
        } else if profile.sends() && word == b"send".as_slice() {
            self.read_send(alloc, words)
        } else if word == b"profile".as_slice() {
            self.read_profile(alloc, words)
        } else if profile.has_tenants() && word == b"tenant".as_slice() {
            self.read_tenant(alloc, config, words)
        } else if profile.has_tenants() && word == b"for".as_slice() {
            self.read_for(alloc, words)
        } else {
            let directive = other_directive(alloc, profile, &self.scope, word, words)?;
            self.add(alloc, directive)
        }
    }

    // Reads a line of these words. Most lines of a large file are calls.
    #[tactic(auto, using(crate::proofs::LineLemmas::nothing_after, crate::proofs::LineLemmas::call_after))]
    fn read_words(
        &mut self,
        alloc: Global,
        config: &PoolConfig,
        words: &[u8],
    ) -> Result<(), LineFault>
        ensures { Leaves result self.new (words_after config.now self.old (line_words words.now)) }
    {
        if let Some(rest) = strip_word(words, b"call") {
            return self.read_call(alloc, rest);
        }
        match next_word(words) {
            Some((word, rest)) => self.read_first(alloc, config, word, rest),
            None => Ok(()),
        }
    }

    // Reads one more line, of which it may be known that it is printable. Nothing is read behind a line that is refused, so what is left
    // then is not said.
    #[tactic(auto, unfolding(crate::specs::Text::requests_after))]
    pub(crate) fn read(
        &mut self,
        alloc: Global,
        config: &PoolConfig,
        line: &[u8],
        known: bool,
    ) -> Result<(), LineFault>
        requires { IsTrue known → list_all is_printable line.now ≡ true }
        ensures { Leaves result self.new (requests_after config.now self.old line.now) }
    {
        if is_comment(line) {
            return Ok(());
        }
        if !known && !is_printable(line) {
            return Err(LineFault::Refused(Reason::BadByte));
        }
        self.read_words(alloc, config, line)
    }

    // What a file of the lines that were read asks for. Takes no memory.
    pub(crate) fn requests(self) -> Requests
        requires { has_tenants (profile_in self) ≡ false → MayRunInSlices self.tenants.wants self.directives }
        ensures { result ≡ asked_by self }
    {
        let profile = self.profile();
        let Reading {
            profile: _,
            directives,
            scope,
        } = self;
        Requests::new(profile, scope.into_wants(), directives)
    }
}
