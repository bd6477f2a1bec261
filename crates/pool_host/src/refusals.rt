//! A call starts: its function is found, and its slots are taken.
ghost use Rattle.std.specs.Prelude.{◌≡◌, [], IfErr, IfOk, OnErr};
ghost use Rattle.instance_calls.specs.CallWords.{MayCall};
ghost use Rattle.instance_calls.specs.Instances.{IsFreshInstance};
ghost use Rattle.retired_tags.specs.Passes.{IsTagPass};
ghost use Rattle.pool_host.specs.Counting.{KeepsCounts};
ghost use Rattle.pool_host.specs.Hosts.{AreIdle, ArePassesOf, AreSamePasses};
ghost use Rattle.pool_host.specs.Looks.{begun_look, Looked, refused_look, started_look};
ghost use Rattle.pool_host.specs.Pausing.{begun_tags, IsUnspent};
ghost use Rattle.pool_host.specs.Starting.{HasRefused, refused_answer, refused_begun};
ghost use Rattle.pool_host.specs.Taking.{HaveSlots, TookSlots};

use crate::answers::{Answer, Begun};
use crate::host::Host;
use crate::passes::{HostPass, Passes};
use crate::slots::take_slots;
use call_payload::{AnswerBuf, Call};
use instance_calls::{Instance, Refusal, find_function};
use module_store::{LoadedModule, Naming};
use pool_model::Kind;
use retired_tags::TagPass;

// Why a call is not made.
#[derive(Clone, Copy)]
pub(crate) enum Refused {
    // No function is exported under its name.
    NoExport,
    // The arguments aren't of the function's types.
    BadArgs,
    // It could be made, but the module is retired.
    Retired,
    // Other calls had every slot of this kind.
    Full(Kind),
}

impl Refused {
    // How a call is answered that is refused so.
    pub(crate) fn answer(self) -> Answer
        ensures { result ≡ refused_answer self }
    {
        match self {
            Refused::NoExport => Answer::NoExport,
            Refused::BadArgs => Answer::BadArgs,
            Refused::Retired => Answer::Retired,
            Refused::Full(kind) => Answer::Full(kind),
        }
    }

    // How one began that is to be paused.
    pub(crate) fn begun<N: Naming>(self, pass: HostPass<N>) -> Begun<N>
        ensures begun { result ≡ refused_begun self pass }
        ensures tags { begun_tags result ≡ pass.retired }
        ensures look { begun_look result ≡ refused_look self }
        ensures left { IsUnspent pass.left result }
    {
        match self {
            Refused::NoExport => Begun::NoExport(pass),
            Refused::BadArgs => Begun::BadArgs(pass),
            Refused::Retired => Begun::Retired(pass),
            Refused::Full(kind) => Begun::Full(pass, kind),
        }
    }
}

// The function of a call that may be made, and its slots, as a fresh instance of its module, which is not retired. What the last call
// answered goes. This is the way to every call, which is made at once or in slices.
pub(crate) fn start<N: Naming>(
    host: &Host<N>,
    passes: &mut Passes<N>,
    retired: &mut TagPass,
    loaded: &LoadedModule<'_, N>,
    call: &Call<'_>,
    said: &mut AnswerBuf,
) -> Result<(Instance<N>, u32), Refused>
    requires own { ArePassesOf host.now passes.old }
    requires tags { IsTagPass host.now.retired.tags retired.old }
    requires idle { AreIdle passes.old }
    ensures same { AreSamePasses passes.old passes.new }
    ensures tags { IsTagPass host.now.retired.tags retired.new }
    ensures may { IfOk result (λ o. MayCall loaded.now.module.now.tree call.now.export.now o.1 call.now.args.now) }
    ensures have { IfOk result (λ o. HaveSlots host.now loaded.now.module.now passes.new o.0) }
    ensures fresh { IfOk result (λ o. IsFreshInstance N.config loaded.now.module.now.tree o.0) }
    ensures took { IfOk result (λ o. TookSlots N.config host.now loaded.now.module.now passes.old passes.new o.0) }
    ensures idle { OnErr result (AreIdle passes.new) }
    ensures refused { IfErr result (HasRefused N.config host.now loaded.now.module.now call.now.export.now call.now.args.now passes.old passes.new) }
    ensures looked { Looked host.now.retired.tags loaded.now.module.now.tag retired.old retired.new (started_look result) }
    ensures none { said.new ≡ [] }
    ensures counted { KeepsCounts N.config.batch passes.old passes.new }
{
    said.clear();
    let function = match find_function(loaded, call) {
        Ok(function) => function,
        Err(Refusal::NoExport) => return Err(Refused::NoExport),
        Err(Refusal::BadArgs) => return Err(Refused::BadArgs),
    };
    if host.retired.look(retired, loaded.module) {
        return Err(Refused::Retired);
    }
    match take_slots(host, passes, loaded) {
        Ok(instance) => Ok((instance, function)),
        Err(kind) => Err(Refused::Full(kind)),
    }
}
