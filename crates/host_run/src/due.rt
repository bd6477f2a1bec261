//! What a run owes: a status, and the text that is due before it.
ghost use Rattle.std.specs.Prelude.{◌≡◌, IfOk, MatchResult, Some};
ghost use Rattle.host_run.specs.Made.{WasMade};
ghost use Rattle.host_run.specs.Owed.{Owes};
ghost use Rattle.host_run.specs.Serving.{load_of, refused_words, due_answer, texts_of};
ghost use Rattle.command_line.specs.Words.{command_of};
ghost use Rattle.command_line.specs.declared.words.Command.TheVariants.{Run};

use crate::answer::answer;
use crate::status::Status;
use crate::streams::{InputFault, read_input};
use command_line::{Command, WordsFault, read_command};
use host_edge::{Gate, Source};
use load_maker::make;
use pool_limits::PoolConfig;
use std::alloc::Global;
use std::sync::Wait;
use std::thread::Threads;
use wasm_values::NoMemory;

// What is written where the words are refused.
pub(crate) const REFUSED_WORDS: &[u8] = b"refused words\n";

// A text that a run has made, or one that is always the same.
#[derive(Drop)]
pub(crate) enum Text {
    Made(Vec<u8>),
    Fixed(&'static [u8]),
}

impl Text {
    ghost use Rattle.host_run.specs.Text.{bytes_of};

    pub(crate) fn bytes(&self) -> &[u8]
        ensures { result.now ≡ bytes_of self.now }
    {
        match self {
            Text::Made(text) => text.as_slice(),
            Text::Fixed(text) => text,
        }
    }
}

// A status, and the text that is due before it.
#[derive(Drop)]
pub(crate) struct RunOutput {
    pub(crate) status: u8,
    pub(crate) text: Text,
}

// What is due for a refusal: this line, with status 2.
pub(crate) fn refusal(line: &'static [u8]) -> RunOutput
    ensures { due_answer result ≡ record { status = 2; text = line.now } }
{
    RunOutput {
        status: Status::Refused.code(),
        text: Text::Fixed(line),
    }
}

// What is due for a run under a configuration, once all bytes of the source are read.
fn run_due<R: Threads + Wait + Sync, S: Source, G: Gate>(
    rt: &R,
    alloc: Global,
    config: PoolConfig,
    summary: bool,
    slice: u32,
    source: &mut S,
    gate: &G,
) -> Result<RunOutput, InputFault>
    ensures owes { Owes S.left S.faults (Some (Run config summary slice)) source.old source.new result }
    ensures made { IfOk result (λ due. WasMade (Run config summary slice) (S.left source.old) (S.left source.new) (due_answer due)) }
{
    let bytes = read_input(alloc, source)?;
    Ok(answer(rt, alloc, config, summary, slice, &bytes, gate)?)
}

// What is due for a load: its text, with status 0.
fn load_due(alloc: Global, seed: u64, count: u32) -> Result<RunOutput, NoMemory>
    ensures { IfOk result (λ due. due_answer due ≡ load_of seed count) }
{
    let text = make(alloc, seed, count)?;
    Ok(RunOutput {
        status: Status::Reported.code(),
        text: Text::Made(text),
    })
}

// What is due where the words give no command, unless that is for want of memory.
fn words_due(fault: WordsFault) -> Result<RunOutput, InputFault>
    ensures { MatchResult result
        (λ due. (fault ≡ WordsFault.Refused) × (due_answer due ≡ refused_words))
        (λ error. (fault ≡ WordsFault.NoMemory) × (error ≡ InputFault.NoMemory)) }
{
    match fault {
        WordsFault::Refused => Ok(refusal(REFUSED_WORDS)),
        WordsFault::NoMemory => Err(InputFault::NoMemory),
    }
}

// What is due for the words and all bytes of the source. Only the words of a run have the source read.
pub(crate) fn due_text<R: Threads + Wait + Sync, S: Source, G: Gate>(
    rt: &R,
    alloc: Global,
    words: &[&str],
    source: &mut S,
    gate: &G,
) -> Result<RunOutput, InputFault>
    ensures { Owes S.left S.faults (command_of (texts_of words.now)) source.old source.new result }
{
    match read_command(alloc, words) {
        Ok(command) => command_due(rt, alloc, command, source, gate),
        Err(fault) => words_due(fault),
    }
}

// What is due for a command.
fn command_due<R: Threads + Wait + Sync, S: Source, G: Gate>(
    rt: &R,
    alloc: Global,
    command: Command,
    source: &mut S,
    gate: &G,
) -> Result<RunOutput, InputFault>
    ensures owes { Owes S.left S.faults (Some command) source.old source.new result }
    ensures made { IfOk result (λ due. WasMade command (S.left source.old) (S.left source.new) (due_answer due)) }
{
    match command {
        Command::Run {
            config,
            summary,
            slice,
        } => run_due(rt, alloc, config, summary, slice, source, gate),
        Command::Make { seed, count } => Ok(load_due(alloc, seed, count)?),
    }
}
