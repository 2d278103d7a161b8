//! What the words ask for.

ghost use Rattle.std.specs.Prelude.{◌≡◌, ◌≢◌, [], ◌≤◌, ◌<◌, ◌^◌, map, IfOk, IfErr, IfSome};
ghost use Rattle.clap.specs.Faults.{fault_of};
ghost use Rattle.clap.specs.Values.{kind_of};
ghost use Rattle.clap.specs.declared.error.kind.ErrorKind.TheVariants.{OutOfMemory};
ghost use Rattle.clap.specs.Matches.{found_of};
ghost use Rattle.clap.specs.Simple.{subcommand_of, subcommand_rows_of};
ghost use Rattle.clap.specs.Walk.{rows_of};
ghost use Rattle.command_words.specs.Command.{netherite, number_of, partitions_of, mode_of, chosen_mode, run_of, call_of, call_in};
ghost use Rattle.command_words.specs.Reading.{WordsGive};
ghost use Rattle.command_words.specs.declared.words.WordsError.TheVariants.{Memory};

use crate::command;
use crate::numbers::number_in;
use clap::ArgMatches;
use clap::error::ErrorKind;
use dura_value::Text;
use std::alloc::{AllocError, Global};
use thiserror::Error;

/// The most partitions.
const PARTITION_LIMIT: u64 = 32;

/// The most nodes.
const NODE_LIMIT: u64 = 8;

/// The most items of an entry.
const BATCH_LIMIT: u64 = 64;

/// The most steps of a run.
const STEPS_LIMIT: u64 = 1_048_576;

/// The greatest seed.
const SEED_LIMIT: u64 = 4_294_967_295;

/// The longest period with which something befalls packets.
const PERIOD_LIMIT: u64 = 100;

/// The least limit of a log segment's bytes.
const LEAST_SEGMENT: u64 = 4096;

/// The greatest limit of a log segment's bytes.
const SEGMENT_LIMIT: u64 = 2_147_483_648;

/// How far entries run ahead of their log.
#[derive(Clone, Copy, Drop, PartialEq, Eq)]
pub enum RunMode {
    /// Not at all: an entry is settled before the next is made.
    None,
    /// Within a partition: messages to others go out once their entry is settled.
    Local,
    /// Everywhere: messages go out at once.
    Global,
}

/// How a run goes.
#[derive(Clone, Copy, Drop, PartialEq, Eq)]
pub struct RunOptions {
    /// How many partitions there are.
    pub partitions: u32,
    /// How many nodes there are.
    pub nodes: u32,
    /// How far entries run ahead of their log.
    pub mode: RunMode,
    /// The most items of an entry.
    pub batch: u32,
    /// The most steps.
    pub steps: u32,
    /// What chance goes by.
    pub seed: u32,
    /// The period with which a packet between partitions comes two times; 0 is never.
    pub twice: u32,
    /// The period with which a packet between partitions doesn't come; 0 is never.
    pub drop: u32,
    /// The period with which a packet between partitions is held until the next one; 0 is never.
    pub hold: u32,
    /// The limit of a log segment's bytes.
    pub segment: u64,
}

/// What the words ask for.
#[derive(Clone, Copy, Drop, PartialEq, Eq)]
pub enum Call {
    /// Run the requests.
    Run(RunOptions),
    /// Show what stands in so many partitions.
    Show(u32),
}

/// Why the words ask for nothing.
#[derive(Debug, Drop, Error)]
pub enum WordsError {
    /// The command doesn't take them.
    #[error("usage")]
    Usage,
    /// Memory ran out.
    #[error("out of memory")]
    Memory,
}

impl From<AllocError> for WordsError {
    ghost from_gives = { λ _ e. e ≡ Memory };

    fn from(_error: AllocError) -> WordsError {
        WordsError::Memory
    }
}

/// Why `clap` makes nothing of the words.
fn error_of(error: clap::Error) -> WordsError
    ensures { result ≢ Memory → kind_of error ≢ OutOfMemory }
{
    if error.kind() == ErrorKind::OutOfMemory {
        WordsError::Memory
    } else {
        WordsError::Usage
    }
}

/// What `clap` makes of the words.
fn matches_of<'a>(alloc: Global, words: &'a [&'a str]) -> Result<ArgMatches<'a>, WordsError>
    ensures ok { IfOk result (λ m. (fault_of netherite (map (λ word. word.now) words.now) ≡ [])
        × (subcommand_rows_of m ≡ subcommand_of netherite (map (λ word. word.now) words.now))) }
    ensures err { IfErr result (λ e. e ≢ Memory
        → fault_of netherite (map (λ word. word.now) words.now) ≢ []) }
{
    let command = command::netherite(alloc)?;
    match command.try_get_matches_from(words) {
        Ok(matches) => Ok(matches),
        Err(error) => Err(error_of(error)),
    }
}

/// The number of an option, from the least to the most.
#[tactic(auto, using(crate::proofs::Rows::first_of_rows))]
fn number_of(matches: &ArgMatches, name: &str, least: u64, most: u64) -> Option<u64>
    requires { most < 2 ^ 32 }
    ensures same { result ≡ number_of name.now least most (rows_of (found_of matches.now)) }
    ensures within { IfSome result (λ n. n ≤ most) }
{
    match matches.get_str(name) {
        Some(text) => number_in(text, least, most),
        None => None,
    }
}

fn partitions_of(matches: &ArgMatches) -> Option<u32>
    ensures { result ≡ partitions_of (rows_of (found_of matches.now)) }
{
    match number_of(matches, "partitions", 1, PARTITION_LIMIT) {
        Some(partitions) => Some(partitions as u32),
        None => None,
    }
}

/// The mode that a word is for.
fn mode_of(word: &str) -> Option<RunMode>
    ensures { result ≡ mode_of word.now }
{
    if word == "none" {
        Some(RunMode::None)
    } else if word == "local" {
        Some(RunMode::Local)
    } else if word == "global" {
        Some(RunMode::Global)
    } else {
        None
    }
}

/// The mode that was chosen.
#[tactic(auto, using(crate::proofs::Rows::first_of_rows))]
fn chosen_mode(matches: &ArgMatches) -> Option<RunMode>
    ensures { result ≡ chosen_mode (rows_of (found_of matches.now)) }
{
    match matches.get_str("mode") {
        Some(word) => mode_of(word),
        None => None,
    }
}

fn run_of(matches: &ArgMatches) -> Option<RunOptions>
    ensures { result ≡ run_of (rows_of (found_of matches.now)) }
{
    let partitions = partitions_of(matches)?;
    let nodes = number_of(matches, "nodes", 1, NODE_LIMIT)?;
    let mode = chosen_mode(matches)?;
    let batch = number_of(matches, "batch", 1, BATCH_LIMIT)?;
    let steps = number_of(matches, "steps", 1, STEPS_LIMIT)?;
    let seed = number_of(matches, "seed", 0, SEED_LIMIT)?;
    let twice = number_of(matches, "twice", 0, PERIOD_LIMIT)?;
    let drop = number_of(matches, "drop", 0, PERIOD_LIMIT)?;
    let hold = number_of(matches, "hold", 0, PERIOD_LIMIT)?;
    let segment = number_of(matches, "segment", LEAST_SEGMENT, SEGMENT_LIMIT)?;
    Some(RunOptions {
        partitions,
        nodes: nodes as u32,
        mode,
        batch: batch as u32,
        steps: steps as u32,
        seed: seed as u32,
        twice: twice as u32,
        drop: drop as u32,
        hold: hold as u32,
        segment,
    })
}

/// What a subcommand with these values asks for.
fn call_of(name: &str, matches: &ArgMatches) -> Option<Call>
    ensures { result ≡ call_of name.now (rows_of (found_of matches.now)) }
{
    if name == "run" {
        Some(Call::Run(run_of(matches)?))
    } else {
        Some(Call::Show(partitions_of(matches)?))
    }
}

fn call_in(alloc: Global, words: &[&str]) -> Result<Call, WordsError>
    ensures { WordsGive result (call_in (map (λ word. word.now) words.now)) }
{
    let matches = matches_of(alloc, words)?;
    let call = match matches.subcommand() {
        Some((name, values)) => call_of(name, values),
        None => None,
    };
    match call {
        Some(call) => Ok(call),
        None => Err(WordsError::Usage),
    }
}

/// The words as texts where they lie.
fn strs_of<'a>(alloc: Global, words: &'a [Text]) -> Result<Vec<&'a str>, AllocError>
    ensures { IfOk result (λ strs. map (λ word. word.now) strs.items ≡ words.now) }
{
    let mut strs = Vec::with_capacity(alloc, words.len())?;
    for word in words {
        strs.push(word.as_str())?;
    }
    Ok(strs)
}

/// What the words ask for: usage comes exactly where the command doesn't take them.
pub fn read_words(alloc: Global, words: &[Text]) -> Result<Call, WordsError>
    ensures { WordsGive result (call_in words.now) }
{
    let words = strs_of(alloc, words)?;
    call_in(alloc, &words)
}
