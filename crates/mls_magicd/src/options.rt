//! The options of the command line.
ghost use Rattle.std.specs.Prelude.{◌≡◌, ◌<◌, ◌^◌, max, IfOk, IfErr, map};
ghost use Rattle.std.specs.Range.{range_inclusive_start, range_inclusive_end};
ghost use Rattle.clap.specs.Words.{found_of, kind_of};
ghost use Rattle.clap.specs.declared.error.kind.ErrorKind.TheVariants.{OutOfMemory};
ghost use Rattle.mls_magicd.specs.CommandLines.{NumberOption, magicd, tech_rule, number_rule, live_rule, cells_rule, file_of, words_found, IsBadWord, IsFoundNumber, IsOwnArg, IsOwnCommand, IsParserFault, NamesFiles, ParsesWords, mode_of, ranged_option};

use crate::cell_argument::CellArgument;
use crate::workers::Workers;
use clap::error::ErrorKind;
use clap::{Arg, ArgAction, ArgMatches, Command, Error as ParseError, value_parser};
use mls_bounded::Bounded;
use mls_lines::{Capacity, CellTiles, JournalLimit, Quota};
use std::alloc::{AllocError, AllocFailed, Global};
use std::convert::AsStr;
use std::ops::RangeInclusive;
use thiserror::Error;

/// What the words of the command line ask for.
#[derive(Debug, Drop)]
pub struct Options<'a> {
    /// The path of the technology's file, if they name one.
    pub tech: Option<&'a str>,
    /// The most tiles that a plane may have.
    pub quota: Quota,
    /// How many tiles the pool has.
    pub pool: Capacity,
    /// The most entries that a journal may have.
    pub journal: JournalLimit,
    /// The most tiles that a plane of a cell may have.
    pub cell_tiles: CellTiles,
    /// How many workers check behind the sessions.
    pub workers: Workers,
    /// Whether lines are carried out as they come, beside the workers.
    pub live: bool,
    /// The cells, in order.
    pub cells: Vec<CellArgument<'a>>,
}

/// How a script is served.
#[derive(Clone, Copy)]
pub enum Mode {
    /// By one thread, a line after another.
    Alone,
    /// As a batch, beside workers.
    Batch,
    /// As a stream, beside workers or none.
    Stream,
}

/// Why the words of the command line are refused.
#[derive(Debug, Drop, Error)]
pub enum OptionsFault<'a> {
    #[error("memory")]
    Memory,
    /// The words have a fault, or ask for help: the text of the parser.
    #[error("{0}")]
    Refused(String),
    /// The first word that should name a cell, and has no `=`.
    #[error("bad cell argument {0}")]
    BadCell(&'a str),
}

impl From<AllocError> for OptionsFault<'_> {
    ghost use Rattle.mls_magicd.specs.declared.options.OptionsFault.TheVariants.{Memory};

    ghost from_gives = { λ _ fault. fault ≡ Memory };

    fn from(_error: AllocError) -> Self {
        OptionsFault::Memory
    }
}

impl<T: Drop> From<AllocFailed<T>> for OptionsFault<'_> {
    ghost use Rattle.mls_magicd.specs.declared.options.OptionsFault.TheVariants.{Memory};

    ghost from_gives = { λ _ fault. fault ≡ Memory };

    fn from(_error: AllocFailed<T>) -> Self {
        OptionsFault::Memory
    }
}

impl<'a> Options<'a> {
    /// Reads the words of a command line, of which the first is the program's name.
    pub fn parse<S: AsStr>(alloc: Global, words: &'a [S]) -> Result<Options<'a>, OptionsFault<'a>>
        ensures { ParsesWords (map S.text words.entry.now) result }
    {
        match command(alloc)?.try_get_matches_from(words) {
            Ok(matches) => {
                let cells = cells_given(alloc, &matches)?;
                Ok(Options {
                    tech: matches.get_str("tech"),
                    quota: number_of(&matches, "quota"),
                    pool: number_of(&matches, "pool"),
                    journal: number_of(&matches, "journal"),
                    cell_tiles: number_of(&matches, "cell-tiles"),
                    workers: number_of(&matches, "workers"),
                    live: matches.get_flag("live"),
                    cells,
                })
            }
            Err(error) => Err(refusal(alloc, &error)),
        }
    }

    /// Returns how the script is to be served.
    #[tactic(auto, unfolding(crate::specs::CommandLines::mode_of))]
    pub fn mode(&self) -> Mode
        ensures { result ≡ mode_of self.now }
    {
        if self.live {
            Mode::Stream
        } else if self.workers.get() == 0 {
            Mode::Alone
        } else {
            Mode::Batch
        }
    }
}

/// The command line that `magicd` takes.
fn command<'a>(alloc: Global) -> Result<Command<'a>, AllocError>
    ensures { IfOk result (IsOwnCommand magicd) }
{
    Command::new(alloc, "magicd")
        .about("Serves layout scripts from standard input to standard output")
        .arg(tech_option(alloc))?
        .arg(number_option(
            alloc,
            "quota",
            Quota::range(),
            "Gives each plane N tiles, from 5 to 16384 [default: 1024]",
        ))?
        .arg(number_option(
            alloc,
            "pool",
            Capacity::range(),
            "Gives all planes together N tiles, from 1 to 8388608 [default: 262144]",
        ))?
        .arg(number_option(
            alloc,
            "journal",
            JournalLimit::range(),
            "Gives each journal N entries, from 1 to 65536 [default: 4096]",
        ))?
        .arg(number_option(
            alloc,
            "cell-tiles",
            CellTiles::range(),
            "Gives each plane of a cell N tiles, from 4096 to 16384 [default: 4096]",
        ))?
        .arg(number_option(
            alloc,
            "workers",
            Workers::range(),
            "Checks behind the sessions with N workers, from 0 to 16 [default: 0]",
        ))?
        .arg(live_option(alloc))?
        .arg(cells_argument(alloc))
}

fn tech_option<'a>(alloc: Global) -> Arg<'a>
    ensures { IsOwnArg tech_rule result }
{
    Arg::new(alloc, "tech")
        .long("tech")
        .value_name("FILE")
        .help("Reads the technology from a file")
}

/// Returns the option `--NAME N`, where `N` is a number of the range.
fn number_option<'a>(
    alloc: Global,
    name: &'a str,
    range: RangeInclusive<u32>,
    help: &'a str,
) -> Arg<'a>
    ensures { (option : NumberOption) → name.entry.now ≡ option.name → range_inclusive_start range ≡ option.least
        → range_inclusive_end range ≡ option.most → IsOwnArg (number_rule option) result }
{
    let numbers = i64::from(*range.start())..=i64::from(*range.end());
    Arg::new(alloc, name)
        .long(name)
        .value_name("N")
        .value_parser(value_parser!(u32).range(numbers))
        .help(help)
}

fn live_option<'a>(alloc: Global) -> Arg<'a>
    ensures { IsOwnArg live_rule result }
{
    Arg::new(alloc, "live")
        .long("live")
        .action(ArgAction::SetTrue)
        .help("Replies to each line as soon as it is carried out, beside the workers")
}

fn cells_argument<'a>(alloc: Global) -> Arg<'a>
    ensures { IsOwnArg cells_rule result }
{
    Arg::new(alloc, "cells")
        .action(ArgAction::Append)
        .value_name("NAME=FILE")
        .help("Loads a library cell from a file")
}

/// The number that the matches give an option, or its default.
fn number_of<const LEAST: u32, const MOST: u32, const DEFAULT: u32>(
    matches: &ArgMatches<'_>,
    name: &str,
) -> Bounded<LEAST, MOST, DEFAULT>
    ensures { max LEAST MOST < 2 ^ 32
        → IsFoundNumber (ranged_option name.now LEAST MOST DEFAULT) (found_of matches.now) result }
{
    match matches.get_one::<u32>(name) {
        Some(number) => Bounded::new(number).unwrap_or_default(),
        None => Bounded::default(),
    }
}

/// The cells that the matches name, in order.
fn cells_given<'a>(
    alloc: Global,
    matches: &ArgMatches<'a>,
) -> Result<Vec<CellArgument<'a>>, OptionsFault<'a>>
    ensures ok { IfOk result (λ cells. NamesFiles (words_found (found_of matches.now)) (map file_of cells.items)) }
    ensures err { IfErr result (IsBadWord (words_found (found_of matches.now))) }
{
    match matches.get_strs("cells") {
        Some(words) => cut_words(alloc, words),
        None => Ok(Vec::new(alloc)),
    }
}

/// Cuts each word at its first `=`.
fn cut_words<'a>(
    alloc: Global,
    words: &[&'a str],
) -> Result<Vec<CellArgument<'a>>, OptionsFault<'a>>
    ensures ok { IfOk result (λ cells. NamesFiles (map (λ word. word.now) words.now) (map file_of cells.items)) }
    ensures err { IfErr result (IsBadWord (map (λ word. word.now) words.now)) }
{
    let mut cells = Vec::new(alloc);
    for word in words {
        let cell = CellArgument::cut(word).ok_or(OptionsFault::BadCell(word))?;
        cells.push(cell)?;
    }
    Ok(cells)
}

/// Maps out-of-memory to `Memory`, everything else to `Refused` with the text of the parser.
fn refusal<'a>(alloc: Global, error: &ParseError) -> OptionsFault<'a>
    ensures memory { kind_of error.now ≡ OutOfMemory → result ≡ OptionsFault.Memory }
    ensures parser { IsParserFault result }
{
    if error.kind() == ErrorKind::OutOfMemory {
        return OptionsFault::Memory;
    }
    match format!(in alloc; "{error}") {
        Ok(text) => OptionsFault::Refused(text),
        Err(_) => OptionsFault::Memory,
    }
}
