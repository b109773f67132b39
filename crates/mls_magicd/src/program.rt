//! The whole program, over any words, files and devices.
ghost use Rattle.std.specs.Prelude.{◌≡◌, ◌≢◌, ◌≤◌, ◌⊎◌, ℕ, List, [], Ok, OnOk, IfOk, IfErr, false, true, map};
ghost use Rattle.mls_crew.specs.Scripts.{WritesBatch};
ghost use Rattle.mls_lines.specs.Scripts.{WritesStream};
ghost use Rattle.mls_lines.specs.mls_server.Servers.{world_of};
ghost use Rattle.mls_lines.specs.mls_server.Worlds.{World};
ghost use Rattle.mls_tech.specs.Readings.{reading_of};
ghost use Rattle.mls_magicd.specs.Cells.{LoadsCells};
ghost use Rattle.mls_magicd.specs.CommandLines.{AskForNoLive, AskForLive, ParsesAs, IsNumberFor, file_of, mode_of, workers_option};
ghost use Rattle.mls_magicd.specs.Messages.{Reports, ReportsAll, fault_message};
ghost use Rattle.mls_magicd.specs.Programs as spec;
ghost use Rattle.mls_magicd.specs.Technologies.{text_in};
ghost use Rattle.mls_lines.specs.SymbolTables.{symbols_of};

use crate::cells::load_cells;
use crate::messages::{report_fault, report_skipped};
use crate::options::{Mode, Options};
use crate::technology::TechnologyText;
use crate::{Devices, Fault, Files};
use mls_crew::Batch;
use mls_edgerule::{Rules, compile};
use mls_lines::{Limits, Server, Stream, SymbolTable, Watched, serve};
use mls_tech::Tech;
use std::alloc::{AllocError, Global};
use std::convert::AsStr;
use std::io::{Read, Write};
use std::sync::Wait;
use std::thread::Threads;

/// The exit status after a whole script.
const DONE: u8 = 0;

/// Runs the program and returns its exit status: it serves the script of the input. `words` are those of the command
/// line, of which the first is the program's name.
pub fn run<T: Threads + Wait + Sync, S: AsStr, F: Files, R: Read, W: Write + Send, E: Write>(
    rt: &T,
    alloc: Global,
    words: &[S],
    files: &F,
    devices: &mut Devices<R, W, E>,
) -> u8
    requires input_sound { devices.old.input.failed ≡ false }
    requires output_sound { devices.old.output.failed ≡ false }
    requires faults_sound { devices.old.faults.failed ≡ false }
    ensures status { result ≤ spec.bad_command_line }

    // The words have a fault, it was reported, and no line of the script was read.
    ensures refused { result ≡ spec.bad_command_line
        → spec.RefusesWords (map S.text words.now) E.contents devices.old.faults devices.new.faults
        × (devices.new.input ≡ devices.old.input) × (devices.new.output ≡ devices.old.output) }

    // Without workers, the output is the reply text of the script's run over the technology, the cells and the limits
    // that the words name, and the skipped lines of the technology were reported.
    ensures served { AskForNoLive (map S.text words.now) → IsNumberFor workers_option (map S.text words.now) 0
        → result ≡ spec.done
        → (on : World) × spec.IsConfiguredBy (F.reads_as files.now) (map S.text words.now) on
        × spec.ServesScript on (R.remaining devices.old.input.device) (W.contents devices.old.output.device)
        (W.contents devices.new.output.device)
        × ReportsAll E.contents devices.old.faults devices.new.faults (spec.skipped_lines on.setting.tech) }

    // Either the start failed, for a reason that was reported, and no line of the script was read; or the script
    // was left before its end, for a reason that was reported, and the output is that of a run that was cut.
    ensures failed { AskForNoLive (map S.text words.now) → IsNumberFor workers_option (map S.text words.now) 0
        → result ≡ spec.failed →
        (spec.EndsAtStart (F.reads_as files.now) (F.may_fail files.now)
        (map S.text words.now) E.contents devices.old.faults devices.new.faults
        × (devices.new.input ≡ devices.old.input) × (devices.new.output ≡ devices.old.output))
        ⊎ ((on : World) × spec.IsConfiguredBy (F.reads_as files.now) (map S.text words.now) on
        × spec.EndsInScript on (R.remaining devices.old.input.device) (R.remaining devices.new.input.device)
        (W.contents devices.old.output.device) (W.contents devices.new.output.device)
        devices.new.input devices.new.output E.contents devices.old.faults devices.new.faults) }

    // With workers, the output is what the lines of each session give at its seat over that technology, those cells
    // and limits, and the whole of it was audited.
    ensures served_in_batch { AskForNoLive (map S.text words.now) → (workers : ℕ)
        → IsNumberFor workers_option (map S.text words.now) workers → workers ≢ 0
        → result ≡ spec.done
        → (on : World) × spec.IsConfiguredBy (F.reads_as files.now) (map S.text words.now) on
        × WritesBatch on (R.remaining devices.old.input.device) (W.contents devices.old.output.device)
        (W.contents devices.new.output.device) true
        × ReportsAll E.contents devices.old.faults devices.new.faults (spec.skipped_lines on.setting.tech) }

    // Either the start failed, as above; or the script failed, for a reason that was reported.
    ensures failed_in_batch { AskForNoLive (map S.text words.now) → (workers : ℕ)
        → IsNumberFor workers_option (map S.text words.now) workers → workers ≢ 0
        → result ≡ spec.failed →
        (spec.EndsAtStart (F.reads_as files.now) (F.may_fail files.now)
        (map S.text words.now) E.contents devices.old.faults devices.new.faults
        × (devices.new.input ≡ devices.old.input) × (devices.new.output ≡ devices.old.output))
        ⊎ ((on : World) × spec.IsConfiguredBy (F.reads_as files.now) (map S.text words.now) on
        × spec.EndsInBatch on (R.remaining devices.old.input.device) devices.new.input W.contents devices.old.output
        devices.new.output
        E.contents devices.old.faults devices.new.faults) }

    // With `--live`, the output is whole replies to lines of the script, each what its session's seat gave, and the lists
    // of all sessions that were closed were audited.
    ensures served_in_stream { AskForLive (map S.text words.now) → result ≡ spec.done
        → (on : World) × spec.IsConfiguredBy (F.reads_as files.now) (map S.text words.now) on
        × WritesStream on (R.remaining devices.old.input.device) (W.contents devices.old.output.device)
        (W.contents devices.new.output.device) true
        × ReportsAll E.contents devices.old.faults devices.new.faults (spec.skipped_lines on.setting.tech) }

    // Either the start failed, as above; or the script failed, for a reason that was reported.
    ensures failed_in_stream { AskForLive (map S.text words.now) → result ≡ spec.failed →
        (spec.EndsAtStart (F.reads_as files.now) (F.may_fail files.now)
        (map S.text words.now) E.contents devices.old.faults devices.new.faults
        × (devices.new.input ≡ devices.old.input) × (devices.new.output ≡ devices.old.output))
        ⊎ ((on : World) × spec.IsConfiguredBy (F.reads_as files.now) (map S.text words.now) on
        × spec.EndsInStream on (R.remaining devices.old.input.device) devices.new.input W.contents devices.old.output
        devices.new.output
        E.contents devices.old.faults devices.new.faults) }
{
    let options = match Options::parse(alloc, words) {
        Ok(options) => options,
        Err(fault) => return fail(&mut devices.faults, &fault.into()),
    };
    run_as(rt, alloc, files, &options, devices)
}

/// Reports a fault and returns the exit status that it ends the program with.
pub fn fail<E: Write>(faults: &mut Watched<E>, fault: &Fault<'_>) -> u8
    ensures reported { Reports E.contents faults.old faults.new (fault_message fault.now) }
    ensures status { result ≡ spec.status_after fault.now }
{
    report_fault(faults, fault);
    fault.status()
}

/// Runs the program in the mode that the options ask for.
fn run_as<T: Threads + Wait + Sync, F: Files, R: Read, W: Write + Send, E: Write>(
    rt: &T,
    alloc: Global,
    files: &F,
    options: &Options<'_>,
    devices: &mut Devices<R, W, E>,
) -> u8
    requires input_sound { devices.old.input.failed ≡ false }
    requires output_sound { devices.old.output.failed ≡ false }
    ensures status { result ≤ spec.failed }
    ensures served { (words : List (List ℕ)) → ParsesAs words options.now → result ≡ spec.done
        → (on : World) × spec.IsConfiguredBy (F.reads_as files.now) words on
        × spec.ServesAs (mode_of options.now) on (R.remaining devices.old.input.device)
        (W.contents devices.old.output.device) (W.contents devices.new.output.device)
        × ReportsAll E.contents devices.old.faults devices.new.faults (spec.skipped_lines on.setting.tech) }
    ensures failed { (words : List (List ℕ)) → ParsesAs words options.now → result ≡ spec.failed →
        (spec.EndsAtStart (F.reads_as files.now) (F.may_fail files.now) words E.contents devices.old.faults
        devices.new.faults
        × (devices.new.input ≡ devices.old.input) × (devices.new.output ≡ devices.old.output))
        ⊎ ((on : World) × spec.IsConfiguredBy (F.reads_as files.now) words on
        × spec.ReportsEnd on (spec.FailsAs (mode_of options.now) on R.remaining W.contents devices.old.input
        devices.new.input devices.old.output devices.new.output)
        E.contents devices.old.faults devices.new.faults) }
{
    match serve_as(rt, alloc, files, options, devices) {
        Ok(()) => DONE,
        Err(fault) => fail(&mut devices.faults, &fault),
    }
}

/// Serves the script of the input in the mode that the options ask for. Where that is [`Mode::Alone`], by what is given
/// nothing that starts threads or waits.
fn serve_as<'a, T: Threads + Wait + Sync, F: Files, R: Read, W: Write + Send, E: Write>(
    rt: &T,
    alloc: Global,
    files: &F,
    options: &Options<'a>,
    devices: &mut Devices<R, W, E>,
) -> Result<(), Fault<'a>>
    requires input_sound { devices.old.input.failed ≡ false }
    requires output_sound { devices.old.output.failed ≡ false }
    ensures ok { OnOk result ((words : List (List ℕ)) → ParsesAs words options.now → (on : World)
        × spec.IsConfiguredBy (F.reads_as files.now) words on
        × spec.ServesAs (mode_of options.now) on (R.remaining devices.old.input.device)
        (W.contents devices.old.output.device) (W.contents devices.new.output.device)
        × ReportsAll E.contents devices.old.faults devices.new.faults (spec.skipped_lines on.setting.tech)) }
    ensures err { IfErr result (λ fault. (words : List (List ℕ)) → ParsesAs words options.now →
        (spec.FailsAtStart (F.reads_as files.now) (F.may_fail files.now) words E.contents devices.old.faults
        devices.new.faults fault
        × (devices.new.input ≡ devices.old.input) × (devices.new.output ≡ devices.old.output))
        ⊎ ((on : World) × spec.IsConfiguredBy (F.reads_as files.now) words on
        × spec.FailsAs (mode_of options.now) on R.remaining W.contents devices.old.input devices.new.input
        devices.old.output devices.new.output fault
        × ReportsAll E.contents devices.old.faults devices.new.faults (spec.skipped_lines on.setting.tech))) }
    ensures status { IfErr result (λ fault. spec.status_after fault ≡ spec.failed) }
{
    match options.mode() {
        Mode::Alone => {
            let mut server = start_alone(alloc, files, options, &mut devices.faults)?;
            serve_script(alloc, &mut server, devices)
        }
        Mode::Batch => {
            let batch = start_batch(alloc, files, options, &mut devices.faults)?;
            serve_batch(rt, alloc, batch, devices)
        }
        Mode::Stream => {
            let stream = start_stream(alloc, files, options, &mut devices.faults)?;
            serve_stream(rt, alloc, stream, devices)
        }
    }
}

/// Serves the script of the input at a server, by this thread alone.
fn serve_script<'a, R: Read, W: Write, E: Write>(
    alloc: Global,
    server: &mut Server,
    devices: &mut Devices<R, W, E>,
) -> Result<(), Fault<'a>>
    requires input_sound { devices.old.input.failed ≡ false }
    requires output_sound { devices.old.output.failed ≡ false }
    ensures ok { OnOk result (spec.ServesScript (world_of server.old) (R.remaining devices.old.input.device)
        (W.contents devices.old.output.device) (W.contents devices.new.output.device)) }
    ensures err { IfErr result (λ fault. spec.FailsInScript (world_of server.old)
        (R.remaining devices.old.input.device) (R.remaining devices.new.input.device)
        (W.contents devices.old.output.device) (W.contents devices.new.output.device)
        devices.new.input devices.new.output fault) }
    ensures status { IfErr result (λ fault. spec.status_after fault ≡ spec.failed) }
    ensures faults { devices.new.faults ≡ devices.old.faults }
{
    serve(alloc, server, &mut devices.input, &mut devices.output)?;
    Ok(())
}

/// Serves the script of the input as one batch, with workers.
fn serve_batch<'a, T: Threads + Wait + Sync, R: Read, W: Write, E: Write>(
    rt: &T,
    alloc: Global,
    batch: Batch,
    devices: &mut Devices<R, W, E>,
) -> Result<(), Fault<'a>>
    requires idle { (world_of batch.server).seats ≡ [] }
    requires tech { batch.tech ≡ (world_of batch.server).setting.tech }
    requires input_sound { devices.old.input.failed ≡ false }
    requires output_sound { devices.old.output.failed ≡ false }
    ensures ok { OnOk result (WritesBatch (world_of batch.server) (R.remaining devices.old.input.device)
        (W.contents devices.old.output.device) (W.contents devices.new.output.device) true) }
    ensures err { IfErr result (λ fault. spec.FailsInBatch (world_of batch.server)
        (R.remaining devices.old.input.device) devices.new.input W.contents devices.old.output devices.new.output fault) }
    ensures status { IfErr result (λ fault. spec.status_after fault ≡ spec.failed) }
    ensures faults { devices.new.faults ≡ devices.old.faults }
{
    let served = batch.serve(rt, alloc, &mut devices.input, &mut devices.output)?;
    if !served.audited {
        return Err(Fault::Differs);
    }
    Ok(())
}

/// Serves the script of the input as a stream.
fn serve_stream<'a, T: Threads + Wait + Sync, R: Read, W: Write + Send, E: Write>(
    rt: &T,
    alloc: Global,
    stream: Stream,
    devices: &mut Devices<R, W, E>,
) -> Result<(), Fault<'a>>
    requires idle { (world_of stream.server).seats ≡ [] }
    requires symbols { stream.symbols ≡ symbols_of (world_of stream.server).setting }
    ensures ok { OnOk result (WritesStream (world_of stream.server) (R.remaining devices.old.input.device)
        (W.contents devices.old.output.device) (W.contents devices.new.output.device) true) }
    ensures err { IfErr result (λ fault. spec.FailsInStream (world_of stream.server)
        (R.remaining devices.old.input.device) devices.new.input W.contents devices.old.output devices.new.output fault) }
    ensures status { IfErr result (λ fault. spec.status_after fault ≡ spec.failed) }
    ensures faults { devices.new.faults ≡ devices.old.faults }
{
    let served = stream.serve(rt, alloc, &mut devices.input, &mut devices.output)?;
    if !served.audited {
        return Err(Fault::Differs);
    }
    Ok(())
}

/// Does what comes before a script that one thread serves: reads the technology, makes the server, and loads the cells.
fn start_alone<'a, F: Files, E: Write>(
    alloc: Global,
    files: &F,
    options: &Options<'a>,
    faults: &mut Watched<E>,
) -> Result<Server, Fault<'a>>
    ensures ok { IfOk result (λ server. (words : List (List ℕ)) → ParsesAs words options.now
        → spec.IsConfiguredBy (F.reads_as files.now) words (world_of server)
        × ReportsAll E.contents faults.old faults.new (spec.skipped_lines (world_of server).setting.tech)) }
    ensures err { IfErr result (λ fault. (words : List (List ℕ)) → ParsesAs words options.now
        → spec.FailsAtStart (F.reads_as files.now)
        (F.may_fail files.now) words E.contents faults.old faults.new fault) }
    ensures status { IfErr result (λ fault. spec.status_after fault ≡ spec.failed) }
{
    let Technology { tech, rules, .. } = read_technology(alloc, files, options, faults)?;
    start(alloc, files, options, tech, rules)
}

/// Does what comes before a stream: makes the server, loads cells, and notes what names mean.
fn start_stream<'a, F: Files, E: Write>(
    alloc: Global,
    files: &F,
    options: &Options<'a>,
    faults: &mut Watched<E>,
) -> Result<Stream, Fault<'a>>
    ensures ok { IfOk result (λ stream. (words : List (List ℕ)) → ParsesAs words options.now
        → spec.IsConfiguredBy (F.reads_as files.now) words (world_of stream.server)
        × ReportsAll E.contents faults.old faults.new (spec.skipped_lines (world_of stream.server).setting.tech)) }
    ensures idle { IfOk result (λ stream. (world_of stream.server).seats ≡ []) }
    ensures symbols { IfOk result (λ stream. stream.symbols ≡ symbols_of (world_of stream.server).setting) }
    ensures err { IfErr result (λ fault. (words : List (List ℕ)) → ParsesAs words options.now
        → spec.FailsAtStart (F.reads_as files.now)
        (F.may_fail files.now) words E.contents faults.old faults.new fault) }
    ensures status { IfErr result (λ fault. spec.status_after fault ≡ spec.failed) }
{
    let Batch {
        server,
        tech,
        workers,
    } = start_batch(alloc, files, options, faults)?;
    let Ok(symbols) = SymbolTable::new(alloc, &server, tech) else {
        return Err(Fault::Memory);
    };
    Ok(Stream {
        server,
        symbols,
        workers,
    })
}

/// Does what comes before a batch: reads the technology for the server and for the batch, makes the server
/// and loads the cells.
fn start_batch<'a, F: Files, E: Write>(
    alloc: Global,
    files: &F,
    options: &Options<'a>,
    faults: &mut Watched<E>,
) -> Result<Batch, Fault<'a>>
    ensures ok { IfOk result (λ batch. (words : List (List ℕ)) → ParsesAs words options.now
        → spec.IsConfiguredBy (F.reads_as files.now) words (world_of batch.server)
        × ReportsAll E.contents faults.old faults.new (spec.skipped_lines (world_of batch.server).setting.tech)) }
    ensures idle { IfOk result (λ batch. (world_of batch.server).seats ≡ []) }
    ensures tech { IfOk result (λ batch. batch.tech ≡ (world_of batch.server).setting.tech) }
    ensures err { IfErr result (λ fault. (words : List (List ℕ)) → ParsesAs words options.now
        → spec.FailsAtStart (F.reads_as files.now)
        (F.may_fail files.now) words E.contents faults.old faults.new fault) }
    ensures status { IfErr result (λ fault. spec.status_after fault ≡ spec.failed) }
{
    let Technology { text, tech, rules } = read_technology(alloc, files, options, faults)?;
    let Ok(again) = text.read(alloc) else {
        // The text was read before, so only memory can be lacking.
        return Err(Fault::Memory);
    };
    let server = start(alloc, files, options, tech, rules)?;
    Ok(Batch {
        server,
        tech: again,
        workers: options.workers.get() as usize,
    })
}

/// A technology: its text, what that is read as, and the compiled rules.
#[derive(Drop)]
struct Technology {
    text: TechnologyText,
    tech: Tech,
    rules: Rules,
}

/// Reads the technology, reports its skipped lines, and compiles its rules.
fn read_technology<'a, F: Files, E: Write>(
    alloc: Global,
    files: &F,
    options: &Options<'a>,
    faults: &mut Watched<E>,
) -> Result<Technology, Fault<'a>>
    ensures bare { IfOk result (λ read. (words : List (List ℕ)) → ParsesAs words options.now
        → spec.IsBareFor (F.reads_as files.now) words (spec.bare_world options.now read.tech read.rules)) }
    ensures text { IfOk result (λ read. reading_of (text_in read.text) ≡ Ok read.tech) }
    ensures reported { IfOk result (λ read. ReportsAll E.contents faults.old faults.new (spec.skipped_lines read.tech)) }
    ensures err { IfErr result (λ fault. (words : List (List ℕ)) → ParsesAs words options.now
        → spec.FailsAtStart (F.reads_as files.now)
        (F.may_fail files.now) words E.contents faults.old faults.new fault) }
    ensures status { IfErr result (λ fault. spec.status_after fault ≡ spec.failed) }
{
    let text = TechnologyText::open(alloc, files, options.tech)?;
    let tech = text.read(alloc)?;
    report_skipped(faults, tech.skipped());
    let rules = compile(&tech)?;
    Ok(Technology { text, tech, rules })
}

/// Makes the server, which reserves its memory, and loads the cells.
fn start<'a, F: Files>(
    alloc: Global,
    files: &F,
    options: &Options<'a>,
    tech: Tech,
    rules: Rules,
) -> Result<Server, Fault<'a>>
    ensures loads { IfOk result (λ server. LoadsCells (F.reads_as files.now) (spec.bare_world options.now tech rules)
        (map file_of options.now.cells.items) (world_of server)) }
    ensures idle { IfOk result (λ server. (world_of server).seats ≡ []) }
    ensures err { IfErr result (λ fault. spec.FailsOver (F.reads_as files.now) (F.may_fail files.now)
        (spec.bare_world options.now tech rules) (map file_of options.now.cells.items) fault) }
    ensures status { IfErr result (λ fault. spec.status_after fault ≡ spec.failed) }
{
    let mut server = bare_server(alloc, options, tech, rules)?;
    load_cells(alloc, files, &mut server, &options.cells)?;
    Ok(server)
}

/// Makes the server.
fn bare_server(
    alloc: Global,
    options: &Options<'_>,
    tech: Tech,
    rules: Rules,
) -> Result<Server, AllocError>
    ensures { IfOk result (λ server. world_of server ≡ spec.bare_world options.now tech rules) }
{
    let limits = Limits {
        quota: options.quota,
        journal: options.journal,
        cell_tiles: options.cell_tiles,
    };
    Server::new(alloc, tech, rules, options.pool, limits)
}
