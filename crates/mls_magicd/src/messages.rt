//! The messages of the program.
ghost use Rattle.std.specs.Prelude.{◌≡◌, ◌++◌, map, IfSome, OnOk, OnErr};
ghost use Rattle.std.specs.List.{flat_map};
ghost use Rattle.std.specs.Io.KnownBytes.{Appends};
ghost use Rattle.mls_lines.specs.mls_wire.Serving.{AppendsFront};
ghost use Rattle.mls_lines.specs.mls_wire.Watches.{HasCause};
ghost use Rattle.mls_magicd.specs.Messages as spec;

use crate::{Fault, LoadFault, OptionsFault, TechnologyFault};
use arrayvec::ArrayVec;
use itoa::Buffer;
use mls_edgerule::RuleFault;
use mls_lines::{CellFault, ServeFault, Watched, WriteFault};
use mls_tech::{Skipped, TechFault};
use std::io::Write;

const MEMORY: &[u8] = b"magicd: memory\n";

const DIFFERS: &[u8] = b"magicd: audit differs\n";

/// The longest message that is written in one piece.
const MESSAGE_ROOM: usize = 512;

/// Reports a fault of the program.
pub fn report_fault<E: Write>(faults: &mut Watched<E>, fault: &Fault<'_>)
    ensures { spec.Reports E.contents faults.old faults.new (spec.fault_message fault.now) }
{
    match fault {
        Fault::Options(fault) => report_options_fault(faults, fault),
        Fault::Technology(fault) => report_technology_fault(faults, *fault),
        Fault::Rule(fault) => report_rule_fault(faults, *fault),
        Fault::Cell(fault) => report_load_fault(faults, *fault),
        Fault::Memory => report(faults, &[MEMORY]),
        Fault::Serve(fault) => report_serve_fault(faults, *fault),
        Fault::Differs => report(faults, &[DIFFERS]),
    }
}

/// Reports each skipped line of a technology.
pub fn report_skipped<E: Write>(faults: &mut Watched<E>, skipped: &[Skipped])
    ensures { spec.ReportsAll E.contents faults.old faults.new (map spec.skipped_message skipped.now) }
{
    for line in skipped {
        report_skipped_line(faults, line);
    }
}

/// Reports why the words of the command line are refused.
fn report_options_fault<E: Write>(faults: &mut Watched<E>, fault: &OptionsFault<'_>)
    ensures { spec.Reports E.contents faults.old faults.new (spec.options_fault_text fault.now) }
{
    match fault {
        OptionsFault::Refused(text) => report(faults, &[text.as_bytes()]),
        OptionsFault::BadCell(word) => report_bad_cell(faults, word),
        OptionsFault::Memory => report(faults, &[MEMORY]),
    }
}

/// Reports a word that should name a cell, and has no `=`.
fn report_bad_cell<E: Write>(faults: &mut Watched<E>, word: &str)
    ensures { spec.Reports E.contents faults.old faults.new (spec.bad_cell_line word.now) }
{
    report(
        faults,
        &[b"magicd: bad cell argument ", word.as_bytes(), b"\n"],
    );
}

/// Reports why there is no technology.
fn report_technology_fault<E: Write>(faults: &mut Watched<E>, fault: TechnologyFault<'_>)
    ensures { spec.Reports E.contents faults.old faults.new (spec.technology_fault_line fault.entry) }
{
    match fault {
        TechnologyFault::Unreadable(path) => report_unreadable(faults, path),
        TechnologyFault::Faulty(fault) => report_tech_fault(faults, fault),
        TechnologyFault::Memory => report(faults, &[MEMORY]),
    }
}

/// Reports why a cell isn't loaded.
fn report_load_fault<E: Write>(faults: &mut Watched<E>, fault: LoadFault<'_>)
    ensures { spec.Reports E.contents faults.old faults.new (spec.load_fault_line fault.entry) }
{
    match fault {
        LoadFault::Unreadable(path) => report_unreadable(faults, path),
        LoadFault::Faulty { name, fault } => report_cell_fault(faults, name, fault),
        LoadFault::Memory => report(faults, &[MEMORY]),
    }
}

/// Reports a fault of the cell of this name.
fn report_cell_fault<E: Write>(faults: &mut Watched<E>, name: &str, fault: CellFault)
    ensures { spec.Reports E.contents faults.old faults.new (spec.cell_fault_line name.now fault) }
{
    let CellFault { line, kind } = fault;
    let numbers = (line, kind.number());
    report_faulty_line(
        faults,
        b"cell ",
        name.as_bytes(),
        numbers,
        b" fault ",
        kind.text(),
    );
}

/// Reports why a script was left before its end.
fn report_serve_fault<E: Write>(faults: &mut Watched<E>, fault: ServeFault)
    ensures { spec.Reports E.contents faults.old faults.new (spec.serve_fault_line fault) }
{
    report(faults, &[b"magicd: ", fault.text().as_bytes(), b"\n"]);
}

/// Reports that the file at a path can't be read.
fn report_unreadable<E: Write>(faults: &mut Watched<E>, path: &str)
    ensures { spec.Reports E.contents faults.old faults.new (spec.unreadable_line path.now) }
{
    report(faults, &[b"magicd: cannot read ", path.as_bytes(), b"\n"]);
}

/// Reports a fault of the technology file.
fn report_tech_fault<E: Write>(faults: &mut Watched<E>, fault: TechFault)
    ensures { spec.Reports E.contents faults.old faults.new (spec.tech_fault_line fault) }
{
    let TechFault { line, kind } = fault;
    let numbers = (line, kind.number());
    report_faulty_line(faults, b"tech", b"", numbers, b" fault ", kind.text());
}

/// Reports a rule line that can't be compiled.
fn report_rule_fault<E: Write>(faults: &mut Watched<E>, fault: RuleFault)
    ensures { spec.Reports E.contents faults.old faults.new (spec.rule_fault_line fault) }
{
    let RuleFault { line, kind } = fault;
    let numbers = (line, kind.number());
    report_faulty_line(faults, b"tech", b"", numbers, b" rule fault ", kind.text());
}

/// Reports a fault of this sort in a line of a file of this name; the numbers are those of the line and of the fault.
fn report_faulty_line<'a, E: Write>(
    faults: &mut Watched<E>,
    file: &'a [u8],
    name: &'a [u8],
    numbers: (usize, u8),
    sort: &'a [u8],
    text: &'a str,
)
    ensures { spec.Reports E.contents faults.old faults.new
        (spec.faulty_line (file.now ++ name.now) sort.now numbers.0 numbers.1 text.now) }
{
    let (line, number) = numbers;
    let mut line_text = Buffer::new();
    let mut number_text = Buffer::new();
    report(
        faults,
        &[
            b"magicd: ",
            file,
            name,
            b" line ",
            line_text.format(line).as_bytes(),
            sort,
            number_text.format(number).as_bytes(),
            b" ",
            text.as_bytes(),
            b"\n",
        ],
    );
}

/// Reports a skipped line of the technology file.
fn report_skipped_line<E: Write>(faults: &mut Watched<E>, skipped: &Skipped)
    ensures { spec.Reports E.contents faults.old faults.new (spec.skipped_message skipped.now) }
{
    let mut line = Buffer::new();
    report(
        faults,
        &[
            b"magicd: tech line ",
            line.format(skipped.line).as_bytes(),
            b" skipped ",
            skipped.keyword.as_slice(),
            b"\n",
        ],
    );
}

/// Writes the message that the parts make up.
///
/// It takes no memory, so that out of memory can be reported too: a message that fits on the stack is written in one
/// piece, a longer one (a path, a keyword or the parser's text is long) part by part.
fn report<E: Write>(faults: &mut Watched<E>, parts: &[&[u8]])
    ensures { spec.Reports E.contents faults.old faults.new (flat_map (λ part. part.now) parts.now) }
{
    // If the message can't be written, there is nowhere else to report that.
    let _ = match joined(parts) {
        Some(message) => faults.write_whole(&message),
        None => write_parts(faults, parts),
    };
}

/// Joins the parts, if there is room for all of them.
fn joined(parts: &[&[u8]]) -> Option<ArrayVec<u8, MESSAGE_ROOM>>
    ensures { IfSome result (λ message. message.items ≡ flat_map (λ part. part.now) parts.now) }
{
    let mut message = ArrayVec::new();
    for part in parts {
        if message.try_extend_from_slice(part).is_err() {
            return None;
        }
    }
    Some(message)
}

/// Writes the parts one after another.
fn write_parts<E: Write>(faults: &mut Watched<E>, parts: &[&[u8]]) -> Result<(), WriteFault>
    ensures ok { OnOk result
        (Appends (E.contents faults.old.device) (E.contents faults.new.device)
        (flat_map (λ part. part.now) parts.now)) }
    ensures err { OnErr result
        (AppendsFront (E.contents faults.old.device) (E.contents faults.new.device)
        (flat_map (λ part. part.now) parts.now)) }
    ensures cause { OnErr result (HasCause faults.new) }
{
    for part in parts {
        faults.write_whole(part)?;
    }
    Ok(())
}
