//! How a command ended, and the line that says so.
ghost use Rattle.std.specs.Prelude.{◌≡◌, IfOk};
ghost use Rattle.shelf.specs.SinkWrites.{IsSinkAfterWrite};
ghost use Rattle.command_inputs.specs.declared.status.Status.TheVariants.{Ok as DoneStatus};
ghost use Rattle.command_inputs.specs.declared.status.Stop.TheVariants.{NoMemory};
ghost use Rattle.command_inputs.specs.Exports.{CommandOutputWritesLine, command_input_line, command_numbered_line, command_status_line, command_unwritten_status, command_written_status, command_status_number, command_status_of};

use itoa::Buffer;
use shelf::{Sink, SinkError, write_pieces, write_whole};
use std::alloc::{AllocError, AllocFailed, Global};
use std::marker::Model;

/// The name of a file, as it was on the command line. Contracts see its bytes.
#[derive(Drop)]
pub struct RefusedFileName {
    name: String,
}

impl Model for RefusedFileName {
    ghost use Rattle.std.specs.Prelude.{List, ℕ, string_bytes};

    ghost Value = { List ℕ };

    ghost view = { λ n. string_bytes n.name };
}

impl RefusedFileName {
    /// A copy of this name; fails only out of memory.
    pub fn new(alloc: Global, name: &str) -> Result<RefusedFileName, AllocError>
        ensures { IfOk result (λ file. file ≡ name.now) }
    {
        Ok(RefusedFileName {
            name: String::from_str(alloc, name)?,
        })
    }

    /// The name.
    pub fn as_str(&self) -> &str
        ensures { result.now ≡ self.now }
    {
        self.name.as_str()
    }
}

/// Which file is refused, by which code, in which row, counted from 1; 0 means the whole file.
#[derive(Drop)]
pub struct Refusal {
    pub file: RefusedFileName,
    pub code: u32,
    pub row: u32,
}

/// Why a command ended before its work.
#[derive(Drop)]
pub enum Stop {
    /// A file is refused.
    Refused(Refusal),
    /// A file could not be read.
    ReadFault,
    /// Memory ran out.
    NoMemory,
}

impl<T: Drop> From<AllocFailed<T>> for Stop {
    ghost from_gives = { λ _ stop. stop ≡ NoMemory };

    fn from(_: AllocFailed<T>) -> Self {
        Stop::NoMemory
    }
}

impl From<AllocError> for Stop {
    ghost from_gives = { λ _ stop. stop ≡ NoMemory };

    fn from(_: AllocError) -> Self {
        Stop::NoMemory
    }
}

/// How a command ended.
#[derive(Drop)]
pub enum Status {
    /// It did its work.
    Ok,
    /// The trace isn't good: this line, from 1, is the first bad one.
    No {
        line: u32,
    },
    /// The grammar doesn't have the words of the command line.
    Words,
    /// This file is refused, by this code in this row; 0 means the whole file.
    Input {
        file: RefusedFileName,
        code: u32,
        row: u32,
    },
    /// A file could not be read.
    ReadFault,
    /// The output could not be written.
    WriteFault,
    /// The play stopped at this row of the schedule: so many messages had been sent that its next
    /// step may not begin.
    Full {
        row: u32,
    },
    /// Memory ran out.
    NoMemory,
}

impl From<Stop> for Status {
    ghost from_gives = { λ stop status. status ≡ command_status_of stop };

    fn from(stop: Stop) -> Self {
        match stop {
            Stop::Refused(Refusal { file, code, row }) => Status::Input { file, code, row },
            Stop::ReadFault => Status::ReadFault,
            Stop::NoMemory => Status::NoMemory,
        }
    }
}

impl From<SinkError> for Status {
    ghost from_gives = { λ error status. status ≡ command_unwritten_status error };

    fn from(error: SinkError) -> Self {
        match error {
            SinkError::Failed => Status::WriteFault,
            SinkError::NoMemory => Status::NoMemory,
        }
    }
}

impl Status {
    /// The status of a command whose output is written: its play ran to its end, or it stopped
    /// full at this row.
    pub fn written(full: Option<u32>) -> Status
        ensures { result ≡ command_written_status full }
    {
        match full {
            None => Status::Ok,
            Some(row) => Status::Full { row },
        }
    }

    /// The exit code of the program.
    pub fn number(&self) -> u8
        ensures { result ≡ command_status_number self.now }
    {
        match self {
            Status::Ok => 0,
            Status::No { .. } => 1,
            Status::Words => 2,
            Status::Input { .. } => 3,
            Status::ReadFault => 4,
            Status::WriteFault => 5,
            Status::Full { .. } => 6,
            Status::NoMemory => 7,
        }
    }
}

/// Writes the status's line; allocates nothing itself. For `Ok` it writes nothing, not even an
/// empty piece.
///
/// A fault of the sink changes nothing but the sink, which then has a part of the line.
pub fn write_status<E: Sink>(status: &Status, errs: &mut E)
    ensures line { CommandOutputWritesLine (command_status_line status.now) E.takes_memory
        (E.state errs.old) (E.state errs.new) }
    ensures silent { status.now ≡ DoneStatus → errs.new ≡ errs.old }
{
    let _ = write_command_status_line(status, errs);
}

fn write_command_status_line<E: Sink>(status: &Status, errs: &mut E) -> Result<(), SinkError>
    ensures after { IsSinkAfterWrite (command_status_line status.now) E.takes_memory
        (E.state errs.old) (E.state errs.new) result }
    ensures silent { status.now ≡ DoneStatus → errs.new ≡ errs.old }
{
    match status {
        Status::Ok => write_whole(errs, b""),
        Status::No { line } => write_numbered_status(b"difane: no line ", *line, errs),
        Status::Words => write_whole(errs, b"difane: words\n"),
        Status::Input { file, code, row } => write_input_line(file, *code, *row, errs),
        Status::ReadFault => write_whole(errs, b"difane: read fault\n"),
        Status::WriteFault => write_whole(errs, b"difane: write fault\n"),
        Status::Full { row } => write_numbered_status(b"difane: full row ", *row, errs),
        Status::NoMemory => write_whole(errs, b"difane: no memory\n"),
    }
}

fn write_numbered_status<E: Sink>(text: &[u8], number: u32, errs: &mut E) -> Result<(), SinkError>
    ensures { IsSinkAfterWrite (command_numbered_line text.now number) E.takes_memory
        (E.state errs.old) (E.state errs.new) result }
{
    let mut digits = Buffer::new();
    let number = digits.format(number).as_bytes();
    let pieces: [&[u8]; 3] = [text, number, b"\n"];
    write_pieces(errs, &pieces)
}

fn write_input_line<E: Sink>(
    file: &RefusedFileName,
    code: u32,
    row: u32,
    errs: &mut E,
) -> Result<(), SinkError>
    ensures { IsSinkAfterWrite (command_input_line file.now code row) E.takes_memory
        (E.state errs.old) (E.state errs.new) result }
{
    let mut code_digits = Buffer::new();
    let mut row_digits = Buffer::new();
    let code = code_digits.format(code).as_bytes();
    let row = row_digits.format(row).as_bytes();
    let name = file.as_str().as_bytes();
    let pieces: [&[u8]; 7] = [
        b"difane: input ",
        name,
        b" code ",
        code,
        b" row ",
        row,
        b"\n",
    ];
    write_pieces(errs, &pieces)
}
