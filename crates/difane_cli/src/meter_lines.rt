//! The lines of meters.
ghost use Rattle.std.specs.Prelude.{◌≡◌, [], map};
ghost use Rattle.shelf.specs.SinkWrites.{IsSinkAfterWrite};
ghost use Rattle.difane_cli.specs.Texts.{program_meter_line, program_meter_lines, program_notes_line};

use itoa::Buffer;
use meters::Meter;
use shelf::{Sink, SinkError, write_pieces};

/// Writes a line for each meter that has a note, in order. Allocates nothing itself.
pub fn write_program_meters<M: Meter, K: Sink>(meters: &[M], out: &mut K) -> Result<(), SinkError>
    ensures after { IsSinkAfterWrite (program_meter_lines (map M.seen meters.now)) K.takes_memory
        (K.state out.old) (K.state out.new) result }
    ensures no_lines { program_meter_lines (map M.seen meters.now) ≡ [] → out.new ≡ out.old }
{
    for meter in meters {
        write_program_meter_line(meter, out)?;
    }
    Ok(())
}

/// Writes the line of a meter, if it has a note.
fn write_program_meter_line<M: Meter, K: Sink>(meter: &M, out: &mut K) -> Result<(), SinkError>
    ensures after { IsSinkAfterWrite (program_meter_line (M.seen meter.now)) K.takes_memory
        (K.state out.old) (K.state out.new) result }
    ensures no_line { program_meter_line (M.seen meter.now) ≡ [] → out.new ≡ out.old }
{
    let notes = meter.notes();
    match notes > 0 {
        true => write_program_meter_notes(meter.port(), notes, out),
        false => Ok(()),
    }
}

fn write_program_meter_notes<K: Sink>(port: u32, notes: u64, out: &mut K) -> Result<(), SinkError>
    ensures { IsSinkAfterWrite (program_notes_line port notes) K.takes_memory
        (K.state out.old) (K.state out.new) result }
{
    let mut port_digits = Buffer::new();
    let mut notes_digits = Buffer::new();
    let port = port_digits.format(port).as_bytes();
    let notes = notes_digits.format(notes).as_bytes();
    let pieces: [&[u8]; 5] = [b"meter port ", port, b" notes ", notes, b"\n"];
    write_pieces(out, &pieces)
}
