// The lines that tell of failures.
ghost use Rattle.std.specs.Prelude.{◌≡◌, ◌++◌, decimal};
ghost use Rattle.vert_base.specs.NameTexts.{name_text};
ghost use Rattle.array_text.specs.Writes.{Writes};
ghost use Rattle.command_steps.specs.declared.impossible.Impossible.TheVariants as impossible;
ghost use Rattle.command_steps.specs.Faults.{fault_of};
ghost use Rattle.command_steps.specs.Notes.{BadByte, BadEvent, BadEventLine, BadLine, BadMessage, BadPart, BadProgram, EndsEarly, NoLoad, NotGone, NotTaken, note_text, stage_letter, why_text};

use crate::failure::Failure;
use crate::impossible::Impossible;
use array_text::{put_all, put_pieces, write_name};
use itoa::Buffer;
use outside::{Sink, SinkFault};
use program_reader::{Refusal, Stage};
use vert_base::Name;

/// Puts the line that tells of a failure.
pub fn write_note<N: Sink>(failure: &Failure, notes: &mut N) -> Result<(), SinkFault>
    ensures { Writes N.held N.faults N.spare notes.old notes.new
        (note_text (fault_of failure.now)) result }
{
    match failure {
        Failure::Command => put_all(notes, b"symple: unknown command\n"),
        Failure::Words => put_all(notes, b"symple: bad arguments\n"),
        Failure::Load(name) => write_unread(name, notes),
        Failure::Program(refusal) => write_refusal(*refusal, notes),
        Failure::GraphLine { code, line } => write_line(*code, *line, notes),
        Failure::GraphByte { code, at } => write_byte(*code, *at, notes),
        Failure::ScheduleHeader => put_all(notes, b"symple: schedule: line 1: bad header\n"),
        Failure::ScheduleLine(line) => write_event_line(*line, notes),
        Failure::LongSchedule => put_all(notes, b"symple: schedule: more than 67108864 bytes\n"),
        Failure::Event { line, why } => write_event(*line, why, notes),
        Failure::NotTaken(name) => write_not_taken(name, notes),
        Failure::NotGone(machine) => write_not_gone(*machine, notes),
        Failure::Part(code) => write_part(*code, notes),
        Failure::Message { code, at } => write_message(*code, *at, notes),
        Failure::EndsEarly(name) => write_early_end(name, notes),
        Failure::Input => put_all(notes, b"symple: cannot read input\n"),
        Failure::Write => put_all(notes, b"symple: cannot write\n"),
        Failure::Memory => put_all(notes, b"symple: out of memory\n"),
    }
}

fn write_unread<N: Sink>(name: &str, notes: &mut N) -> Result<(), SinkFault>
    ensures { Writes N.held N.faults N.spare notes.old notes.new
        (note_text (NoLoad name.now)) result }
{
    put_pieces(notes, &[b"symple: cannot read ", name.as_bytes(), b"\n"])
}

fn letter(stage: Stage) -> &'static [u8]
    ensures { result.now ≡ stage_letter stage }
{
    match stage {
        Stage::Tokens => b"L",
        Stage::Grammar => b"P",
        Stage::Typing => b"Y",
    }
}

fn write_refusal<N: Sink>(refusal: Refusal, notes: &mut N) -> Result<(), SinkFault>
    ensures { Writes N.held N.faults N.spare notes.old notes.new
        (note_text (BadProgram refusal)) result }
{
    let mut number = Buffer::new();
    let mut line = Buffer::new();
    let mut column = Buffer::new();
    let pieces = [
        b"symple: program: ",
        letter(refusal.stage),
        number.format(refusal.number).as_bytes(),
        b" at ",
        line.format(refusal.span.line).as_bytes(),
        b":",
        column.format(refusal.span.column).as_bytes(),
        b"\n",
    ];
    put_pieces(notes, &pieces)
}

fn write_line<N: Sink>(code: u8, line: u32, notes: &mut N) -> Result<(), SinkFault>
    ensures { Writes N.held N.faults N.spare notes.old notes.new
        (note_text (BadLine code line)) result }
{
    let mut digits = Buffer::new();
    let mut place = Buffer::new();
    let pieces = [
        b"symple: graph: E",
        digits.format(code).as_bytes(),
        b" at line ",
        place.format(line).as_bytes(),
        b"\n",
    ];
    put_pieces(notes, &pieces)
}

fn write_byte<N: Sink>(code: u8, at: u64, notes: &mut N) -> Result<(), SinkFault>
    ensures { Writes N.held N.faults N.spare notes.old notes.new
        (note_text (BadByte code at)) result }
{
    let mut digits = Buffer::new();
    let mut place = Buffer::new();
    let pieces = [
        b"symple: graph: E",
        digits.format(code).as_bytes(),
        b" at byte ",
        place.format(at).as_bytes(),
        b"\n",
    ];
    put_pieces(notes, &pieces)
}

fn write_event_line<N: Sink>(line: u32, notes: &mut N) -> Result<(), SinkFault>
    ensures { Writes N.held N.faults N.spare notes.old notes.new
        (note_text (BadEventLine line)) result }
{
    write_number(b"symple: schedule: line ", line, b": bad line\n", notes)
}

fn write_not_gone<N: Sink>(machine: u8, notes: &mut N) -> Result<(), SinkFault>
    ensures { Writes N.held N.faults N.spare notes.old notes.new
        (note_text (NotGone machine)) result }
{
    write_number(
        b"symple: schedule: machine ",
        machine as u32,
        b" did not go\n",
        notes,
    )
}

fn write_part<N: Sink>(code: u8, notes: &mut N) -> Result<(), SinkFault>
    ensures { Writes N.held N.faults N.spare notes.old notes.new (note_text (BadPart code)) result }
{
    write_number(b"symple: part: K", code as u32, b"\n", notes)
}

fn write_message<N: Sink>(code: u8, at: u64, notes: &mut N) -> Result<(), SinkFault>
    ensures { Writes N.held N.faults N.spare notes.old notes.new
        (note_text (BadMessage code at)) result }
{
    let mut digits = Buffer::new();
    let mut place = Buffer::new();
    let pieces = [
        b"symple: message: M",
        digits.format(code).as_bytes(),
        b" at byte ",
        place.format(at).as_bytes(),
        b"\n",
    ];
    put_pieces(notes, &pieces)
}

fn write_not_taken<N: Sink>(name: &Name, notes: &mut N) -> Result<(), SinkFault>
    ensures { Writes N.held N.faults N.spare notes.old notes.new
        (note_text (NotTaken name.now)) result }
{
    write_named(b"symple: schedule: ", name, b" was not taken\n", notes)
}

fn write_early_end<N: Sink>(name: &Name, notes: &mut N) -> Result<(), SinkFault>
    ensures { Writes N.held N.faults N.spare notes.old notes.new
        (note_text (EndsEarly name.now)) result }
{
    write_named(b"symple: message: M6 waits for ", name, b"\n", notes)
}

fn write_event<N: Sink>(line: u32, why: &Impossible, notes: &mut N) -> Result<(), SinkFault>
    ensures { Writes N.held N.faults N.spare notes.old notes.new
        (note_text (BadEvent line why.now)) result }
{
    write_number(b"symple: schedule: line ", line, b": ", notes)?;
    write_why(why, notes)?;
    put_all(notes, b"\n")
}

// Puts why an event can't happen.
fn write_why<N: Sink>(why: &Impossible, notes: &mut N) -> Result<(), SinkFault>
    ensures { Writes N.held N.faults N.spare notes.old notes.new (why_text why.now) result }
{
    match why {
        Impossible::NoMachine(machine) => {
            write_number(b"no machine ", *machine as u32, b"", notes)
        }
        Impossible::Waits { machine, name } => write_waits(*machine, name, notes),
        Impossible::MachineOver(machine) => {
            write_number(b"machine ", *machine as u32, b" is over", notes)
        }
        Impossible::NotUnderWay(name) => write_named(b"", name, b" is not under way", notes),
        Impossible::RunOver => put_all(notes, b"the run is over"),
        Impossible::NotAgain(name) => write_named(b"", name, b" cannot be sent again", notes),
        Impossible::NoAck(name) => write_named(b"no ack of ", name, b" is under way", notes),
    }
}

fn write_waits<N: Sink>(machine: u8, name: &Name, notes: &mut N) -> Result<(), SinkFault>
    ensures { Writes N.held N.faults N.spare notes.old notes.new
        (why_text (impossible.Waits machine name.now)) result }
{
    write_number(b"machine ", machine as u32, b" waits for ", notes)?;
    write_name(name, notes)
}

// Puts a number between two texts.
fn write_number<N: Sink>(
    front: &[u8],
    number: u32,
    behind: &[u8],
    notes: &mut N,
) -> Result<(), SinkFault>
    ensures { Writes N.held N.faults N.spare notes.old notes.new
        (front.now ++ (decimal number ++ behind.now)) result }
{
    let mut digits = Buffer::new();
    put_pieces(notes, &[front, digits.format(number).as_bytes(), behind])
}

// Puts the name of a message between two texts.
fn write_named<N: Sink>(
    front: &[u8],
    name: &Name,
    behind: &[u8],
    notes: &mut N,
) -> Result<(), SinkFault>
    ensures { Writes N.held N.faults N.spare notes.old notes.new
        (front.now ++ (name_text name.now ++ behind.now)) result }
{
    put_all(notes, front)?;
    write_name(name, notes)?;
    put_all(notes, behind)
}
