//! Schedules as text, and what is recorded.

use delivery_log::{RecordFault, Recorder, read_schedule};
use sample_programs::Cells;
use std::alloc::{AllocError, Global};
use std::test::Fail;
use vert_base::Event;

static BY_HAND: &str = "\
schedule 1 machines 2
go 0
go 1
take tally 0 1 0
go 0
take verdict 1 0 1
";

static RENEWED: &str = "\
schedule 2 machines 2
go 0
go 1
take tally 1 0
go 0
round 1
take verdict 0 1
";

/// The first and the last number of bytes to which the schedule is cut, and what is read of it.
static CUTS: &str = "\
0 | 21 | Header
22 | 22 | 0 events
23 | 26 | Line(2)
27 | 27 | 1 events
28 | 31 | Line(3)
32 | 32 | 2 events
33 | 48 | Line(4)
49 | 49 | 3 events
50 | 53 | Line(5)
54 | 54 | 4 events
55 | 72 | Line(6)
73 | 73 | 5 events";

/// Texts, a slash for each line end, and what is read of them.
static TEXTS: &str = "\
schedule 1 machines 2/go 255/ | 1 events
schedule 1 machines 2/go 256/ | Line(2)
schedule 1 machines 2/go 00/ | Line(2)
schedule 1 machines 2/take tally 0 1 0 / | Line(2)
schedule 1 machines 2/take dep 1 0 0 0 1/ | 1 events
schedule 1 machines 2/take refresh 4294967295 0 1/ | 1 events
schedule 1 machines 2/take tally 1 0/ | Line(2)
schedule 1 machines 2/round 1/ | Line(2)
schedule 1 machines 17/ | Header
schedule 2 machines 64/ | 0 events
schedule 2 machines 65/ | Header
schedule 2 machines 0/ | Header
schedule 3 machines 2/ | Header
schedule 2 machines 2/round 1/take verdict 0 1/ | 1 events
schedule 2 machines 2/round 1/round 1/take verdict 0 1/ | Line(2)
schedule 2 machines 2/round 0/take tally 1 0/ | Line(2)
schedule 2 machines 2/round 1/go 0/ | Line(2)
schedule 2 machines 2/round 1/ | Line(2)
schedule 2 machines 2/take tally 0 1 0/ | Line(2)";

fn told(alloc: Global, text: &[u8]) -> Result<String, AllocError> {
    match read_schedule(alloc, text) {
        Ok(schedule) => format!(in alloc; "{} events", schedule.events.len()),
        Err(fault) => format!(in alloc; "{fault:?}"),
    }
}

fn recorded(alloc: Global, events: &[Event]) -> Result<Recorder, Fail> {
    let mut recorder = Recorder::new(alloc, 2)?;
    for event in events {
        recorder.add(event)?;
    }
    Ok(recorder)
}

#[test]
fn recorded_and_read_again(rt: HostRuntime) -> Result<(), Fail> {
    let alloc = rt.alloc();
    let schedule = read_schedule(alloc, BY_HAND.as_bytes())?;
    assert_eq!(rt; schedule.machines, 2);
    let recorder = recorded(alloc, schedule.events.as_slice())?;
    assert_eq!(rt; recorder.text(), RENEWED.as_bytes());
    let again = read_schedule(alloc, recorder.text())?;
    assert_eq!(rt; again.machines, 2);
    assert_eq!(rt; again.events.as_slice(), schedule.events.as_slice());
    Ok(())
}

#[test]
fn first_faults(rt: HostRuntime) -> Result<(), Fail> {
    let alloc = rt.alloc();
    for line in CUTS.lines() {
        let mut cells = Cells::new(line);
        let first = cells.number()? as usize;
        let last = cells.number()? as usize;
        let answer = cells.text();
        for count in first..=last {
            let text = BY_HAND.as_bytes().get(..count).ok_or("no text")?;
            assert_eq!(rt; told(alloc, text)?.as_str(), answer, "{count} bytes");
        }
    }
    for line in TEXTS.lines() {
        let mut cells = Cells::new(line);
        let text = cells.text().replace(alloc, "/", "\n")?;
        assert_eq!(rt;
            told(alloc, text.as_bytes())?.as_str(),
            cells.text(),
            "{line}"
        );
    }
    Ok(())
}

#[test]
fn text_up_to_its_limit(rt: HostRuntime) -> Result<(), Fail> {
    let mut recorder = Recorder::new(rt.alloc(), 2)?;
    for _ in 0..13_421_768u32 {
        recorder.add(&Event::Go(0))?;
    }
    assert_eq!(rt; recorder.text().len(), 67_108_862);
    assert_eq!(rt; recorder.add(&Event::Go(0)), Err(RecordFault::TooLong));
    assert_eq!(rt; recorder.text().len(), 67_108_862);
    Ok(())
}
