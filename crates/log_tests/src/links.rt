//! Runs over links as text, and what is recorded of them.

use link_core::{LinkEvent, LinkRecordFault, LinkRecorder, links_have_one_text, read_links};
use sample_programs::{Cells, plain};
use std::alloc::{AllocError, Global};
use std::test::Fail;

/// A tally is lost and sent again, its acknowledgement is lost, and it is taken twice.
static BY_HAND: &str = "\
schedule 3 machines 2
go 0
go 1
lose tally 0 1 0
again tally 0 1 0
take tally 0 1 0
drop tally 0 1 0
again tally 0 1 0
take tally 0 1 0
ack tally 0 1 0
go 0
take verdict 1 0 1
";

/// The first and the last number of bytes to which that text is cut, and what is read of it.
static CUTS: &str = "\
0 | 21 | Header
22 | 22 | 0 events
23 | 26 | Line(2)
27 | 27 | 1 events
28 | 31 | Line(3)
32 | 32 | 2 events
33 | 48 | Line(4)
49 | 49 | 3 events
50 | 66 | Line(5)
67 | 67 | 4 events
68 | 83 | Line(6)
84 | 84 | 5 events
85 | 100 | Line(7)
101 | 101 | 6 events
102 | 118 | Line(8)
119 | 119 | 7 events
120 | 135 | Line(9)
136 | 136 | 8 events
137 | 151 | Line(10)
152 | 152 | 9 events
153 | 156 | Line(11)
157 | 157 | 10 events
158 | 175 | Line(12)
176 | 176 | 11 events";

/// Texts, a slash for each line end, and what is read of them.
static TEXTS: &str = "\
| Header
/ | Header
schedule 3 machines 2 | Header
schedule 3 machines 0/ | Header
schedule 3 machines 1/ | 0 events
schedule 3 machines 64/ | 0 events
schedule 3 machines 65/ | Header
schedule 3 machines 02/ | Header
schedule 3 machines 2␠/ | Header
schedule 3  machines 2/ | Header
schedule 3 machines 2␍/ | Header
schedule 1 machines 2/ | Header
schedule 2 machines 2/ | Header
schedule 4 machines 2/ | Header
Schedule 3 machines 2/ | Header
schedule 3 machines 2// | Line(2)
schedule 3 machines 2/go 255/ | 1 events
schedule 3 machines 2/go 256/ | Line(2)
schedule 3 machines 2/go 00/ | Line(2)
schedule 3 machines 2/go/ | Line(2)
schedule 3 machines 2/go 0␠/ | Line(2)
schedule 3 machines 2/go 0␍/ | Line(2)
schedule 3 machines 2/go  0/ | Line(2)
schedule 3 machines 2/round 1/ | Line(2)
schedule 3 machines 2/take tally 1 0/ | Line(2)
schedule 3 machines 2/lose tally 1 0/ | Line(2)
schedule 3 machines 2/again tally 1 0/ | Line(2)
schedule 3 machines 2/ack tally 1 0/ | Line(2)
schedule 3 machines 2/drop tally 1 0/ | Line(2)
schedule 3 machines 2/lose/ | Line(2)
schedule 3 machines 2/lose 0/ | Line(2)
schedule 3 machines 2/again go 0/ | Line(2)
schedule 3 machines 2/acks tally 0 1 0/ | Line(2)
schedule 3 machines 2/acktally 0 1 0/ | Line(2)
schedule 3 machines 2/Drop tally 0 1 0/ | Line(2)
schedule 3 machines 2/ack tally 0 1 0␠/ | Line(2)
schedule 3 machines 2/drop dep 1 0 256 0 1/ | Line(2)
schedule 3 machines 2/lose refresh 4294967296 0 1/ | Line(2)
schedule 3 machines 2/again refresh 4294967295 0 1/ | 1 events
schedule 3 machines 2/ack dep 0 255 255 255 255/ | 1 events
schedule 3 machines 2/go 0/lose tally 0 1 0/go 0/ | 3 events
schedule 3 machines 2/go 0/lose tally 0 1/drop/ | Line(3)
schedule 3 machines 2/go 0/go 1/go 0 | Line(4)";

/// Lines, and the events that they say.
static EVENTS: &str = "\
go 63 | Go(63)
take refresh 1 0 2 | Take(Name { kind: Refresh, round: 1, step: 0, half: 0, from: 0, to: 2 })
lose dep 2 3 1 0 4 | Lose(Name { kind: Dep, round: 2, step: 3, half: 1, from: 0, to: 4 })
again update 3 1 0 2 1 | Again(Name { kind: Update, round: 3, step: 1, half: 0, from: 2, to: 1 })
ack push 4 1 0 | Ack(Name { kind: Push, round: 4, step: 0, half: 0, from: 1, to: 0 })
drop verdict 5 0 1 | Drop(Name { kind: Verdict, round: 5, step: 0, half: 0, from: 0, to: 1 })";

fn told(alloc: Global, text: &[u8]) -> Result<String, AllocError> {
    match read_links(alloc, text) {
        Ok(schedule) => format!(in alloc; "{} events", schedule.events.len()),
        Err(fault) => format!(in alloc; "{fault:?}"),
    }
}

fn recorded(alloc: Global, events: &[LinkEvent]) -> Result<LinkRecorder, Fail> {
    let mut recorder = LinkRecorder::new(alloc, 2)?;
    for event in events {
        recorder.add(event)?;
    }
    Ok(recorder)
}

#[test]
fn recorded_and_read_again(rt: HostRuntime) -> Result<(), Fail> {
    links_have_one_text();
    let alloc = rt.alloc();
    let schedule = read_links(alloc, BY_HAND.as_bytes())?;
    assert_eq!(rt; schedule.machines, 2);
    let recorder = recorded(alloc, schedule.events.as_slice())?;
    assert_eq!(rt; recorder.text(), BY_HAND.as_bytes());
    for line in EVENTS.lines() {
        let mut cells = Cells::new(line);
        let text = format!(in alloc; "schedule 3 machines 2\n{}\n", cells.text())?;
        let schedule = read_links(alloc, text.as_bytes())?;
        let event = schedule.events.first().ok_or("no event")?;
        let found = format!(in alloc; "{event:?}")?;
        assert_eq!(rt; found.as_str(), cells.text());
        let recorder = recorded(alloc, schedule.events.as_slice())?;
        assert_eq!(rt; recorder.text(), text.as_bytes());
    }
    Ok(())
}

#[test]
fn first_faults(rt: HostRuntime) -> Result<(), Fail> {
    let alloc = rt.alloc();
    for line in CUTS.lines() {
        let mut cells = Cells::new(line);
        let first = cells.number()? as usize;
        let last = cells.number()? as usize;
        let answer = cells.text();
        for count in first..=last {
            let text = BY_HAND.as_bytes().get(..count).ok_or("no text")?;
            assert_eq!(rt; told(alloc, text)?.as_str(), answer, "{count} bytes");
        }
    }
    for line in TEXTS.lines() {
        let mut cells = Cells::new(line);
        let text = plain(alloc, cells.text())?;
        let found = told(alloc, text.as_bytes())?;
        assert_eq!(rt; found.as_str(), cells.text(), "{line}");
    }
    Ok(())
}

#[test]
fn text_up_to_its_limit(rt: HostRuntime) -> Result<(), Fail> {
    let mut recorder = LinkRecorder::new(rt.alloc(), 2)?;
    for _ in 0..13_421_768u32 {
        recorder.add(&LinkEvent::Go(0))?;
    }
    assert_eq!(rt; recorder.text().len(), 67_108_862);
    let more = recorder.add(&LinkEvent::Go(0));
    assert_eq!(rt; more, Err(LinkRecordFault::TooLong));
    assert_eq!(rt; recorder.text().len(), 67_108_862);
    Ok(())
}
