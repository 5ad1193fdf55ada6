//! Changed schedules: one that is read is spelled to the same bytes, and one that is refused has
//! the first bad line of a second judge.

use crate::kind::{Kind, Otherwise};
use crate::line_judge::{Verdict, judge_lines};
use crate::mutator::Mutator;
use delivery_log::{RecordFault, Recorder, Schedule, ScheduleFault, read_schedule};
use link_core::{LinkRecordFault, LinkRecorder, LinkSchedule, LinkTextFault, read_links};
use std::alloc::{AllocError, Global};
use vert_base::{Event, Name, NameKind};

static FIRST: &str = "\
schedule 1 machines 2
go 0
go 1
take tally 0 1 0
go 0
take verdict 1 0 1
go 1
take refresh 1 0 1
take dep 1 0 1 0 1
";

static SECOND: &str = "\
schedule 2 machines 2
go 0
go 1
take tally 1 0
go 0
round 1
take verdict 0 1
go 1
take refresh 0 1
round 0
take update 0 1 0 1
";

static THIRD: &str = "\
schedule 3 machines 2
go 0
go 1
lose tally 0 1 0
again tally 0 1 0
take tally 0 1 0
drop tally 0 1 0
ack tally 0 1 0
go 0
take verdict 1 0 1
take push 1 0 1
";

/// Schedules of form 1.
pub struct FirstForm;

impl Kind for FirstForm {
    fn changed(
        &self,
        alloc: Global,
        mutator: &mut Mutator,
        _number: u32,
    ) -> Result<Vec<u8>, AllocError> {
        mutator.changed(alloc, FIRST.as_bytes(), SECOND.as_bytes())
    }

    fn is_accepted(&self, alloc: Global, text: &[u8], _number: u32) -> Result<bool, Otherwise> {
        is_read(alloc, text)
    }
}

/// Schedules of form 2.
pub struct SecondForm;

impl Kind for SecondForm {
    fn changed(
        &self,
        alloc: Global,
        mutator: &mut Mutator,
        _number: u32,
    ) -> Result<Vec<u8>, AllocError> {
        mutator.changed(alloc, SECOND.as_bytes(), FIRST.as_bytes())
    }

    fn is_accepted(&self, alloc: Global, text: &[u8], _number: u32) -> Result<bool, Otherwise> {
        is_read(alloc, text)
    }
}

/// Schedules of form 3.
pub struct ThirdForm;

impl Kind for ThirdForm {
    fn changed(
        &self,
        alloc: Global,
        mutator: &mut Mutator,
        _number: u32,
    ) -> Result<Vec<u8>, AllocError> {
        mutator.changed(alloc, THIRD.as_bytes(), SECOND.as_bytes())
    }

    fn is_accepted(&self, alloc: Global, text: &[u8], _number: u32) -> Result<bool, Otherwise> {
        let stated = judge_lines(alloc, text, 3, 3)?;
        match (read_links(alloc, text), stated) {
            (Err(LinkTextFault::Want), _) => Err(Otherwise::Want),
            (Ok(schedule), Verdict::Good(_)) => is_relinked(alloc, &schedule, text),
            (Err(LinkTextFault::Header), Verdict::Bad(1)) => Ok(false),
            (Err(LinkTextFault::Line(line)), Verdict::Bad(bad)) if line == bad => Ok(false),
            _ => Err(Otherwise::Told("another first bad line")),
        }
    }
}

/// Whether a text of form 1 or 2 is read, where that or its first bad line is the stated one.
fn is_read(alloc: Global, text: &[u8]) -> Result<bool, Otherwise> {
    let stated = judge_lines(alloc, text, 1, 2)?;
    match (read_schedule(alloc, text), stated) {
        (Err(ScheduleFault::Want), _) => Err(Otherwise::Want),
        (Ok(schedule), Verdict::Good(form)) => is_spelled(alloc, &schedule, form, text),
        (Err(ScheduleFault::Header), Verdict::Bad(1)) => Ok(false),
        (Err(ScheduleFault::Line(line)), Verdict::Bad(bad)) if line == bad => Ok(false),
        _ => Err(Otherwise::Told("another first bad line")),
    }
}

/// Whether what was read of a text of a form is spelled so. One of form 1 is also spelled in form
/// 2, and so again.
fn is_spelled(
    alloc: Global,
    schedule: &Schedule,
    form: u8,
    text: &[u8],
) -> Result<bool, Otherwise> {
    let recorder = recorded(alloc, schedule)?;
    if form == 2 {
        return if recorder.text() == text {
            Ok(true)
        } else {
            Err(Otherwise::Told("another text of form 2"))
        };
    }
    if whole_text(alloc, schedule)?.as_bytes() != text {
        return Err(Otherwise::Told("another text of form 1"));
    }
    let Ok(again) = read_schedule(alloc, recorder.text()) else {
        return Err(Otherwise::Told("the renewed text is refused"));
    };
    if again.events.as_slice() != schedule.events.as_slice() {
        return Err(Otherwise::Told("the renewed text has other events"));
    }
    if recorded(alloc, &again)?.text() != recorder.text() {
        return Err(Otherwise::Told("the renewed text is renewed to another"));
    }
    Ok(true)
}

/// The text of form 2 of what was read.
fn recorded(alloc: Global, schedule: &Schedule) -> Result<Recorder, Otherwise> {
    if schedule.machines < 1 || schedule.machines > 64 {
        return Err(Otherwise::Told("no such machines"));
    }
    let mut recorder = Recorder::new(alloc, schedule.machines)?;
    for event in &schedule.events {
        match recorder.add(event) {
            Ok(()) => {}
            Err(RecordFault::Want) => return Err(Otherwise::Want),
            Err(RecordFault::TooLong) => return Err(Otherwise::Told("a long text")),
        }
    }
    Ok(recorder)
}

/// Whether what was read of a text of form 3 is spelled so.
fn is_relinked(alloc: Global, schedule: &LinkSchedule, text: &[u8]) -> Result<bool, Otherwise> {
    if schedule.machines < 1 || schedule.machines > 64 {
        return Err(Otherwise::Told("no such machines"));
    }
    let mut recorder = LinkRecorder::new(alloc, schedule.machines)?;
    for event in &schedule.events {
        match recorder.add(event) {
            Ok(()) => {}
            Err(LinkRecordFault::Want) => return Err(Otherwise::Want),
            Err(LinkRecordFault::TooLong) => return Err(Otherwise::Told("a long text")),
        }
    }
    if recorder.text() != text {
        return Err(Otherwise::Told("another text of form 3"));
    }
    Ok(true)
}

/// The text of form 1 of a schedule.
fn whole_text(alloc: Global, schedule: &Schedule) -> Result<String, AllocError> {
    let mut text = format!(in alloc; "schedule 1 machines {}\n", schedule.machines)?;
    for event in &schedule.events {
        match event {
            Event::Go(machine) => writeln!(text, "go {machine}")?,
            Event::Take(name) => add_take(&mut text, name)?,
        }
    }
    Ok(text)
}

fn add_take(text: &mut String, name: &Name) -> Result<(), AllocError> {
    let Name {
        kind,
        round,
        step,
        half,
        from,
        to,
    } = name;
    let word = match kind {
        NameKind::Refresh => "refresh",
        NameKind::Dep => "dep",
        NameKind::Update => "update",
        NameKind::Push => "push",
        NameKind::Tally => "tally",
        NameKind::Verdict => "verdict",
    };
    match kind {
        NameKind::Dep | NameKind::Update => writeln!(
            text,
            "take {word} {round} {step} {half} {from} {to}"
        ),
        _ => writeln!(text, "take {word} {round} {from} {to}"),
    }
}
