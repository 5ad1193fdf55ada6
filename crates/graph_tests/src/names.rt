//! Names of messages, and their texts.

use sample_programs::{Cells, plain};
use std::alloc::{AllocError, Global};
use std::test::Fail;
use vert_base::{Name, NameKind, same_letters};

fn kind_of(word: &str) -> NameKind {
    match word {
        "refresh" => NameKind::Refresh,
        "dep" => NameKind::Dep,
        "update" => NameKind::Update,
        "push" => NameKind::Push,
        "tally" => NameKind::Tally,
        _ => NameKind::Verdict,
    }
}

/// The name in the next six cells.
pub(crate) fn name_at(cells: &mut Cells) -> Result<Name, Fail> {
    Ok(Name {
        kind: kind_of(cells.text()),
        round: cells.number()?,
        step: cells.byte()?,
        half: cells.byte()?,
        from: cells.byte()?,
        to: cells.byte()?,
    })
}

/// Names as texts, with what they are read as: kind, round, step and half, and from which machine to which.
static NAMES: &str = "\
refresh 3 0 1 | Refresh 3 0.0 0>1
dep 1 0 1 0 1 | Dep 1 0.1 0>1
update 10000 63 1 63 62 | Update 10000 63.1 63>62
push 4294967295 255 0 | Push 4294967295 0.0 255>0
tally 0 1 0 | Tally 0 0.0 1>0
verdict 1 0 1 | Verdict 1 0.0 0>1
tally 0 0 0 1 0 | none
dep 1 0 1 | none
dep 01 0 1 0 1 | none
dep 1 0 256 0 1 | none
refresh 4294967296 0 1 | none
refresh 3 0 | none
refresh 3 0 1␠ | none
refresh  3 0 1 | none
refresh 3 0 +1 | none
Refresh 3 0 1 | none
ref 3 0 1 | none
| none";

/// The same without the round, which is 7.
static ROUNDLESS: &str = "\
refresh 0 1 | Refresh 7 0.0 0>1
dep 0 1 0 1 | Dep 7 0.1 0>1
verdict 0 1 | Verdict 7 0.0 0>1
verdict 7 0 1 | none
dep 0 1 | none";

/// A name as kind, round, step and half, and from which machine to which.
pub(crate) fn name_told(alloc: Global, name: Option<Name>) -> Result<String, AllocError> {
    match name {
        Some(
            Name {
                kind,
                round,
                step,
                half,
                from,
                to,
            },
        ) => format!(in alloc; "{kind:?} {round} {step}.{half} {from}>{to}"),
        None => String::from_str(alloc, "none"),
    }
}

#[test]
fn names(rt: HostRuntime) -> Result<(), Fail> {
    same_letters();
    let alloc = rt.alloc();
    for line in NAMES.lines() {
        let mut cells = Cells::new(line);
        let text = plain(alloc, cells.text())?;
        let found = name_told(alloc, Name::from_text(text.as_bytes()))?;
        assert_eq!(rt; found.as_str(), cells.text(), "{line}");
    }
    for line in ROUNDLESS.lines() {
        let mut cells = Cells::new(line);
        let name = Name::from_roundless(7, cells.text().as_bytes());
        let found = name_told(alloc, name)?;
        assert_eq!(rt; found.as_str(), cells.text(), "{line}");
    }
    Ok(())
}
