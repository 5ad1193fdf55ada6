// One machine that serves a stream of messages.
ghost use Rattle.std.specs.Prelude.{◌≡◌, ◌≢◌, ◌<◌, ◌≤◌, ◌+◌, ◌*◌, ◌^◌, ◌&&◌, not, ℕ, List, Err, IfSome, OnOk, false};
ghost use Rattle.symple_face.specs.declared.action.Action.TheVariants.{Ready};
ghost use Rattle.symple_face.specs.PartViews.{plain_of};
ghost use Rattle.symple_face.specs.Lawful.{is_begin};
ghost use Rattle.symple_face.specs.State.{action_of};
ghost use Rattle.circulant_plan.specs.declared.spot.Spot.TheVariants.{Over};
ghost use Rattle.circulant_plan.specs.Skeleton.{is_over};
ghost use Rattle.circulant_plan.specs.Standing.{round_of};
ghost use Rattle.outside.specs.Bytes.{led_by};
ghost use Rattle.outside.specs.Causes.{Rose};
ghost use Rattle.worker_stream.specs.Fronts.{told};
ghost use Rattle.worker_stream.specs.Sent.{Sends, spelled_letters};
ghost use Rattle.worker_stream.specs.Serving.{Serves, streams};
ghost use Rattle.worker_stream.specs.Steps.{Steps, TakesNext, unread, unsent};
ghost use Rattle.worker_stream.specs.Walks.{IsLow, Stands, names_from};
ghost use Rattle.worker_stream.specs.Worker.{is_due, worker};

use crate::fault::ServeFault;
use crate::reading::{ReadFault, read_message};
use crate::sending::{SendFault, put_messages};
use circulant_plan::Spot;
use dep_message::HEADER;
use double_buffer::Slots;
use outside::{Sink, Source};
use state_laws::tells_can_run;
use std::alloc::Global;
use symple_face::{Action, Part, Site};
use vert_base::Name;
use vert_base::limits::MACHINES;

// Whether the list of actions goes on.
fn is_going<S: Site>(site: &S) -> bool
    ensures { result ≡ not (is_over (S.state site.now).at.spot) }
{
    !matches!(site.spot(), Spot::Over)
}

// Whether a round begins at the spot.
fn begins<S: Site>(site: &S) -> bool
    ensures { result ≡ is_begin (S.state site.now).at.spot }
{
    matches!(site.spot(), Spot::Begin { round: _ })
}

// The round of the spot of a machine that isn't over.
fn round_of(spot: Spot) -> u32
    ensures { (last : ℕ) → spot ≢ Over → result ≡ round_of last spot }
{
    match spot {
        Spot::Tell | Spot::Over => 0,
        Spot::Judge { round }
        | Spot::Begin { round }
        | Spot::Scan { round, .. }
        | Spot::Close { round, .. } => round,
    }
}

fn all_hold(here: bool, taken: bool, now: bool) -> bool
    ensures { result ≡ (here && (not taken && now)) }
{
    here && !taken && now
}

// Whether a message of this name can be taken: it is addressed here, wasn't taken, and is of the round of the spot.
fn is_due<S: Site>(site: &S, names: &Slots<MACHINES>, name: &Name) -> bool
    requires stands { Stands S.sound (S.state site.now) names.now }
    requires going { is_over (S.state site.now).at.spot ≡ false }
    ensures { result ≡ is_due (S.state site.now) name.now }
{
    let machine = site.part().at.number();
    let taken = names.has(name);
    let round = round_of(site.spot());
    all_hold(name.to == machine, taken, name.round == round)
}

// Lets go of the names taken where a round begins.
fn drop_names<S: Site>(site: &S, names: &mut Slots<MACHINES>)
    ensures { names.new ≡ names_from (S.state site.now) names.old }
{
    if begins(site) {
        names.clear();
        return;
    }
}

// Lets a machine act that is ready, and writes what it sends.
fn act<S: Site, O: Sink>(
    alloc: Global,
    site: &mut S,
    names: &mut Slots<MACHINES>,
    out: &mut O,
) -> Result<(), SendFault>
    requires stands { Stands S.sound (S.state site.old) names.old }
    requires ready { action_of (S.state site.old) ≡ Ready }
    ensures state { OnOk result (S.state site.new ≡ S.work.go (S.state site.old)) }
    ensures names { OnOk result (names.new ≡ names_from (S.work.go (S.state site.old)) names.old) }
    ensures sends { Sends O.held O.faults O.spare out.old out.new
        (spelled_letters (S.work.sent (S.state site.old))) result }
{
    let mut sent = Vec::new(alloc);
    match site.go(&mut sent) {
        Ok(()) => {}
        Err(_) => return Err(SendFault::Want),
    }
    drop_names(site, names);
    put_messages(alloc, out, &sent)
}

// Reads the next message and hands it to a machine that waits for one. It answers how many bytes the message has.
fn take_next<S: Site, I: Source>(
    alloc: Global,
    site: &mut S,
    names: &mut Slots<MACHINES>,
    input: &mut I,
) -> Result<u64, ReadFault>
    requires stands { Stands S.sound (S.state site.old) names.old }
    requires going { is_over (S.state site.old).at.spot ≡ false }
    ensures answer { (front : List ℕ) × (I.left input.old ≡ led_by front (I.left input.new))
        × TakesNext S.work (S.state site.old) names.old front (told (I.left input.new))
        (S.state site.new) names.new result }
    ensures counted { result ≢ Err ReadFault.Source → I.faults input.new ≡ I.faults input.old }
    ensures failed { result ≡ Err ReadFault.Source →
        Rose (I.faults input.old) (I.faults input.new) }
{
    let message = match read_message(alloc, input, site.part()) {
        Ok(message) => message,
        Err(fault) => return Err(fault),
    };
    if is_due(site, names, &message.name) {
        let size = (HEADER + message.body.len()) as u64;
        names.mark(&message.name);
        site.take(message);
        Ok(size)
    } else {
        Err(ReadFault::Faulty(5))
    }
}

// Why a machine ended that waited for a message, at a message of this place.
fn unread(fault: ReadFault, waited: Name, at: u64) -> ServeFault
    ensures { result ≡ unread fault waited at }
{
    match fault {
        ReadFault::Ended => ServeFault::Ended(waited),
        ReadFault::Faulty(code) => ServeFault::Message { code, at },
        ReadFault::Source => ServeFault::Source,
        ReadFault::Want => ServeFault::Want,
    }
}

// Why a machine ended that acted.
fn unsent(fault: SendFault) -> ServeFault
    ensures { result ≡ unsent fault }
{
    match fault {
        SendFault::Sink => ServeFault::Sink,
        SendFault::Want => ServeFault::Want,
    }
}

// Lets a machine act or take a message that isn't over. It answers how many bytes of the input were used.
fn step<S: Site, I: Source, O: Sink>(
    alloc: Global,
    at: u64,
    site: &mut S,
    names: &mut Slots<MACHINES>,
    input: &mut I,
    out: &mut O,
) -> Result<u64, ServeFault>
    requires stands { Stands S.sound (S.state site.old) names.old }
    requires going { is_over (S.state site.old).at.spot ≡ false }
    ensures { Steps S.work S.sound at (S.state site.old) names.old
        (streams I.left I.faults O.held O.faults O.spare input.old out.old)
        (streams I.left I.faults O.held O.faults O.spare input.new out.new)
        (S.state site.new) names.new result }
{
    match site.action() {
        Action::Waits(waited) => match take_next(alloc, site, names, input) {
            Ok(size) => Ok(size),
            Err(fault) => Err(unread(fault, waited, at)),
        },
        Action::Ready => match act(alloc, site, names, out) {
            Ok(()) => Ok(0),
            Err(fault) => Err(unsent(fault)),
        },
        Action::Over => Ok(0),
    }
}

/// Lets the machine of a part serve the messages of an input, and writes what it sends, up to its end. It reads no
/// byte behind the last message that it takes.
pub fn serve<S: Site, I: Source, O: Sink>(
    alloc: Global,
    part: Part,
    input: &mut I,
    out: &mut O,
) -> Result<S, ServeFault>
    ensures { (bytes : List ℕ) × IfSome (I.left input.old) (λ left. left ≡ bytes)
        × Serves S.state (worker S.work (plain_of part) part.split.value bytes)
        (streams I.left I.faults O.held O.faults O.spare input.old out.old)
        (streams I.left I.faults O.held O.faults O.spare input.new out.new) result }
{
    tells_can_run(&part);
    let machines = part.at.count();
    let mut names = match Slots::make(alloc, machines) {
        Ok(names) => names,
        Err(_) => return Err(ServeFault::Want),
    };
    let mut site = match S::make(alloc, part) {
        Ok(machine) => machine,
        Err(_) => return Err(ServeFault::Want),
    };
    let mut at = 0;
    'steps: while is_going(&site) {
        match step(alloc, at, &mut site, &mut names, input, out) {
            Ok(size) => at += size,
            Err(fault) => return Err(fault),
        }
    }
    Ok(site)
}
