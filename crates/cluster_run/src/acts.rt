// What an event does to the machines and to the messages under way.
ghost use Rattle.std.specs.Prelude.{◌≡◌, ◌<◌, ◌^◌, None, [], map, length, slice_get, slice_set, Some, OnOk};
ghost use Rattle.vert_base.specs.Letters.{found, letter_of, placed};
ghost use Rattle.symple_face.specs.declared.action.Action.TheVariants.{Ready};
ghost use Rattle.symple_face.specs.Cluster.{all_placed};
ghost use Rattle.symple_face.specs.State.{State, IsTakeable, action_of};
ghost use Rattle.cluster_run.specs.Ready.{flags_of};
ghost use Rattle.cluster_run.specs.Sends.{CanSend};

use crate::looks::is_ready;
use flight::Flight;
use symple_face::Site;
use vert_base::{Message, Want};

// Puts a message under way. Without the memory for it, it is lost.
fn send(flight: &mut Flight, message: Message) -> Result<(), Want>
    requires fresh { found message.name flight.old ≡ None }
    requires room { length flight.old < 2 ^ 31 }
    ensures { OnOk result (flight.new ≡ placed (letter_of message) flight.old) }
{
    match flight.send(message) {
        Ok(()) => Ok(()),
        Err(_) => Err(Want),
    }
}

// Puts all messages of a list under way, which is empty then.
fn send_all(flight: &mut Flight, out: &mut Vec<Message>) -> Result<(), Want>
    requires { CanSend (map letter_of out.old.items) flight.old }
    ensures sent { OnOk result (flight.new ≡ all_placed (map letter_of out.old.items) flight.old) }
    ensures empty { OnOk result (out.new.items ≡ []) }
{
    // Popping off the end moves no other message.
    out.reverse();
    while let Some(message) = out.pop() {
        send(flight, message)?;
    }
    Ok(())
}

/// Lets a machine act, and puts what it sends under way. After want of memory all is open.
pub(crate) fn go_site<S: Site>(
    sites: &mut Vec<S>,
    ready: &mut Vec<bool>,
    flight: &mut Flight,
    out: &mut Vec<Message>,
    machine: usize,
) -> Result<(), Want>
    requires within { machine < length sites.old.items }
    requires none { out.old.items ≡ [] }
    requires flags { ready.old.items ≡ flags_of S.state sites.old.items }
    requires ready { (s : State) → slice_get (map S.state sites.old.items) machine ≡ Some s →
        action_of s ≡ Ready }
    requires room { (s : State) → slice_get (map S.state sites.old.items) machine ≡ Some s →
        CanSend (S.work.sent s) flight.old }
    ensures sites { OnOk result ((s : State)
        → slice_get (map S.state sites.old.items) machine ≡ Some s
        → map S.state sites.new.items
        ≡ slice_set (map S.state sites.old.items) machine (S.work.go s)) }
    ensures flight { OnOk result ((s : State)
        → slice_get (map S.state sites.old.items) machine ≡ Some s
        → flight.new ≡ all_placed (S.work.sent s) flight.old) }
    ensures none { OnOk result (out.new.items ≡ []) }
    ensures flags { OnOk result (ready.new.items ≡ flags_of S.state sites.new.items) }
    ensures count { length sites.new.items ≡ length sites.old.items }
{
    let site = &mut sites[machine];
    site.go(out)?;
    ready[machine] = is_ready(site);
    send_all(flight, out)
}

/// Hands its receiver a message. It takes no memory.
pub(crate) fn take_site<S: Site>(sites: &mut Vec<S>, ready: &mut Vec<bool>, message: Message)
    requires within { message.name.to < length sites.old.items }
    requires flags { ready.old.items ≡ flags_of S.state sites.old.items }
    requires takeable { (s : State)
        → slice_get (map S.state sites.old.items) message.name.to ≡ Some s
        → IsTakeable s (letter_of message) }
    ensures sites { (s : State) → slice_get (map S.state sites.old.items) message.name.to ≡ Some s
        → map S.state sites.new.items
        ≡ slice_set (map S.state sites.old.items) message.name.to
        (S.work.take s (letter_of message)) }
    ensures flags { ready.new.items ≡ flags_of S.state sites.new.items }
{
    let receiver = usize::from(message.name.to);
    let site = &mut sites[receiver];
    site.take(message);
    ready[receiver] = is_ready(site);
}
