// What the machines are ready for.
ghost use Rattle.std.specs.Prelude.{◌≡◌, ◌≤◌, ◌+◌, Some, IfOk, IfErr, map, length, slice_get};
ghost use Rattle.std.specs.List.{list_all};
ghost use Rattle.circulant_plan.specs.Skeleton.{is_over};
ghost use Rattle.symple_face.specs.Cluster.{can_act};
ghost use Rattle.symple_face.specs.State.{action_of};
ghost use Rattle.cluster_run.specs.Ready.{flags_of, set_from};

use circulant_plan::Spot;
use std::alloc::Global;
use symple_face::{Action, Site};
use vert_base::Want;

/// Whether a machine is ready.
pub(crate) fn is_ready<S: Site>(site: &S) -> bool
    ensures { result ≡ can_act (Some (S.state site.now)) }
{
    matches!(site.action(), Action::Ready)
}

fn is_over<S: Site>(site: &S) -> bool
    ensures { result ≡ is_over (S.state site.now).at.spot }
{
    matches!(site.spot(), Spot::Over)
}

/// Whether every machine is over.
pub(crate) fn all_over<S: Site>(sites: &[S]) -> bool
    ensures { result ≡ list_all (λ s. is_over s.at.spot) (map S.state sites.now) }
{
    for site in sites {
        if !is_over(site) {
            return false;
        }
    }
    true
}

/// Of each machine, whether it is ready.
pub(crate) fn flags<S: Site>(alloc: Global, sites: &[S]) -> Result<Vec<bool>, Want>
    ensures { IfOk result (λ ready. ready.items ≡ flags_of S.state sites.now) }
{
    let mut ready = Vec::with_capacity(alloc, sites.len())?;
    for site in sites {
        ready.push(is_ready(site))?;
    }
    Ok(ready)
}

/// How many flags are set.
pub(crate) fn count_set(ready: &[bool]) -> u32
    requires { length ready.now ≤ 64 }
    ensures count { result ≡ length (set_from 0 ready.now) }
    ensures few { result ≤ 64 }
{
    let mut count = 0;
    for flag in ready {
        if *flag {
            count += 1;
        }
    }
    count
}

/// The place of the set flag with `k` set ones before it, or by how much `k` passes their count.
pub(crate) fn nth_set(ready: &[bool], k: u32) -> Result<u8, u32>
    requires { length ready.now ≤ 64 }
    ensures there { IfOk result (λ machine. slice_get (set_from 0 ready.now) k ≡ Some machine) }
    ensures past { IfErr result (λ left. k ≡ length (set_from 0 ready.now) + left) }
{
    let mut left = k;
    let mut machine: u8 = 0;
    for flag in ready {
        if *flag {
            if left == 0 {
                return Ok(machine);
            }
            left -= 1;
        }
        machine += 1;
    }
    Err(left)
}

/// Whether the machine of a number is ready, by its flag.
pub(crate) fn can_go<S: Site>(sites: &[S], ready: &[bool], machine: u8) -> bool
    requires flags { ready.now ≡ flags_of S.state sites.now }
    ensures { result ≡ can_act (slice_get (map S.state sites.now) machine) }
{
    let _machines = sites.len();
    match ready.get(usize::from(machine)) {
        Some(flag) => *flag,
        None => false,
    }
}
