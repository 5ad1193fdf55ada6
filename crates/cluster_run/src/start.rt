// The first world of a run.
ghost use Rattle.std.specs.List.{All};
ghost use Rattle.symple_face.specs.Lawful.{CanRun};
ghost use Rattle.symple_face.specs.PartViews.{plain_of};

use crate::cluster::Cluster;
use crate::looks::flags;
use flight::Flight;
use state_laws::tells_can_run;
use std::alloc::Global;
use symple_face::{Part, Site};
use vert_base::Want;

/// Each of the parts tells that its machine can run.
pub(crate) fn each_can_run(parts: &[Part])
    ensures { All (λ part. CanRun (plain_of part) part.split.value) parts.now }
{
    for part in parts {
        tells_can_run(part);
    }
}

impl<S: Site, const CAP: usize> Cluster<S, CAP> {
    ghost use Rattle.std.specs.Prelude.{◌≡◌, ◌≤◌, false, map, vec_len, IfOk};
    ghost use Rattle.std.specs.List.{All};
    ghost use Rattle.instrument.specs.declared.split.Split.{Split};
    ghost use Rattle.symple_face.specs.Cluster.{IsOneRun, first_world};
    ghost use Rattle.symple_face.specs.PartViews.{plain_of};

    /// The machines of the parts of one run, in order, before their first events.
    pub fn start(alloc: Global, mut parts: Vec<Part>) -> Result<Self, Want>
        requires few { vec_len parts ≤ CAP }
        requires one_run { IsOneRun (map plain_of parts.items) }
        requires one_split { (split : Split) × All (λ part. part.split.value ≡ split) parts.items }
        ensures { (split : Split) → All (λ part. part.split.value ≡ split) parts.items
            → IfOk result (λ cluster. cluster ≡ record {
              world = first_world S.work split (map plain_of parts.items);
              ended = false;
            }) }
    {
        each_can_run(&parts);
        let mut sites = Vec::new(alloc);
        parts.reverse();
        while let Some(part) = parts.pop() {
            sites.push(S::make(alloc, part)?)?;
        }
        let ready = flags(alloc, &sites)?;
        Ok(Cluster {
            sites,
            ready,
            flight: Flight::new(alloc),
            out: Vec::new(alloc),
            ended: false,
        })
    }
}
