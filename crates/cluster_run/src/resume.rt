// The first world of a run that goes on from a start.
ghost use Rattle.std.specs.Prelude.{◌≡◌, IfOk};
ghost use Rattle.symple_face.specs.PartViews.{plain_of};
ghost use Rattle.symple_face.specs.Restarts.{IsStart};
ghost use Rattle.symple_face.specs.Work.{plain_start};

use crate::cluster::Cluster;
use crate::looks::flags;
use crate::start::each_can_run;
use flight::Flight;
use std::alloc::Global;
use symple_face::{Part, Restart, Start};
use vert_base::Want;

// The machine of a part at the begin of the start's round.
fn make_at<S: Restart>(alloc: Global, part: Part, start: &Start) -> Result<S, Want>
    requires { IsStart (plain_of part) part.split.value (plain_start start.now) }
    ensures { IfOk result (λ site. S.state site
        ≡ S.work.restarted (plain_of part) part.split.value (plain_start start.now)) }
{
    let mut site = S::make(alloc, part)?;
    site.restart(start);
    Ok(site)
}

impl<S: Restart, const CAP: usize> Cluster<S, CAP> {
    ghost use Rattle.std.specs.Prelude.{◌≡◌, ◌≤◌, false, map, vec_len, IfOk};
    ghost use Rattle.std.specs.List.{All};
    ghost use Rattle.instrument.specs.declared.split.Split.{Split};
    ghost use Rattle.symple_face.specs.Cluster.{IsOneRun, restarted_world};
    ghost use Rattle.symple_face.specs.PartViews.{plain_of};

    /// The machines of the parts of one run, in order, at the begin of the start's round.
    pub fn resume(alloc: Global, mut parts: Vec<Part>, start: &Start) -> Result<Self, Want>
        requires few { vec_len parts ≤ CAP }
        requires one_run { IsOneRun (map plain_of parts.items) }
        requires one_split { (split : Split) × All (λ part. part.split.value ≡ split) parts.items }
        requires start { All (λ part. IsStart (plain_of part) part.split.value
            (plain_start start.now)) parts.items }
        ensures { (split : Split) → All (λ part. part.split.value ≡ split) parts.items
            → IfOk result (λ cluster. cluster ≡ record {
              world = restarted_world S.work split (map plain_of parts.items)
                  (plain_start start.now);
              ended = false;
            }) }
    {
        each_can_run(&parts);
        let mut sites = Vec::new(alloc);
        parts.reverse();
        while let Some(part) = parts.pop() {
            sites.push(make_at(alloc, part, start)?)?;
        }
        let ready = flags(alloc, &sites)?;
        Ok(Cluster {
            sites,
            ready,
            flight: Flight::new(alloc),
            out: Vec::new(alloc),
            ended: false,
        })
    }
}
