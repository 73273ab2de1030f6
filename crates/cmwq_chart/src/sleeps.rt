//! Sleeps: the parts of runs in which they wait.
ghost use Rattle.std.specs.Prelude.{◌≡◌, if◌then◌else◌, option_map, Some, None};
ghost use Rattle.cmwq_chart.specs.Sleeps as spec;

use cmwq_model::{Reply, WorkerId};

/// A sleep of a worker's run: the places of the entries by which it sleeps and goes on. One that has not ended has only
/// the first.
#[derive(Clone, Copy)]
pub struct Sleep {
    pub worker: WorkerId,
    pub from: u32,
    pub to: Option<u32>,
}

/// Since where a worker sleeps after an entry of its own at this place.
pub(crate) fn since_after(reply: Reply, place: u32, since: Option<u32>) -> Option<u32>
    ensures { result ≡ spec.since_after reply place since }
{
    match reply {
        Reply::Started(_) | Reply::StartedEnlist(_, _) | Reply::Woke => None,
        Reply::Slept => Some(place),
        _ => since,
    }
}

/// The sleep of a worker since an entry, if it sleeps.
pub(crate) fn sleep_since(worker: WorkerId, since: Option<u32>, to: Option<u32>) -> Option<Sleep>
    ensures { result ≡ option_map (spec.sleep_from worker to) since }
{
    since.map(|from| Sleep { worker, from, to })
}

/// The sleep of a worker that an entry of its own at this place ends.
pub(crate) fn sleep_ended(
    worker: WorkerId,
    reply: Reply,
    since: Option<u32>,
    place: u32,
) -> Option<Sleep>
    ensures { result
        ≡ (if spec.ends_sleep reply then option_map (spec.sleep_from worker (Some place)) since else None) }
{
    if matches!(reply, Reply::Woke) {
        sleep_since(worker, since, Some(place))
    } else {
        None
    }
}
