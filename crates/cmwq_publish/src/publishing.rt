//! One mark is published.
ghost use Rattle.std.specs.Prelude.{◌≡◌, ◌∷◌, [], drop, IsOk, MatchResult};
ghost use Rattle.left_right.specs.Sides.{view};
ghost use Rattle.cmwq_publish.specs.declared.versions.Publish.{Publish};
ghost use Rattle.cmwq_publish.specs.Published.{FollowsVersions, ShowsVersion};

use crate::versions::{BitsWriter, Look, Publish};
use core::mem::replace_with;
use std::alloc::AllocError;
use std::sync::Wait;

// Readers see the bits that the mark leaves, or that they saw before.
#[inline(always)]
pub(crate) fn publish_mark<R: Wait>(
    rt: &R,
    writer: &mut BitsWriter,
    mark: Publish,
) -> Result<(), AllocError>
    requires idle { drop writer.old.behind writer.old.log.items ≡ [] }
    requires follows { FollowsVersions writer.old.desk.shown.value mark }
    ensures idle { drop writer.new.behind writer.new.log.items ≡ [] }
    ensures shown { MatchResult result
        (λ _. ShowsVersion writer.old.desk.shown.value mark writer.new.desk.shown.value (view writer.new.desk.place))
        (λ _. writer.new.desk.shown.value ≡ writer.old.desk.shown.value) }
{
    if writer.append(mark).is_err() {
        return Err(AllocError);
    }
    replace_with(
        writer,
        (),
        |writer, _nothing| -> (BitsWriter, Result<(), AllocError>)
            requires { (mark : Publish) × (drop writer.behind writer.log.items ≡ mark ∷ [])
                × FollowsVersions writer.desk.shown.value mark }
            ensures { (drop result.0.behind result.0.log.items ≡ []) × IsOk result.1
                × ((mark : Publish) → drop writer.behind writer.log.items ≡ mark ∷ []
                → ShowsVersion writer.desk.shown.value mark result.0.desk.shown.value (view result.0.desk.place)) }
        { writer.publish_as::<Look, R>(rt) },
    )
}
