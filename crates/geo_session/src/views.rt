//! The views of a session: what they are told, and how they are shown and closed.

ghost use Rattle.std.specs.Prelude.{◌≡◌, ◌++◌, IfOk, OnOk, Option, List};
ghost use Rattle.geo_eval.specs.Scenes.{IsSceneOf, Leads, before_of};
ghost use Rattle.geo_view.specs.declared.shown.ViewKind.{ViewKind as PictureKind};
ghost use Rattle.geo_eval.specs.Shown.{shown_of};
ghost use Rattle.geo_view.specs.Pictures.{picture_text};
ghost use Rattle.geo_view.specs.Walls.{sight_at};
ghost use Rattle.geo_session.specs.Answers.{State, closed_by, pictured, shown_by, sights_of};
ghost use Rattle.geo_session.specs.Standing.{IsAt, Gives};
ghost use Rattle.geo_session.specs.Together.{IsTogether};
ghost use Rattle.geo_session.specs.Views.{IsShowing};

use crate::desk::Desk;
use crate::state::Reply;
use crate::texts::write_ok;
use geo_eval::Scene;
use geo_sketch::{Delta, NoMemory, Sketch, Stop};
use geo_view::{ViewKind, Views, changes_of, shown_of, views_follow, write_picture};
use std::alloc::Global;

impl<W: Views> Desk<W> {
    /// Writes a picture of the sketch.
    pub(crate) fn picture(
        &self,
        alloc: Global,
        kind: ViewKind,
        out: &mut Vec<u8>,
    ) -> Result<Reply, NoMemory>
        requires { IsTogether self.now }
        ensures { IfOk result (λ reply. (state : State) → IsAt W.shows self.now state → Gives (pictured state kind) reply out.old.items out.new.items (IsAt W.shows self.now)) }
    {
        draw(alloc, kind, &self.sketch, &self.followers.scene, out)?;
        Ok(Reply::Accepted)
    }

    /// Writes what view k shows.
    pub(crate) fn show(&self, alloc: Global, k: i64, out: &mut Vec<u8>) -> Result<Reply, NoMemory>
        ensures { IfOk result (λ reply. (state : State) → IsAt W.shows self.now state → Gives (shown_by state (sight_at (sights_of state) k)) reply out.old.items out.new.items (IsAt W.shows self.now)) }
    {
        match self.views.show(alloc, k, out) {
            Ok(()) => Ok(Reply::Accepted),
            Err(Stop::Refused(refusal)) => self.refuse(alloc, refusal, out),
            Err(Stop::NoMemory) => Err(NoMemory),
        }
    }

    /// Closes view k: it is dropped in this call.
    pub(crate) fn close(
        &mut self,
        alloc: Global,
        k: i64,
        out: &mut Vec<u8>,
    ) -> Result<Reply, NoMemory>
        requires { IsTogether self.old }
        ensures gives { IfOk result (λ reply. (state : State) → IsAt W.shows self.old state → Gives (closed_by state k (sight_at (sights_of state) k)) reply out.old.items out.new.items (IsAt W.shows self.new)) }
        ensures together { OnOk result (IsTogether self.new) }
    {
        match self.views.close(k) {
            Ok(()) => {
                write_ok(out)?;
                Ok(Reply::Accepted)
            }
            Err(refusal) => self.refuse(alloc, refusal, out),
        }
    }
}

/// Appends the picture of this kind, where the scene is that of the sketch.
fn draw(
    alloc: Global,
    kind: ViewKind,
    sketch: &Sketch,
    scene: &Scene,
    out: &mut Vec<u8>,
) -> Result<(), NoMemory>
    requires { IsSceneOf scene.now sketch.now }
    ensures { OnOk result (out.new.items ≡ out.old.items ++ picture_text kind (shown_of sketch.now)) }
{
    views_follow();
    let _drawn = sketch.elements();
    let entries = shown_of(alloc, sketch, scene)?;
    write_picture(alloc, kind, &entries, out)
}

/// Lets each open view see a change of the sketch that the scene has followed; `forward` is
/// false where the change was taken back.
pub(crate) fn tell_views<W: Views>(
    all: &mut W,
    alloc: Global,
    sketch: &Sketch,
    scene: &Scene,
    delta: &Delta,
    forward: bool,
) -> Result<(), NoMemory>
    requires scene { IsSceneOf scene.now sketch.now }
    requires leads { Leads sketch.now delta.now forward }
    ensures { OnOk result ((views : List (Option PictureKind)) → IsShowing W.shows all.old (before_of sketch.now delta.now forward) views → IsShowing W.shows all.new sketch.now views) }
{
    views_follow();
    let _drawn = sketch.elements();
    let changes = changes_of(alloc, sketch, scene, delta, forward)?;
    all.tell(&changes)
}
