//! Changes of the sketch, each noted in the history.

ghost use Rattle.std.specs.Prelude.{◌≡◌, ◌++◌, IfOk, OnOk, Ok, Option, List};
ghost use Rattle.geo_sketch.specs.Additions.{addition_of, IsSmallSpec};
ghost use Rattle.geo_sketch.specs.Claims.{claim_of};
ghost use Rattle.geo_sketch.specs.Drags.{drag_of};
ghost use Rattle.geo_sketch.specs.Drops.{drop_of};
ghost use Rattle.geo_sketch.specs.Changes.{applied, made_of, LeadsFrom};
ghost use Rattle.geo_view.specs.declared.shown.ViewKind.{ViewKind};
ghost use Rattle.geo_undo.specs.Timelines.{continued};
ghost use Rattle.geo_eval.specs.Scenes.{Leads, before_of};
ghost use Rattle.geo_session.specs.Answers.{State, drawing_of, changed, taken_back_to, done_again, last_of};
ghost use Rattle.geo_session.specs.Standing.{IsAt, Gives};
ghost use Rattle.geo_session.specs.Texts.{ok_line};
ghost use Rattle.geo_session.specs.Together.{AreFollowersOf, IsTogether};
ghost use Rattle.geo_session.specs.Views.{IsShowing};

use crate::desk::Desk;
use crate::state::Reply;
use crate::texts::write_ok;
use crate::views::tell_views;
use geo_sketch::{Delta, Kind, Name, NoMemory, Said, Setting, Spec, Stop};
use geo_view::Views;
use std::alloc::Global;
use std::thread::Threads;

impl<W: Views> Desk<W> {
    pub(crate) fn add<R: Threads + Sync>(
        &mut self,
        rt: &R,
        alloc: Global,
        name: &Name,
        kind: Kind,
        spec: &Spec,
        out: &mut Vec<u8>,
    ) -> Result<Reply, NoMemory>
        requires small { IsSmallSpec spec.now }
        requires together { IsTogether self.old }
        ensures gives { IfOk result (λ reply. (state : State) → IsAt W.shows self.old state → Gives (changed state (addition_of (drawing_of state) name.now kind spec.now)) reply out.old.items out.new.items (IsAt W.shows self.new)) }
        ensures together { OnOk result (IsTogether self.new) }
    {
        match self.sketch.add(*name, kind, spec) {
            Ok(delta) => self.note(rt, alloc, delta, out),
            Err(Stop::Refused(refusal)) => self.refuse(alloc, refusal, out),
            Err(Stop::NoMemory) => Err(NoMemory),
        }
    }

    pub(crate) fn claim<R: Threads + Sync>(
        &mut self,
        rt: &R,
        alloc: Global,
        said: &Said,
        out: &mut Vec<u8>,
    ) -> Result<Reply, NoMemory>
        requires { IsTogether self.old }
        ensures gives { IfOk result (λ reply. (state : State) → IsAt W.shows self.old state → Gives (changed state (claim_of (drawing_of state) said.now)) reply out.old.items out.new.items (IsAt W.shows self.new)) }
        ensures together { OnOk result (IsTogether self.new) }
    {
        match self.sketch.claim(said) {
            Ok(delta) => self.note(rt, alloc, delta, out),
            Err(Stop::Refused(refusal)) => self.refuse(alloc, refusal, out),
            Err(Stop::NoMemory) => Err(NoMemory),
        }
    }

    pub(crate) fn drag<R: Threads + Sync>(
        &mut self,
        rt: &R,
        alloc: Global,
        name: &Name,
        to: Setting,
        out: &mut Vec<u8>,
    ) -> Result<Reply, NoMemory>
        requires { IsTogether self.old }
        ensures gives { IfOk result (λ reply. (state : State) → IsAt W.shows self.old state → Gives (changed state (drag_of (drawing_of state) name.now to)) reply out.old.items out.new.items (IsAt W.shows self.new)) }
        ensures together { OnOk result (IsTogether self.new) }
    {
        match self.sketch.drag(*name, to) {
            Ok(delta) => self.note(rt, alloc, delta, out),
            Err(refusal) => self.refuse(alloc, refusal, out),
        }
    }

    pub(crate) fn drop_element<R: Threads + Sync>(
        &mut self,
        rt: &R,
        alloc: Global,
        name: &Name,
        out: &mut Vec<u8>,
    ) -> Result<Reply, NoMemory>
        requires { IsTogether self.old }
        ensures gives { IfOk result (λ reply. (state : State) → IsAt W.shows self.old state → Gives (changed state (drop_of (drawing_of state) name.now)) reply out.old.items out.new.items (IsAt W.shows self.new)) }
        ensures together { OnOk result (IsTogether self.new) }
    {
        match self.sketch.drop_element(*name) {
            Ok(delta) => self.note(rt, alloc, delta, out),
            Err(refusal) => self.refuse(alloc, refusal, out),
        }
    }

    pub(crate) fn dual<R: Threads + Sync>(
        &mut self,
        rt: &R,
        alloc: Global,
        out: &mut Vec<u8>,
    ) -> Result<Reply, NoMemory>
        requires { IsTogether self.old }
        ensures gives { IfOk result (λ reply. (state : State) → IsAt W.shows self.old state → Gives (changed state (Ok Delta.Dual)) reply out.old.items out.new.items (IsAt W.shows self.new)) }
        ensures together { OnOk result (IsTogether self.new) }
    {
        let delta = self.sketch.dual();
        self.note(rt, alloc, delta, out)
    }

    pub(crate) fn undo<R: Threads + Sync>(
        &mut self,
        rt: &R,
        alloc: Global,
        out: &mut Vec<u8>,
    ) -> Result<Reply, NoMemory>
        requires { IsTogether self.old }
        ensures gives { IfOk result (λ reply. (state : State) → IsAt W.shows self.old state → Gives (taken_back_to state (last_of state.done)) reply out.old.items out.new.items (IsAt W.shows self.new)) }
        ensures together { OnOk result (IsTogether self.new) }
    {
        match self.history.undo(&mut self.sketch) {
            Ok(delta) => self.follow(rt, alloc, &delta, false, out),
            Err(Stop::Refused(refusal)) => self.refuse(alloc, refusal, out),
            Err(Stop::NoMemory) => Err(NoMemory),
        }
    }

    pub(crate) fn redo<R: Threads + Sync>(
        &mut self,
        rt: &R,
        alloc: Global,
        out: &mut Vec<u8>,
    ) -> Result<Reply, NoMemory>
        requires { IsTogether self.old }
        ensures gives { IfOk result (λ reply. (state : State) → IsAt W.shows self.old state → Gives (done_again state state.undone) reply out.old.items out.new.items (IsAt W.shows self.new)) }
        ensures together { OnOk result (IsTogether self.new) }
    {
        match self.history.redo(&mut self.sketch) {
            Ok(delta) => self.follow(rt, alloc, &delta, true, out),
            Err(Stop::Refused(refusal)) => self.refuse(alloc, refusal, out),
            Err(Stop::NoMemory) => Err(NoMemory),
        }
    }

    /// Notes a change that was made of the sketch, and follows it.
    fn note<R: Threads + Sync>(
        &mut self,
        rt: &R,
        alloc: Global,
        delta: Delta,
        out: &mut Vec<u8>,
    ) -> Result<Reply, NoMemory>
        requires leads { LeadsFrom (made_of self.old.history.done) delta }
        requires moved { self.old.sketch ≡ applied (made_of self.old.history.done) delta }
        requires followers { AreFollowersOf (made_of self.old.history.done) self.old.followers }
        ensures noted { OnOk result (self.new.history ≡ continued self.old.history delta) }
        ensures same { (self.new.sketch ≡ self.old.sketch) × (self.new.count ≡ self.old.count) }
        ensures shown { OnOk result ((views : List (Option ViewKind)) → IsShowing W.shows self.old.views (made_of self.old.history.done) views → IsShowing W.shows self.new.views self.new.sketch views) }
        ensures together { OnOk result (IsTogether self.new) }
        ensures acknowledged { IfOk result (λ reply. (reply ≡ Reply.Accepted) × (out.new.items ≡ out.old.items ++ ok_line)) }
    {
        self.history.push(delta)?;
        self.follow(rt, alloc, &delta, true, out)
    }

    /// Lets all that follows the sketch follow a change, and acknowledges it; `forward` is
    /// false where the change was taken back.
    fn follow<R: Threads + Sync>(
        &mut self,
        rt: &R,
        alloc: Global,
        delta: &Delta,
        forward: bool,
        out: &mut Vec<u8>,
    ) -> Result<Reply, NoMemory>
        requires made { self.old.sketch ≡ made_of self.old.history.done }
        requires leads { Leads self.old.sketch delta.now forward }
        requires followers { AreFollowersOf (before_of self.old.sketch delta.now forward) self.old.followers }
        ensures same { (self.new.sketch ≡ self.old.sketch) × (self.new.history ≡ self.old.history) × (self.new.count ≡ self.old.count) }
        ensures shown { OnOk result ((views : List (Option ViewKind)) → IsShowing W.shows self.old.views (before_of self.old.sketch delta.now forward) views → IsShowing W.shows self.new.views self.new.sketch views) }
        ensures together { OnOk result (IsTogether self.new) }
        ensures acknowledged { IfOk result (λ reply. (reply ≡ Reply.Accepted) × (out.new.items ≡ out.old.items ++ ok_line)) }
    {
        self.followers
            .follow(rt, alloc, &self.sketch, delta, forward)?;
        let scene = &self.followers.scene;
        tell_views(&mut self.views, alloc, &self.sketch, scene, delta, forward)?;
        write_ok(out)?;
        Ok(Reply::Accepted)
    }
}
