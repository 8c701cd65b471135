//! Work on each element of a list, in a thread of its own.

ghost use Rattle.std.specs.Prelude.{◌∷◌, []};
ghost use Rattle.std.specs.Fork.{AcceptsAt, AcceptsEach, ChangesAt, ChangesEach};
ghost use Rattle.std.specs.Thread.{IsSend, IsSync};
ghost use Rattle.geo_settle.specs.Places.{ChangesFrom, HoldsFrom};

use std::thread::{self, Threads, join_mut};

/// Calls `f` at each place of a list, in a new thread for each, and waits for them. It is called
/// in this thread where no other can be made, and for a list of one.
pub(crate) fn in_threads<R: Threads + Sync, T: Send, F: Fn(usize, &mut T) + Sync>(
    rt: &R,
    list: &mut [T],
    f: &F,
)
    requires accepts { AcceptsEach F.Fn f.now list.old }
    ensures { ChangesEach F.Fn f.now list.old list.new }
{
    if list.len() < 2 {
        thread::for_each_mut(rt, list, 1, f);
    } else {
        from_place(rt, f, 0, list);
    }
}

/// Calls `f` at each place of the rest of a list, which begins at `place`. This thread begins all
/// the others and works at no place itself: many systems let a new thread begin on the processor
/// of the thread that began it.
#[cycle(places)]
fn from_place<R: Threads + Sync, T: Send, F: Fn(usize, &mut T) + Sync>(
    rt: &R,
    f: &F,
    place: usize,
    list: &mut [T],
)
    requires { HoldsFrom (AcceptsAt F.Fn f.now) place list.old }
    ensures { ChangesFrom (ChangesAt F.Fn f.now) place list.old list.new }
{
    let Some((first, rest)) = list.split_first_mut() else {
        return;
    };
    first_and_rest(rt, f, place, first, place + 1, rest);
}

/// Calls `f` at a place in a new thread, and begins those of the rest beside it.
#[cycle(places)]
fn first_and_rest<R: Threads + Sync, T: Send, F: Fn(usize, &mut T) + Sync>(
    rt: &R,
    f: &F,
    place: usize,
    first: &mut T,
    next: usize,
    rest: &mut [T],
)
    requires first { AcceptsAt F.Fn f.now place first.old }
    requires rest { HoldsFrom (AcceptsAt F.Fn f.now) next rest.old }
    ensures first { ChangesFrom (ChangesAt F.Fn f.now) place (first.old ∷ []) (first.new ∷ []) }
    ensures rest { ChangesFrom (ChangesAt F.Fn f.now) next rest.old rest.new }
{
    let mut one = ||
        requires { IsSync F.row × IsSend T.row × AcceptsAt F.Fn f.now place first.now }
        ensures { ChangesFrom (ChangesAt F.Fn f.entry.now) place (first.entry.now ∷ []) (first.exit.now ∷ []) }
    { at_one(f, place, first) };
    let mut others = ||
        requires { IsSync R.row × IsSync F.row × IsSend T.row × HoldsFrom (AcceptsAt F.Fn f.now) next rest.now }
        ensures { ChangesFrom (ChangesAt F.Fn f.entry.now) next rest.entry.now rest.exit.now }
    { from_place(rt, f, next, rest) };
    join_mut(rt, &mut one, &mut others);
}

fn at_one<T, F: Fn(usize, &mut T)>(f: &F, place: usize, it: &mut T)
    requires { AcceptsAt F.Fn f.now place it.old }
    ensures { ChangesFrom (ChangesAt F.Fn f.now) place (it.old ∷ []) (it.new ∷ []) }
{
    f(place, it);
}
