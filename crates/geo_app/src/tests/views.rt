//! What views of the tests' own are told, and when they are dropped.

ghost use Rattle.std.specs.Prelude.{◌≡◌, [], IfOk};
ghost use Rattle.geo_view.specs.Sights.{Sight};

use super::figures::figure;
use super::tables::words_of;
use crate::boxes::add_view;
use crate::program::run_in_memory;
use geo_io::{SureSink, SureSource};
use geo_session::Session;
use geo_settle::OpenGate;
use geo_sketch::NoMemory;
use geo_view::{Change, TableView, View, ViewKind, Wall};
use std::alloc::{AllocError, Global};
use std::sync::Arc;
use std::sync::atomic::{AtomicU64, Ordering};

/// A table that counts how often it is told of changes, and that it is dropped. It wants memory
/// once it was told as often as it is spared.
struct Watched {
    table: TableView,
    told: Arc<AtomicU64>,
    dropped: Arc<AtomicU64>,
    spared: u64,
}

impl Watched {
    fn new(
        alloc: Global,
        told: &Arc<AtomicU64>,
        dropped: &Arc<AtomicU64>,
        spared: u64,
    ) -> Result<Watched, AllocError>
        ensures { IfOk result (λ watched. (⟦<TableView as View>⟧.sight watched.table).entries ≡ []) }
    {
        Ok(Watched {
            table: TableView::new(alloc),
            told: Arc::try_clone(told)?,
            dropped: Arc::try_clone(dropped)?,
            spared,
        })
    }
}

impl Drop for Watched {
    fn drop(self) {
        self.dropped.fetch_add(1, Ordering::SeqCst);
        let Watched {
            table: _,
            told: _,
            dropped: _,
            spared: _,
        } = self;
    }
}

impl View for Watched {
    ghost sight = { λ v. ⟦<TableView as View>⟧.sight v.table };

    fn kind(&self) -> ViewKind {
        self.table.kind()
    }

    fn see(&mut self, changes: &[Change]) -> Result<(), NoMemory> {
        if self.told.fetch_add(1, Ordering::SeqCst) == self.spared {
            return Err(NoMemory);
        }
        self.table.see(changes)
    }

    fn render(&self, alloc: Global, out: &mut Vec<u8>) -> Result<(), NoMemory> {
        self.table.render(alloc, out)
    }
}

/// A view that is closed is dropped at once, and told nothing afterwards; the others are dropped
/// with the session. Lines with how often views were told and dropped so far.
const CLOSING: &str = "\
point A 1 2|3|0
close 1|3|1
close 1|3|1
point B 3 4|5|1
screen|5|1
";

#[test]
fn drops_each_view(rt: HostRuntime) -> Result<(), AllocError> {
    let alloc = rt.alloc();
    let told = Arc::new(alloc, AtomicU64::new(0))?;
    let dropped = Arc::new(alloc, AtomicU64::new(0))?;
    let mut views: Vec<Box<dyn View>> = Vec::new(alloc);
    add_view(
        &mut views,
        Box::new(alloc, Watched::new(alloc, &told, &dropped, u64::MAX)?)?,
    )?;
    add_view(
        &mut views,
        Box::new(alloc, Watched::new(alloc, &told, &dropped, u64::MAX)?)?,
    )?;
    add_view(
        &mut views,
        Box::new(alloc, Watched::new(alloc, &told, &dropped, u64::MAX)?)?,
    )?;
    let Ok(wall) = Wall::new(alloc, views) else {
        return Err(AllocError);
    };
    let mut session = Session::new(alloc, wall, 1);
    let mut out = Vec::new(alloc);
    for row in CLOSING.lines() {
        let mut parts = row.split('|');
        let line = parts.next().unwrap_or("").as_bytes();
        assert!(rt; session.line(&rt, alloc, line, &mut out, &OpenGate).is_ok());
        let counts = format!(in alloc;
            "{}|{}",
            told.load(Ordering::SeqCst),
            dropped.load(Ordering::SeqCst)
        )?;
        assert!(rt; row.ends_with(counts.as_str()), "{row}: {counts}");
    }
    drop(session);
    assert_eq!(rt; dropped.load(Ordering::SeqCst), 3);
    Ok(())
}

/// Sixteen additions; the second view is closed after the fifth.
fn closing_script(alloc: Global) -> Result<Vec<u8>, AllocError> {
    let mut script = Vec::new(alloc);
    for (at, line) in figure("desargues").lines().enumerate() {
        if at == 5 {
            script.extend_from_slice(b"close 1\n")?;
        }
        script.extend_from_slice(line.as_bytes())?;
        script.push(b'\n')?;
    }
    Ok(script)
}

/// The first view wants memory at each addition in turn.
#[test]
fn ends_where_a_view_wants_memory(rt: HostRuntime) -> Result<(), AllocError> {
    let alloc = rt.alloc();
    for spared in 0..16u64 {
        let told = Arc::new(alloc, AtomicU64::new(0))?;
        let told_second = Arc::new(alloc, AtomicU64::new(0))?;
        let dropped = Arc::new(alloc, AtomicU64::new(0))?;
        let mut views: Vec<Box<dyn View>> = Vec::new(alloc);
        add_view(
            &mut views,
            Box::new(alloc, Watched::new(alloc, &told, &dropped, spared)?)?,
        )?;
        add_view(
            &mut views,
            Box::new(
                alloc,
                Watched::new(alloc, &told_second, &dropped, u64::MAX)?,
            )?,
        )?;
        let mut source = SureSource::new(closing_script(alloc)?);
        let mut sink = SureSink::new(alloc);
        let words = words_of(alloc, "run")?;
        let ended = run_in_memory(&rt, alloc, &words, &mut source, &mut sink, views, &OpenGate);
        assert_eq!(rt; ended.status(), 6);
        // Nothing but the additions before it and, behind five of these, the closing.
        let answered = if spared < 5 { spared } else { spared + 1 };
        let written = "ok\n".repeat(alloc, answered as usize)?;
        assert_eq!(rt; sink.held(), written.as_bytes());
        assert_eq!(rt; told.load(Ordering::SeqCst), spared + 1);
        assert_eq!(rt; told_second.load(Ordering::SeqCst), spared.min(5));
        assert_eq!(rt; dropped.load(Ordering::SeqCst), 2);
    }
    Ok(())
}
