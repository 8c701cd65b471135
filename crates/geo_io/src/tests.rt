//! What no clause says: that calls succeed, and that the adapters count the faults of std.

use super::{
    Failed, LineEnd, Lines, MemSink, MemSource, ReadSource, Sink, SinkEnd, Source, SureSink,
    SureSource, WriteSink, split_line, write_all,
};
use std::alloc::{AllocError, Global};
use std::io;
use std::io::{Error, ErrorKind, Read};

/// A reader that fails at every read.
#[derive(Drop)]
struct Broken;

impl Read for Broken {
    fn read(&mut self, _buf: &mut [u8]) -> io::Result<usize> {
        Err(Error::from(ErrorKind::BrokenPipe))
    }
}

fn bytes_of(alloc: Global, text: &str) -> Result<Vec<u8>, AllocError> {
    let mut bytes = Vec::new(alloc);
    bytes.extend_from_slice(text.as_bytes())?;
    Ok(bytes)
}

/// The next line; None at the end, and where it is not given.
fn next_line<S: Source>(lines: &mut Lines, source: &mut S) -> Option<Vec<u8>> {
    if lines.taken() > 1 << 24 {
        return None;
    }
    lines.next(source).unwrap_or(None)
}

#[test]
fn reads_over_std(rt: HostRuntime) {
    let mut source = ReadSource::new(b"point A 1 2".as_slice());
    let Ok(mut lines) = Lines::new(rt.alloc(), 201) else {
        panic!(rt; "no memory");
    };
    let line = lines
        .next(&mut source)
        .unwrap_or(None)
        .unwrap_or(Vec::new(rt.alloc()));
    assert_eq!(rt; line.as_slice(), b"point A 1 2".as_slice());
    assert_eq!(rt; source.faults(), 0);

    let mut broken = ReadSource::new(Broken);
    let mut buf = [0u8; 4];
    assert_eq!(rt; broken.read(&mut buf), Err(Failed));
    assert_eq!(rt; broken.read(&mut buf), Err(Failed));
    assert_eq!(rt; broken.faults(), 2);
}

#[test]
fn writes_over_std(rt: HostRuntime) {
    let mut room = [0u8; 4];
    let mut sink = WriteSink::new(room.as_mut_slice());
    assert_eq!(rt; write_all(&mut sink, b"ok\n"), Ok(()));
    assert_eq!(rt; sink.faults(), 0);
    assert_eq!(rt; write_all(&mut sink, b"ok\n"), Err(SinkEnd::Failed));
    assert_eq!(rt; sink.faults(), 1);
    assert_eq!(rt; room, *b"ok\no");
}

#[test]
fn never_fails_in_memory(rt: HostRuntime) -> Result<(), AllocError> {
    let mut source = SureSource::new(bytes_of(rt.alloc(), "screen\n")?);
    let mut buf = [0u8; 16];
    assert_eq!(rt; source.read(&mut buf), Ok(7));
    assert!(rt; buf.as_slice().starts_with(b"screen\n"));
    assert_eq!(rt; source.faults(), 0);

    let mut sink = SureSink::new(rt.alloc());
    assert_eq!(rt; write_all(&mut sink, b"A point "), Ok(()));
    assert_eq!(rt; write_all(&mut sink, b"0 0 1\n"), Ok(()));
    assert_eq!(rt; sink.held(), b"A point 0 0 1\n".as_slice());
    assert_eq!(rt; sink.faults(), 0);
    Ok(())
}

#[test]
fn fails_at_the_chosen_reads(rt: HostRuntime) -> Result<(), AllocError> {
    let bytes = bytes_of(rt.alloc(), "point A 1 2\nscreen\n")?;
    let mut source = MemSource::new(bytes, vec![in rt.alloc(); 3]?, 8);
    let mut long = [0u8; 16];
    let mut short = [0u8; 5];
    assert_eq!(rt; source.read(&mut long), Ok(8));
    assert!(rt; long.as_slice().starts_with(b"point A "));
    assert_eq!(rt; source.read(&mut short), Ok(5));
    assert_eq!(rt; short, *b"1 2\ns");
    assert_eq!(rt; source.read(&mut long), Err(Failed));
    assert_eq!(rt; source.faults(), 1);
    assert_eq!(rt; source.read(&mut long), Ok(6));
    assert!(rt; long.as_slice().starts_with(b"creen\n"));
    assert_eq!(rt; source.read(&mut long), Ok(0));
    assert_eq!(rt; source.faults(), 1);
    Ok(())
}

/// The inputs, with the limit, and their lines.
const INPUTS: [(&str, usize, &[&str]); 8] = [
    ("", 9, &[]),
    ("\n", 9, &[""]),
    ("a\r\n\r\nb\r", 9, &["a", "", "b\r"]),
    ("a\r\r\n\rb\n", 9, &["a\r", "\rb"]),
    ("abcd\r\nef\n", 4, &["abcd", "ef"]),
    ("abcd\nefghij\nkl", 3, &["abc", "efg", "kl"]),
    (
        "abcdefghijklmnopqrstuvwxyz\r\n\nabcdef",
        5,
        &["abcde", "", "abcde"],
    ),
    ("ab\n\n", 0, &["", ""]),
];

#[test]
fn gives_the_lines(rt: HostRuntime) -> Result<(), AllocError> {
    for (input, limit, want) in INPUTS {
        for most in 1..12usize {
            let bytes = bytes_of(rt.alloc(), input)?;
            let mut source = MemSource::new(bytes, Vec::new(rt.alloc()), most);
            let Ok(mut lines) = Lines::new(rt.alloc(), limit) else {
                panic!(rt; "no memory");
            };
            for line in want {
                let given = next_line(&mut lines, &mut source);
                assert_eq!(rt;
                    given.unwrap_or(Vec::new(rt.alloc())).as_slice(),
                    line.as_bytes()
                );
            }
            assert!(rt; next_line(&mut lines, &mut source).is_none());
            assert!(rt; next_line(&mut lines, &mut source).is_none());
            assert_eq!(rt; lines.taken(), input.len() as u64);
        }
    }
    Ok(())
}

/// The third read fails, after the first line and the first letter of the second.
#[test]
fn stops_at_a_failing_read(rt: HostRuntime) -> Result<(), AllocError> {
    let bytes = bytes_of(rt.alloc(), "point A 1 2\nscreen\n")?;
    let mut source = MemSource::new(bytes, vec![in rt.alloc(); 3]?, 8);
    let Ok(mut lines) = Lines::new(rt.alloc(), 201) else {
        panic!(rt; "no memory");
    };
    let first = lines.next(&mut source).unwrap_or(None);
    assert_eq!(rt;
        first.unwrap_or(Vec::new(rt.alloc())).as_slice(),
        b"point A 1 2".as_slice()
    );
    assert_eq!(rt; lines.next(&mut source).err(), Some(LineEnd::Failed));
    assert_eq!(rt; lines.taken(), 16);
    Ok(())
}

#[test]
fn fails_at_the_chosen_writes(rt: HostRuntime) -> Result<(), AllocError> {
    let mut sink = MemSink::new(rt.alloc(), vec![in rt.alloc(); 3]?, 4);
    assert_eq!(rt; write_all(&mut sink, b"ok\nok\n"), Ok(()));
    assert_eq!(rt; sink.faults(), 0);
    assert_eq!(rt; write_all(&mut sink, b"ok\n"), Err(SinkEnd::Failed));
    assert_eq!(rt; sink.held(), b"ok\nok\n".as_slice());
    assert_eq!(rt; sink.faults(), 1);
    assert_eq!(rt; sink.write(b"refused 2 taken\n"), Ok(4));
    assert_eq!(rt; sink.held(), b"ok\nok\nrefu".as_slice());
    Ok(())
}

#[test]
fn walks_the_lines(rt: HostRuntime) {
    let lines = [
        b"join l A B".as_slice(),
        b"".as_slice(),
        b"\rscreen\r".as_slice(),
        b"end\r".as_slice(),
    ];
    let mut rest = b"join l A B\n\r\n\rscreen\r\r\nend\r".as_slice();
    for line in lines {
        let Some((first, after)) = split_line(rest) else {
            panic!(rt; "a line is missing");
        };
        assert_eq!(rt; first, line);
        rest = after;
    }
    assert!(rt; split_line(rest).is_none());
}
