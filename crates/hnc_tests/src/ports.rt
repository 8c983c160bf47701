// Adapters over std's streams, and a keeper in memory.
ghost use Rattle.std.specs.Prelude.{◌≤◌, IfOk};
ghost use Rattle.hx_ports.specs.Keeping.{IsPut};

use crate::bodies::read;
use hx_object::{Id, Kind, List, NoMemory, Shared, Text};
use hx_ports::{
    Batch, Keeper, MemKeeper, Meta, Row, Sink, Source, StdSink, StdSource, StreamFault,
};
use std::alloc::{AllocError, Global};
use std::hash::RandomState;
use std::io;
use std::io::{Read, Write};
use std::test::Fail;

// Four reads of up to eight bytes: how many each gave, where it did not fail.
fn four_reads<S: Source>(source: &mut S) -> [Option<usize>; 4] {
    let mut piece = [0; 8];
    let mut counts = [None; 4];
    for i in 0..4 {
        counts[i] = source.read(&mut piece).ok();
    }
    counts
}

// Four writes of what is left of a text: how many bytes each took, where it did not fail.
fn four_writes<S: Sink>(sink: &mut S, text: &[u8]) -> [Option<usize>; 4] {
    let mut rest = text;
    let mut counts = [None; 4];
    for i in 0..4 {
        if let Ok(count) = sink.write(rest) {
            rest = &rest[count..];
            counts[i] = Some(count);
        }
    }
    counts
}

// Is interrupted at the first call and fails at the third, and else gives or takes a byte.
#[derive(Drop)]
struct Flaky {
    calls: u8,
}

impl Flaky {
    fn next_count(&mut self, most: usize) -> io::Result<usize>
        ensures { IfOk result (λ n. n ≤ most) }
    {
        self.calls = self.calls.saturating_add(1);
        match self.calls {
            1 => Err(io::Error::from(io::ErrorKind::Interrupted)),
            3 => Err(io::Error::from(io::ErrorKind::BrokenPipe)),
            _ => Ok(most.min(1)),
        }
    }
}

impl Read for Flaky {
    fn read(&mut self, buf: &mut [u8]) -> io::Result<usize> {
        self.next_count(buf.len())
    }
}

impl Write for Flaky {
    fn write(&mut self, buf: &[u8]) -> io::Result<usize> {
        self.next_count(buf.len())
    }

    fn flush(&mut self) -> io::Result<()> {
        Ok(())
    }
}

fn is_broken_pipe(fault: Option<StreamFault>) -> bool {
    matches!(fault, Some(StreamFault::Failed(io::ErrorKind::BrokenPipe)))
}

#[test]
fn reads_from_std(rt: HostRuntime) {
    let mut source = StdSource::new(b"ten bytes.".as_slice());
    assert!(rt; four_reads(&mut source) == [Some(8), Some(2), Some(0), Some(0)]);
    let mut flaky = StdSource::new(Flaky { calls: 0 });
    assert!(rt; four_reads(&mut flaky) == [Some(1), None, Some(1), Some(1)]);
    assert!(rt; flaky.faults() == 1 && is_broken_pipe(flaky.last_fault()));
}

#[test]
fn writes_to_std(rt: HostRuntime) {
    let mut room = [0; 2];
    let mut full = StdSink::new(room.as_mut_slice());
    assert!(rt; four_writes(&mut full, b"abc") == [Some(2), Some(0), Some(0), Some(0)]);
    assert!(rt; full.faults() == 0 && full.stalls() == 3);
    let mut flaky = StdSink::new(Flaky { calls: 0 });
    assert!(rt; four_writes(&mut flaky, b"abc") == [Some(1), None, Some(1), Some(1)]);
    assert!(rt; flaky.faults() == 1 && is_broken_pipe(flaky.last_fault()));
}

fn text(alloc: Global, letters: &str) -> Result<List<u8>, AllocError> {
    Ok(List::of(Vec::from_slice(alloc, letters.as_bytes())?))
}

fn row(alloc: Global, key: &str) -> Result<Row, NoMemory> {
    Ok(Row {
        key: text(alloc, key)?,
        version: 1,
        body: Text::of(alloc, "{}")?,
    })
}

// The object that a body says, a ConfigMap whose key is `08/a/x`.
fn put(alloc: Global) -> Result<Shared, NoMemory>
    ensures { IfOk result IsPut }
{
    let Ok(said) = read(alloc) else {
        return Err(NoMemory);
    };
    if said.object.version > 5 {
        return Err(NoMemory);
    }
    Shared::new(alloc, said.object)
}

// The identity of a ConfigMap in the namespace `a`.
fn id(alloc: Global, name: &str) -> Result<Id, NoMemory> {
    Ok(Id {
        kind: Kind::ConfigMap,
        ns: Text::of(alloc, "a")?,
        name: Text::of(alloc, name)?,
    })
}

// A keeper of the rows of b and d, of version 4, with x put and b cut.
fn changed(alloc: Global, keys: RandomState) -> Result<MemKeeper, Fail> {
    let meta = Meta {
        schema: 1,
        version: 4,
        rows: 2,
    };
    let rows = Vec::from_array(alloc, [row(alloc, "08/a/b")?, row(alloc, "08/a/d")?])?;
    let mut keeper = MemKeeper::new(rows, meta, Vec::new(alloc), Vec::new(alloc), keys);
    keeper.attach("")?;
    let batch = Batch {
        version: 5,
        puts: List::of(Vec::from_array(alloc, [put(alloc)?])?),
        cuts: List::of(Vec::from_array(alloc, [id(alloc, "b")?])?),
        events: List::of(Vec::new(alloc)),
    };
    keeper.commit(batch)?;
    Ok(keeper)
}

#[test]
fn keeps_rows(rt: HostRuntime) -> Result<(), Fail> {
    let mut keeper = changed(rt.alloc(), RandomState::new(&rt)?)?;
    let meta = keeper.meta()?;
    assert!(rt; meta.version == 5 && meta.rows == 2);
    for (after, wanted) in [
        ("", "08/a/d"),
        ("08/a/c", "08/a/d"),
        ("08/a/d", "08/a/x"),
        ("08/a/x", ""),
    ] {
        let found = keeper.load(after.as_bytes())?;
        let key = found
            .as_ref()
            .map_or(b"".as_slice(), |row| row.key.as_slice());
        assert!(rt; key == wanted.as_bytes(), "after {after}");
    }
    Ok(())
}
