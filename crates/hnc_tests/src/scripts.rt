// What lines at the edges of the script's forms are answered, over ports that can't fail.
use crate::memory::empty_cluster;
use hx_ports::{SureSink, SureSource};
use hx_script::{RunEnd, run_script};
use std::alloc::{AllocError, Global};
use std::hash::RandomState;
use std::test::Fail;

/// How a run of the script ends, and what it answers.
pub fn answers(
    alloc: Global,
    keys: RandomState,
    script: &[u8],
    room: usize,
) -> Result<(RunEnd, SureSink), AllocError> {
    let mut source = SureSource::new(Vec::from_slice(alloc, script)?, 4096);
    let mut sink = SureSink::new(Vec::with_capacity(alloc, room)?);
    let mut cluster = empty_cluster(alloc, keys)?;
    let end = run_script(alloc, &mut source, &mut sink, &mut cluster);
    drop(cluster.close());
    Ok((end, sink))
}

/// The first three bytes of each line, with a space: a request's code, or the beginning of a word.
fn codes_of(alloc: Global, answers: &[u8]) -> Result<Vec<u8>, AllocError> {
    let mut codes = Vec::new(alloc);
    for line in answers.split(|byte| *byte == b'\n') {
        if let [first, second, third, ..] = line {
            codes.extend_from_slice(&[*first, *second, *third, b' '])?;
        }
    }
    Ok(codes)
}

#[test]
fn lines(rt: HostRuntime) -> Result<(), Fail> {
    let keys = RandomState::new(&rt)?;
    // the byte that a script begins with, how often it stands there, what follows, and the codes
    for (byte, count, rest, codes) in [
        (b'x', 0, b"".as_slice(), ""),
        (b'x', 0, b"x\r\n\ny", "400 400 "),
        (b'#', 200_000, b"\ncheck", "che "),
        (b'x', 131_072, b"\r\ncheck", "400 che "),
        (b'x', 131_073, b"", "413 "),
        (b'x', 131_073, b"\r\ncheck", "413 che "),
        (b'x', 131_072, b"\r\rx\n", "413 "),
        (b'x', 131_072, b"\xff", "413 "),
        (b'x', 200_000, b"\r\n", "413 "),
    ] {
        let mut script = vec![in rt.alloc(); byte; count]?;
        script.extend_from_slice(rest)?;
        let (end, sink) = answers(rt.alloc(), keys, script.as_slice(), 4096)?;
        assert_eq!(rt; end, RunEnd::Done);
        let found = codes_of(rt.alloc(), sink.bytes())?;
        assert_eq!(rt; found.as_slice(), codes.as_bytes(), "{count} of {byte}");
    }
    Ok(())
}

/// Adds lines that create so many objects, each named by its number.
fn add_creates(
    script: &mut String,
    count: u32,
    target: &str,
    kind: &str,
) -> Result<(), AllocError> {
    for number in 0..count {
        let line = format!(in *script.allocator();
            "POST {target} {{\"apiVersion\":\"v1\",\"kind\":\"{kind}\",\"metadata\":{{\"name\":\"n{number}\"}}}}\n"
        )?;
        script.push_str(line.as_str())?;
    }
    Ok(())
}

/// A request that would make a copy, which doesn't count.
const COPY: &str =
    "POST /api/v1/namespaces/n0/configmaps {\"apiVersion\":\"v1\",\"kind\":\"ConfigMap\",\"metadata\":{\"labels\":{\"hnc.x-k8s.io/inherited-from\":\"n1\"},\"name\":\"copy\"}}";

/// The codes of the answers to requests that create so many namespaces, then so many ConfigMaps in the first one, and then a copy.
fn codes_of_creates(
    alloc: Global,
    keys: RandomState,
    namespaces: u32,
    maps: u32,
) -> Result<Vec<u8>, AllocError> {
    let mut script = String::new(alloc);
    add_creates(&mut script, namespaces, "/api/v1/namespaces", "Namespace")?;
    add_creates(
        &mut script,
        maps,
        "/api/v1/namespaces/n0/configmaps",
        "ConfigMap",
    )?;
    script.push_str(COPY)?;
    let (_, sink) = answers(alloc, keys, script.as_str().as_bytes(), 16_777_216)?;
    codes_of(alloc, sink.bytes())
}

#[test]
fn limits_at_the_edge(rt: HostRuntime) -> Result<(), Fail> {
    let keys = RandomState::new(&rt)?;
    // the namespaces and the ConfigMaps that are created, and the codes of the last answers. No limit is escaped by the label of a copy, since no request may give it
    for (namespaces, maps, last) in [
        (4_096, 1, "201 201 403 "),
        (4_097, 0, "201 507 403 "),
        (1, 65_537, "201 507 403 "),
    ] {
        let codes = codes_of_creates(rt.alloc(), keys, namespaces, maps)?;
        assert!(rt;
            codes.as_slice().ends_with(last.as_bytes()),
            "{namespaces}, {maps}"
        );
    }
    Ok(())
}
