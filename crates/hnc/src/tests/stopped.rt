// Runs that are stopped, and begun again on the rows that they left.
use super::{Left, codes_of, plain, run_on};
use hx_object::NoMemory;
use hx_ports::{Meta, Row};
use std::alloc::Global;
use std::hash::RandomState;
use std::mem;
use std::sync::Wait;
use std::test::Fail;
use std::thread::Threads;

// Requests over several kinds, with a tree among them.
pub(super) const LINES: [&str; 15] = [
    r#"POST /api/v1/namespaces {"apiVersion":"v1","kind":"Namespace","metadata":{"labels":{"b":"2","a":"1"},"name":"acme"}}"#,
    r#"POST /api/v1/namespaces {"apiVersion":"v1","kind":"Namespace","metadata":{"annotations":{"a/b":"é\n"},"name":"team"}}"#,
    r#"POST /apis/hnc.x-k8s.io/v1alpha2/namespaces/team/hierarchyconfigurations {"apiVersion":"hnc.x-k8s.io/v1alpha2","kind":"HierarchyConfiguration","metadata":{"name":"hierarchy"},"spec":{"parent":"acme"}}"#,
    r#"POST /api/v1/namespaces/acme/configmaps {"apiVersion":"v1","kind":"ConfigMap","metadata":{"name":"c"},"data":{"l":"","k":[1,{}]}}"#,
    r#"POST /apis/hnc.x-k8s.io/v1alpha2/hncconfigurations {"apiVersion":"hnc.x-k8s.io/v1alpha2","kind":"HNCConfiguration","metadata":{"name":"config"},"spec":{"resources":[{"resource":"secrets"}]}}"#,
    r#"PUT /api/v1/namespaces/acme/configmaps/c {"apiVersion":"v1","kind":"ConfigMap","metadata":{"resourceVersion":"3"}}"#,
    r#"PUT /api/v1/namespaces/acme/configmaps/c {"apiVersion":"v1","kind":"ConfigMap","metadata":{"resourceVersion":"4"},"data":{"k":"v"}}"#,
    r#"POST /apis/rbac.authorization.k8s.io/v1/namespaces/team/roles {"apiVersion":"rbac.authorization.k8s.io/v1","kind":"Role","metadata":{"name":"system:r"},"rules":[]}"#,
    r#"POST /apis/hnc.x-k8s.io/v1alpha2/namespaces/acme/hierarchyconfigurations {"apiVersion":"hnc.x-k8s.io/v1alpha2","kind":"HierarchyConfiguration","metadata":{"name":"hierarchy"},"spec":{"parent":"team"}}"#,
    "DELETE /api/v1/namespaces/acme/configmaps/c",
    r#"PUT /apis/hnc.x-k8s.io/v1alpha2/namespaces/team/hierarchyconfigurations/hierarchy {"apiVersion":"hnc.x-k8s.io/v1alpha2","kind":"HierarchyConfiguration","metadata":{},"spec":{"allowCascadingDeletion":true}}"#,
    r#"POST /apis/hnc.x-k8s.io/v1alpha2/namespaces/acme/hierarchyconfigurations {"apiVersion":"hnc.x-k8s.io/v1alpha2","kind":"HierarchyConfiguration","metadata":{"name":"hierarchy"},"spec":{"parent":"team"}}"#,
    r#"PUT /api/v1/namespaces/acme {"apiVersion":"v1","kind":"Namespace","metadata":{"labels":{"a":"2"}}}"#,
    "DELETE /apis/rbac.authorization.k8s.io/v1/namespaces/team/roles/system:r",
    "GET /api/v1/namespaces",
];

const LINE_CODES: &str = "201 201 201 201 201 409 200 201 403 H2 200 200 201 200 200 200 ";

// The lines from one on, up to another.
pub(super) fn lines(alloc: Global, from: usize, to: usize) -> Result<String, NoMemory> {
    let mut script = String::new(alloc);
    for line in LINES.iter().take(to).skip(from) {
        script.push_str(line)?;
        script.push('\n')?;
    }
    Ok(script)
}

// Runs a part of the lines on rows of a version.
fn run_part<R: Threads + Wait + Sync>(
    rt: &R,
    alloc: Global,
    keys: RandomState,
    from: usize,
    to: usize,
    rows: Vec<Row>,
    version: u64,
) -> Result<Left, NoMemory> {
    let mut setting = plain(keys);
    setting.meta = Meta {
        schema: 2,
        version,
        rows: rows.len() as u64,
    };
    let script = lines(alloc, from, to)?;
    run_on(rt, alloc, rows, "run", script.as_str().as_bytes(), &setting)
}

fn is_same_row(row: &Row, other: &Row) -> bool {
    row.version == other.version
        && row.key.as_slice() == other.key.as_slice()
        && row.body.as_str() == other.body.as_str()
}

fn are_same_rows(rows: &[Row], others: &[Row]) -> bool {
    for (at, row) in rows.iter().enumerate() {
        match others.get(at) {
            Some(other) if is_same_row(row, other) => {}
            _ => return false,
        }
    }
    rows.len() == others.len()
}

// Whether a run and another that begins on what it kept leave the same as one, and answer the same between them.
fn are_same(whole: &Left, first: &Left, rest: &Left) -> bool {
    let are_answered = match whole
        .answers
        .as_slice()
        .strip_prefix(first.answers.as_slice())
    {
        Some(left) => left == rest.answers.as_slice(),
        None => false,
    };
    are_answered
        && whole.version == rest.version
        && are_same_rows(whole.rows.as_slice(), rest.rows.as_slice())
}

// Whether the lines in two runs leave the same as in one.
fn is_same_in_two<R: Threads + Wait + Sync>(
    rt: &R,
    alloc: Global,
    keys: RandomState,
    first: usize,
    whole: &Left,
) -> Result<bool, NoMemory> {
    let mut left = run_part(rt, alloc, keys, 0, first, Vec::new(alloc), 0)?;
    let rows = mem::replace(&mut left.rows, Vec::new(alloc));
    let rest = run_part(rt, alloc, keys, first, LINES.len(), rows, left.version)?;
    Ok(are_same(whole, &left, &rest))
}

// Whether the lines have their codes in one run, and keep what they should.
fn is_whole(alloc: Global, whole: &Left) -> Result<bool, NoMemory> {
    let codes = codes_of(alloc, whole.answers.as_slice())?;
    Ok(codes.as_slice() == LINE_CODES.as_bytes() && (whole.version, whole.rows.len()) == (12, 5))
}

#[test]
fn a_stop_changes_nothing(rt: HostRuntime) -> Result<(), Fail> {
    let random = RandomState::new(&rt)?;
    let whole = run_part(
        &rt,
        rt.alloc(),
        random,
        0,
        LINES.len(),
        Vec::new(rt.alloc()),
        0,
    )?;
    assert!(rt; is_whole(rt.alloc(), &whole)?);
    for first in 0..16usize {
        let is_same = is_same_in_two(&rt, rt.alloc(), random, first, &whole)?;
        assert!(rt; is_same, "after {first} lines");
    }
    Ok(())
}
