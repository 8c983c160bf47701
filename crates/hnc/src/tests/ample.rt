// Scripts with lines of each form, whose answers say of no want of memory where it is ample.
use super::stopped::{LINES, lines};
use super::{Setting, plain, run};
use crate::top::Status;
use hx_object::NoMemory;
use std::alloc::Global;
use std::hash::RandomState;
use std::sync::Wait;
use std::test::Fail;
use std::thread::Threads;

// Scripts with lines of each form.
const SCRIPTS: [&str; 5] = [
    "check\nsettle 9\ntake 1\ntake 1 tree a\nfinish 1\ntake 1 child a b\ndrop 1\nsettle 0\n",
    "x\nGET x\nGET /x\nPUT /api/v1/namespaces/a\nPOST /api/v1/namespaces {}\ntake 0\ntake 65\n",
    "POST /api/v1/namespaces {\"apiVersion\":\"v1\",\"kind\":\"Namespace\",\"metadata\":{\"name\":\"a\"}}\nPOST /apis/hnc.x-k8s.io/v1alpha2/namespaces/a/subnamespaceanchors {\"apiVersion\":\"hnc.x-k8s.io/v1alpha2\",\"kind\":\"SubnamespaceAnchor\",\"metadata\":{\"name\":\"b\"}}\nsettle 99\nDELETE /apis/hnc.x-k8s.io/v1alpha2/namespaces/a/subnamespaceanchors/b\nsettle 99\nGET /api/v1/namespaces?labelSelector=a%20in%20(b,c)\n",
    "POST /api/v1/namespaces {\"apiVersion\":\"v1\",\"kind\":\"Namespace\",\"metadata\":{\"name\":\"a\"}}\nPOST /apis/hnc.x-k8s.io/v1alpha2/namespaces/a/hierarchicalresourcequotas {\"apiVersion\":\"hnc.x-k8s.io/v1alpha2\",\"kind\":\"HierarchicalResourceQuota\",\"metadata\":{\"name\":\"q\"},\"spec\":{\"hard\":{\"pods\":\"1\"}}}\nPOST /api/v1/namespaces/a/pods {\"apiVersion\":\"v1\",\"kind\":\"Pod\",\"metadata\":{\"name\":\"p\"},\"spec\":{\"containers\":[]}}\nPOST /api/v1/namespaces/a/pods {\"apiVersion\":\"v1\",\"kind\":\"Pod\",\"metadata\":{\"name\":\"r\"},\"spec\":{\"containers\":[]}}\nsettle 99\nGET /apis/hnc.x-k8s.io/v1alpha2/hierarchicalresourcequotas\n",
    "",
];

// Whether a line says that memory is wanting.
fn says_want(line: &[u8]) -> bool {
    line.starts_with(b"503 ".as_slice()) || line.ends_with(b"no memory".as_slice())
}

// Whether some answer does.
fn meets_want(answers: &[u8]) -> bool {
    for line in answers.split(|byte| *byte == b'\n') {
        if says_want(line) {
            return true;
        }
    }
    false
}

// Whether a script is read to its end, and no answer says that memory is wanting.
fn meets_none<R: Threads + Wait + Sync>(
    rt: &R,
    alloc: Global,
    setting: &Setting,
    script: &str,
) -> Result<bool, NoMemory> {
    let left = run(rt, alloc, "run --allow-skip", script.as_bytes(), setting)?;
    Ok(left.status == Status::Done && !meets_want(left.answers.as_slice()))
}

#[test]
fn ample_memory_meets_no_want(rt: HostRuntime) -> Result<(), Fail> {
    let random = RandomState::new(&rt)?;
    for script in SCRIPTS {
        let meets_none = meets_none(&rt, rt.alloc(), &plain(random), script)?;
        assert!(rt; meets_none, "{script}");
    }
    let lines = lines(rt.alloc(), 0, LINES.len())?;
    assert!(rt; meets_none(&rt, rt.alloc(), &plain(random), lines.as_str())?);
    Ok(())
}
