// Reports on the rows that a script left.
use super::{Setting, plain, run, run_on};
use crate::top::Status;
use hx_object::NoMemory;
use hx_ports::Meta;
use std::alloc::Global;
use std::hash::RandomState;
use std::mem;
use std::sync::Wait;
use std::test::Fail;
use std::thread::Threads;

// acme over team over app, a quota in each of the first two, and three Pods in app. Reconcilers have done nothing yet.
const SCRIPT: &str =
    "POST /api/v1/namespaces {\"apiVersion\":\"v1\",\"kind\":\"Namespace\",\"metadata\":{\"name\":\"acme\"}}\nPOST /api/v1/namespaces {\"apiVersion\":\"v1\",\"kind\":\"Namespace\",\"metadata\":{\"name\":\"team\"}}\nPOST /api/v1/namespaces {\"apiVersion\":\"v1\",\"kind\":\"Namespace\",\"metadata\":{\"name\":\"app\"}}\nPOST /apis/hnc.x-k8s.io/v1alpha2/namespaces/team/hierarchyconfigurations {\"apiVersion\":\"hnc.x-k8s.io/v1alpha2\",\"kind\":\"HierarchyConfiguration\",\"metadata\":{\"name\":\"hierarchy\"},\"spec\":{\"parent\":\"acme\"}}\nPOST /apis/hnc.x-k8s.io/v1alpha2/namespaces/app/hierarchyconfigurations {\"apiVersion\":\"hnc.x-k8s.io/v1alpha2\",\"kind\":\"HierarchyConfiguration\",\"metadata\":{\"name\":\"hierarchy\"},\"spec\":{\"parent\":\"team\"}}\nPOST /apis/hnc.x-k8s.io/v1alpha2/namespaces/acme/hierarchicalresourcequotas {\"apiVersion\":\"hnc.x-k8s.io/v1alpha2\",\"kind\":\"HierarchicalResourceQuota\",\"metadata\":{\"name\":\"wide\"},\"spec\":{\"hard\":{\"pods\":\"10\"}}}\nPOST /apis/hnc.x-k8s.io/v1alpha2/namespaces/team/hierarchicalresourcequotas {\"apiVersion\":\"hnc.x-k8s.io/v1alpha2\",\"kind\":\"HierarchicalResourceQuota\",\"metadata\":{\"name\":\"few\"},\"spec\":{\"hard\":{\"pods\":\"3\"}}}\nPOST /api/v1/namespaces/app/pods {\"apiVersion\":\"v1\",\"kind\":\"Pod\",\"metadata\":{\"name\":\"a\"}}\nPOST /api/v1/namespaces/app/pods {\"apiVersion\":\"v1\",\"kind\":\"Pod\",\"metadata\":{\"name\":\"b\"}}\nPOST /api/v1/namespaces/app/pods {\"apiVersion\":\"v1\",\"kind\":\"Pod\",\"metadata\":{\"name\":\"c\"}}\n";

const APP: &str =
    "namespace app\nparent team\nchildren -\nconditions -\ndepth 2\nsources 0\ncopies 0\n";

// The words, the write that fails, and how the command ends: its status, and what is printed.
const REPORTS: [(&str, u64, Status, &str); 8] = [
    ("tree", 0, Status::Done, "acme\n  team\n    app\n"),
    (
        "tree --excluded-namespace team",
        0,
        Status::Done,
        "acme\n  team\n    app (IllegalParent)\n",
    ),
    ("describe app", 0, Status::Done, APP),
    ("describe none", 0, Status::NotFound, ""),
    (
        "quota",
        0,
        Status::Done,
        "acme wide pods 3 10\nteam few pods 3 3\n",
    ),
    ("audit", 0, Status::Unsettled, "differs tree acme\n"),
    ("tree", 1, Status::WriteFault, ""),
    ("describe", 0, Status::Usage, ""),
];

// Whether a report on what the script left ends so, and leaves the version of the rows.
fn ends_so<R: Threads + Wait + Sync>(
    rt: &R,
    alloc: Global,
    keys: RandomState,
    (words, fails, status, text): (&str, u64, Status, &str),
) -> Result<bool, NoMemory> {
    let mut setting: Setting = plain(keys);
    let mut left = run(rt, alloc, "run", SCRIPT.as_bytes(), &setting)?;
    let rows = mem::replace(&mut left.rows, Vec::new(alloc));
    setting.failing_write = fails;
    setting.meta = Meta {
        schema: 2,
        version: left.version,
        rows: rows.len() as u64,
    };
    let told = run_on(rt, alloc, rows, words, b"GET /x\n", &setting)?;
    let is_kept = told.version == left.version && !told.is_broken;
    Ok(is_kept && told.status == status && told.answers.as_slice() == text.as_bytes())
}

#[test]
fn reports_are_printed(rt: HostRuntime) -> Result<(), Fail> {
    let random = RandomState::new(&rt)?;
    for row in REPORTS {
        let ends_so = ends_so(&rt, rt.alloc(), random, row)?;
        assert!(rt; ends_so, "{} {}", row.0, row.1);
    }
    Ok(())
}
