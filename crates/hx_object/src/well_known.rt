//! The labels, the annotations and the name that have a meaning of their own, as the HNC user guide has them.

/// The label of a copy: the namespace that it was copied from.
pub const INHERITED_FROM: &str = "hnc.x-k8s.io/inherited-from";

/// The label of a namespace that takes part in trees.
pub const INCLUDED_NAMESPACE: &str = "hnc.x-k8s.io/included-namespace";

/// The end of a label of the tree: before it stands an ancestor, and its value is how far that is.
pub const TREE_SUFFIX: &str = ".tree.hnc.x-k8s.io/depth";

/// The annotation of a subnamespace: its parent.
pub const SUBNAMESPACE_OF: &str = "hnc.x-k8s.io/subnamespace-of";

/// The only name of a HierarchyConfiguration.
pub const HIERARCHY: &str = "hierarchy";

/// The only name of an HNCConfiguration.
pub const CONFIG: &str = "config";

/// The exception that names labels of the namespaces which a source goes to: a selector.
pub const SELECT_EXCEPTION: &str = "propagate.hnc.x-k8s.io/select";

/// The exception that names namespaces whose subtrees a source goes to, or doesn't.
pub const TREE_SELECT_EXCEPTION: &str = "propagate.hnc.x-k8s.io/treeSelect";

/// The exception that is `true` where a source goes nowhere.
pub const NONE_EXCEPTION: &str = "propagate.hnc.x-k8s.io/none";

/// The ConfigMap of certificates that Kubernetes keeps in each namespace. It is propagated nowhere.
pub const ROOT_CERTIFICATES: &str = "kube-root-ca.crt";
