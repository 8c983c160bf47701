// Where namespaces lie in the tree.
ghost use Rattle.std.specs.Prelude.{◌≡◌, option_copied, slice_get};
ghost use Rattle.std.specs.List.{prefix_len};
ghost use Rattle.std.specs.Ordering.{is_lt};
ghost use Rattle.hx_object.specs.Texts.{bytes_cmp};
ghost use Rattle.hx_model.specs.Forest.{node_of};
ghost use Rattle.hx_survey.specs.Inside.{Ascends, has_name, node_at, place_of, place_at};

use hx_model::Node;
use hx_object::Text;

/// Where a namespace lies.
pub(crate) fn place_of(nodes: &[(Text, Node)], name: &Text) -> Option<usize>
    requires { Ascends nodes.now }
    ensures { result ≡ place_of nodes.now name.now }
{
    let place = before(nodes, name);
    if has_name(entry_at(nodes, place), name) {
        Some(place)
    } else {
        None
    }
}

/// What lies at a place.
pub(crate) fn entry_at(nodes: &[(Text, Node)], place: usize) -> Option<&(Text, Node)>
    ensures { option_copied result ≡ slice_get nodes.now place }
{
    nodes.get(place)
}

/// Whether what lies at a place has the name.
fn has_name(entry: Option<&(Text, Node)>, name: &Text) -> bool
    ensures { result ≡ has_name name.now (option_copied entry.entry) }
{
    match entry {
        Some(entry) => *name == entry.0,
        None => false,
    }
}

/// The node of a namespace, where it is there.
pub(crate) fn node_of<'a>(nodes: &'a [(Text, Node)], name: &Text) -> Option<&'a Node>
    requires { Ascends nodes.now }
    ensures { option_copied result ≡ node_of nodes.now name.now }
{
    node_at(nodes, place_of(nodes, name))
}

/// The node at a place that may be none.
pub(crate) fn node_at(nodes: &[(Text, Node)], place: Option<usize>) -> Option<&Node>
    ensures { option_copied result ≡ node_at nodes.now place }
{
    match nodes.get(place?) {
        Some(entry) => Some(&entry.1),
        None => None,
    }
}

/// Where a namespace lies whose name may be none.
pub(crate) fn place_at(nodes: &[(Text, Node)], name: Option<&Text>) -> Option<usize>
    requires { Ascends nodes.now }
    ensures { result ≡ place_at nodes.now (option_copied name.entry) }
{
    match name {
        Some(name) => place_of(nodes, name),
        None => None,
    }
}

/// How many names are less.
fn before(nodes: &[(Text, Node)], name: &Text) -> usize
    requires { Ascends nodes.now }
    ensures { result ≡ prefix_len (λ e. is_lt (bytes_cmp e.0 name.now)) nodes.now }
{
    nodes.partition_point(|entry| is_less(&entry.0, name))
}

fn is_less(a: &Text, b: &Text) -> bool
    ensures { result ≡ is_lt (bytes_cmp a.now b.now) }
{
    a.as_str() < b.as_str()
}
