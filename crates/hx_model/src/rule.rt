// The rules that a request may break.
ghost use Rattle.std.specs.Prelude.{◌≡◌};
ghost use Rattle.hx_model.specs.Replies.{rule_row};

use crate::Reason;

/// The rules of admission and the limits of a store, in the order in which they are tried. The refusal of what passes a limit of a quota names more than a rule: it is [`crate::Refusal::OverQuota`].
#[derive(Clone, Copy)]
pub enum Rule {
    /// Admission is skipped only where that is allowed.
    X1,
    /// A namespace that is on its way out takes nothing in, and isn't changed by requests.
    N4,
    /// A HierarchyConfiguration is named `hierarchy`.
    H7,
    /// An HNCConfiguration is named `config`.
    C1,
    /// Copies are made, changed and removed by reconcilers alone.
    O1,
    /// The annotation that makes a subnamespace is set by reconcilers alone.
    N3,
    /// A new parent is there, and isn't on its way out.
    H1,
    /// A new parent isn't in the subtree of the namespace.
    H2,
    /// A subnamespace's HierarchyConfiguration names no other parent.
    H3,
    /// Nothing moves where an ancestor is halted, or below a halted parent.
    H4,
    /// No move lets a copy overwrite a source.
    H5,
    /// Neither the namespace of a HierarchyConfiguration nor a new parent is excluded.
    H6,
    /// No namespace is moved to a depth over 64.
    H8,
    /// Each entry of an HNCConfiguration names a resource that is known.
    C2,
    /// No resource is named twice.
    C3,
    /// No entry names roles or rolebindings.
    C4,
    /// No entry names pods, services or persistentvolumeclaims.
    C6,
    /// No change of modes lets a copy overwrite a source.
    C5,
    /// Neither the namespace of an anchor nor its name is excluded.
    A2,
    /// No anchor asks for a namespace that is there already, but for its own subnamespace.
    A1,
    /// No anchor asks for a namespace at a depth over 64.
    A4,
    /// An anchor isn't removed while its subnamespace has children, unless cascading deletion is allowed.
    A3,
    /// A subnamespace is removed by its anchor.
    N1,
    /// No namespace takes others along when it is removed, unless cascading deletion is allowed.
    N2,
    /// An object that can be copied has at most one exception, and one that can be read.
    O3,
    /// No source is written where a copy would overwrite it, or so that its copy would overwrite another.
    O2,
    /// Each limit of a quota is of a resource that is known.
    Q3,
    /// Each container of a Pod states what it asks of the resources that quotas limit.
    Q2,
    /// At most 4,096 names of namespaces and anchors.
    L1,
    /// At most 65,536 objects that count.
    L2,
    /// At most 268,435,456 bytes of objects that count.
    L3,
    /// Versions end at 2^63 - 1.
    L4,
}

/// What the table of rules says of one.
#[derive(Drop)]
struct Row {
    name: &'static str,
    reason: Reason,
    message: &'static str,
}

impl Rule {
    /// The rule as a refusal's `details` name it.
    pub fn name(self) -> &'static str
        ensures { result.now ≡ (rule_row self).name }
    {
        self.row().name
    }

    /// The reason of a refusal: a rule of admission forbids, and a limit of the store says that there is no room.
    pub fn reason(self) -> Reason
        ensures { result ≡ (rule_row self).reason }
    {
        self.row().reason
    }

    /// What a refusal says of the rule.
    pub fn message(self) -> &'static str
        ensures { result.now ≡ (rule_row self).message }
    {
        self.row().message
    }

    fn row(self) -> Row
        ensures name { result.name.now ≡ (rule_row self).name }
        ensures reason { result.reason ≡ (rule_row self).reason }
        ensures message { result.message.now ≡ (rule_row self).message }
    {
        match self {
            Rule::X1 => forbids("X1", "skipping admission is not allowed"),
            Rule::N4 => forbids("N4", "the namespace is terminating"),
            Rule::H7 => forbids("H7", "the name must be hierarchy"),
            Rule::C1 => forbids("C1", "the name must be config"),
            Rule::O1 => forbids("O1", "propagated copies cannot be made or changed"),
            Rule::N3 => forbids("N3", "the subnamespace annotation cannot be changed"),
            Rule::H1 => forbids("H1", "the new parent does not exist"),
            Rule::H2 => forbids("H2", "the new parent is in the subtree of the namespace"),
            Rule::H3 => forbids("H3", "the parent of a subnamespace cannot be changed"),
            Rule::H4 => forbids("H4", "the tree is halted"),
            Rule::H5 => forbids("H5", "a source would be overwritten"),
            Rule::H6 => forbids("H6", "the namespace is excluded"),
            Rule::H8 => forbids("H8", "the tree would be deeper than 64"),
            Rule::C2 => forbids("C2", "the resource is unknown"),
            Rule::C3 => forbids("C3", "the resource is named twice"),
            Rule::C4 => forbids("C4", "the mode of this resource is fixed"),
            Rule::C6 => forbids("C6", "the resource cannot be propagated"),
            Rule::C5 => forbids("C5", "a source would be overwritten"),
            Rule::A2 => forbids("A2", "the namespace is excluded"),
            Rule::A1 => forbids("A1", "the namespace exists elsewhere"),
            Rule::A4 => forbids("A4", "the tree would be deeper than 64"),
            Rule::A3 => forbids("A3", "the subnamespace has children"),
            Rule::N1 => forbids("N1", "delete the anchor instead"),
            Rule::N2 => forbids("N2", "cascading deletion is not allowed"),
            Rule::O3 => forbids("O3", "the exception is not valid"),
            Rule::O2 => forbids("O2", "a source would overwrite or be overwritten"),
            Rule::Q3 => forbids("Q3", "the quota resource is unknown"),
            Rule::Q2 => forbids("Q2", "a container does not state a limited resource"),
            Rule::L1 => limits("L1", "too many namespaces"),
            Rule::L2 => limits("L2", "too many objects"),
            Rule::L3 => limits("L3", "too many bytes"),
            Rule::L4 => limits("L4", "no version is left"),
        }
    }
}

/// The row of a rule of admission.
fn forbids(name: &'static str, message: &'static str) -> Row
    ensures name { result.name.now ≡ name.now }
    ensures reason { result.reason ≡ Reason.Forbidden }
    ensures message { result.message.now ≡ message.now }
{
    Row {
        name,
        reason: Reason::Forbidden,
        message,
    }
}

/// The row of a limit of the store.
fn limits(name: &'static str, message: &'static str) -> Row
    ensures name { result.name.now ≡ name.now }
    ensures reason { result.reason ≡ Reason.InsufficientStorage }
    ensures message { result.message.now ≡ message.now }
{
    Row {
        name,
        reason: Reason::InsufficientStorage,
        message,
    }
}
