// What is looked up among the rows.
ghost use Rattle.std.specs.Prelude.{◌≡◌, IfOk, option_copied};
ghost use Rattle.hx_model.specs.Forest.{tail_of};
ghost use Rattle.hx_model.specs.Moves.{mode_at};
ghost use Rattle.hx_model.specs.State.{object_at, namespace_id};
ghost use Rattle.hx_model.specs.Subnamespaces.{anchor_id};
ghost use Rattle.hx_model.specs.Tree.{hierarchy_id};
ghost use Rattle.hx_model.specs.Wanted.{quota_id};

use hx_model::mode_in;
use hx_object::well_known::{CONFIG, HIERARCHY};
use hx_object::{Kind, Mode, NoMemory, Shared, Text};
use hx_survey::Survey;

/// The namespace of a name.
pub(crate) fn namespace<'a>(survey: &Survey<'a>, name: &Text) -> Option<&'a Shared>
    ensures { option_copied result ≡ object_at survey.now.objects (namespace_id name.now) }
{
    survey.find(Kind::Namespace, "", name.as_str())
}

/// The HierarchyConfiguration of a namespace.
pub(crate) fn hierarchy<'a>(survey: &Survey<'a>, ns: &Text) -> Option<&'a Shared>
    ensures { option_copied result ≡ object_at survey.now.objects (hierarchy_id ns.now) }
{
    survey.find(Kind::HierarchyConfiguration, ns.as_str(), HIERARCHY)
}

/// The anchor by which a namespace asks for a subnamespace.
pub(crate) fn anchor<'a>(survey: &Survey<'a>, ns: &Text, name: &Text) -> Option<&'a Shared>
    ensures { option_copied result ≡ object_at survey.now.objects (anchor_id ns.now name.now) }
{
    survey.find(Kind::SubnamespaceAnchor, ns.as_str(), name.as_str())
}

/// The quota of a name in a namespace.
pub(crate) fn quota<'a>(survey: &Survey<'a>, ns: &Text, name: &Text) -> Option<&'a Shared>
    ensures { option_copied result ≡ object_at survey.now.objects (quota_id ns.now name.now) }
{
    survey.find(Kind::HierarchicalResourceQuota, ns.as_str(), name.as_str())
}

/// The mode of a kind, by the HNCConfiguration that is there.
pub(crate) fn mode_of(survey: &Survey, kind: Kind) -> Mode
    ensures { result ≡ mode_at survey.now.objects kind }
{
    match survey.find(Kind::HncConfiguration, "", CONFIG) {
        Some(config) => mode_in(Some(config.object()), kind),
        None => mode_in(None, kind),
    }
}

/// One more owner of what is found.
pub(crate) fn share(found: Option<&Shared>) -> Result<Option<Shared>, NoMemory>
    ensures { IfOk result (λ shared. shared ≡ option_copied found.entry) }
{
    match found {
        Some(object) => Ok(Some(object.share()?)),
        None => Ok(None),
    }
}

/// A chain without its first member.
pub(crate) fn tail_of(chain: &[Text]) -> &[Text]
    ensures { result.now ≡ tail_of chain.now }
{
    match chain.split_first() {
        Some((_, above)) => above,
        None => chain,
    }
}
