// The parameters of a query.
ghost use Rattle.std.specs.Prelude.{◌≡◌, ◌∷◌, IfOk, codes, option_copied};
ghost use Rattle.std.specs.Cow.{cow_str_bytes};
ghost use Rattle.std.specs.Option.{option_or};
ghost use Rattle.hx_api.specs.Inside.{fields_said, given_in, is_filled, is_no_number, kept_text, name_of, over, said_by, selector_said};
ghost use Rattle.hx_api.specs.Queries.{Parameters, bad_parameter, is_given, is_other_admission, is_other_since, is_skip, parameters_of, path_of, query_of, selector_text, since_in};
ghost use Rattle.hx_api.specs.FieldSelectors.{fields_text};
ghost use Rattle.hx_object.specs.Pairs.{value_of};

use crate::fields::are_fields;
use hx_json::long_decimal;
use hx_object::NoMemory;
use std::alloc::Global;
use std::borrow::CowStr;
use std::marker::Model;

/// The path of a target, and its query, which is empty where there is none.
pub fn cut(target: &str) -> (&str, &str)
    ensures path { result.0.now ≡ path_of target.now }
    ensures query { result.1.now ≡ query_of target.now }
{
    match target.split_once('?') {
        Some((path, query)) => (path, query),
        None => (target, ""),
    }
}

/// What the parameters of a query say, but for the selectors: each that counts by its first value, `None` where it has none.
#[derive(Clone, Copy)]
pub struct Said {
    /// Whether it is `skip`.
    admission: Option<bool>,
    /// The number that it is, where it is one.
    since: Option<Option<u64>>,
    /// Whether it isn't empty, and so for those below.
    watch: Option<bool>,
    field_selector: Option<bool>,
    dry_run: Option<bool>,
    continued: Option<bool>,
}

impl Said {
    const NOTHING: Said = Said {
        admission: None,
        since: None,
        watch: None,
        field_selector: None,
        dry_run: None,
        continued: None,
    };

    /// What is said with one more parameter behind the others.
    fn followed(self, name: &str, value: &str) -> Said
        ensures { (rest : Parameters) → over result (said_by rest) ≡ over self (said_by ((name.now, value.now) ∷ rest)) }
    {
        let given = Some(is_filled(value));
        match name {
            "admission" => Said {
                admission: self.admission.or(Some(value == "skip")),
                ..self
            },
            "since" => Said {
                since: self.since.or(Some(long_decimal(value.as_bytes()))),
                ..self
            },
            "watch" => Said {
                watch: self.watch.or(given),
                ..self
            },
            "fieldSelector" => Said {
                field_selector: self.field_selector.or(given),
                ..self
            },
            "dryRun" => Said {
                dry_run: self.dry_run.or(given),
                ..self
            },
            "continue" => Said {
                continued: self.continued.or(given),
                ..self
            },
            _ => self,
        }
    }

    /// Whether the first value of a parameter isn't empty.
    fn given(self, parameter: Parameter) -> Option<bool>
        ensures { result ≡ given_in self parameter }
    {
        match parameter {
            Parameter::Watch => self.watch,
            Parameter::FieldSelector => self.field_selector,
            Parameter::DryRun => self.dry_run,
            Parameter::Continue => self.continued,
        }
    }
}

fn is_no_number(since: Option<Option<u64>>) -> bool
    ensures { result ≡ is_no_number since }
{
    matches!(since, Some(None))
}

fn is_filled(value: &str) -> bool
    ensures { result ≡ is_filled value.now }
{
    !value.is_empty()
}

/// A parameter of which it only counts whether its value is empty.
#[derive(Clone, Copy)]
pub enum Parameter {
    Watch,
    FieldSelector,
    DryRun,
    Continue,
}

/// A query, read once. Contracts see it as its parameters.
#[derive(Drop)]
pub struct Query<'a> {
    /// What was read. Only contracts speak of it.
    text: &'a str,
    said: Said,
    /// The first text of the label selector.
    selector: Option<CowStr<'a, Global>>,
    /// That of the field selector.
    fields: Option<CowStr<'a, Global>>,
}

impl<'a> Model for Query<'a> {
    ghost use Rattle.std.specs.Prelude.{◌≡◌};
    ghost use Rattle.hx_api.specs.Inside.{IsReading};
    ghost use Rattle.hx_api.specs.Queries.{Parameters, parameters_of};

    ghost Value = { Parameters };

    ghost view = { λ query. parameters_of query.text.now };

    ghost invariant = { λ query. IsReading (parameters_of query.text.now) query.said query.selector query.fields };
}

impl<'a> Query<'a> {
    /// Reads what stands behind a target's `?`. It takes memory only for names and values that have escapes.
    pub fn read(alloc: Global, query: &'a str) -> Result<Query<'a>, NoMemory>
        ensures { IfOk result (λ read. read ≡ parameters_of query.now) }
    {
        let mut said = Said::NOTHING;
        let mut selector = None;
        let mut fields = None;
        for pair in form_urlencoded::parse(alloc, query.as_bytes()) {
            let (name, value) = pair?;
            said = said.followed(name.as_str(), value.as_str());
            let firsts = first_texts(selector, fields, name.as_str(), value);
            selector = firsts.0;
            fields = firsts.1;
        }
        Ok(Query {
            text: query,
            said,
            selector,
            fields,
        })
    }

    /// The text of the label selector, empty where there is none.
    pub fn selector(&self) -> &str
        ensures { result.now ≡ selector_text self.now }
    {
        match &self.selector {
            Some(text) => text.as_str(),
            None => "",
        }
    }

    /// The text of the field selector, empty where there is none.
    pub fn fields(&self) -> &str
        ensures { result.now ≡ fields_text self.now }
    {
        match &self.fields {
            Some(text) => text.as_str(),
            None => "",
        }
    }

    /// Whether a parameter has a value that isn't empty.
    pub fn is_given(&self, parameter: Parameter) -> bool
        ensures { result ≡ is_given (value_of self.now (name_of parameter)) }
    {
        self.said.given(parameter).unwrap_or(false)
    }

    /// Whether the rules of admission that may be passed over are to be.
    pub fn is_skip(&self) -> bool
        ensures { result ≡ is_skip (value_of self.now (codes "admission")) }
    {
        self.said.admission.unwrap_or(false)
    }

    fn is_other_admission(&self) -> bool
        ensures { result ≡ is_other_admission (value_of self.now (codes "admission")) }
    {
        !self.said.admission.unwrap_or(true)
    }

    /// The version that the feed is read from, where one is given.
    pub fn since(&self) -> Option<u64>
        ensures { result ≡ since_in self.now }
    {
        self.said.since.unwrap_or(None)
    }

    fn is_other_since(&self) -> bool
        ensures { result ≡ is_other_since (value_of self.now (codes "since")) }
    {
        is_no_number(self.said.since)
    }

    /// The first parameter beside the label selector whose value isn't taken, at the feed of events, at a list or elsewhere.
    #[tactic(auto, unfolding(crate::specs::Queries::bad_parameter))]
    pub fn bad_parameter(&self, feed: bool, list: bool) -> Option<&'static str>
        ensures { option_copied result ≡ bad_parameter feed list self.now }
    {
        if self.is_other_admission() {
            Some("admission")
        } else if feed && self.is_other_since() {
            Some("since")
        } else if self.is_given(Parameter::Watch) {
            Some("watch")
        } else if self.is_given(Parameter::FieldSelector) && !(list && are_fields(self.fields())) {
            Some("fieldSelector")
        } else if self.is_given(Parameter::DryRun) {
            Some("dryRun")
        } else if self.is_given(Parameter::Continue) {
            Some("continue")
        } else {
            None
        }
    }
}

/// The first texts of the label selector and of the field selector, with one more parameter behind the others.
fn first_texts<'a>(
    labels: Option<CowStr<'a, Global>>,
    fields: Option<CowStr<'a, Global>>,
    name: &str,
    value: CowStr<'a, Global>,
) -> (Option<CowStr<'a, Global>>, Option<CowStr<'a, Global>>)
    ensures labels { (rest : Parameters) → option_or (kept_text result.0) (selector_said rest) ≡ option_or (kept_text labels.entry) (selector_said ((name.now, cow_str_bytes value.entry) ∷ rest)) }
    ensures fields { (rest : Parameters) → option_or (kept_text result.1) (fields_said rest) ≡ option_or (kept_text fields.entry) (fields_said ((name.now, cow_str_bytes value.entry) ∷ rest)) }
{
    match name {
        "labelSelector" => (labels.or(Some(value)), fields),
        "fieldSelector" => (labels, fields.or(Some(value))),
        _ => (labels, fields),
    }
}
