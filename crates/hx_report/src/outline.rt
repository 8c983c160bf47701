// Which namespace stands on which line of the tree.
ghost use Rattle.std.specs.Prelude.{◌≡◌, ◌++◌, ◌∷◌, [], ℕ, List, None, IfOk, OnOk, is_none, if◌then◌else◌, map, reverse};
ghost use Rattle.std.specs.List.{flat_map};
ghost use Rattle.std.specs.Map.{lookup};
ghost use Rattle.std.specs.Str.{bytes_eq};
ghost use Rattle.hx_survey.specs.Surveyed.{tree_of};
ghost use Rattle.hx_report.specs.Outline.{below, line_at, lines_of, lines_under, tops};
ghost use Rattle.hx_report.specs.Inside.{above_of, is_that, list_at, opened_below};

use hx_object::{NoMemory, Text};
use hx_survey::Survey;
use indexmap::IndexMap;
use std::alloc::Global;

/// A line of the tree: a namespace, and its level.
pub(crate) struct Line {
    pub(crate) level: usize,
    pub(crate) name: Text,
}

impl Drop for Line {
    fn drop(self) {
        let Line { level: _, name: _ } = self;
    }
}

/// Names by another name.
type Lists = IndexMap<Text, Vec<Text>>;

/// Where namespaces stand: those at level 0, and by the name of each those below it, in byte order.
struct Places {
    tops: Vec<Text>,
    below: Lists,
}

impl Drop for Places {
    fn drop(self) {
        let Places { tops: _, below: _ } = self;
    }
}

/// All lines of the tree, from the top to the bottom.
pub(crate) fn lines_of(survey: &Survey) -> Result<Vec<Line>, NoMemory>
    ensures { IfOk result (λ lines. lines.items ≡ lines_of (tree_of survey.now)) }
{
    let places = places_of(survey)?;
    spread(survey.allocator(), &places, survey.nodes().len())
}

/// The lines of places, from the top to the bottom. No way down takes more than `most` steps.
fn spread(alloc: Global, places: &Places, most: usize) -> Result<Vec<Line>, NoMemory>
    ensures { IfOk result (λ lines. lines.items ≡ flat_map (lines_under (list_at places.now) most) (map (line_at 0) places.now.tops.items)) }
{
    let mut lines = Vec::new(alloc);
    let mut opened = Vec::new(alloc);
    open_all(&mut opened, 0, places.tops.as_slice())?;
    while let Some(line) = opened.pop() {
        open_below(&mut opened, places, &line, most)?;
        lines.push(line)?;
    }
    Ok(lines)
}

/// Opens what stands below a line, unless that is too deep.
fn open_below(
    opened: &mut Vec<Line>,
    places: &Places,
    line: &Line,
    most: usize,
) -> Result<(), NoMemory>
    ensures { OnOk result (opened.new.items ≡ opened.old.items ++ opened_below (list_at places.now) most line.now) }
{
    if line.level >= most {
        return Ok(());
    }
    open_all(opened, line.level + 1, places.below(&line.name))
}

/// Opens lines at a level. The first of them is at the end then, and taken next.
fn open_all(opened: &mut Vec<Line>, level: usize, names: &[Text]) -> Result<(), NoMemory>
    ensures { OnOk result (opened.new.items ≡ opened.old.items ++ map (line_at level) (reverse names.now)) }
{
    for name in names.iter().rev() {
        opened.push(Line {
            level,
            name: name.clone()?,
        })?;
    }
    Ok(())
}

/// Where all namespaces stand.
fn places_of(survey: &Survey) -> Result<Places, NoMemory>
    ensures tops { IfOk result (λ places. places.tops.items ≡ tops (tree_of survey.now)) }
    ensures below { IfOk result (λ places. (q : List ℕ) → list_at places q ≡ below (tree_of survey.now) q) }
{
    let mut places = Places::new(survey.allocator());
    let nodes = survey.nodes();
    for entry in nodes {
        let above = above(survey, &entry.0)?;
        places.put(above, entry.0.clone()?)?;
    }
    Ok(places)
}

/// Below which namespace one stands: its parent, unless that isn't there or it is in a cycle.
fn above(survey: &Survey, name: &Text) -> Result<Option<Text>, NoMemory>
    ensures { IfOk result (λ above. above ≡ above_of (tree_of survey.now) name.now) }
{
    if survey.is_in_cycle(name) {
        return Ok(None);
    }
    let chain = survey.chain(name)?;
    match chain.get(1) {
        Some(above) => Ok(Some(above.clone()?)),
        None => Ok(None),
    }
}

impl Places {
    fn new(alloc: Global) -> Places
        ensures tops { result.tops.items ≡ [] }
        ensures below { (q : List ℕ) → list_at result q ≡ [] }
    {
        Places {
            tops: Vec::new(alloc),
            below: IndexMap::new(alloc),
        }
    }

    /// The namespaces that stand below one.
    fn below(&self, name: &Text) -> &[Text]
        ensures { result.now ≡ list_at self.now name.now }
    {
        match self.below.get(name) {
            Some(names) => names.as_slice(),
            None => &[],
        }
    }

    /// Puts a namespace behind the others that stand below the same one, or at level 0.
    fn put(&mut self, above: Option<Text>, name: Text) -> Result<(), NoMemory>
        ensures tops { OnOk result (self.new.tops.items ≡ self.old.tops.items ++ (if is_none above then name ∷ [] else [])) }
        ensures below { OnOk result ((q : List ℕ) → list_at self.new q ≡ list_at self.old q ++ (if is_that above q then name ∷ [] else [])) }
    {
        match above {
            Some(above) => self.put_below(above, name),
            None => self.put_top(name),
        }
    }

    fn put_top(&mut self, name: Text) -> Result<(), NoMemory>
        ensures tops { OnOk result (self.new.tops.items ≡ self.old.tops.items ++ name ∷ []) }
        ensures below { self.new.below ≡ self.old.below }
    {
        Ok(self.tops.push(name)?)
    }

    fn put_below(&mut self, above: Text, name: Text) -> Result<(), NoMemory>
        ensures tops { self.new.tops ≡ self.old.tops }
        ensures below { OnOk result ((q : List ℕ) → list_at self.new q ≡ list_at self.old q ++ (if bytes_eq above q then name ∷ [] else [])) }
    {
        match self.below.get_mut(&above) {
            Some(names) => Ok(names.push(name)?),
            None => self.begin(above, name),
        }
    }

    /// Begins the list of a name that has none.
    fn begin(&mut self, above: Text, name: Text) -> Result<(), NoMemory>
        requires { lookup (bytes_eq above) self.old.below.entries ≡ None }
        ensures tops { self.new.tops ≡ self.old.tops }
        ensures below { OnOk result ((q : List ℕ) → list_at self.new q ≡ list_at self.old q ++ (if bytes_eq above q then name ∷ [] else [])) }
    {
        let mut names = Vec::new(*self.tops.allocator());
        names.push(name)?;
        let _none = self.below.insert(above, names)?;
        Ok(())
    }
}
