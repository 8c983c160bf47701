// Selectors and tree selectors, by the grammars that the Kubernetes documentation ("Labels and Selectors") and the HNC user guide give them.
ghost use Rattle.std.specs.Prelude.{◌≡◌, ◌<◌, IfOk};

use hx_object::{NoMemory, Pairs, Text};
use hx_select::{Matcher, SelectFault, Selector, TreeFault, TreeSelect};
use std::alloc::Global;
use std::test::Fail;

/// How many texts of selectors there are.
const COUNT: usize = 308;

/// Texts of selectors. Behind each stands whether it holds for each of the labels, or its fault and the place of that.
const ROWS: [&str; COUNT] = [
    // without a requirement
    " => yyy",
    "  => yyy",
    "      => yyy",
    // a label that is there, or isn't
    "a => yyn",
    "b => nyy",
    "x.io/a => nyn",
    "in => nny",
    "c => nnn",
    "A => nnn",
    " a  => yyn",
    "!a => nny",
    "!b => ynn",
    "! b => ynn",
    " ! b  => ynn",
    "!c => yyy",
    "!x.io/a => yny",
    "!in => yyn",
    "notin => nnn",
    "!notin => yyy",
    // a label with a value
    "a=1 => ynn",
    "a==1 => ynn",
    "a = 1 => ynn",
    "a == 1 => ynn",
    "a= 1 => ynn",
    "a =1 => ynn",
    "a=2 => nyn",
    "a=3 => nnn",
    "a= => nnn",
    "b= => nny",
    "b== => nny",
    "b = => nny",
    "b=  => nny",
    "c= => nnn",
    "b=1 => nyn",
    "x.io/a=web => nyn",
    "in=in => nny",
    "in==in => nny",
    "in=notin => nnn",
    "a=in => nnn",
    "a=A => nnn",
    "a=true => nnn",
    // a label without a value, or that isn't there
    "a!=1 => nyy",
    "a != 1 => nyy",
    "a!=2 => yny",
    "a!=3 => yyy",
    "a!= => yyy",
    "b!= => yyn",
    "b != => yyn",
    "b!=1 => yny",
    "c!=1 => yyy",
    "c!= => yyy",
    "x.io/a!=web => yny",
    "in!=in => yyn",
    "a != in => yyy",
    "A!=1 => yyy",
    "a!=a-b_c.D => yyy",
    // sets
    "a in (1) => ynn",
    "a in (2) => nyn",
    "a in (1,2) => yyn",
    "a in (2,1) => yyn",
    "a in (1,1) => ynn",
    "a in (3) => nnn",
    "a in () => nnn",
    "b in () => nny",
    "b in (,) => nny",
    "b in (,1) => nyy",
    "b in (1,) => nyy",
    "b in (1,,2) => nyy",
    "b in ( ) => nny",
    "b in ( , 1 ) => nyy",
    "a in(1) => ynn",
    "a in( 1 ,2 ) => yyn",
    " a  in  ( 1 , 2 )  => yyn",
    "c in (1) => nnn",
    "c in () => nnn",
    "in in (in) => nny",
    "in in (in,notin) => nny",
    "in in () => nnn",
    "x.io/a in (web,db) => nyn",
    "notin in (a) => nnn",
    "a in (in,notin) => nnn",
    "a in (0,1.0,x_y) => nnn",
    "a notin (1) => nyy",
    "a notin (2) => yny",
    "a notin (1,2) => nny",
    "a notin (3) => yyy",
    "a notin () => yyy",
    "b notin () => yyn",
    "b notin (,1) => ynn",
    "b notin (1) => yny",
    "b notin(1) => yny",
    "a notin( 1 ) => nyy",
    "in notin (in) => yyn",
    "notin notin (notin) => yyy",
    "in notin (notin) => yyy",
    "c notin (1) => yyy",
    "x.io/a notin (web) => yny",
    // requirements that are joined
    "a,b => nyn",
    "a,!b => ynn",
    "!a,b => nny",
    "!a,!b => nnn",
    "a=1,b => nnn",
    "a=2,b=1 => nyn",
    "a==2,b!= => nyn",
    "a!=1,b= => nny",
    "a in (1,2),!b => ynn",
    "a in (1,2), b in (1,2) => nyn",
    "a notin (3),b notin () => yyn",
    "a , b , x.io/a => nyn",
    "a=2,b=1,x.io/a=web,!in,c!=1 => nyn",
    "b=,in=in => nny",
    "b=,in => nny",
    "!a,in in (in,out),b in () => nny",
    "a=1,a=1 => ynn",
    "a=1,a=2 => nnn",
    "a,!a => nnn",
    "a=,b => nnn",
    "b=,b => nny",
    "b!=,b => nyn",
    "in,notin => nnn",
    "in,!notin => nny",
    "in in (a),in => nnn",
    "a in (1),in in (in) => nnn",
    "!in,a in (1) => ynn",
    // the longest names and values, and longer ones
    "a=bbbbbbbbbbbbbbbbbbbbbbbbbbbbbbbbbbbbbbbbbbbbbbbbbbbbbbbbbbbbbbb => nnn",
    "a=bbbbbbbbbbbbbbbbbbbbbbbbbbbbbbbbbbbbbbbbbbbbbbbbbbbbbbbbbbbbbbbb => value 2",
    "ccccccccccccccccccccccccccccccccccccccccccccccccccccccccccccccc => nnn",
    "cccccccccccccccccccccccccccccccccccccccccccccccccccccccccccccccc => key 0",
    "x.io/ccccccccccccccccccccccccccccccccccccccccccccccccccccccccccccccc => nnn",
    "x.io/cccccccccccccccccccccccccccccccccccccccccccccccccccccccccccccccc => key 0",
    // words that are no keys
    "a.b => nnn",
    "a_b => nnn",
    "a-b => nnn",
    "x.io/A => nnn",
    "-a => key 0",
    "a- => key 0",
    "_a => key 0",
    ".a => key 0",
    "a. => key 0",
    "/a => key 0",
    "x.io/ => key 0",
    "x.io//a => key 0",
    "x.io/a/b => key 0",
    "X.io/a => key 0",
    "x_y/a => key 0",
    "x-/a => key 0",
    "x..y/a => key 0",
    "é => key 0",
    "é=1 => key 0",
    "a,é => key 2",
    "a:b => key 0",
    "a+b => key 0",
    "a;b => key 0",
    "a@b => key 0",
    "* => key 0",
    "'a' => key 0",
    "a\tb => key 0",
    "a\n => key 0",
    " -a => key 1",
    "a,-b => key 2",
    "a, -b => key 3",
    "!-a => key 1",
    "! -a => key 2",
    "a=1,-b => key 4",
    "a in (1),b/ => key 9",
    // words that are no values
    "a=-b => value 2",
    "a=b- => value 2",
    "a= -b => value 3",
    "a==-b => value 3",
    "a!=-b => value 3",
    "a != -b => value 5",
    "a=b/c => value 2",
    "a=_ => value 2",
    "a=é => value 2",
    "a=b.c. => value 2",
    "a in (-b) => value 6",
    "a in (b,-c) => value 8",
    "a in (,-c) => value 7",
    "a in ( -b ) => value 7",
    "a in (b, c.) => value 9",
    "a in (é) => value 6",
    "a notin (a:b) => value 9",
    "a=1,b=.c => value 6",
    "x.io/a=x.io/b => value 7",
    // signs that stand nowhere
    "a>1 => syntax 1",
    "a<1 => syntax 1",
    "a > 1 => syntax 2",
    "a>=1 => syntax 1",
    "a<=1 => syntax 1",
    "> => syntax 0",
    "< => syntax 0",
    "a=>1 => syntax 2",
    "a=<b => syntax 2",
    "a in (<) => syntax 6",
    "a in (1>2) => syntax 7",
    "!>a => syntax 1",
    "a,>b => syntax 2",
    "a,b>1 => syntax 3",
    // signs of two bytes
    "a===b => syntax 3",
    "a====b => syntax 3",
    "a=b=c => syntax 3",
    "a==b==c => syntax 4",
    "a=b!=c => syntax 3",
    "a!=b=c => syntax 4",
    "a = = b => syntax 4",
    "a! => syntax 1",
    "a!b => syntax 1",
    "a ! = b => syntax 2",
    "a!==b => syntax 3",
    "a=!b => syntax 2",
    "a=!=b => syntax 2",
    "=a => syntax 0",
    "==a => syntax 0",
    "!=a => syntax 0",
    "!==a => syntax 0",
    "= => syntax 0",
    "! => syntax 1",
    "!  => syntax 2",
    "!! => syntax 1",
    "!!a => syntax 1",
    "!!=a => syntax 1",
    "!a=b => syntax 2",
    "!a!=b => syntax 2",
    "!a in (b) => syntax 3",
    "!a b => syntax 3",
    "!,a => syntax 1",
    "!a,!,b => syntax 4",
    "!(a) => syntax 1",
    // commas without a requirement
    ", => syntax 0",
    ",a => syntax 0",
    " ,a => syntax 1",
    "a, => syntax 2",
    "a,  => syntax 3",
    "a , => syntax 3",
    "a,,b => syntax 2",
    "a, ,b => syntax 3",
    "a,b, => syntax 4",
    "a=1, => syntax 4",
    "a=, => syntax 3",
    "a=,,b => syntax 3",
    "a!=,=b => syntax 4",
    "a in (1), => syntax 9",
    // sets that aren't whole
    "a in => syntax 4",
    "a notin => syntax 7",
    "a in  => syntax 5",
    "a in b => syntax 5",
    "a in 1,2 => syntax 5",
    "a in ,b => syntax 5",
    "a in) => syntax 4",
    "a in=b => syntax 4",
    "a in in (b) => syntax 5",
    "a in notin (b) => syntax 5",
    "a in ( => syntax 6",
    "a in (1 => syntax 7",
    "a in (1, => syntax 8",
    "a in (1,2 => syntax 9",
    "a in (1  => syntax 8",
    "a notin (1 => syntax 10",
    "a in ((1) => syntax 6",
    "a in (1)) => syntax 8",
    "a in (1)b => syntax 8",
    "a in (1) b => syntax 9",
    "a in (1)=b => syntax 8",
    "a in (1)(2) => syntax 8",
    "a in (1 2) => syntax 8",
    "a in (1=2) => syntax 7",
    "a in (!1) => syntax 6",
    "a in (=) => syntax 6",
    "a in (1,!2) => syntax 8",
    "a in (1(2)) => syntax 7",
    "a notin (a b) => syntax 11",
    // words that are no operators
    "ain (b) => syntax 4",
    "a IN (b) => syntax 2",
    "a In (b) => syntax 2",
    "a NOTIN (b) => syntax 2",
    "a not in (b) => syntax 2",
    "a inn (b) => syntax 2",
    "a notinn (b) => syntax 2",
    "a i (b) => syntax 2",
    "a -in (b) => syntax 2",
    "in in in (a) => syntax 6",
    "in (a) => syntax 3",
    "notin (a) => syntax 6",
    "in( => syntax 2",
    "a b => syntax 2",
    "a b=c => syntax 2",
    "a=b c => syntax 4",
    "a=b in (c) => syntax 4",
    "a == b , c d => syntax 11",
    "a=1,b=2,c=3=4 => syntax 11",
    // parentheses elsewhere
    "a(b) => syntax 1",
    "a (b) => syntax 2",
    "a) => syntax 1",
    "( => syntax 0",
    ") => syntax 0",
    "(a) => syntax 0",
    "() => syntax 0",
    "a=(b) => syntax 2",
    "a=b) => syntax 3",
    "a=b(c) => syntax 3",
    // the first of two faults
    "-a=-b, => key 0",
    "a=-b,, => value 2",
    "a in (-b => value 6",
    "a in (1 2,-c) => syntax 8",
    "a,,-b => syntax 2",
    "-a>1 => key 0",
    "a>-1 => syntax 1",
    "!-a=b => key 1",
];

/// Texts of tree selectors. Behind each stands whether it holds for the labels of each of the namespaces, or its fault.
const TREE_ROWS: [&str; 71] = [
    // names
    "a => yyn",
    "b => nyn",
    "aa => nny",
    "c => nnn",
    "!a => nny",
    "!b => yny",
    "!c => yyy",
    "!aa => yyn",
    "a,!b => ynn",
    "!b,a => ynn",
    "b,!a => nnn",
    "!a,!b => nny",
    "!a,!b,!c => nny",
    "a,!c => yyn",
    "aa,!a,!b => nny",
    "!a,!a => nny",
    "a,!a => nnn",
    "!a,b,!c => nnn",
    " a => yyn",
    "a  => yyn",
    " a , !b  => ynn",
    "  !b  ,  a  => ynn",
    "0 => nnn",
    "a-b => nnn",
    "9a => nnn",
    "ccccccccccccccccccccccccccccccccccccccccccccccccccccccccccccccc => nnn",
    "!ccccccccccccccccccccccccccccccccccccccccccccccccccccccccccccccc => yyy",
    // empty pieces
    " => syntax",
    "  => syntax",
    "    => syntax",
    ", => syntax",
    "a, => syntax",
    ",a => syntax",
    "a,,b => syntax",
    "a, ,b => syntax",
    "a,!b, => syntax",
    // pieces that are no names
    "cccccccccccccccccccccccccccccccccccccccccccccccccccccccccccccccc => name",
    "!cccccccccccccccccccccccccccccccccccccccccccccccccccccccccccccccc => name",
    "! => name",
    "!,a => name",
    "!! => name",
    "!!a => name",
    "! a => name",
    "a b => name",
    "A => name",
    "a_b => name",
    "a.b => name",
    "-a => name",
    "a- => name",
    "!-a => name",
    "!A => name",
    "a! => name",
    "a!b => name",
    "é => name",
    "* => name",
    "a=b => name",
    "a\t => name",
    "\ta => name",
    // two names without `!`
    "a,b => two",
    "a,a => two",
    "a , b => two",
    "a,!c,b => two",
    "!c,a,!b,aa => two",
    // the first of two faults
    "a,-b => name",
    "a,B => name",
    "a,b,-c => two",
    "-a,b,c => name",
    "a,,-b => syntax",
    "a,-b,, => name",
    ",-a => syntax",
    "a,b,, => two",
];

/// The row at a place of the table.
fn row(index: usize) -> &'static str
    requires { index < 308 }
{
    ROWS[index]
}

/// A row's text, and what it tells of that.
fn cut(row: &str) -> (&str, &str) {
    match row.rsplit_once(" => ") {
        Some(parts) => parts,
        None => (row, ""),
    }
}

fn pair(alloc: Global, key: &str, value: &str) -> Result<(Text, Text), NoMemory>
    ensures { IfOk result (λ pair. (pair.0 ≡ key.now) × (pair.1 ≡ value.now)) }
{
    Ok((Text::of(alloc, key)?, Text::of(alloc, value)?))
}

/// Labels of one key.
fn one_label(alloc: Global) -> Result<Pairs, NoMemory> {
    let first = pair(alloc, "a", "1")?;
    Ok(Pairs::of(Vec::from_array(alloc, [first])?))
}

fn three_labels(alloc: Global) -> Result<Pairs, NoMemory> {
    let first = pair(alloc, "a", "2")?;
    let second = pair(alloc, "b", "1")?;
    let third = pair(alloc, "x.io/a", "web")?;
    Ok(Pairs::of(Vec::from_array(alloc, [first, second, third])?))
}

/// Labels of which one has an empty value, and one has the name of an operator.
fn odd_labels(alloc: Global) -> Result<Pairs, NoMemory> {
    let first = pair(alloc, "b", "")?;
    let second = pair(alloc, "in", "in")?;
    Ok(Pairs::of(Vec::from_array(alloc, [first, second])?))
}

/// Labels of a namespace under `a`.
fn under_one(alloc: Global) -> Result<Pairs, NoMemory> {
    let first = pair(alloc, "a.tree.hnc.x-k8s.io/depth", "1")?;
    Ok(Pairs::of(Vec::from_array(alloc, [first])?))
}

/// Labels of a namespace under `b` that is under `a`.
fn under_two(alloc: Global) -> Result<Pairs, NoMemory> {
    let first = pair(alloc, "a.tree.hnc.x-k8s.io/depth", "2")?;
    let second = pair(alloc, "b.tree.hnc.x-k8s.io/depth", "1")?;
    Ok(Pairs::of(Vec::from_array(alloc, [first, second])?))
}

/// Labels of the namespace `aa`, and others that are no tree labels.
fn under_itself(alloc: Global) -> Result<Pairs, NoMemory> {
    let first = pair(alloc, "a", "1")?;
    let second = pair(alloc, "a.tree.hnc.x-k8s.io/deep", "1")?;
    let third = pair(alloc, "aa.tree.hnc.x-k8s.io/depth", "0")?;
    Ok(Pairs::of(Vec::from_array(alloc, [first, second, third])?))
}

/// The labels that selectors are asked about.
fn labels(alloc: Global) -> Result<Vec<Pairs>, NoMemory> {
    let mut lists = Vec::new(alloc);
    lists.push(one_label(alloc)?)?;
    lists.push(three_labels(alloc)?)?;
    lists.push(odd_labels(alloc)?)?;
    Ok(lists)
}

/// The labels of the namespaces that tree selectors are asked about.
fn tree_labels(alloc: Global) -> Result<Vec<Pairs>, NoMemory> {
    let mut lists = Vec::new(alloc);
    lists.push(under_one(alloc)?)?;
    lists.push(under_two(alloc)?)?;
    lists.push(under_itself(alloc)?)?;
    Ok(lists)
}

fn letter(holds: bool) -> char {
    if holds { 'y' } else { 'n' }
}

/// Whether a selector holds, for each of the labels.
fn letters(alloc: Global, selector: &Selector, lists: &[Pairs]) -> Result<String, NoMemory> {
    let mut letters = String::new(alloc);
    for labels in lists {
        letters.push(letter(selector.matches(labels)))?;
    }
    Ok(letters)
}

/// What is told of how a text is read as a selector.
fn told(alloc: Global, text: &str, lists: &[Pairs]) -> Result<String, NoMemory> {
    let read = Selector::read(alloc, text);
    words(alloc, &read, lists)
}

/// The words for what was read.
fn words(
    alloc: Global,
    read: &Result<Selector, SelectFault>,
    lists: &[Pairs],
) -> Result<String, NoMemory> {
    match read {
        Ok(selector) => letters(alloc, selector, lists),
        Err(SelectFault::Syntax { at }) => Ok(format!(in alloc; "syntax {at}")?),
        Err(SelectFault::BadKey { at }) => Ok(format!(in alloc; "key {at}")?),
        Err(SelectFault::BadValue { at }) => Ok(format!(in alloc; "value {at}")?),
        Err(SelectFault::NoMemory) => Err(NoMemory),
    }
}

#[test]
fn selectors_are_as_documented(rt: HostRuntime) -> Result<(), Fail> {
    let lists = labels(rt.alloc())?;
    for index in 0..COUNT {
        let (text, wanted) = cut(row(index));
        let told = told(rt.alloc(), text, lists.as_slice())?;
        assert_eq!(rt; told.as_str(), wanted, "{text}");
    }
    Ok(())
}

/// Whether a tree selector holds, for each of the labels.
fn tree_letters(alloc: Global, select: &TreeSelect, lists: &[Pairs]) -> Result<String, NoMemory> {
    let mut letters = String::new(alloc);
    for labels in lists {
        letters.push(letter(select.matches(labels)))?;
    }
    Ok(letters)
}

/// What is told of how a text is read as a tree selector.
fn tree_told(alloc: Global, text: &str, lists: &[Pairs]) -> Result<String, NoMemory> {
    let read = TreeSelect::read(alloc, text);
    tree_words(alloc, &read, lists)
}

/// The words for what was read as a tree selector.
fn tree_words(
    alloc: Global,
    read: &Result<TreeSelect, TreeFault>,
    lists: &[Pairs],
) -> Result<String, NoMemory> {
    match read {
        Ok(select) => tree_letters(alloc, select, lists),
        Err(TreeFault::Syntax) => Ok(String::from_str(alloc, "syntax")?),
        Err(TreeFault::BadName) => Ok(String::from_str(alloc, "name")?),
        Err(TreeFault::TwoPlain) => Ok(String::from_str(alloc, "two")?),
        Err(TreeFault::NoMemory) => Err(NoMemory),
    }
}

#[test]
fn tree_selectors_are_as_documented(rt: HostRuntime) -> Result<(), Fail> {
    let lists = tree_labels(rt.alloc())?;
    for row in TREE_ROWS {
        let (text, wanted) = cut(row);
        let told = tree_told(rt.alloc(), text, lists.as_slice())?;
        assert_eq!(rt; told.as_str(), wanted, "{text}");
    }
    Ok(())
}

/// Whether a selector that is made ready holds, for each of the labels.
fn ready_letters(alloc: Global, selector: Selector, lists: &[Pairs]) -> Result<String, NoMemory> {
    let matcher = Matcher::of(alloc, selector)?;
    let mut letters = String::new(alloc);
    for labels in lists {
        letters.push(letter(matcher.matches(labels)))?;
    }
    Ok(letters)
}

/// The same of a text's selector, and nothing of a text that isn't read.
fn ready(alloc: Global, text: &str, lists: &[Pairs]) -> Result<String, NoMemory> {
    match Selector::read(alloc, text) {
        Ok(selector) => ready_letters(alloc, selector, lists),
        Err(_) => Ok(String::new(alloc)),
    }
}

/// The same of a text's tree selector, as a label selector.
fn tree_ready(alloc: Global, text: &str, lists: &[Pairs]) -> Result<String, NoMemory> {
    match TreeSelect::read(alloc, text) {
        Ok(select) => ready_letters(alloc, select.to_selector(alloc)?, lists),
        Err(_) => Ok(String::new(alloc)),
    }
}

/// Whether what a selector is asked has the wanted answers, if its text is read.
fn is_as_wanted(told: &str, wanted: &str) -> bool {
    told.is_empty() || told == wanted
}

#[test]
fn selectors_made_ready_are_as_documented(rt: HostRuntime) -> Result<(), Fail> {
    let lists = labels(rt.alloc())?;
    for index in 0..COUNT {
        let (text, wanted) = cut(row(index));
        let told = ready(rt.alloc(), text, lists.as_slice())?;
        assert!(rt; is_as_wanted(told.as_str(), wanted), "{text}");
    }
    Ok(())
}

#[test]
fn tree_selectors_made_ready_are_as_documented(rt: HostRuntime) -> Result<(), Fail> {
    let lists = tree_labels(rt.alloc())?;
    for row in TREE_ROWS {
        let (text, wanted) = cut(row);
        let told = tree_ready(rt.alloc(), text, lists.as_slice())?;
        assert!(rt; is_as_wanted(told.as_str(), wanted), "{text}");
    }
    Ok(())
}
