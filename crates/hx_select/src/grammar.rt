// The grammar of selectors.
ghost use Rattle.std.specs.Prelude.{◌≡◌, ◌⊎◌, ◌∷◌, ◌++◌, ◌≤◌, ℕ, Bool, List, [], Err, IfErr, IfOk, Ok};
ghost use Rattle.hx_select.specs.Inside.{keyed, left, operates, reads, valued};
ghost use Rattle.hx_select.specs.Selectors.{Place, To, Stops, Wanted, Negated, Named, Compared, Listed, Valued, Parted, Whole, comparing, needs_of, requirement};

use crate::selector::{Requirement, SelectFault, Test};
use crate::token::{Token, TokenKind};
use crate::tokens::Tokens;
use hx_object::{List, Text, is_label_key, is_label_value};
use std::alloc::Global;

/// Reads a whole text.
pub(crate) fn requirements(alloc: Global, text: &str) -> Result<List<Requirement>, SelectFault>
    ensures ok { IfOk result (λ needs. needs_of text.now ≡ Ok needs) }
    ensures fault { IfErr result (λ fault. (fault ≡ SelectFault.NoMemory) ⊎ (needs_of text.now ≡ Err fault)) }
{
    let tokens = Tokens::of(text);
    let (first, _) = tokens.first();
    match first.kind {
        Some(_) => joined(alloc, tokens),
        None => Ok(List::of(Vec::new(alloc))),
    }
}

/// Reads one requirement or more, up to the end.
fn joined<'a>(alloc: Global, tokens: Tokens<'a>) -> Result<List<Requirement>, SelectFault>
    ensures ok { IfOk result (λ needs. reads Wanted tokens.entry ≡ Ok needs) }
    ensures fault { IfErr result (λ fault. (fault ≡ SelectFault.NoMemory) ⊎ (reads Wanted tokens.entry ≡ Err fault)) }
{
    let mut needs = Vec::new(alloc);
    let mut left = tokens;
    loop {
        let (need, behind) = requirement(alloc, left)?;
        needs.push(need)?;
        let (token, behind) = behind.first();
        match token.kind {
            Some(TokenKind::Comma) => left = behind,
            Some(_) => return Err(SelectFault::Syntax { at: token.at }),
            None => return Ok(List::of(needs)),
        }
    }
}

/// Reads a requirement, up to the comma or the end behind it.
fn requirement<'a>(
    alloc: Global,
    tokens: Tokens<'a>,
) -> Result<(Requirement, Tokens<'a>), SelectFault>
    ensures ok { IfOk result (λ read. reads Wanted tokens.entry ≡ reads (Whole read.0) read.1) }
    ensures fault { IfErr result (λ fault. (fault ≡ SelectFault.NoMemory) ⊎ (reads Wanted tokens.entry ≡ Err fault)) }
    ensures left { IfOk result (λ read. left read.1 ≤ left tokens.entry) }
{
    let (token, behind) = tokens.first();
    match token.kind {
        Some(TokenKind::Bang) => absent(alloc, behind),
        Some(TokenKind::Word) => {
            let key = key_of(alloc, token)?;
            let (test, behind) = test(alloc, behind)?;
            Ok((Requirement { key, test }, behind))
        }
        _ => Err(SelectFault::Syntax { at: token.at }),
    }
}

/// Reads what stands behind a `!`.
fn absent<'a>(alloc: Global, tokens: Tokens<'a>) -> Result<(Requirement, Tokens<'a>), SelectFault>
    ensures ok { IfOk result (λ read. reads Negated tokens.entry ≡ reads (Whole read.0) read.1) }
    ensures fault { IfErr result (λ fault. (fault ≡ SelectFault.NoMemory) ⊎ (reads Negated tokens.entry ≡ Err fault)) }
    ensures left { IfOk result (λ read. left read.1 ≤ left tokens.entry) }
{
    let (token, behind) = tokens.first();
    match token.kind {
        Some(TokenKind::Word) => {
            let key = key_of(alloc, token)?;
            let need = Requirement {
                key,
                test: Test::Absent,
            };
            Ok((need, behind))
        }
        _ => Err(SelectFault::Syntax { at: token.at }),
    }
}

/// Reads what stands behind a key.
fn test<'a>(alloc: Global, tokens: Tokens<'a>) -> Result<(Test, Tokens<'a>), SelectFault>
    ensures ok { IfOk result (λ read. (key : List ℕ) → reads (Named key) tokens.entry ≡ reads (Whole (requirement key read.0)) read.1) }
    ensures fault { IfErr result (λ fault. (fault ≡ SelectFault.NoMemory) ⊎ ((key : List ℕ) → reads (Named key) tokens.entry ≡ Err fault)) }
    ensures left { IfOk result (λ read. left read.1 ≤ left tokens.entry) }
{
    let (token, behind) = tokens.first();
    match token.kind {
        Some(TokenKind::Equal | TokenKind::EqualEqual) => {
            let (values, behind) = one_value(alloc, behind)?;
            Ok((Test::In(values), behind))
        }
        Some(TokenKind::NotEqual) => {
            let (values, behind) = one_value(alloc, behind)?;
            Ok((Test::NotIn(values), behind))
        }
        Some(TokenKind::Word) => listed(alloc, token, behind),
        _ => Ok((Test::There, tokens)),
    }
}

/// Reads the value behind `=`, `==` or `!=`.
fn one_value<'a>(alloc: Global, tokens: Tokens<'a>) -> Result<(List<Text>, Tokens<'a>), SelectFault>
    ensures ok { IfOk result (λ read. (key : List ℕ) (has : Bool) → reads (Compared key has) tokens.entry ≡ reads (Whole (comparing key has read.0)) read.1) }
    ensures fault { IfErr result (λ fault. (fault ≡ SelectFault.NoMemory) ⊎ ((key : List ℕ) (has : Bool) → reads (Compared key has) tokens.entry ≡ Err fault)) }
    ensures left { IfOk result (λ read. left read.1 ≤ left tokens.entry) }
{
    let (value, behind) = value(alloc, tokens)?;
    let mut values = Vec::new(alloc);
    values.push(value)?;
    Ok((List::of(values), behind))
}

/// Reads a word that is `in` or `notin` behind a key, and the set behind it.
fn listed<'a>(
    alloc: Global,
    word: Token<'a>,
    tokens: Tokens<'a>,
) -> Result<(Test, Tokens<'a>), SelectFault>
    ensures ok { IfOk result (λ read. (key : List ℕ) → operates word.entry key tokens.entry ≡ reads (Whole (requirement key read.0)) read.1) }
    ensures fault { IfErr result (λ fault. (fault ≡ SelectFault.NoMemory) ⊎ ((key : List ℕ) → operates word.entry key tokens.entry ≡ Err fault)) }
    ensures left { IfOk result (λ read. left read.1 ≤ left tokens.entry) }
{
    match word.word {
        "in" => {
            let (values, behind) = set(alloc, tokens)?;
            Ok((Test::In(values), behind))
        }
        "notin" => {
            let (values, behind) = set(alloc, tokens)?;
            Ok((Test::NotIn(values), behind))
        }
        _ => Err(SelectFault::Syntax { at: word.at }),
    }
}

/// Reads a set of values.
fn set<'a>(alloc: Global, tokens: Tokens<'a>) -> Result<(List<Text>, Tokens<'a>), SelectFault>
    ensures ok { IfOk result (λ read. (key : List ℕ) (has : Bool) → reads (Listed key has) tokens.entry ≡ reads (Whole (comparing key has read.0)) read.1) }
    ensures fault { IfErr result (λ fault. (fault ≡ SelectFault.NoMemory) ⊎ ((key : List ℕ) (has : Bool) → reads (Listed key has) tokens.entry ≡ Err fault)) }
    ensures left { IfOk result (λ read. left read.1 ≤ left tokens.entry) }
{
    let (token, behind) = tokens.first();
    match token.kind {
        Some(TokenKind::Open) => values(alloc, behind),
        _ => Err(SelectFault::Syntax { at: token.at }),
    }
}

/// Reads the values of a set and the parenthesis behind them.
fn values<'a>(alloc: Global, tokens: Tokens<'a>) -> Result<(List<Text>, Tokens<'a>), SelectFault>
    ensures ok { IfOk result (λ read. (key : List ℕ) (has : Bool) → reads (Valued key has []) tokens.entry ≡ reads (Whole (comparing key has read.0)) read.1) }
    ensures fault { IfErr result (λ fault. (fault ≡ SelectFault.NoMemory) ⊎ ((key : List ℕ) (has : Bool) → reads (Valued key has []) tokens.entry ≡ Err fault)) }
    ensures left { IfOk result (λ read. left read.1 ≤ left tokens.entry) }
{
    let mut values = Vec::new(alloc);
    let mut left = tokens;
    loop {
        let (value, behind) = value(alloc, left)?;
        values.push(value)?;
        let (token, behind) = behind.first();
        match token.kind {
            Some(TokenKind::Comma) => left = behind,
            Some(TokenKind::Close) => return Ok((List::of(values), behind)),
            _ => return Err(SelectFault::Syntax { at: token.at }),
        }
    }
}

/// Reads a value, which is empty where no word stands.
fn value<'a>(alloc: Global, tokens: Tokens<'a>) -> Result<(Text, Tokens<'a>), SelectFault>
    ensures listed { IfOk result (λ read. (key : List ℕ) (has : Bool) (values : List (List ℕ)) → reads (Valued key has values) tokens.entry ≡ reads (Parted key has (values ++ read.0 ∷ [])) read.1) }
    ensures compared { IfOk result (λ read. (key : List ℕ) (has : Bool) → reads (Compared key has) tokens.entry ≡ reads (Whole (comparing key has (read.0 ∷ []))) read.1) }
    ensures listed_fault { IfErr result (λ fault. (fault ≡ SelectFault.NoMemory) ⊎ ((key : List ℕ) (has : Bool) (values : List (List ℕ)) → reads (Valued key has values) tokens.entry ≡ Err fault)) }
    ensures compared_fault { IfErr result (λ fault. (fault ≡ SelectFault.NoMemory) ⊎ ((key : List ℕ) (has : Bool) → reads (Compared key has) tokens.entry ≡ Err fault)) }
    ensures left { IfOk result (λ read. left read.1 ≤ left tokens.entry) }
{
    let (token, behind) = tokens.first();
    match token.kind {
        Some(TokenKind::Word) => Ok((value_of(alloc, token)?, behind)),
        _ => Ok((Text::of(alloc, "")?, tokens)),
    }
}

/// The word as a key.
fn key_of(alloc: Global, word: Token<'_>) -> Result<Text, SelectFault>
    ensures key { IfOk result (λ key. key ≡ word.entry.word.now) }
    ensures ok { IfOk result (λ key. (place : Place) → keyed word.entry place ≡ To place) }
    ensures fault { IfErr result (λ fault. (fault ≡ SelectFault.NoMemory) ⊎ ((place : Place) → keyed word.entry place ≡ Stops fault)) }
{
    if !is_label_key(word.word.as_bytes()) {
        return Err(SelectFault::BadKey { at: word.at });
    }
    Ok(Text::of(alloc, word.word)?)
}

/// The word as a value.
fn value_of(alloc: Global, word: Token<'_>) -> Result<Text, SelectFault>
    ensures value { IfOk result (λ value. value ≡ word.entry.word.now) }
    ensures ok { IfOk result (λ value. (place : Place) → valued word.entry place ≡ To place) }
    ensures fault { IfErr result (λ fault. (fault ≡ SelectFault.NoMemory) ⊎ ((place : Place) → valued word.entry place ≡ Stops fault)) }
{
    if !is_label_value(word.word.as_bytes()) {
        return Err(SelectFault::BadValue { at: word.at });
    }
    Ok(Text::of(alloc, word.word)?)
}
