// Which word isn't taken, for a reader.
use crate::names::has_names;
use hx_object::is_dns_label;

/// The first word that isn't taken where it stands, for a reader of standard error. `None` where one is missing.
pub fn first_untaken(words: &[String]) -> Option<&str> {
    match words {
        [word, rest @ ..] => {
            let name = word.as_str();
            if !is_subcommand(name) {
                return Some(name);
            }
            first_untaken_behind(name, rest)
        }
        [] => None,
    }
}

/// What the next word has to be.
#[derive(Clone, Copy)]
enum Wanted {
    /// An option, or a value without one.
    Any,
    /// The value of an option.
    Value(Form),
    /// A value without an option: no option follows.
    Last,
}

/// What a value has to be.
#[derive(Clone, Copy)]
enum Form {
    Text,
    Name,
    Names,
    Number { least: u64, most: u64 },
}

/// What an option takes.
#[derive(Clone, Copy)]
enum Taken {
    Nothing,
    Value(Form),
}

fn first_untaken_behind<'a>(subcommand: &str, words: &'a [String]) -> Option<&'a str> {
    let mut wanted = Wanted::Any;
    for index in 0..words.len() {
        let word = words[index].as_str();
        match after(subcommand, wanted, &words[..index], word) {
            Some(next) => wanted = next,
            None => return Some(word),
        }
    }
    None
}

/// What has to come behind a word, where that is taken. The words before it stand behind the subcommand.
fn after(subcommand: &str, wanted: Wanted, before: &[String], word: &str) -> Option<Wanted> {
    match wanted {
        Wanted::Value(form) if !is_dashed(word) && has_form(form, word) => Some(Wanted::Any),
        Wanted::Value(_) => None,
        Wanted::Any if word == "--" => Some(Wanted::Last),
        Wanted::Any if is_dashed(word) => after_option(subcommand, before, word),
        Wanted::Any => after_value(subcommand, before, word, Wanted::Any),
        Wanted::Last => after_value(subcommand, before, word, Wanted::Last),
    }
}

/// What has to come behind an option, which may have its value in one word with it.
fn after_option(subcommand: &str, before: &[String], word: &str) -> Option<Wanted> {
    let (option, value) = match word.split_once('=') {
        Some((option, value)) => (option, Some(value)),
        None => (word, None),
    };
    if is_given(before, option) {
        return None;
    }
    match (taken_by(subcommand, option)?, value) {
        (Taken::Nothing, None) => Some(Wanted::Any),
        (Taken::Value(form), None) => Some(Wanted::Value(form)),
        (Taken::Value(form), Some(value)) if has_form(form, value) => Some(Wanted::Any),
        _ => None,
    }
}

/// What has to come behind a value without an option, where the subcommand takes one more.
fn after_value(subcommand: &str, before: &[String], word: &str, next: Wanted) -> Option<Wanted> {
    let form = form_of_value(subcommand, values_in(before))?;
    if !has_form(form, word) {
        return None;
    }
    Some(next)
}

/// What a value without an option has to be, behind so many others.
fn form_of_value(subcommand: &str, before: usize) -> Option<Form> {
    match (subcommand, before) {
        ("describe", 0) => Some(Form::Name),
        ("gen", 0) => Some(Form::Number {
            least: 0,
            most: 2_147_483_647,
        }),
        ("gen", 1) => Some(Form::Number {
            least: 1,
            most: 2_048,
        }),
        _ => None,
    }
}

/// How many values without an option are among the words: those that neither are options nor follow one.
fn values_in(words: &[String]) -> usize {
    let mut count: usize = 0;
    let mut follows = false;
    for word in words {
        let option = is_dashed(word.as_str());
        if !option && !follows {
            count = count.saturating_add(1);
        }
        follows = option && word.as_str() != "--" && !word.as_str().contains('=');
    }
    count
}

/// Whether an option is among the words, alone or with its value.
fn is_given(words: &[String], option: &str) -> bool {
    words.iter().any(|word| match word.as_str().strip_prefix(option) {
        Some(rest) => rest.is_empty() || rest.starts_with('='),
        None => false,
    })
}

fn is_subcommand(word: &str) -> bool {
    matches!(
        word,
        "run" | "serve" | "tree" | "describe" | "quota" | "audit" | "gen"
    )
}

/// What an option of a subcommand takes, where the subcommand has it.
fn taken_by(subcommand: &str, option: &str) -> Option<Taken> {
    match option {
        _ if subcommand == "gen" => None,
        "--db" => Some(Taken::Value(Form::Text)),
        "--excluded-namespace" if subcommand != "quota" => Some(Taken::Value(Form::Names)),
        "--allow-skip" | "--events" if subcommand == "run" || subcommand == "serve" => Some(
            Taken::Nothing,
        ),
        _ if subcommand == "serve" => taken_in_serving(option),
        _ => None,
    }
}

/// What an option takes that only serving has.
fn taken_in_serving(option: &str) -> Option<Taken> {
    match option {
        "--listen" => Some(Taken::Value(Form::Text)),
        "--sessions" => Some(Taken::Value(Form::Number { least: 1, most: 16 })),
        "--workers" => Some(Taken::Value(Form::Number { least: 0, most: 16 })),
        "--links" => Some(Taken::Value(Form::Number {
            least: 1,
            most: 1_000_000,
        })),
        _ => None,
    }
}

fn has_form(form: Form, value: &str) -> bool {
    match form {
        Form::Text => true,
        Form::Name => is_dns_label(value.as_bytes()),
        Form::Names => has_names(value),
        Form::Number { least, most } => match value.parse::<u64>() {
            Ok(number) => least <= number && number <= most,
            Err(_) => false,
        },
    }
}

/// Whether a word begins with a dash and has more bytes: then it isn't taken as a value of its own.
fn is_dashed(word: &str) -> bool {
    word.len() > 1 && word.starts_with('-')
}
