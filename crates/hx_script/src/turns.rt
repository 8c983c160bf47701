// The lines of workers' turns. They need no memory: where none is left, the pieces of a line are written one by one.
ghost use Rattle.std.specs.Prelude.{◌≡◌, ◌++◌, OnOk, codes, false, option_map, string_bytes};
ghost use Rattle.hx_object.specs.Kinds.{plural_of};
ghost use Rattle.hx_model.specs.Machine.{Took, Finished, Dropped, Checked, LostTake};
ghost use Rattle.hx_model.specs.declared.key.Key.{Key as NamedBy};
ghost use Rattle.hx_reconcile.specs.declared.brief.Brief.{Brief};
ghost use Rattle.hx_core.specs.Turns.{take_entry, take_key_entry, IsOfKey};
ghost use Rattle.hx_script.specs.Inside.{pieced_line, texts_of};
ghost use Rattle.hx_script.specs.Running.{SaysText};
ghost use Rattle.hx_script.specs.Turns.{check_words, end_words, joined, key_words, settled_line, settled_words, turn_line, turned_lines, worker_line};

use hx_core::{Settle, Take, Turned};
use hx_model::{Finish, Key};
use hx_object::{Kind, NoMemory, Text};
use hx_ports::{Sink, Unwritten, empty, write_all};
use hx_reconcile::SharedBrief;
use itoa::Buffer;

// ---- takes

/// Writes the line of a take whose line named no key.
#[tactic(auto, unfolding(crate::specs::Turns::turn_line))]
pub fn say_take<W: Sink>(
    room: &mut String,
    sink: &mut W,
    worker: u32,
    take: &Take,
) -> Result<(), Unwritten>
    ensures { SaysText (turn_line (take_entry worker take.now)) (W.shown sink.old) (W.shown sink.new) result }
{
    match take {
        Take::Job(brief) => {
            say_turn(
                room,
                sink,
                "take",
                worker,
                &key_pieces("", &brief.brief().key),
            )
        }
        Take::Idle => say_turn(room, sink, "take", worker, &["idle"]),
        Take::Already(brief) => {
            say_turn(
                room,
                sink,
                "take",
                worker,
                &key_pieces("already ", &brief.brief().key),
            )
        }
        Take::Other(_) => say_turn(room, sink, "take", worker, &["no memory"]),
        Take::NoMemory => say_turn(room, sink, "take", worker, &["no memory"]),
    }
}

/// Writes the line of a take whose line named a key.
#[tactic(auto, unfolding(crate::specs::Turns::turn_line))]
pub fn say_take_key<W: Sink>(
    room: &mut String,
    sink: &mut W,
    worker: u32,
    take: &Take,
) -> Result<(), Unwritten>
    ensures { (key : NamedBy) → IsOfKey key take.now → SaysText (turn_line (take_key_entry worker key take.now)) (W.shown sink.old) (W.shown sink.new) result }
{
    let mut digits = Buffer::new();
    match take {
        Take::Job(brief) => {
            say_turn(
                room,
                sink,
                "take",
                worker,
                &key_pieces("", &brief.brief().key),
            )
        }
        Take::Idle => say_turn(room, sink, "take", worker, &["no memory"]),
        Take::Already(brief) => {
            say_turn(
                room,
                sink,
                "take",
                worker,
                &key_pieces("already ", &brief.brief().key),
            )
        }
        Take::Other(holder) => {
            say_turn(
                room,
                sink,
                "take",
                worker,
                &["held by ", digits.format(*holder)],
            )
        }
        Take::NoMemory => say_turn(room, sink, "take", worker, &["no memory"]),
    }
}

/// Writes the line of a take that found no memory for the key.
#[tactic(auto, unfolding(crate::specs::Turns::turn_line))]
pub fn say_lost_take<W: Sink>(room: &mut String, sink: &mut W, worker: u32) -> Result<(), Unwritten>
    ensures { SaysText (turn_line (LostTake worker)) (W.shown sink.old) (W.shown sink.new) result }
{
    say_turn(room, sink, "take", worker, &["no memory"])
}

// ---- ends

/// Writes the line of a turn's end.
#[tactic(auto, unfolding(crate::specs::Turns::turn_line))]
pub fn say_finish<W: Sink>(
    room: &mut String,
    sink: &mut W,
    worker: u32,
    end: Finish,
) -> Result<(), Unwritten>
    ensures { SaysText (turn_line (Finished worker end)) (W.shown sink.old) (W.shown sink.new) result }
{
    let mut first = Buffer::new();
    let mut second = Buffer::new();
    say_turn(
        room,
        sink,
        "finish",
        worker,
        &end_pieces(end, &mut first, &mut second),
    )
}

/// Writes the line of a drop.
#[tactic(auto, unfolding(crate::specs::Turns::turn_line))]
pub fn say_drop<W: Sink>(
    room: &mut String,
    sink: &mut W,
    worker: u32,
    dropped: &Option<SharedBrief>,
) -> Result<(), Unwritten>
    ensures { SaysText (turn_line (Dropped worker (option_map (λ (brief : Brief). brief.key) dropped.now))) (W.shown sink.old) (W.shown sink.new) result }
{
    match dropped {
        None => say_turn(room, sink, "drop", worker, &["empty"]),
        Some(brief) => {
            say_turn(
                room,
                sink,
                "drop",
                worker,
                &key_pieces("dropped ", &brief.brief().key),
            )
        }
    }
}

/// Writes the line of a check.
#[tactic(auto, unfolding(crate::specs::Turns::turn_line))]
pub fn say_check<W: Sink>(
    room: &mut String,
    sink: &mut W,
    waiting: u64,
    held: u64,
) -> Result<(), Unwritten>
    ensures { SaysText (turn_line (Checked waiting held)) (W.shown sink.old) (W.shown sink.new) result }
{
    let mut first = Buffer::new();
    let mut second = Buffer::new();
    say_line(
        room,
        sink,
        &["check: "],
        &check_pieces(waiting, held, &mut first, &mut second),
    )
}

// ---- settling

/// Writes the two lines of a turn of worker 0: at once, or one by one where no room is left to lay both.
pub fn say_turned<W: Sink>(
    room: &mut String,
    sink: &mut W,
    turned: &Turned,
) -> Result<(), Unwritten>
    ensures { SaysText (turned_lines turned.now) (W.shown sink.old) (W.shown sink.new) result }
{
    match lay_turned(room, turned) {
        Ok(()) => {
            let said = write_all(sink, room.as_bytes());
            empty(room);
            said
        }
        Err(NoMemory) => say_apart(room, sink, turned),
    }
}

/// Writes the two lines of a turn one by one.
fn say_apart<W: Sink>(room: &mut String, sink: &mut W, turned: &Turned) -> Result<(), Unwritten>
    ensures { SaysText (turned_lines turned.now) (W.shown sink.old) (W.shown sink.new) result }
{
    say_taken(room, sink, &turned.key)?;
    say_finish(room, sink, 0, turned.end)
}

/// Writes the line of a key that worker 0 took.
#[tactic(auto, unfolding(crate::specs::Turns::turn_line))]
fn say_taken<W: Sink>(room: &mut String, sink: &mut W, key: &Key) -> Result<(), Unwritten>
    ensures { SaysText (turn_line (Took 0 key.now false)) (W.shown sink.old) (W.shown sink.new) result }
{
    say_turn(room, sink, "take", 0, &key_pieces("", key))
}

/// Lays the two lines of a turn of worker 0 into a buffer.
fn lay_turned(room: &mut String, turned: &Turned) -> Result<(), NoMemory>
    ensures { OnOk result (string_bytes room.new ≡ turned_lines turned.now) }
{
    room.clear();
    lay_taken(room, &turned.key)?;
    lay_finished(room, turned.end)
}

#[tactic(auto, unfolding(crate::specs::Turns::turn_line))]
fn lay_taken(room: &mut String, key: &Key) -> Result<(), NoMemory>
    ensures { OnOk result (string_bytes room.new ≡ string_bytes room.old ++ turn_line (Took 0 key.now false)) }
{
    lay_turn(room, "take", 0, &key_pieces("", key))
}

#[tactic(auto, unfolding(crate::specs::Turns::turn_line))]
fn lay_finished(room: &mut String, end: Finish) -> Result<(), NoMemory>
    ensures { OnOk result (string_bytes room.new ≡ string_bytes room.old ++ turn_line (Finished 0 end)) }
{
    let mut first = Buffer::new();
    let mut second = Buffer::new();
    lay_turn(room, "finish", 0, &end_pieces(end, &mut first, &mut second))
}

/// Writes the line of a settle's end.
#[tactic(auto, unfolding(crate::specs::Turns::settled_line))]
pub fn say_settled<W: Sink>(room: &mut String, sink: &mut W, end: Settle) -> Result<(), Unwritten>
    ensures { SaysText (settled_line end) (W.shown sink.old) (W.shown sink.new) result }
{
    let mut first = Buffer::new();
    let mut second = Buffer::new();
    say_line(
        room,
        sink,
        &["settle: "],
        &settled_pieces(end, &mut first, &mut second),
    )
}

/// Appends the line of a settle's end.
#[tactic(auto, unfolding(crate::specs::Turns::settled_line))]
pub fn push_settled(text: &mut String, end: Settle) -> Result<(), NoMemory>
    ensures { OnOk result (string_bytes text.new ≡ string_bytes text.old ++ settled_line end) }
{
    let mut first = Buffer::new();
    let mut second = Buffer::new();
    lay_line(
        text,
        &["settle: "],
        &settled_pieces(end, &mut first, &mut second),
    )
}

// ---- texts in pieces

/// Appends a key as it is written in a line: its kind and its names, joined by single spaces.
pub fn push_key(text: &mut String, key: &Key) -> Result<(), NoMemory>
    ensures { OnOk result (string_bytes text.new ≡ string_bytes text.old ++ key_words key.now) }
{
    lay(text, &key_pieces("", key))
}

/// A key behind other words.
#[tactic(auto, unfolding(crate::specs::Turns::key_words))]
fn key_pieces<'a>(words: &'a str, key: &'a Key) -> [&'a str; 8]
    ensures { texts_of result ≡ words.now ++ key_words key.now }
{
    match key {
        Key::Copy { ns, kind, name } => copy_pieces(words, ns, kind, name),
        Key::Tree { ns } => namespace_pieces(words, "tree", ns),
        Key::Report { ns } => namespace_pieces(words, "report", ns),
        Key::Child { ns, name } => place_pieces(words, "child", ns, name),
        Key::Anchor { ns, name } => place_pieces(words, "anchor", ns, name),
        Key::Used { ns, name } => place_pieces(words, "used", ns, name),
        Key::Purge { ns } => namespace_pieces(words, "purge", ns),
    }
}

fn copy_pieces<'a>(words: &'a str, ns: &'a Text, kind: &'a Kind, name: &'a Text) -> [&'a str; 8]
    ensures { texts_of result ≡ words.now ++ joined (codes "copy") (joined ns.now (joined (plural_of kind.now) name.now)) }
{
    let plural = plural_of(kind);
    [
        words,
        "copy ",
        ns.as_str(),
        " ",
        plural,
        " ",
        name.as_str(),
        "",
    ]
}

/// The plural of a kind, for as long as the kind is lent.
fn plural_of(kind: &Kind) -> &str
    ensures { result.now ≡ plural_of kind.now }
{
    kind.plural()
}

fn namespace_pieces<'a>(words: &'a str, word: &'a str, ns: &'a Text) -> [&'a str; 8]
    ensures { texts_of result ≡ words.now ++ joined word.now ns.now }
{
    [words, word, " ", ns.as_str(), "", "", "", ""]
}

fn place_pieces<'a>(words: &'a str, word: &'a str, ns: &'a Text, name: &'a Text) -> [&'a str; 8]
    ensures { texts_of result ≡ words.now ++ joined word.now (joined ns.now name.now) }
{
    [words, word, " ", ns.as_str(), " ", name.as_str(), "", ""]
}

fn end_pieces<'a>(end: Finish, first: &'a mut Buffer, second: &'a mut Buffer) -> [&'a str; 4]
    ensures { texts_of result ≡ end_words end }
{
    match end {
        Finish::Empty => ["empty", "", "", ""],
        Finish::Nothing => ["nothing", "", "", ""],
        Finish::Conflict { seen, now } => [
            "conflict seen ",
            first.format(seen),
            " now ",
            second.format(now),
        ],
        Finish::Spent => ["spent", "", "", ""],
        Finish::Written(version) => ["written ", first.format(version), "", ""],
        Finish::Fault => ["fault", "", "", ""],
        Finish::NoMemory => ["no memory", "", "", ""],
    }
}

fn check_pieces<'a>(
    waiting: u64,
    held: u64,
    first: &'a mut Buffer,
    second: &'a mut Buffer,
) -> [&'a str; 4]
    ensures { texts_of result ≡ check_words waiting held }
{
    if waiting == 0 && held == 0 {
        ["quiet", "", "", ""]
    } else {
        [
            "waiting ",
            first.format(waiting),
            " held ",
            second.format(held),
        ]
    }
}

fn settled_pieces<'a>(end: Settle, first: &'a mut Buffer, second: &'a mut Buffer) -> [&'a str; 4]
    ensures { texts_of result ≡ settled_words end }
{
    match end {
        Settle::Settled => ["settled", "", "", ""],
        Settle::Unsettled { waiting, held } => [
            "unsettled ",
            first.format(waiting),
            " ",
            second.format(held),
        ],
        Settle::Spent => ["spent", "", "", ""],
        Settle::Fault => ["fault", "", "", ""],
        Settle::NoMemory => ["no memory", "", "", ""],
    }
}

// ---- lines in pieces

/// Writes a worker's line: its word, the worker, and a text in pieces.
fn say_turn<W: Sink>(
    room: &mut String,
    sink: &mut W,
    word: &str,
    worker: u32,
    text: &[&str],
) -> Result<(), Unwritten>
    ensures { SaysText (worker_line word.now worker (texts_of text.now)) (W.shown sink.old) (W.shown sink.new) result }
{
    let mut digits = Buffer::new();
    say_line(room, sink, &[word, " ", digits.format(worker), ": "], text)
}

/// Writes a line, by the pieces of its head and its text: at once, or piece by piece where no room is left to lay it.
fn say_line<W: Sink>(
    room: &mut String,
    sink: &mut W,
    head: &[&str],
    text: &[&str],
) -> Result<(), Unwritten>
    ensures { SaysText (pieced_line head.now text.now) (W.shown sink.old) (W.shown sink.new) result }
{
    room.clear();
    let laid = lay_line(room, head, text);
    let said = match laid {
        Ok(()) => write_all(sink, room.as_bytes()),
        Err(NoMemory) => write_line(sink, head, text),
    };
    empty(room);
    said
}

/// Lays a worker's line into a buffer, behind what it has.
fn lay_turn(room: &mut String, word: &str, worker: u32, text: &[&str]) -> Result<(), NoMemory>
    ensures { OnOk result (string_bytes room.new ≡ string_bytes room.old ++ worker_line word.now worker (texts_of text.now)) }
{
    let mut digits = Buffer::new();
    lay_line(room, &[word, " ", digits.format(worker), ": "], text)
}

/// Lays a line into a buffer, behind what it has.
fn lay_line(room: &mut String, head: &[&str], text: &[&str]) -> Result<(), NoMemory>
    ensures { OnOk result (string_bytes room.new ≡ string_bytes room.old ++ pieced_line head.now text.now) }
{
    lay(room, head)?;
    lay(room, text)?;
    room.push('\n')?;
    Ok(())
}

fn lay(room: &mut String, pieces: &[&str]) -> Result<(), NoMemory>
    ensures { OnOk result (string_bytes room.new ≡ string_bytes room.old ++ texts_of pieces.now) }
{
    for piece in pieces {
        room.push_str(piece)?;
    }
    Ok(())
}

/// Writes a line piece by piece.
fn write_line<W: Sink>(sink: &mut W, head: &[&str], text: &[&str]) -> Result<(), Unwritten>
    ensures { SaysText (pieced_line head.now text.now) (W.shown sink.old) (W.shown sink.new) result }
{
    write_pieces(sink, head)?;
    write_pieces(sink, text)?;
    write_piece(sink, "\n")
}

fn write_pieces<W: Sink>(sink: &mut W, pieces: &[&str]) -> Result<(), Unwritten>
    ensures { SaysText (texts_of pieces.now) (W.shown sink.old) (W.shown sink.new) result }
{
    for piece in pieces {
        write_piece(sink, *piece)?;
    }
    Ok(())
}

fn write_piece<W: Sink>(sink: &mut W, piece: &str) -> Result<(), Unwritten>
    ensures { SaysText piece.now (W.shown sink.old) (W.shown sink.new) result }
{
    write_all(sink, piece.as_bytes())
}
