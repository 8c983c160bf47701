// Buffers that a link keeps from one message to the next.
ghost use Rattle.std.specs.Prelude.{◌≡◌, ◌≤◌, ◌++◌, OnOk, drop, length};

use hx_object::NoMemory;
use hx_ports::MOST_ROOM;

/// Keeps a piece behind what waits.
pub fn keep(waiting: &mut Vec<u8>, piece: &[u8]) -> Result<(), NoMemory>
    ensures { OnOk result (waiting.new.items ≡ waiting.old.items ++ piece.now) }
{
    waiting.extend_from_slice(piece)?;
    Ok(())
}

/// Drops the first bytes, which were used. Where none was, nothing is moved.
pub fn discard(waiting: &mut Vec<u8>, count: usize)
    requires { count ≤ length waiting.old.items }
    ensures { waiting.new.items ≡ drop count waiting.old.items }
{
    if count == 0 {
        return;
    }
    waiting.drain(..count);
    give_back(waiting);
}

/// Gives room back where a long message made it large.
fn give_back(waiting: &mut Vec<u8>)
    ensures { waiting.new.items ≡ waiting.old.items }
{
    if waiting.capacity() > MOST_ROOM {
        waiting.shrink_to_fit();
    }
}
