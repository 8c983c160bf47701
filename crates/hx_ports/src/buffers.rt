// Buffers that are kept from one text to the next.
ghost use Rattle.std.specs.Prelude.{◌≡◌, [], string_bytes};

/// The most bytes of room that a buffer keeps.
pub const MOST_ROOM: usize = 65_536;

/// Empties a buffer, and gives its room back where a long text made it large.
pub fn empty(buffer: &mut String)
    ensures { string_bytes buffer.new ≡ [] }
{
    buffer.clear();
    if buffer.capacity() > MOST_ROOM {
        buffer.shrink_to_fit();
    }
}
