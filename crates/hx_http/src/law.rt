// Laws of the definitions.
ghost use Rattle.hx_http.specs.Laws.{LawOfHeads, LawOfPieces, LawOfStreams};

/// A theorem, not to be called: the lines that are read as a head are those of a request's head by the grammar of `httparse`, after RFC 9112, sections 3 and 5.
pub fn law_of_heads()
    ensures { LawOfHeads }
{}

/// A theorem, not to be called: a message that is whole, or a fault of its head, stays the answer whatever bytes follow. So it doesn't matter in which pieces a stream comes.
pub fn law_of_pieces()
    ensures { LawOfPieces }
{}

/// A theorem, not to be called: what a stream asks is its first message, and then what the bytes behind that ask.
pub fn law_of_streams()
    ensures { LawOfStreams }
{}
