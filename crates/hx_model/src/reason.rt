// The reasons of refusals.
ghost use Rattle.std.specs.Prelude.{◌≡◌};
ghost use Rattle.hx_model.specs.Replies.{reason_row};

/// Why a request is refused in one word, as a Kubernetes `Status` has it. Each has an HTTP status.
#[derive(Clone, Copy)]
pub enum Reason {
    BadRequest,
    Forbidden,
    NotFound,
    MethodNotAllowed,
    AlreadyExists,
    Conflict,
    Expired,
    RequestEntityTooLarge,
    Invalid,
    InternalError,
    NotImplemented,
    ServiceUnavailable,
    /// A limit of the store would be passed.
    InsufficientStorage,
}

/// What the table of reasons says of one.
#[derive(Drop)]
struct Row {
    code: u16,
    name: &'static str,
}

impl Reason {
    /// The HTTP status.
    pub fn code(self) -> u16
        ensures { result ≡ (reason_row self).code }
    {
        self.row().code
    }

    /// The reason's word.
    pub fn name(self) -> &'static str
        ensures { result.now ≡ (reason_row self).name }
    {
        self.row().name
    }

    fn row(self) -> Row
        ensures code { result.code ≡ (reason_row self).code }
        ensures name { result.name.now ≡ (reason_row self).name }
    {
        match self {
            Reason::BadRequest => row_of(400, "BadRequest"),
            Reason::Forbidden => row_of(403, "Forbidden"),
            Reason::NotFound => row_of(404, "NotFound"),
            Reason::MethodNotAllowed => row_of(405, "MethodNotAllowed"),
            Reason::AlreadyExists => row_of(409, "AlreadyExists"),
            Reason::Conflict => row_of(409, "Conflict"),
            Reason::Expired => row_of(410, "Expired"),
            Reason::RequestEntityTooLarge => row_of(413, "RequestEntityTooLarge"),
            Reason::Invalid => row_of(422, "Invalid"),
            Reason::InternalError => row_of(500, "InternalError"),
            Reason::NotImplemented => row_of(501, "NotImplemented"),
            Reason::ServiceUnavailable => row_of(503, "ServiceUnavailable"),
            Reason::InsufficientStorage => row_of(507, "InsufficientStorage"),
        }
    }
}

fn row_of(code: u16, name: &'static str) -> Row
    ensures code { result.code ≡ code }
    ensures name { result.name.now ≡ name.now }
{
    Row { code, name }
}
