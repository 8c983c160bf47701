// The methods that are served.

/// A method of a request.
#[derive(Clone, Copy)]
pub enum Method {
    Get,
    Post,
    Put,
    Delete,
}
