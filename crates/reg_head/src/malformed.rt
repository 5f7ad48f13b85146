//! What is wrong with the bytes of a request.

/// What is wrong with the bytes of a request, in the order in which it is looked for.
#[derive(Clone, Copy, Debug, PartialEq, Eq)]
pub enum Malformed {
    /// They do not begin with the head of a request of HTTP/1.0 or HTTP/1.1 (RFC 9112 sections 2
    /// to 5) that has at most 8,192 bytes and at most 32 fields.
    Head,
    /// There is a Transfer-Encoding (RFC 9112 section 6.1).
    Encoding,
    /// Content-Length is given more than once, or is not one or more digits (RFC 9110 section
    /// 8.6).
    Length,
    /// Content-Length is above 65,536.
    Large,
    /// The bytes end before the body does.
    Short,
}
