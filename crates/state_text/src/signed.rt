use message_net::MailId;

/// The owner of a signature that is printed.
#[derive(Clone, Copy)]
pub(crate) enum Signed {
    /// The lock of this number, at its home.
    Lock(u32),
    /// A release or a grant in flight.
    Mail(MailId),
}
