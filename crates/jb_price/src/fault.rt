use thiserror::Error;

/// Why a text is no certificate for a queue.
#[derive(Clone, Copy, Debug, PartialEq, Eq, Error)]
pub enum CertFault {
    /// The first line that breaks the form, counted from 1; a missing line counts too.
    #[error("line {0} is not of a certificate; plan the queue again")]
    Syntax(u64),
    /// There is not one price more than the queue has handles.
    #[error("the certificate has not one price more than the queue has handles; plan this queue")]
    Length,
    /// There was no memory for the certificate.
    #[error("out of memory; read the certificate again")]
    Memory,
}
