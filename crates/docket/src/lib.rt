//! Dockets: they strike the pairs of an old and a new state that cannot stand, and decide by the pairs that are left.
#![tactic(auto)]

mod call;
mod certificate;
mod decision;
mod docket;
mod fit;
mod outcome;
mod refusal;
mod strike;

pub use call::{Call, Grant};
pub use certificate::{Certificate, CertificateFault, check_certificate};
pub use decision::DecideError;
pub use docket::Docket;
pub use fit::check_opening;
pub use outcome::Outcome;
pub use refusal::Refusal;
pub use strike::{Settlement, Strike};
