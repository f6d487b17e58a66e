//! Authentication of users (RFC 4252, RFC 4256): what a handler is asked, and the verdict on one
//! request or response.
//!
//! What the crates above rely on are the contracts of [`serve_request`] and [`serve_response`]: one
//! payload comes to its calls, its reply, its verdict and the changed state of authentication, line
//! by line as `specs/Verdict.antt` says. What a payload asks is told without serving it by
//! [`asked_by_request`] and [`asked_by_response`].
#![tactic(auto)]

mod asked;
mod auth;
mod auth_request;
mod auth_result;
mod auth_step;
mod call;
mod error;
mod gssapi;
mod handler;
mod interactive;
mod key_request;
mod method;
mod offer;
mod prompts;
mod publickey;
mod question;
mod reply;
mod request;
mod response;

pub use asked::{Asked, AskedMethod, asked_by_request, asked_by_response};
pub use auth::Auth;
pub use auth_request::{AuthRequest, CurrentRequest};
pub use auth_result::AuthResult;
pub use auth_step::{AuthStep, AuthVerdict};
pub use call::Call;
pub use error::AuthError;
pub use gssapi::{GssapiError, GssapiStep};
pub use handler::{AuthHandler, Unwritten};
pub use interactive::serve_response;
pub use key_request::Offer;
pub use method::Method;
pub use offer::{PublicKeyOffer, VerifiedPublicKey};
pub use prompts::Prompts;
pub use question::{Admission, Happening, Judged, Lent, OpenType, Question};
pub use request::serve_request;
pub use response::{Response, copied_response};
