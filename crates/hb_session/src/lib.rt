//! The session of a node: one reply to one client, made of looks at a ring and handed to a link, one
//! look or one write a turn. `specs/` says what a client is owed, by nothing but the looks that were
//! made for it: a window that is read forwards (`Forward`) or backwards (`Backward`), and what follows
//! it, with one lost event for each stretch that was overwritten before it was read, and the status
//! that ends a reply (`Replies`). The theorem is in the clauses of `NodeSession::turn`: whatever is written to the ring
//! in between, the link has taken the first bytes of what the client is owed, and all of them at
//! `Done`; and it ends for its client exactly where that cancels, or sends what has no place in a reply
//! (`Clients`).
#![tactic(auto)]

mod backward;
mod counts;
mod event;
mod finishing;
mod forward;
mod inbox;
mod laws;
mod loss;
mod opening;
mod outbox;
mod refusal;
mod session;
mod source;
mod span;
mod turn;
mod way;
mod whole;
mod writer;

pub use counts::Counts;
pub use finishing::finish;
pub use laws::{owed_only_grows, responses_fit, turns_are_few, window_is_held};
pub(crate) use loss::Loss;
pub use session::NodeSession;
pub use turn::{InputFault, OpenFault, Turn};
pub use whole::{first_of_window, last_of_window, one_reply, reply_of, whole_window};
