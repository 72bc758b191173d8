//! One end of a link: what it does with what it hears and is asked, and the calls that it makes on
//! a desk.
#![tactic(auto)]

mod boxed;
pub mod desk;
mod echo_desk;
mod echoing;
mod end;
mod ends;
pub mod figures;
mod find;
mod hearing;
pub mod laws;
mod link;
mod listening;
mod negotiated;
mod port;
mod react;
mod sessions;
mod telling;
pub mod waiting;
mod wishes;
mod writing;

pub use echo_desk::Echoed;
pub use end::End;
pub use ends::{
    Core, Effect, Ended, Found, Heard, Input, LinkAction, Marks, Moment, Over, Pending, Requested,
    Told,
};
pub use link::{Clock, LAST_MOMENT, Link};
pub use port::DeskPort;
pub use sessions::{SessionFault, deliver, echo, is_fault, receive};
