//! The simulator of all nodes of a plan, over wires of bytes.
//!
//! A world has its nodes by name and, for each link, the names of its two ends and what is on its
//! two wires. Which world of bytes it is, is said in `specs/Shows.antt`. Each step of a world is
//! that step of the world of bytes beside it (`World::step`), so the headline's four claims hold of
//! its nodes' books after it.
//!
//! A world begins by `World::with`, over a new ledger for each node of a sealed plan. Another plan
//! is taken by all nodes at once (`World::adopt`). Another maker's product is played by what it
//! writes (`World::write`): then the headline isn't claimed, and each step is one of the world of
//! bytes still. What such a product writes to store or to answer is told by `World::store_of` and
//! `World::answer_of`. `run` plays all of these from the beginning, over ledgers in memory.
#![tactic(auto)]

mod answering;
mod calls;
mod changing;
mod deed;
mod fault;
mod forgetting;
mod founding;
mod fronts;
pub mod laws;
mod listing;
mod order;
mod playing;
mod restarts;
mod speaking;
mod steps;
mod time;
mod wires;
mod world;

pub use changing::Change;
pub use deed::Deed;
pub use dr_world_script::{Foreign, Side, Step};
pub use fault::WorldFault;
pub use listing::Listing;
pub use order::{ForeignRefusal, RefusedForeign, Spoken, WorldOrder};
pub use playing::{PlayNotes, PlayedWorld, run};
pub use steps::StepNote;
pub use world::World;
