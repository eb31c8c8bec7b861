#![tactic(auto)]
//! The photo cache stack as a model: edge caches near users, origin caches behind them, and a backend
//! store behind those.
//!
//! A user's request arrives at an edge. On a miss the edge asks an origin for the object, once,
//! however many requests wait for it; on a miss there the origin fetches it from the backend. Objects
//! that arrive are stored on flash, in a RIPQ queue (Tang, Huang, Lloyd, Kumar and Li, FAST 2015) under
//! the configured policy. Requests for an object on its way are coalesced. A user's purge removes the
//! object from the user's edge, then from its origin, then from all other edges.
//!
//! [`Photo`] implements the trait of `rw_vt`. Each event can be reversed: its undo record has the marks
//! of what it did to the queue, what it counted, and the few numbers that it overwrote.
//!
//! Worked examples: `rw_process_tests/src/edge_process.rt` and `photo_rounds.rt`.

mod awaited;
mod body;
mod cache;
mod config;
mod counters;
mod ordered_requests;
mod photo;
mod piece_requests;
mod rows;
mod undo;

pub use body::Body;
pub use cache::CacheState;
pub use config::{Config, every_limit};
pub use counters::Counters;
pub use ordered_requests::OrderedRequests;
pub use photo::Photo;
pub use piece_requests::PieceRequests;
pub use rows::{requests, requests_from};
pub use rw_ripq::{Change, Levels, Policy, Shape, Trail};
pub use rw_trace::{Kind, Row};
pub use rw_vt::{Event, NoMemory, Refusal};
pub use undo::Undo;
