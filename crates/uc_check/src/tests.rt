//! Components and watches whose types, and whose spots where there is none, are worked out by hand.

mod asking;
mod components;
mod counted;
mod formed;
mod forms;
mod functions;
mod known;
mod matches;
mod sizes;
mod trees;
