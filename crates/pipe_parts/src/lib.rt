//! Plans in parts: which scans of a plan may be cut, and how, so that the plan run over each part gives a share of its
//! rows; the choice that leaves the least to be had whole; and its JSON line, which the command `parts` writes.
//!
//! The definitions say what is wished of each node, what that asks of its inputs, and which choices these rules allow.
//! The law: over every cut that keeps to such a choice the rows of all parts together are the plan's rows. What is
//! chosen is allowed, and none that is allowed leaves fewer rows to be had whole; where none is found, the rules allow
//! none, and an obstacle tells at which node and why.
#![tactic(auto)]

mod columns;
mod found;
mod gathers;
mod keys;
mod laws;
mod least;
mod lines;
mod members;
mod obstacles;
mod scans;
mod ways;
mod wish;

pub use found::Found;
pub use laws::{gather_gives_the_list, nodes_lie_as_wished, parts_have_the_rows};
pub use least::{least_choice, node_of_plan, parts_root, whole_scans};
pub use lines::parts_line;
pub use obstacles::{Obstacle, Why, find_obstacle};
pub use wish::{ScanCut, Wish};
