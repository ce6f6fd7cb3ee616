//! What names and types the columns of frames: texts, lists, cells, types, fields and schemas. And what each run is
//! handed beside its plan: the stop check and the gate.
#![tactic(auto)]

mod any_value;
mod data_type;
mod error;
mod field;
mod gate;
mod list;
mod name_order;
mod names;
mod schema;
mod stop;
mod text;
mod try_clone;

pub use any_value::AnyValue;
pub use data_type::DataType;
pub use error::FrameError;
pub use field::Field;
pub use gate::{Gate, MeetGate, OpenGate};
pub use list::{List, copy_items};
pub use names::{Named, check_names, first_repeated};
pub use schema::Schema;
pub use stop::{NeverStop, StopAfter, StopCheck};
pub use text::{Bytes, Text};
pub use try_clone::TryClone;
