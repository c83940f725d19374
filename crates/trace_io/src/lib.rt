//! Traces as text: reading the inputs of macro steps and writing their outputs, and generated
//! traces.
#![tactic(auto)]

mod count;
mod field;
mod fields;
mod generate;
mod header;
mod line;
mod lines;
mod reader;
mod step;
mod types;
mod value;
mod writer;

pub use count::CountSink;
pub use field::Field;
pub use fields::fields_of;
pub use generate::TraceGen;
pub use line::{read_fields, text_of};
pub use lines::{Found, LineReader};
pub use reader::TraceReader;
pub use step::ReadStep;
pub use types::{count_of, same_flow, types_of};
pub use value::{is_in_range, push_value, read_value};
pub use writer::TraceWriter;
