//! The static rules of kinds, bounds, inputs and loops.
#![tactic(auto)]

mod bound;
mod bounded;
mod checking;
mod fault;
mod input;
mod kind;
mod law;
mod looping;
mod range;
mod stmt_bound;
mod typed;

pub use bound::least_declared_break;
pub use bounded::{interval, least_expr_bound_break};
pub use checking::{check, first_break};
pub use fault::TypeFault;
pub use input::least_input_write;
pub use kind::{least_condition_break, least_constant_break, least_expr_break, least_kind_break};
pub use law::typed_loops_take_a_step;
pub use looping::{least_instant_loop, may_be_instant};
pub use stmt_bound::least_bound_break;
pub use typed::Typed;
