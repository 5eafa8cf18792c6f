//! Applications: what a chain's two numbers mean, and how operations and messages change them.
#![tactic(auto)]

mod application;
mod ring;
mod running;
mod stock;

pub use application::{Application, ApplicationFault, Sent, Step};
pub use ring::{RingFault, RingMessage, RingOperation, RingRegister};
pub use running::{Asked, Stop, Tally, run_steps};
pub use stock::{SegmentStock, StockFault, StockMessage, StockOperation};
