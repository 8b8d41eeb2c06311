//! One end over its connections: the session machine between a link, the inbox and the gate. A turn reads once, takes at most
//! as many frames as the connection's number, makes their records stable before a byte is sent, serves the outbox, and sends. Relies on
//! `conn_steps` for the answer to a frame, and on `conn_turns` for what a turn is.
#![tactic(auto)]

mod closing;
mod conn;
mod frames;
mod live;
mod outbox;
mod receiving;
mod sending;
mod turn;
mod work;

pub use conn::Conn;
pub use conn_turns::{News, NewsItem, TurnEnd, TurnFault};
pub use live::LiveEnd;
