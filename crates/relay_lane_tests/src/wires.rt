//! Tests of `relay_wires` and of `relay_loop`, over their public items, most of them over both
//! wires: lanes that are drained, one request at a time and several, statuses and bodies of
//! replies, connections that are used again or not, those on which unrequested bytes arrive, dials
//! and streams that fail, replies that are refused, and requests and replies of many items.

mod connections;
mod desk;
mod drains;
mod hostile;
mod idle;
mod loops;
mod places;
mod refusals;
mod replies;
mod several;
mod streams;
mod too_large;
mod turns;
