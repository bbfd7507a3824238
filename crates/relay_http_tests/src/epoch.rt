//! Tests of `relay_epoch`, over its public items and streams in memory: answers of OpenSearch and
//! of proxies, answers that state no epoch, streams that fail, and repeated tries.

mod answers;
mod asking;
mod desk;
mod refusals;
mod tries;
