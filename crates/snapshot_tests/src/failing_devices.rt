//! Failing devices: each read and each write fails in turn, in pieces that cut every block.
//!
//! Bytes read before a failed read are kept, so that a call may continue. Before a failed write exactly a prefix was written.
mod sessions;
mod snapshots;
