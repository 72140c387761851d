//! Broken input: packets and sessions, from each prefix of their bytes to each byte at each value. Each leads to the fault that the formats
//! define, or to the result that its bytes encode.
mod answers;
mod logins;
mod packets;
