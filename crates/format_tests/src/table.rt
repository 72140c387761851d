//! The table of links through its public items only: calls next to a hash map, hostile keys and their memory, and each allocation refused in
//! turn.
mod beside_a_map;
mod calls;
mod hostile_keys;
mod refused_memory;
