//! Memory refused: each call of a book and of a replay that grows, with its first allocation refused, then its second, and so on, until
//! nothing is refused. A run ends with the ordinary result or because memory ran out. In the second case the state is the one before the
//! call, or as documented, and the same call succeeds with memory.
mod books;
mod markets;
