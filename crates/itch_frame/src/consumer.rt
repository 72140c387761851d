//! Consumers of bytes that a reader holds in memory.
ghost use Rattle.std.specs.Prelude.{ℕ, List, ◌≤◌, length, take};

/// Uses bytes from the front of those that it is offered.
pub trait Consumer {
    // States when a consumer may be offered bytes.
    ghost is_ready: { Self → Type 0 };

    // States that the consumer used these bytes, and is in this state afterwards.
    ghost uses: { Self → List ℕ → Self → Type 0 };

    /// Uses as many of the bytes as it can, from the front, and returns their number.
    fn consume(&mut self, bytes: &[u8]) -> usize
        requires { is_ready self.old }
        ensures within { result ≤ length bytes.now }
        ensures uses { uses self.old (take result bytes.now) self.new };
}
