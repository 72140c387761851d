//! Counts the messages of each type.
ghost use Rattle.std.specs.Prelude.{◌≡◌, ℕ, ◌+◌, ◌-◌, ◌^◌, ◌<◌, ◌==◌, if◌then◌else◌, slice_index};

/// The number of possible types.
pub const KINDS: usize = 256;

/// The number of messages of each type.
#[derive(Clone, Copy)]
pub struct TypeCounts {
    counts: [u64; KINDS],
}

impl TypeCounts {
    /// Starts without messages.
    pub fn new() -> TypeCounts
        ensures { (kind : ℕ) → kind < 256 → slice_index result.counts kind ≡ 0 }
    {
        TypeCounts { counts: [0; KINDS] }
    }

    /// Returns the number of messages of this type.
    pub fn of(&self, kind: u8) -> u64
        ensures { result ≡ slice_index self.now.counts kind }
    {
        self.counts[usize::from(kind)]
    }

    /// Counts one more message of this type.
    #[inline(always)]
    pub fn add(&mut self, kind: u8)
        requires { slice_index self.old.counts kind < 2 ^ 64 - 1 }
        ensures { (other : ℕ) → other < 256 → slice_index self.new.counts other ≡ slice_index self.old.counts other + (if kind == other then 1 else 0) }
    {
        self.counts[usize::from(kind)] += 1;
    }
}
