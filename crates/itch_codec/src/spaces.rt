//! Blank fields, and the spaces before a text.
ghost use Rattle.std.specs.Prelude.{◌≡◌, ◌≤◌, length};
ghost use Rattle.std.specs.List.{prefix_len, list_all};
ghost use Rattle.itch_codec.specs.Numbers.{is_space, after_spaces};

/// Returns whether all bytes are spaces.
pub fn is_blank(field: &[u8]) -> bool
    ensures { result ≡ list_all is_space field.now }
{
    field.iter().all(|byte| *byte == b' ')
}

/// Returns the bytes after the leading spaces.
#[tactic(auto, using(crate::proofs::Numbers::fronts), unfolding(crate::specs::Numbers::after_spaces))]
pub fn after_spaces(field: &[u8]) -> &[u8]
    ensures text { result.now ≡ after_spaces field.entry.now }
    ensures within { length result.now ≤ length field.entry.now }
{
    &field[count_spaces(field)..]
}

fn count_spaces(field: &[u8]) -> usize
    ensures count { result ≡ prefix_len is_space field.now }
    ensures within { result ≤ length field.now }
{
    field.iter().take_while(|byte| **byte == b' ').count()
}
