//! Laws of the rows of an index, and of reading a range from one on.
//!
//! The functions do nothing: their clauses are the laws.
ghost use Rattle.std.specs.Prelude.{◌≡◌, ◌+◌, ◌++◌, ◌≤◌, ℕ, true, List, None, IfSome, length, map};
ghost use Rattle.std.specs.List.{AllByRecursion};
ghost use Rattle.itch_codec.specs.Headers.{time_of};
ghost use Rattle.itch_codec.specs.Messages.{message_of};
ghost use Rattle.itch_codec.specs.declared.message.Message.{Message};
ghost use Rattle.itch_commands.specs.Choices.{Chosen, chosen_lines, chosen_listing_all, chosen_past, chosen_past_cursor, directory_of};
ghost use Rattle.itch_commands.specs.Cuts.{kept_of};
ghost use Rattle.itch_commands.specs.Further.{AreListed};
ghost use Rattle.itch_commands.specs.Showing.{IsClean};
ghost use Rattle.itch_commands.specs.Starts.{before_range, is_beyond, start_after_all, start_past};
ghost use Rattle.itch_commands.specs.declared.form.ShowForm.{ShowForm};
ghost use Rattle.itch_commands.specs.declared.start.Start.{Start};
ghost use Rattle.itch_day.specs.Limits.{IsEarly};
ghost use Rattle.itch_day.specs.DayCursors.{IsDayCursor, first_cursor, cursor_after};
ghost use Rattle.itch_day.specs.declared.cursor.DayCursor.{DayCursor};
ghost use Rattle.itch_frame.specs.Blocks.{IsFull, blocks};
ghost use Rattle.itch_offsets.specs.Beginnings.{begin_after, may_begin, most_of};
ghost use Rattle.itch_offsets.specs.Passes.{entries};
ghost use Rattle.itch_offsets.specs.declared.begin.Range.{Range};
ghost use Rattle.itch_offsets.specs.declared.row.IndexRow.{IndexRow};

/// The number of the messages before a cursor and their latest timestamp determine whether all of them are before a range, and where the range
/// begins in the messages after them.
pub fn cursor_ranges()
    ensures beyond { (start : Start) → (cursor : DayCursor) → (payloads : List (List ℕ)) → IsDayCursor cursor payloads → is_beyond start cursor ≡ true
        → before_range start (map message_of payloads) ≡ map message_of payloads }
    ensures within { (start : Start) → (cursor : DayCursor) → (payloads : List (List ℕ)) → IsDayCursor cursor payloads
        → before_range start (map message_of payloads) ≡ map message_of payloads → is_beyond start cursor ≡ true }
    ensures past { (start : Start) → (cursor : DayCursor) → (payloads : List (List ℕ)) → IsDayCursor cursor payloads
        → start_after_all start (map message_of payloads) ≡ start_past start cursor }
{}

/// If the messages before a cursor are before the range and no order is followed, the choice after them is known from the cursor and their Stock
/// Directory messages. From there on the same lines are shown, and the same blocks kept, as from the beginning.
pub fn cursor_choices()
    ensures choice { (chosen : Chosen) → (cursor : DayCursor) → (payloads : List (List ℕ)) → IsDayCursor cursor payloads → Chosen.reference chosen ≡ None
        → chosen_past chosen (map message_of payloads) ≡ chosen_listing_all (chosen_past_cursor chosen cursor) (directory_of (map message_of payloads)) }
    ensures lines { (form : ShowForm) → (chosen : Chosen) → (number : ℕ) → (before after : List Message) → before_range (Chosen.start chosen) before ≡ before
        → chosen_lines form chosen number (before ++ after) ≡ chosen_lines form (chosen_past chosen before) (number + length before) after }
    ensures blocks { (chosen : Chosen) → (before after : List (List ℕ)) → before_range (Chosen.start chosen) (map message_of before) ≡ map message_of before
        → kept_of chosen (before ++ after) ≡ kept_of (chosen_past chosen (map message_of before)) after }
{}

/// A range can be read from the chosen row on, and from no row with more messages. The messages before it are in the requested part.
pub fn chosen_rows()
    ensures found { (range : Range) → (rows : List IndexRow) → IfSome (begin_after range None rows) (λ row. may_begin range row.cursor ≡ true) }
    ensures most { (range : Range) → (rows : List IndexRow) → AllByRecursion (λ row. may_begin range row.cursor ≡ true → row.cursor.count ≤ most_of (begin_after range None rows)) rows }
    ensures early { (range : Range) → (cursor : DayCursor) → (payloads : List (List ℕ)) → IsDayCursor cursor payloads → may_begin range cursor ≡ true
        → IfSome range.limit.after (λ most. length payloads ≤ most) × AllByRecursion (IsEarly range.limit) payloads }
{}

/// The rows that a pass reads one after another: the cursor of a row is that of all messages before it, and the Stock Directory messages kept
/// for the rows are those among all messages, in whose blocks stocks can be looked up.
pub fn rows_in_turn()
    ensures first { (payloads : List (List ℕ)) → AllByRecursion IsClean payloads → IsDayCursor (cursor_after first_cursor payloads) payloads }
    ensures cursor { (before after : List (List ℕ)) → cursor_after (cursor_after first_cursor before) after ≡ cursor_after first_cursor (before ++ after) }
    ensures kept { (before after : List (List ℕ)) → entries (before ++ after) ≡ entries before ++ entries after }
    ensures directory { (payloads : List (List ℕ)) → map message_of (entries payloads) ≡ directory_of (map message_of payloads) }
    ensures listed { (payloads : List (List ℕ)) → AllByRecursion IsFull payloads → AllByRecursion IsClean payloads → AreListed (entries payloads) (blocks (entries payloads)) }
{}
