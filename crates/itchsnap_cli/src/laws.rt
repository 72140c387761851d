//! Laws of histories, as `show` prints them.
//!
//! The function does nothing: its clauses are the laws.
ghost use Rattle.std.specs.Prelude.{◌≡◌, ℕ, List, Some};
ghost use Rattle.itch_codec.specs.declared.message.Message.{Message};
ghost use Rattle.itch_commands.specs.Choices.{Chosen, chosen_past, is_about as is_shown};
ghost use Rattle.itch_history.specs.Histories.{is_about, last_number};

/// `show` follows an order as its history does: from any number of the order on, the number that is followed after any messages is the one
/// that they give the order, and a message about that number is shown, as far as the other filters choose it.
pub fn shown_histories()
    ensures number { (chosen : Chosen) → (messages : List Message) → (number : ℕ) → Chosen.reference chosen ≡ Some number
        → Chosen.reference (chosen_past chosen messages) ≡ Some (last_number messages number) }
    ensures about { (message : Message) → (number : ℕ) → is_shown (Some number) message ≡ is_about number message }
{}
