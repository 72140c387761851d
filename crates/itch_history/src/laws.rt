//! Laws of histories, on any messages.
//!
//! The function does nothing: its clauses are the laws.
ghost use Rattle.std.specs.Prelude.{◌≡◌, ℕ, ◌++◌, ◌∷◌, [], List, true};
ghost use Rattle.itch_codec.specs.declared.message.Message.{Message};
ghost use Rattle.itch_history.specs.Histories.{first_number, is_about, last_number, names, number_after, number_before};
ghost use Rattle.itch_history.specs.Lives.{AreDone, StaysAlone};

/// If no message names an order after its replacement, following an order forward from the first number of its history leads back to it: at
/// each message it has the number from which its later replacements lead to it, and the message that names it is about the number that it
/// then has. From that message on, it has the number that following the named number alone gives. So a message is about the number that
/// the followed order has exactly if its order has the same first number: one direction holds for such messages, the other if no
/// replacement gives another order the followed order's number.
pub fn histories()
    ensures leads { (before between : List Message) → (message : Message) → (number : ℕ) → AreDone ((before ++ between) ++ message ∷ []) → names number message ≡ true
        → last_number before (first_number (before ++ between) (number_before message number)) ≡ first_number between (number_before message number) }
    ensures about { (message : Message) → (number : ℕ) → names number message ≡ true → is_about (number_before message number) message ≡ true }
    ensures onward { (message : Message) → (number : ℕ) → number_after message (number_before message number) ≡ number_after message number }
    ensures same { (before : List Message) → (message : Message) → (first number : ℕ) → AreDone (before ++ message ∷ []) → is_about number message ≡ true
        → first_number before number ≡ first → last_number before first ≡ number }
    ensures back { (before : List Message) → (first : ℕ) → StaysAlone first before → first_number before (last_number before first) ≡ first }
{}
