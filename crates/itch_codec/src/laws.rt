//! Laws of all messages and payloads.
//!
//! Each function has an empty body: its clauses state the laws.
ghost use Rattle.std.specs.Prelude.{◌≡◌, ℕ, ◌<◌, ◌≤◌, ◌^◌, List, length, None};
ghost use Rattle.itch_codec.specs.declared.message.Message.{Message};
ghost use Rattle.itch_codec.specs.Numbers.{dec20, SpellsNumber};
ghost use Rattle.itch_codec.specs.Fields.{AreBytes};
ghost use Rattle.itch_codec.specs.Widths.{IsMessage};
ghost use Rattle.itch_codec.specs.Messages.{Spells, spelling, fault, message_of, IsEnd, IsKeptWhole};

/// A payload encodes at most one message: the one that decoding returns.
#[tactic(auto, using(crate::proofs::Spelling::spelling_laws))]
pub fn one_message()
    ensures one { (m n : Message) → (payload : List ℕ) → Spells m payload → Spells n payload → m ≡ n }
    ensures read { (m : Message) → (payload : List ℕ) → Spells m payload → m ≡ message_of payload }
    ensures fits { (m : Message) → (payload : List ℕ) → AreBytes payload → Spells m payload → IsMessage m }
{}

/// A payload has a fault if and only if it encodes no message.
#[tactic(auto, using(crate::proofs::Spelling::spelling_laws))]
pub fn fault_or_message()
    ensures no_fault { (m : Message) → (payload : List ℕ) → Spells m payload → fault payload ≡ None }
    ensures message { (payload : List ℕ) → fault payload ≡ None → Spells (message_of payload) payload }
{}

/// A message whose fields fit is encoded by its bytes. There is at least one byte, and there are at most 65,535 unless the message is
/// undecoded.
#[tactic(auto, using(crate::proofs::Spelling::spelling_laws))]
pub fn some_spelling()
    ensures spells { (m : Message) → IsMessage m → Spells m (spelling m) }
    ensures some { (m : Message) → IsMessage m → 0 < length (spelling m) }
    ensures short { (m : Message) → IsMessage m → ¬ IsKeptWhole m → length (spelling m) < 65536 }
{}

/// Each message except End of Snapshot has exactly one encoding in bytes.
#[tactic(auto, using(crate::proofs::Spelling::spelling_laws))]
pub fn one_spelling()
    ensures { (m : Message) → (payload : List ℕ) → ¬ IsEnd m → AreBytes payload → Spells m payload → payload ≡ spelling m }
{}

/// Decoding inverts encoding, and encoding inverts decoding except for End of Snapshot.
#[tactic(auto, using(crate::proofs::Spelling::spelling_laws))]
pub fn there_and_back()
    ensures no_fault { (m : Message) → IsMessage m → fault (spelling m) ≡ None }
    ensures message { (m : Message) → IsMessage m → message_of (spelling m) ≡ m }
    ensures bytes { (payload : List ℕ) → AreBytes payload → fault payload ≡ None → ¬ IsEnd (message_of payload) → spelling (message_of payload) ≡ payload }
{}

/// A field of twenty bytes encodes at most one number, and the field written for a number up to 10^19 encodes that number.
#[tactic(auto, using(crate::proofs::Numbers::number_laws))]
pub fn numbers()
    ensures one { (field : List ℕ) → (m n : ℕ) → SpellsNumber field m → SpellsNumber field n → m ≡ n }
    ensures spells { (n : ℕ) → n ≤ 10 ^ 19 → SpellsNumber (dec20 n) n }
    ensures len { (n : ℕ) → n < 2 ^ 64 → length (dec20 n) ≡ 20 }
{}
