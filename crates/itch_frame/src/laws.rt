//! Laws of all streams of blocks, of any length. Each function has an empty body: its clauses state the laws.
ghost use Rattle.std.specs.Prelude.{◌≡◌, List, [], ℕ};
ghost use Rattle.std.specs.List.{AllByRecursion};
ghost use Rattle.itch_frame.specs.Blocks.{block, blocks, IsPayload, Blocks, Day};
ghost use Rattle.itch_frame.specs.Cuts.{CutStep, Run, AnyCut};

/// For every way to cut a stream into pieces, a splitter returns the payloads of the stream's blocks.
#[tactic(auto, using(crate::proofs::SplitterLemmas::any_cut_lem))]
pub fn any_cut()
    ensures { (steps : List CutStep) → (held : List ℕ) → Run [] steps held → AnyCut steps held }
{}

/// Each payload has exactly one block, and each block exactly one payload. The same holds for several blocks, one after another.
#[tactic(auto, using(crate::proofs::BlockLemmas::block_one, crate::proofs::BlockLemmas::blocks_one))]
pub fn one_block()
    ensures one { (p q : List ℕ) → IsPayload p → IsPayload q → block p ≡ block q → p ≡ q }
    ensures several { (ps qs : List (List ℕ)) → AllByRecursion IsPayload ps → AllByRecursion IsPayload qs → blocks ps ≡ blocks qs → ps ≡ qs }
{}

/// Every stream has exactly one reading as blocks and a rest.
#[tactic(auto, using(crate::proofs::Fronts::reading_some))]
pub fn one_reading()
    ensures one { (bytes : List ℕ) → (ps qs : List (List ℕ)) → (r s : List ℕ) → Blocks bytes ps r → Blocks bytes qs s → (ps ≡ qs) × (r ≡ s) }
    ensures some { (bytes : List ℕ) → (ps : List (List ℕ)) × (r : List ℕ) × Blocks bytes ps r }
{}

/// Every stream has exactly one reading as a day file.
#[tactic(auto, using(crate::proofs::Days::day_some))]
pub fn one_day()
    ensures one { (bytes : List ℕ) → (ps qs : List (List ℕ)) → (r s : List ℕ) → Day bytes ps r → Day bytes qs s → (ps ≡ qs) × (r ≡ s) }
    ensures some { (bytes : List ℕ) → (ps : List (List ℕ)) × (r : List ℕ) × Day bytes ps r }
{}
