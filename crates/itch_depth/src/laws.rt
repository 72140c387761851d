//! Laws of the books over time.
//!
//! The functions do nothing: their clauses are the laws.
ghost use Rattle.std.specs.Prelude.{◌≡◌, ◌↔◌, ℕ, Bool, List, [], ◌∷◌, ◌++◌, map, Option, Some, Result};
ghost use Rattle.std.specs.List.{flat_map};
ghost use Rattle.std.specs.FinMap as finite;
ghost use Rattle.itch_book.specs.declared.order.Order.{Order};
ghost use Rattle.itch_codec.specs.Text.{before_spaces};
ghost use Rattle.itch_codec.specs.declared.orders.Side.{Side};
ghost use Rattle.itch_frame.specs.Reading.{Reading};
ghost use Rattle.itch_day.specs.declared.limit.Limit.{Limit};
ghost use Rattle.itch_market.specs.Content.{Content, Listing};
ghost use Rattle.itch_market.specs.Wanted.{Wanted};
ghost use Rattle.itch_commands.specs.Books.{books_of};
ghost use Rattle.itch_commands.specs.Forms.{head};
ghost use Rattle.itch_commands.specs.Points.{up_to};
ghost use Rattle.itch_commands.specs.Requests.{PerformsBook};
ghost use Rattle.itch_commands.specs.declared.fault.ToolFault.{ToolFault};
ghost use Rattle.itch_commands.specs.declared.form.BookForm.{BookForm};
ghost use Rattle.itch_commands.specs.declared.form.BookForm.TheVariants.{Text};
ghost use Rattle.itch_commands.specs.declared.kind.FileKind.TheVariants.{Day};
ghost use Rattle.itch_commands.specs.declared.selection.Selection.{Selection};
ghost use Rattle.itch_depth.specs.Series.{AtEach, AtTime, ListsPart};
ghost use Rattle.itch_depth.specs.Changes.{best_of, front, levels, text_lines};
ghost use Rattle.itch_depth.specs.Timed.{books_list, joined, joined_at, list_at, side_list, timed_books};
ghost use Rattle.itch_depth.specs.declared.changes.best.DepthLevel.{DepthLevel};
ghost use Rattle.itch_depth.specs.declared.request.BookRequest.{BookRequest};

use itch_frame::{CountedRead, CountedWrite};

/// `book --at T` is `book --until T`. With one time, both read the same part of the file in the same way, and have the same result. `book`
/// writes its heading and then some lines, one after another; with a time it writes the same lines in the same order, each with the time
/// at its beginning.
pub fn one_time<R: CountedRead, W: CountedWrite>()
    ensures lines { (form : BookForm) → (depth : Option ℕ) → (wanted : ℕ → Bool) → (m : Content)
        → books_of form depth wanted m ≡ head form ++ joined (books_list form depth wanted m) }
    ensures timed { (form : BookForm) → (time : ℕ) → (depth : Option ℕ) → (wanted : ℕ → Bool) → (m : Content)
        → timed_books form time depth wanted m ≡ joined_at form time (books_list form depth wanted m) }
    ensures until { (form : BookForm) → (depth : Option ℕ) → (selection : Selection) → (set : Option Wanted) → (limit : Limit) → (first now : Reading R) → (old new : W) → (result : Result Bool ToolFault)
        → ListsPart R.remaining R.failures W.contents W.failures (books_of form depth) selection set limit first now old result new
        ↔ PerformsBook R.remaining R.failures W.contents W.failures form selection set depth (Day limit) first now old result new }
    ensures at { (request : BookRequest) → (set : Option Wanted) → (first : Reading R) → (time : ℕ) → (old new : W) → (result : Result Bool ToolFault)
        → AtEach (AtTime R.remaining R.failures W.contents W.failures request set first) (time ∷ []) old result new
        ↔ ((now : Reading R) × ListsPart R.remaining R.failures W.contents W.failures (timed_books request.form time request.depth) request.selection set (up_to time) first now old result new) }
{}

/// `book --changes` prints the book of `book --after N` after message N. In text its lines are those that `book` writes of the locate, in
/// the same order, each with the number and the time at its beginning; in the other forms the prices, shares and orders are the same.
pub fn one_change()
    ensures text { (number time depth locate : ℕ) → (m : Content) → (s : Listing) → finite.get m.securities locate ≡ Some s
        → text_lines number time locate (before_spaces s.entry.stock) (best_of depth m.orders locate)
        ≡ flat_map (λ line. front Text number time ++ line) (list_at Text (Some depth) m locate) }
    ensures levels { (line : Side → ℕ → ℕ → ℕ → List ℕ) → (depth : ℕ) → (side : Side) → (orders : List Order)
        → side_list line (Some depth) side orders ≡ map (λ (x : DepthLevel). line side x.price x.shares x.orders) (levels depth orders) }
{}
