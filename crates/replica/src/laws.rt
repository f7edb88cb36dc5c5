//! Laws of the logs of pieces.

ghost use Rattle.std.specs.Prelude.{◌≡◌, ℕ, List, ◌∷◌, ◌++◌};
ghost use Rattle.replica.specs.Gathered.{IsListing};
ghost use Rattle.log_pieces.specs.Piece.{PieceValue};
ghost use Rattle.replica.specs.declared.form.ListingForm.{ListingForm};
ghost use Rattle.replica.specs.declared.log.Log.{Log};
ghost use Rattle.replica.specs.LogOf.{IsLogOf, Among, IsJoinedWith, IsSameLog, first_items};
ghost use Rattle.replica.specs.Claims.{claims_of, HasLimits};
ghost use Rattle.replica.specs.Merged.{IsMerged, IsMergedInPart};

/// A law of logs alone: two logs of the same set of pieces have the same items, whatever the order of the pieces and
/// their repeats.
pub fn same_pieces_make_one_log()
    ensures { (ps qs : List PieceValue) → ((piece : PieceValue) → Among ps piece → Among qs piece) → ((piece : PieceValue) → Among qs piece → Among ps piece)
        → (a b : Log) → IsLogOf (Among ps) a → IsLogOf (Among qs) b → IsSameLog a b }
{}

/// A law of listings alone: the same set of pieces has one listing of a form, byte for byte, whatever the order of the
/// pieces and their repeats.
pub fn same_pieces_have_one_listing()
    ensures { (ps qs : List PieceValue) → ((piece : PieceValue) → Among ps piece → Among qs piece) → ((piece : PieceValue) → Among qs piece → Among ps piece)
        → (form : ListingForm) (text other : List ℕ) → IsListing form ps text → IsListing form qs other → text ≡ other }
{}

/// A law of logs alone: a log joined with the first items of a piece, and then with the piece, is joined with the
/// piece. So delivering a piece again completes what want of memory left.
pub fn joining_again_completes()
    ensures { (old part new : Log) (piece : PieceValue) (count : ℕ) → IsJoinedWith old (first_items count piece) part → IsJoinedWith part piece new → IsJoinedWith old piece new }
{}

/// A law of logs alone: a log joined with the first entries of another, and then with the other, is joined with the
/// other. So merging a log again completes what want of memory left.
pub fn merging_again_completes()
    ensures { (old other part new : Log) (thread count : ℕ) → IsMergedInPart old other thread count part → IsMerged part other new → IsMerged old other new }
{}

/// A law of logs alone: a log of pieces that is joined with the first items of one more, and then with that piece, is
/// the log of them all. So after a delivery for which memory was wanting, and which was made again, the log is that of
/// the set of the pieces that were delivered.
pub fn joining_again_makes_the_log()
    ensures { (ps : List PieceValue) (old part new : Log) (piece : PieceValue) (count : ℕ) → IsLogOf (Among ps) old
        → IsJoinedWith old (first_items count piece) part → IsJoinedWith part piece new → IsLogOf (Among (piece ∷ ps)) new }
{}

/// A law of logs alone: a log of pieces that is joined with the first entries of a log of others, and then with that
/// log, is the log of them all. So after a merging for which memory was wanting, and which was made again, the log is
/// that of the pieces of both.
pub fn merging_again_makes_the_log()
    ensures { (ps qs : List PieceValue) (old other part new : Log) (thread count : ℕ) → IsLogOf (Among ps) old → IsLogOf (Among qs) other
        → IsMergedInPart old other thread count part → IsMerged part other new → IsLogOf (Among (ps ++ qs)) new }
{}

/// A law of logs alone: no known end of a log has more than 1,000,000,000 steps, since the pieces that it is made of
/// keep to that.
pub fn logs_have_limits()
    ensures { (log : Log) → HasLimits (claims_of log) }
{}
