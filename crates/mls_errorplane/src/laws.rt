//! Laws of lists of areas, of marks and of checking. Each function does nothing, and its contract is the law.
ghost use Rattle.std.specs.Prelude.{◌≡◌, ℕ, ◌+◌, ◌*◌, ◌<◌, ◌≤◌, ◌^◌, true, false, ◌||◌, ◌&&◌, if◌then◌else◌, List, [], ◌∷◌, length, All};
ghost use Rattle.mls_errorplane.specs.Common.{AgreeOutside, EdgeRule, IsRectangleIn, Layout, Picture, Rect, SquareSet, empty_picture, forbidden, holds, meets, rule_limit, size_of, squares_of, world};
ghost use Rattle.mls_errorplane.specs.Carrying.{AreFew};
ghost use Rattle.mls_errorplane.specs.CatchingUp.{AfterSteps, Steps};
ghost use Rattle.mls_errorplane.specs.Checkings.{Checking, IsChecked, check_step, opening_checking, dirtied};
ghost use Rattle.mls_errorplane.specs.DirtyLists.{IsDirtyList, added, area_of, dropped, first_piece_of, piece_of, round_all, squares_in};
ghost use Rattle.mls_errorplane.specs.MarkPlanes.{is_marked, remarked};
ghost use Rattle.mls_errorplane.specs.Stretches.{AreRight, DropsAll};
ghost use Rattle.mls_errorplane.specs.Violations.{squares_in_all, violations_in};

/// The squares of a list are those of its first piece and those of the list without that piece.
pub fn dropping_keeps_squares()
    ensures { (areas : List Rect) (x y : ℕ) → squares_of areas x y
        ≡ (squares_in (first_piece_of areas) x y || squares_of (dropped areas) x y) }
{}

/// The areas of a list without its first piece have as many squares fewer as the piece has.
pub fn dropping_takes_as_many_squares()
    ensures { (first : Rect) (rest : List Rect) → IsRectangleIn world first
        → area_of (dropped (first ∷ rest)) + size_of (piece_of first) ≡ area_of (first ∷ rest) }
{}

/// So each dropped piece makes a list smaller.
pub fn dropping_makes_smaller()
    ensures { (first : Rect) (rest : List Rect) → IsRectangleIn world first
        → area_of (dropped (first ∷ rest)) < area_of (first ∷ rest) }
{}

/// No list has so many squares that its pieces could not be counted.
pub fn lists_are_bounded()
    ensures { (areas : List Rect) → IsDirtyList areas → area_of areas ≤ 65 * 2 ^ 42 }
{}

/// No square is lost where an area is added, also where one area takes the place of all.
pub fn adding_keeps_squares()
    ensures { (areas : List Rect) (area : Rect) (x y : ℕ) → (squares_of areas x y || holds area x y) ≡ true
        → squares_of (added areas area) x y ≡ true }
{}

/// The rectangle round all areas lies in every rectangle in which they all lie.
pub fn uniting_is_smallest()
    ensures { (extent first : Rect) (rest : List Rect) → IsRectangleIn extent first
        → All (IsRectangleIn extent) rest → IsRectangleIn extent (round_all first rest) }
{}

/// Where a rectangle is marked anew, its marked squares are those of the set, and outside it those that were marked.
pub fn remarking_replaces_marks()
    ensures { (below : Picture) (rect : Rect) (set : SquareSet) (x y : ℕ)
        → is_marked (remarked below rect set) x y ≡ (if holds rect x y then set x y else is_marked below x y) }
{}

/// Where a rectangle has the marks of the set already, marking it anew changes nothing.
pub fn remarking_the_same_changes_nothing()
    ensures { (below : Picture) (rect : Rect) (set : SquareSet)
        → ((x y : ℕ) → holds rect x y ≡ true → below x y ≡ (if set x y then 1 else 0))
        → remarked below rect set ≡ below }
{}

/// Where checking begins, with an empty layout, the marks are right outside the areas.
pub fn openings_are_checked()
    ensures { (rules : List EdgeRule) → IsChecked rules (λ plane. empty_picture) (opening_checking rules) }
{}

/// Where the first piece of the areas that await checking is checked, the marks stay right outside the areas that are
/// left.
pub fn steps_keep_marks_right()
    ensures { (rules : List EdgeRule) (layout : Layout) (checking : Checking) → IsChecked rules layout checking
        → IsChecked rules layout (check_step rules layout checking) }
{}

/// Where one check step after another is done, the marks stay right outside the areas that are left.
pub fn catching_up_keeps_marks_right()
    ensures { (rules : List EdgeRule) (layout : Layout) (limit : ℕ) (old new : Checking)
        → AfterSteps rules layout limit old new
        → IsChecked rules layout old → IsChecked rules layout new }
{}

/// Where the next pieces of a list make up a rectangle, and the tiles of the marks after its check and those of the
/// marks before in the rows from its bottom on are few enough together, each check step over these pieces is done, and
/// they lead from the ones to the others.
pub fn carrying_is_steps()
    ensures { (rules : List EdgeRule) (layout : Layout) (limit count : ℕ) (rect : Rect) (marks after : SquareSet)
        (old new : List Rect) → DropsAll rect count old new → IsRectangleIn world rect
        → AreRight rules layout after rect → ((x y : ℕ) → holds rect x y ≡ false → after x y ≡ marks x y)
        → AreFew limit rect marks after
        → Steps rules layout limit count (record { marks = marks; dirty = old })
        (record { marks = after; dirty = new }) }
{}

/// Where an edit's rectangle is added with the rules' halo, the marks stay right outside the areas, for the edited
/// layout.
pub fn edits_keep_marks_right()
    ensures { (rules : List EdgeRule) (rect : Rect) (layout other : Layout) (checking : Checking)
        → AgreeOutside rect layout other
        → IsChecked rules layout checking → IsChecked rules other (dirtied rules rect checking) }
{}

/// Where no area awaits checking, the marks are exactly the squares that the rules forbid.
pub fn no_areas_means_exact_marks()
    ensures { (rules : List EdgeRule) (layout : Layout) (marks : SquareSet)
        → IsChecked rules layout (record { marks = marks; dirty = [] })
        → (x y : ℕ) → holds world x y ≡ true → marks x y ≡ forbidden rules layout x y }
{}

/// Where no area that awaits checking meets a rectangle, the strips of what the rules forbid in it have its marked
/// squares.
pub fn violations_are_marks()
    ensures { (rules : List EdgeRule) (rect : Rect) (layout : Layout) (checking : Checking)
        → length rules ≤ rule_limit → IsRectangleIn world rect → IsChecked rules layout checking
        → All (λ area. meets area rect ≡ false) checking.dirty
        → (x y : ℕ) → squares_in_all (violations_in rules rect layout) x y ≡ (holds rect x y && checking.marks x y) }
{}
